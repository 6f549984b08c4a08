//! Texts cut into chunks where their content says so, so that an edit moves only the cuts near it
//! (as in Pastiche, OSDI 2002).
#![tactic(auto)]

mod anchors;
mod cutter;
mod fingerprints;
mod laws;
mod spans;

pub use cutter::{Cutter, Run};
pub use laws::{
    cuts_are_least, cuts_behind, cuts_stand, nothing_to_cut, parts_cut, pushes_run, runs_cut,
    span_sizes, spans_cover,
};
pub use spans::{Span, cut_all};

#[cfg(test)]
mod tests;
