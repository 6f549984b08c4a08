//! The choice of buddies: those that hold most of a sample first (Pastiche, OSDI 2002).
#![tactic(auto)]

mod candidates;
mod choosing;
mod order;

pub use candidates::{distinct_peers, have_samples};
pub use choosing::{Chosen, select};
pub use order::comes_before;
pub use psb_model::{Candidate, CandidateList};

#[cfg(test)]
mod tests;
