//! The probes of a node's own: the one that runs, what a tick makes of it, and what comes of an answer. Nothing is
//! written here.
#![tactic(auto)]

mod answers;
mod run;
mod ticks;

pub use answers::{declined_for, proof_outcome};
pub use run::{Run, run_of};
pub use ticks::{Probe, Step, late_probe, probe_step};
