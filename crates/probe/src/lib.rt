//! Probes: a chained hash that only who holds all the objects can give, and when an answer is late
//! (Samsara, SOSP 2003). No call takes memory.
#![tactic(auto)]

mod chain;
mod laws;
mod run;

pub use chain::Chain;
pub use laws::chains_go_on;
pub use run::{DEADLINE, ProbeRun, late};

#[cfg(test)]
mod tests;
