//! A node's claims: their numbers are issued in turn, their bytes are made from the seed, and a
//! body that comes back is found among them.
#![tactic(auto)]

mod chain;
mod fingerprints;
mod growth;
mod run;
mod source;
mod walk;

pub use run::ClaimRun;
pub use source::{ClaimSource, IssueError};

#[cfg(test)]
mod tests;
