//! Convergent sealing: pieces that are sealed with keys made of their own hashes.
#![tactic(auto)]

mod laws;
mod opening;
mod sealing;

pub use laws::{equals_seal_alike, opens_or_clashes, sealed_opens};
pub use opening::{OpenError, open};
pub use sealing::{Sealed, seal};

#[cfg(test)]
mod tests;
