//! Samples of names: the least by their hashes under a salt (Pastiche, OSDI 2002: abstracts), and how many of
//! them a peer says that it holds.
#![tactic(auto)]

mod bits;
mod laws;
mod least;

pub use bits::coverage;
pub use laws::abstracts_are_the_least;
pub use least::abstract_of;

#[cfg(test)]
mod tests;
