//! The discard that a tick makes of a peer that is due one: the words of its change choose, entry by entry, what the
//! node no longer answers for (Samsara, SOSP 2003).
#![tactic(auto)]

mod due;
mod offers;
mod walk;

pub use due::discard_at;

#[cfg(test)]
mod tests;
