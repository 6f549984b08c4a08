//! Which slot at a peer carries the bytes of a slot that is held for another, one to one (Samsara,
//! SOSP 2003: a claim is forwarded in the place of an own one).
//!
//! Both ways stand in an ordered tree in memory, so that the steps of a call grow with the logarithm
//! of the number of links. A tree takes memory where it grows. So `forward` keeps its link beside the
//! trees, and the next `make_room` puts it in.
#![tactic(auto)]

mod latest;
mod laws;
mod links;
mod seat_map;

pub use laws::links_are_one_to_one;
pub use links::Links;
pub use psb_bytes::{Memory, PeerId, Seat};

#[cfg(test)]
mod tests;
