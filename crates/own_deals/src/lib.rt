//! The node's own deals with a peer: the one that has no reply yet, and what the peer turned down.
#![tactic(auto)]

mod barred;
mod own_deals;

pub use own_deals::{OwnDeals, Room, room_of};
