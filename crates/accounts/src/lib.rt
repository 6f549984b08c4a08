//! The accounts of all peers: what a change of one of them does to the states of entries in others, and which
//! entries a discard takes.
#![tactic(auto)]

mod discards;
mod freeing;
mod table;

pub use discards::are_taken;
pub use freeing::{
    free, free_one, free_slots, reserve_outs, room_for_objects, room_for_slots, set_states,
};
pub use table::{
    account_of, are_peers, first_accounts, holds, is_peer, place_in, place_of, ties_in,
};
