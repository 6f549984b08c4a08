//! What a node keeps of each of its peers until it is opened again: clocks, waits, what a peer told of the names that
//! it was asked for, and when the probe of it began that runs.
#![tactic(auto)]

mod candidates;
mod peer_state;

pub use candidates::candidates_of;
pub use peer_state::{
    Note, PeerState, note_change, note_probe, peer_of, state_of, states_of, still_asked, take_note,
};
