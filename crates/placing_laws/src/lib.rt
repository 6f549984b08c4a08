//! What a valid history says of what stands with peers, and here for them.
#![tactic(auto)]

mod laws;

pub use laws::{chunks_stay, placed_chunks_are_own, slots_were_given};
