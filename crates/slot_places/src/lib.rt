//! Where the bytes of each slot stand: the record of the log that gave them last, for each slot that the node
//! answers for to a peer.
#![tactic(auto)]

mod moved;
mod tables;

pub use moved::SlotsMoved;
pub use tables::SlotTables;
