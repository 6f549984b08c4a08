//! The restore of a snapshot: its tree is read by its ticket, and written below an empty folder.
#![tactic(auto)]

mod fault;
mod fetching;
mod laws;
mod restoring;
mod texts;
mod tree;
mod waiting;

pub use fault::RestoreFault;
pub use laws::places_are_few;
pub use restoring::{Restored, restore};
