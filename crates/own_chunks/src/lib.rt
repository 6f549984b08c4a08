//! The node's own chunks, and the snapshots that list them.
#![tactic(auto)]

mod own;
mod snapshots;

pub use own::Own;
pub use snapshots::{allows_snapshot, has_number, kept_of, names_ascend};
