//! Numbers of slots in runs: what is said of each, where the same is said of many in a row.
#![tactic(auto)]

mod part;
mod run;
mod run_tree;
mod slot_records;

pub use part::{Part, part_of};
pub use run::{Run, Said};
pub use run_tree::SlotRuns;
pub use slot_records::SlotRecords;
