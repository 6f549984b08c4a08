//! The lines that the program says, and how a run of it ends.
#![tactic(auto)]

mod lines;
mod saying;
mod short_line;
mod status;

pub use saying::{
    SayError, refuse, say_forgot, say_ledger, say_lines, say_node, say_restored, say_snapshot,
    say_snapshots,
};
pub use status::Status;
