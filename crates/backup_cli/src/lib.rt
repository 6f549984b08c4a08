//! The program `psb`: its words, what it does and says, and the status that it ends with.
#![tactic(auto)]

mod backing_up;
mod beginning;
mod files;
mod forgetting;
mod listing;
mod number;
mod opening;
mod program;
mod restoring;
mod serving;
mod words;

pub use number::read_number;
pub use program::run;
pub use restoring::{backups_come_back, bodies_supply};
pub use said_lines::Status;
pub use words::{Which, read_path, words_fix_the_command};
