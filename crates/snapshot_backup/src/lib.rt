//! The backup of a folder: a snapshot of it on the node's own disk.
#![tactic(auto)]

mod backing_up;
mod fault;
mod file;
mod levels;
mod naming;
mod note;
mod piece;
mod places;
mod text;

pub use backing_up::backup;
pub use fault::BackupFault;
