//! Skeletons: the text that tells a tree of folders and files and the refs of each file's chunks,
//! and the text of a list of refs. Each value has one text, and the readers name the first fault of
//! any other bytes.
#![tactic(auto)]

mod entry;
mod faults;
mod laws;
mod limits;
mod paths;
mod reader;
mod reading;
mod tree;
mod writing;

pub use entry::{Entry, EntryKind};
pub use faults::{PushError, SkelError, SkelFault, WriteError};
pub use laws::{one_skeleton, one_text, read_is_spelled, spelled_is_read};
pub use limits::{
    FILE_KIND, FOLDER_KIND, MARK_BYTES, MOST_CHUNK_BYTES, MOST_PATH_BYTES, MOST_TEXT_BYTES,
    REFS_MARK, SKELETON_MARK,
};
pub use reading::{read_refs, read_skeleton};
pub use tree::Skeleton;
pub use writing::{write_refs, write_skeleton};

#[cfg(test)]
mod tests;
