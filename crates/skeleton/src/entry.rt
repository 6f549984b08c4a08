ghost use Rattle.std.specs.Prelude.{◌≡◌};

use crate::limits::{FILE_KIND, FOLDER_KIND};
use psb_bytes::{RefList, Text};

/// What an entry of a skeleton is.
#[derive(Clone, Copy, PartialEq, Eq, Debug)]
pub enum EntryKind {
    Folder,
    File,
}

impl EntryKind {
    ghost use Rattle.skeleton.specs.Entries.{is_folder};
    ghost use Rattle.skeleton.specs.Texts.{kind_byte};

    pub fn is_folder(self) -> bool
        ensures { result ≡ is_folder self }
    {
        matches!(self, EntryKind::Folder)
    }

    /// The byte that stands for it.
    pub fn byte(self) -> u8
        ensures { result ≡ kind_byte self }
    {
        match self {
            EntryKind::Folder => FOLDER_KIND,
            EntryKind::File => FILE_KIND,
        }
    }
}

/// A folder or a file of a tree.
#[derive(Drop)]
pub struct Entry {
    /// Relative to the tree's root: parts joined by `/`.
    pub path: Text,
    pub kind: EntryKind,
    /// The bytes of a file, and 0 for a folder.
    pub size: u64,
    /// What opens each chunk of a file, in order.
    pub refs: RefList,
}
