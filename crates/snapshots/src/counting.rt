//! The counts of a tree by its skeleton.
ghost use Rattle.std.specs.Prelude.{◌≡◌, ◌≤◌, ◌+◌, ◌<◌, ◌^◌, length, sum_by};
ghost use Rattle.skeleton.specs.declared.limits.TheConstants.{MOST_TEXT_BYTES};
ghost use Rattle.skeleton.specs.Texts.{skeleton_text};
ghost use Rattle.snapshots.specs.Counts.{one_file, one_folder, its_bytes};

use skeleton::{Entry, EntryKind, Skeleton};

/// The counts of a tree: its files, its folders and the bytes of its files.
#[derive(Clone, Copy, Debug, PartialEq, Eq)]
pub struct Counts {
    pub files: u32,
    pub folders: u32,
    pub bytes: u64,
}

impl Counts {
    /// Adds what an entry stands for.
    fn add(&mut self, entry: &Entry)
        requires files { self.old.files + one_file entry.now < 2 ^ 32 }
        requires folders { self.old.folders + one_folder entry.now < 2 ^ 32 }
        requires bytes { self.old.bytes + its_bytes entry.now < 2 ^ 64 }
        ensures files { self.new.files ≡ self.old.files + one_file entry.now }
        ensures folders { self.new.folders ≡ self.old.folders + one_folder entry.now }
        ensures bytes { self.new.bytes ≡ self.old.bytes + its_bytes entry.now }
    {
        match entry.kind {
            EntryKind::Folder => self.folders += 1,
            EntryKind::File => {
                self.files += 1;
                self.bytes += entry.size;
            }
        }
    }
}

/// The counts of a skeleton's tree. Where its text is not too long for a reader, none of them wraps.
pub fn count(skeleton: &Skeleton) -> Counts
    requires short { length (skeleton_text skeleton.now) ≤ MOST_TEXT_BYTES }
    ensures files { result.files ≡ sum_by one_file skeleton.now }
    ensures folders { result.folders ≡ sum_by one_folder skeleton.now }
    ensures bytes { result.bytes ≡ sum_by its_bytes skeleton.now }
{
    let mut counts = Counts {
        files: 0,
        folders: 0,
        bytes: 0,
    };
    for entry in skeleton.entries() {
        counts.add(entry);
    }
    counts
}
