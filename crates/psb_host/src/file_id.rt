//! Which file it is, by whatever path it is reached.
ghost use Rattle.std.specs.Prelude.{◌≡◌};

use std::fs::{Files, Metadata, metadata};
use std::io;
use std::io::ErrorKind;
use std::os::unix::fs::MetadataExt;

/// A file of the machine: its device, and its inode there.
#[derive(Clone, Copy, PartialEq, Eq)]
pub(crate) struct FileId {
    device: u64,
    inode: u64,
}

impl FileId {
    /// That of what was looked at.
    pub(crate) fn of(seen: &Metadata) -> FileId {
        FileId {
            device: seen.dev(),
            inode: seen.ino(),
        }
    }
}

/// The file at a path. It is the same for good once it was found, wherever it is moved.
#[derive(Drop)]
pub(crate) struct OwnFile {
    path: String,
    id: Option<FileId>,
}

impl OwnFile {
    pub(crate) fn new(path: String) -> OwnFile
        ensures { result.path ≡ path }
    {
        OwnFile { path, id: None }
    }

    /// None where no file stands there yet.
    pub(crate) fn id<R: Files>(&mut self, files: &R) -> io::Result<Option<FileId>> {
        if self.id.is_none() {
            self.id = match metadata(files, self.path.as_str()) {
                Ok(seen) => Some(FileId::of(&seen)),
                Err(error) if error.kind() == ErrorKind::NotFound => None,
                Err(error) => return Err(error),
            };
        }
        Ok(self.id)
    }
}
