//! The folders of the machine. Each method makes its calls of the system, and then notes them with their
//! answer.
ghost use Rattle.psb_host.specs.HonestFolder.{IsFirst};

use self::kept::Kept;
use self::names::names_in;
use crate::call::Call;
use crate::file_id::OwnFile;
use crate::record::Record;
use crate::start::StartFolder;
use crate::transfer::{read_once, write_counted};
use psb_station::{Failed, Folder, FolderError, Item};
use std::alloc::Global;
use std::fs;
use std::fs::{File, Files};
use std::marker::PhantomData;

mod kept;
mod names;

/// The folders of the runtime `R`, which held what `S` says. A path is relative to the current folder,
/// or absolute, as it is given. A symbolic link or a special file at a path is not followed: its kind is
/// `Other`, and each call on it fails. So is it with the node's own file, by whatever path it is reached: it
/// grows while a folder is backed up, and is no part of any. Each error of the system is counted, and the call
/// answers `Failed`.
#[derive(Drop)]
pub struct HostFolder<R: Files + Drop, S: StartFolder> {
    alloc: Global,
    host: R,
    /// The node's own file.
    own: OwnFile,
    /// The file that was read last.
    read: Kept<R::File>,
    /// The file that was added to last.
    grown: Kept<R::File>,
    calls: Record,
    start: PhantomData<S>,
}

impl<R: Files + Alloc + Clone + Drop, S: StartFolder> HostFolder<R, S> {
    ghost use Rattle.std.specs.Prelude.{◌≡◌, string_bytes};
    ghost use Rattle.psb_host.specs.OwnPaths.{left_out_of};

    /// The folders of a runtime, for the node whose file is at `disk`. Nothing is opened yet.
    pub fn new(alloc: Global, host: R, disk: String, _start: S) -> HostFolder<R, S>
        ensures first { IsFirst S.StartFolder.tree (⟦<HostFolder<R, S> as Folder>⟧.view result) }
        ensures left_out { left_out_of result ≡ string_bytes disk }
    {
        HostFolder {
            alloc,
            host,
            own: OwnFile::new(disk),
            read: Kept::new(),
            grown: Kept::new(),
            calls: Record::new(),
            start: PhantomData,
        }
    }
}

impl<R: Files + Alloc + Clone + Drop, S: StartFolder> Folder for HostFolder<R, S> {
    ghost use Rattle.psb_host.specs.Noted.{folder_events};
    ghost use Rattle.psb_host.specs.HonestFolder.{folder_meaning, AddsAll};

    ghost view = { λ f. folder_meaning S.StartFolder.tree (folder_events f.calls.events) };

    ghost worked = { λ f g. AddsAll (folder_events g.calls.events) };

    #[tactic(auto, using(crate::proofs::ListTest::listed))]
    fn list(&mut self, path: &str) -> Result<Vec<Item>, FolderError> {
        self.read.close();
        match names_in(&self.host, self.alloc, path, &mut self.own) {
            Ok(items) => {
                self.calls.note(&Call::List {
                    path,
                    items: &items,
                    answer: Ok(()),
                });
                Ok(items)
            }
            Err(error) => {
                self.calls.note(&Call::List {
                    path,
                    items: &[],
                    answer: Err(error),
                });
                Err(error)
            }
        }
    }

    fn read_piece(&mut self, path: &str, at: u64, into: &mut [u8]) -> Result<usize, Failed> {
        let asked = into.len() as u64;
        let outcome = match self
            .read
            .to_read(self.alloc, &self.host, path, &mut self.own)
        {
            Ok(file) => read_once(file, at, into),
            Err(error) => Err(error),
        };
        let Ok(count) = outcome else {
            self.calls.note(&Call::ReadPiece {
                path,
                at,
                asked,
                came: &[],
                answer: Err(Failed),
            });
            return Err(Failed);
        };
        self.calls.note(&Call::ReadPiece {
            path,
            at,
            asked,
            came: &into[..count],
            answer: Ok(()),
        });
        Ok(count)
    }

    fn make_folder(&mut self, path: &str) -> Result<(), Failed> {
        let answer = fs::create_dir(&self.host, path).map_err(|_| Failed);
        self.calls.note(&Call::MakeFolder { path, answer });
        answer
    }

    fn make_file(&mut self, path: &str) -> Result<(), Failed> {
        self.read.close();
        self.grown.close();
        let answer = match File::create_new(&self.host, path) {
            Ok(_) => Ok(()),
            Err(_) => Err(Failed),
        };
        self.calls.note(&Call::MakeFile { path, answer });
        answer
    }

    fn append(&mut self, path: &str, piece: &[u8]) -> Result<(), Failed> {
        let mut down = 0;
        let answer = match self
            .grown
            .to_grow(self.alloc, &self.host, path, &mut self.own)
        {
            Ok(file) => write_counted(file, piece, &mut down).map_err(|_| Failed),
            Err(_) => Err(Failed),
        };
        self.calls.note(&Call::Append {
            path,
            given: piece,
            down,
            answer,
        });
        answer
    }
}

#[cfg(test)]
mod tests;
