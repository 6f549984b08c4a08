//! The file of a station.
ghost use Rattle.std.specs.Prelude.{◌≡◌, ◌+◌, ◌^◌, ◌<◌, ◌≤◌, length, IfOk, OnOk, OnErr, IsErr, IsTrue};

use crate::standard::is_standard;
use crate::transfer::{read_at, write_at};
use psb_station::LONGEST_DISK;
use std::fs::{File, Files, OpenOptions, Permissions};
use std::io;
use std::io::ErrorKind;
use std::os::fd::AsRawFd;
use std::os::unix::fs::{OpenOptionsExt, PermissionsExt};

/// The file holds keys: its owner alone may read and write it.
const OWNER_ALONE: u32 = 0o600;

/// The file of a node. It is opened at the first use, and made where there is none.
#[derive(Drop)]
pub(crate) struct HostFile {
    path: String,
    file: Option<File>,
    /// Whether a sync failed.
    is_spoilt: bool,
    /// Whether something may stand in it: it was written, or looked at before it was.
    is_begun: bool,
}

/// The file at a path, made for its owner alone where there is none.
fn open_or_make<R: Files<File = File>>(files: &R, path: &str) -> io::Result<File> {
    let mut making = OpenOptions::new();
    making.read(true).write(true).create_new(true);
    making.mode(OWNER_ALONE);
    match making.open(files, path) {
        Err(error) if error.kind() == ErrorKind::AlreadyExists => {
            let mut there = OpenOptions::new();
            there.read(true).write(true);
            there.open(files, path)
        }
        outcome => outcome,
    }
}

/// The folder that a path lies in.
fn folder_of(path: &str) -> &str {
    match path.rsplit_once('/') {
        Some(("", _)) => "/",
        Some((folder, _)) => folder,
        None => ".",
    }
}

/// Syncs a file, and drops the system's copies of its pages, which a failed sync of an earlier program
/// may have left other than the medium has them.
fn settle(file: &File) -> io::Result<()> {
    file.sync_all()?;
    let refused = libc::posix_fadvise(file.as_raw_fd(), 0, 0, libc::POSIX_FADV_DONTNEED);
    if refused != 0 {
        return Err(io::Error::from_raw_os_error(refused));
    }
    Ok(())
}

/// Takes the rights of all but the owner away from a file in which nothing stands yet.
fn keep_for_owner(file: &File) -> io::Result<()> {
    if file.metadata()?.len() == 0 {
        file.set_permissions(Permissions::from_mode(OWNER_ALONE))?;
    }
    Ok(())
}

/// Opens the file at a path for this program alone, as long as it stays open. The folder is synced too,
/// so that a file that was just made is found after a crash. It is never standard input, output or error, to
/// which others write.
fn open_alone<R: Files<File = File>>(files: &R, path: &str) -> io::Result<File> {
    let file = open_or_make(files, path)?;
    if is_standard(&file) {
        return Err(io::Error::from(ErrorKind::Other));
    }
    file.try_lock()?;
    settle(&file)?;
    File::open(files, folder_of(path))?.sync_all()?;
    Ok(file)
}

/// The file, opened where it is not yet.
fn opened<'a, R: Files<File = File>>(
    file: &'a mut Option<File>,
    files: &R,
    path: &str,
) -> io::Result<&'a mut File> {
    if file.is_none() {
        *file = Some(open_alone(files, path)?);
    }
    match file {
        Some(file) => Ok(file),
        None => unreachable!(),
    }
}

/// Syncs what was written and the file's length, and not its times.
fn synced<R: Files<File = File>>(file: &mut Option<File>, files: &R, path: &str) -> io::Result<()> {
    opened(file, files, path)?.sync_data()
}

impl HostFile {
    pub(crate) fn new(path: String) -> HostFile
        ensures { result.path ≡ path }
    {
        HostFile {
            path,
            file: None,
            is_spoilt: false,
            is_begun: false,
        }
    }

    pub(crate) fn len<R: Files<File = File>>(&mut self, files: &R) -> io::Result<u64>
        ensures small { IfOk result (λ len. len ≤ 2 ^ 62) }
        ensures kept { self.new.is_spoilt ≡ self.old.is_spoilt }
    {
        let len = opened(&mut self.file, files, self.path.as_str())?
            .metadata()?
            .len();
        if len > LONGEST_DISK {
            return Err(io::Error::from(ErrorKind::FileTooLarge));
        }
        Ok(len)
    }

    pub(crate) fn read<R: Files<File = File>>(
        &mut self,
        files: &R,
        at: u64,
        into: &mut [u8],
    ) -> io::Result<usize>
        ensures within { IfOk result (λ n. n ≤ length into.new) }
        ensures kept { self.new.is_spoilt ≡ self.old.is_spoilt }
    {
        read_at(opened(&mut self.file, files, self.path.as_str())?, at, into)
    }

    /// Writes all bytes from a place on, and counts those that went down. In front of the first bytes of all it
    /// takes the rights of others away: they are the node's keys.
    pub(crate) fn write<R: Files<File = File>>(
        &mut self,
        files: &R,
        at: u64,
        from: &[u8],
        down: &mut u64,
    ) -> io::Result<()>
        requires { at + length from.now < 2 ^ 64 }
        ensures small { OnOk result (at + length from.now ≤ 2 ^ 62) }
        ensures whole { OnOk result (down.new ≡ length from.now) }
        ensures kept { self.new.is_spoilt ≡ self.old.is_spoilt }
    {
        if at + from.len() as u64 > LONGEST_DISK {
            return Err(io::Error::from(ErrorKind::FileTooLarge));
        }
        let file = opened(&mut self.file, files, self.path.as_str())?;
        if !self.is_begun {
            keep_for_owner(file)?;
            self.is_begun = true;
        }
        write_at(file, at, from, down)
    }

    pub(crate) fn cut<R: Files<File = File>>(&mut self, files: &R, len: u64) -> io::Result<()>
        ensures kept { self.new.is_spoilt ≡ self.old.is_spoilt }
    {
        opened(&mut self.file, files, self.path.as_str())?.set_len(len)
    }

    /// Where it fails, each later one fails and asks the system no more: the system may have dropped what
    /// was written, and then a later success would say nothing of it.
    pub(crate) fn sync<R: Files<File = File>>(&mut self, files: &R) -> io::Result<()>
        ensures later { IsTrue self.old.is_spoilt → IsErr result }
        ensures marked { OnErr result (IsTrue self.new.is_spoilt) }
    {
        if self.is_spoilt {
            return Err(io::Error::from(ErrorKind::Other));
        }
        match synced(&mut self.file, files, self.path.as_str()) {
            Ok(()) => Ok(()),
            Err(error) => {
                self.is_spoilt = true;
                Err(error)
            }
        }
    }
}
