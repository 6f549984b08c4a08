//! The station of the machine. Each method makes its calls of the system, and then notes them with their
//! answer.
ghost use Rattle.psb_host.specs.HonestStation.{IsBegun};

use self::file::HostFile;
use self::link::HostLink;
use crate::call::Call;
use crate::record::Record;
use crate::start::Start;
use crate::transfer::put_out;
use psb_station::{Disk, Failed, Station};
use std::alloc::Global;
use std::fs::{File, Files};
use std::io;
use std::marker::PhantomData;
use std::net::Net;
use std::time::{Clock, SystemTime, UNIX_EPOCH};

mod file;
mod link;

/// One file, one UDP socket, standard output and the clock, all of the runtime `R`. The file held what
/// `S` says.
#[derive(Drop)]
pub struct HostStation<R: Drop, S: Start> {
    host: R,
    file: HostFile,
    link: HostLink,
    calls: Record,
    start: PhantomData<S>,
}

impl<R: Files<File = File> + Drop, S: Start> HostStation<R, S> {
    ghost use Rattle.std.specs.Prelude.{◌≡◌, string_bytes};
    ghost use Rattle.psb_host.specs.OwnPaths.{disk_of};

    /// A station over the file at a path. The file is opened, and made where there is none, at the
    /// first call of the disk; the socket is bound at the first `join`.
    #[tactic(auto, using(crate::proofs::Syncs::begins))]
    pub fn new(alloc: Global, host: R, path: String, _start: S) -> HostStation<R, S>
        ensures begun { IsBegun S.Start.first S.Start.left (⟦<HostStation<R, S> as Disk>⟧.view result) }
        ensures disk { disk_of result ≡ string_bytes path }
    {
        HostStation {
            host,
            file: HostFile::new(path),
            link: HostLink::new(alloc),
            calls: Record::new(),
            start: PhantomData,
        }
    }
}

impl<R: Files<File = File> + Drop, S: Start> Disk for HostStation<R, S> {
    ghost use Rattle.psb_host.specs.Noted.{station_events};
    ghost use Rattle.psb_host.specs.HonestStation.{meaning, PutsAll};
    ghost use Rattle.psb_host.specs.StationLaws.{counts_last, only_last, reads_one};

    ghost view = { λ s. meaning S.Start.first S.Start.left (station_events s.calls.events) };

    ghost worked = { λ kind s t. PutsAll (station_events t.calls.events) };

    ghost counts_now = { λ s t c le left. counts_last S.Start.first S.Start.left (station_events s.calls.events) t c le left };

    ghost only_now = { λ s c k since. only_last S.Start.first S.Start.left (station_events s.calls.events) c k since };

    ghost reads_image = { λ s. reads_one S.Start.first S.Start.left S.Start.reads (station_events s.calls.events) };

    fn len(&mut self) -> Result<u64, Failed> {
        let answer = self.file.len(&self.host).map_err(|_| Failed);
        self.calls.note(&Call::Len(answer));
        answer
    }

    fn read(&mut self, at: u64, into: &mut [u8]) -> Result<usize, Failed> {
        let asked = into.len() as u64;
        let Ok(count) = self.file.read(&self.host, at, into) else {
            self.calls.note(&Call::Read {
                at,
                asked,
                came: &[],
                answer: Err(Failed),
            });
            return Err(Failed);
        };
        self.calls.note(&Call::Read {
            at,
            asked,
            came: &into[..count],
            answer: Ok(()),
        });
        Ok(count)
    }

    fn write_at(&mut self, at: u64, from: &[u8]) -> Result<(), Failed> {
        let mut down = 0;
        let answer = self
            .file
            .write(&self.host, at, from, &mut down)
            .map_err(|_| Failed);
        self.calls.note(&Call::Write {
            at,
            given: from,
            down,
            answer,
        });
        answer
    }

    fn cut(&mut self, len: u64) -> Result<(), Failed> {
        let answer = self.file.cut(&self.host, len).map_err(|_| Failed);
        self.calls.note(&Call::Cut { len, answer });
        answer
    }

    #[tactic(auto, using(crate::proofs::Syncs::synced_writes))]
    fn sync(&mut self) -> Result<(), Failed> {
        let answer = self.file.sync(&self.host).map_err(|_| Failed);
        self.calls.note(&Call::Sync(answer));
        answer
    }
}

/// Whole seconds since 1970; 0 before it, and where the clock can't be read.
fn seconds<C: Clock>(clock: &C) -> u64 {
    match SystemTime::now(clock) {
        Ok(now) => match now.duration_since(UNIX_EPOCH) {
            Ok(since) => since.as_secs(),
            Err(_) => 0,
        },
        Err(_) => 0,
    }
}

impl<R: Files<File = File> + Net + Print + Clock + Drop, S: Start> Station for HostStation<R, S> {
    fn join(&mut self, id: u32, address: &str) -> Result<(), Failed> {
        let answer = self.link.join(&self.host, id, address).map_err(|_| Failed);
        self.calls.note(&Call::Join {
            id,
            address,
            answer,
        });
        answer
    }

    fn recv(&mut self, into: &mut [u8]) -> Result<Option<usize>, Failed> {
        match self.link.recv(into) {
            Ok(Some(count)) => {
                self.calls.note(&Call::Recv(Ok(Some(&into[..count]))));
                Ok(Some(count))
            }
            Ok(None) => {
                self.calls.note(&Call::Recv(Ok(None)));
                Ok(None)
            }
            Err(_) => {
                self.calls.note(&Call::Recv(Err(Failed)));
                Err(Failed)
            }
        }
    }

    fn send(&mut self, to: u32, frame: &[u8]) -> Result<(), Failed> {
        let answer = self.link.send(to, frame).map_err(|_| Failed);
        self.calls.note(&Call::Send { to, frame, answer });
        answer
    }

    fn say(&mut self, text: &[u8]) -> Result<(), Failed> {
        let answer = put_out(&mut io::writer(&self.host), text).map_err(|_| Failed);
        self.calls.note(&Call::Say { text, answer });
        answer
    }

    fn now(&mut self) -> u64 {
        let time = seconds(&self.host);
        self.calls.note(&Call::Now(time));
        time
    }
}

#[cfg(test)]
mod tests;
