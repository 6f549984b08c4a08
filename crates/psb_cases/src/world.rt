//! The world of a case: the disk, what will arrive, what will fail, and the folder.
ghost use Rattle.std.specs.Prelude.{◌≤◌, length, All};
ghost use Rattle.std.proofs.Props.{props};

use crate::absorbing::{Absorbed, absorb_twice, keep_twice};
use crate::stop::Stop;
use crate::words::Outcome;
use psb_bytes::Memory;
use psb_station::{CallKind, MemFolder, MemStation, Planned, StationCall};
use std::alloc::Global;
use std::mem;

/// The most bytes of a datagram.
const LONGEST_DATAGRAM: usize = 65_507;

/// The world of a case between two runs.
#[derive(Drop)]
pub struct World {
    alloc: Global,
    pub image: Vec<u8>,
    pub arrivals: Vec<Vec<u8>>,
    pub clock: Vec<u64>,
    pub faults: Vec<Planned<StationCall>>,
    pub troubles: Vec<Planned<CallKind>>,
    pub folder: MemFolder,
    /// The station of the last run.
    last: Option<MemStation>,
    ghost short: { All (λ a. length a.items ≤ 65507) arrivals.items } by { Prim.hlevel props },
}

impl World {
    /// Where a case begins. Takes no memory.
    pub fn new(alloc: Global) -> World {
        World {
            alloc,
            image: Vec::new(alloc),
            arrivals: Vec::new(alloc),
            clock: Vec::new(alloc),
            faults: Vec::new(alloc),
            troubles: Vec::new(alloc),
            folder: MemFolder::new(alloc, Vec::new(alloc)),
            last: None,
        }
    }

    /// One more datagram will arrive. One that is too long for a datagram is outside of the language.
    pub fn add_frame(&mut self, frame: Vec<u8>) -> Result<(), Stop> {
        if frame.len() > LONGEST_DATAGRAM {
            return Err(Stop::Outside);
        }
        self.arrivals.push(frame)?;
        Ok(())
    }

    /// A file stands at a path, where it may be put there.
    pub fn put_file(&mut self, path: &str, bytes: &[u8]) -> Result<(), Stop> {
        if !self.folder.takes_file(path) {
            return Err(Stop::Outside);
        }
        Ok(self.folder.put_file(path, bytes)?)
    }

    /// A folder stands at a path, where it may be put there.
    pub fn put_folder(&mut self, path: &str) -> Result<(), Stop> {
        if !self.folder.takes_folder(path) {
            return Err(Stop::Outside);
        }
        Ok(self.folder.put_folder(path)?)
    }

    /// A station of the image, the arrivals, the clock and the faults, of which nothing stays.
    fn take_station(&mut self) -> MemStation {
        let image = mem::replace(&mut self.image, Vec::new(self.alloc));
        let arrivals = mem::replace(&mut self.arrivals, Vec::new(self.alloc));
        let clock = mem::replace(&mut self.clock, Vec::new(self.alloc));
        let faults = mem::replace(&mut self.faults, Vec::new(self.alloc));
        let mut station = MemStation::new(self.alloc, image, arrivals, clock, Vec::new(self.alloc));
        station.plan(faults);
        station
    }

    /// A disk of the image alone, on which nothing fails.
    pub fn disk(&self) -> Result<MemStation, Memory> {
        let alloc = self.alloc;
        let image = Vec::from_slice(alloc, &self.image)?;
        let clock = Vec::new(alloc);
        Ok(MemStation::new(alloc, image, Vec::new(alloc), clock, Vec::new(alloc)))
    }

    /// Runs the program with these words, and answers its exit status and the station that it was run over,
    /// which is kept.
    pub fn run(&mut self, words: &[String]) -> Result<(u8, &MemStation), Memory> {
        let mut station = self.take_station();
        let troubles = mem::replace(&mut self.troubles, Vec::new(self.alloc));
        self.folder.plan(troubles);
        let code = backup_cli::run(self.alloc, &mut station, &mut self.folder, words).code();
        self.folder.plan(Vec::new(self.alloc));
        self.image = Vec::from_slice(self.alloc, station.image())?;
        Ok((code, self.last.insert(station)))
    }

    /// Has the image's node absorb a datagram twice, over a station as that of a run, and says what came of
    /// each.
    pub fn absorb(&mut self, frame: &[u8]) -> Result<[Absorbed; 2], Stop> {
        let mut station = self.take_station();
        let absorbed = absorb_twice(self.alloc, &mut station, frame)?;
        self.image = Vec::from_slice(self.alloc, station.image())?;
        Ok(absorbed)
    }

    /// Has the image's node keep a sealed piece twice, with the faults of the next run, and makes the
    /// image what that leaves.
    pub fn keep(&mut self, plain: &[u8]) -> Result<[Absorbed; 2], Stop> {
        let mut station = self.take_station();
        let absorbed = keep_twice(self.alloc, &mut station, plain)?;
        self.image = Vec::from_slice(self.alloc, station.image())?;
        Ok(absorbed)
    }

    /// Makes the image that which a crash at a change of the disk in the last run leaves, and says
    /// whether there was this change.
    pub fn leave(&mut self, change: u64, outcome: Outcome) -> Result<bool, Memory> {
        let Some(station) = &self.last else {
            return Ok(false);
        };
        let Some(call) = station.change_number(change) else {
            return Ok(false);
        };
        if call == 0 || call > station.call_count() {
            return Ok(false);
        }
        self.image = station.left(call, outcome as u8)?;
        Ok(true)
    }
}
