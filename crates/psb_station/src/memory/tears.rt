//! How a disk in memory fails like a real one: a write after it put down a part of what it was given,
//! and each sync after one that failed.
ghost use Rattle.std.specs.Prelude.{◌≡◌, []};
ghost use Rattle.psb_station.specs.Calls.{raised};
ghost use Rattle.psb_station.specs.Tears.{put_by, part_of, after_fault, settles};

use std::alloc::Global;

/// A write that fails after it put down a part of what it was given.
#[derive(Clone, Copy, Debug, PartialEq, Eq)]
pub struct TornWrite {
    /// Its number among the writes, counted from 1.
    pub number: u64,
    /// How many bytes it puts down: at most all that it was given.
    pub put: u64,
}

/// The writes that are to fail so.
#[derive(Drop)]
pub struct Tears {
    pub torn: Vec<TornWrite>,
    /// How many writes came.
    pub writes: u64,
}

impl Tears {
    /// No write fails so. Takes no memory.
    pub fn new(alloc: Global) -> Tears
        ensures torn { result.torn.items ≡ [] }
        ensures count { result.writes ≡ 0 }
    {
        Tears {
            torn: Vec::new(alloc),
            writes: 0,
        }
    }

    /// Counts a write, and says how many bytes it puts down where it is to fail so.
    pub fn next(&mut self) -> Option<u64>
        ensures count { self.new.writes ≡ raised self.old.writes }
        ensures torn { self.new.torn ≡ self.old.torn }
        ensures put { result ≡ put_by self.old.torn.items self.new.writes }
    {
        self.writes = self.writes.saturating_add(1);
        let number = self.writes;
        self.torn
            .iter()
            .find(|write| write.number == number)
            .map(|write| write.put)
    }
}

/// How many of the bytes that a write was given it puts down: all, where it is not torn.
pub fn part_of(torn: Option<u64>, given: usize) -> usize
    ensures { result ≡ part_of torn given }
{
    match torn {
        None => given,
        Some(put) => put.min(given as u64) as usize,
    }
}

/// Which syncs settle what was written. A sync that answers Ok leaves only what is read, and a disk in
/// memory always tells what is read: so a sync that settles nothing has to fail.
#[derive(Clone, Copy)]
pub enum Syncs {
    /// Each that does not fail by itself.
    Each,
    /// Those before the first that fails.
    UntilOneFails,
    /// None any more.
    NoMore,
}

impl Syncs {
    /// Whether a sync may still settle something.
    pub fn settle(self) -> bool
        ensures { result ≡ settles self }
    {
        match self {
            Syncs::Each | Syncs::UntilOneFails => true,
            Syncs::NoMore => false,
        }
    }

    /// Which settle once one failed.
    pub fn after_fault(self) -> Syncs
        ensures { result ≡ after_fault self }
    {
        match self {
            Syncs::Each => Syncs::Each,
            Syncs::UntilOneFails | Syncs::NoMore => Syncs::NoMore,
        }
    }
}
