ghost use Rattle.std.specs.Prelude.{◌≡◌, ◌≤◌, ◌+◌, ◌<◌, length, [], IfOk, IfSome, All, Some, slice_get};
ghost use Rattle.std.proofs.Props.{props};
ghost use Rattle.std.specs.Coded.{le_prop};
ghost use Rattle.psb_station.specs.Past.{past_of, ToldBy, ToldBy-prop};
ghost use Rattle.psb_station.specs.Answers.{TicksBy, TicksBy-prop};

use crate::answer::{Answer, Answered};
use crate::count::{fault, write_fault};
use crate::crash::{Outcome, left};
use crate::mem_disk::MemDisk;
use crate::pieces::Pieces;
use crate::plan::Planned;
use crate::{Disk, Failed, LONGEST_DISK, Station};
use calls::{Plan, is_due};
use link::{keep, time_at};
use psb_bytes::Memory;
use std::alloc::Global;
use tears::{Syncs, Tears, part_of};

mod calls;
mod link;
mod tears;

pub use calls::StationCall;
pub use tears::TornWrite;

/// A station in memory. It keeps what was done, and fails at the calls of the given numbers, counted
/// from 1 over all its methods, and at those that were planned by their kind. A call whose own growth
/// is refused fails too. A write that fails puts down nothing, but where `tear` was told otherwise.
#[derive(Drop)]
pub struct MemStation {
    disk: MemDisk,
    told: u64,
    arrivals: Vec<Vec<u8>>,
    /// The place of the next arrival.
    next: usize,
    clock: Vec<u64>,
    /// How many calls of `now` were made.
    ticks: u64,
    faults: Vec<u64>,
    /// How many calls were made.
    calls: u64,
    plan: Plan,
    tears: Tears,
    syncs: Syncs,
    heard: Vec<Answered>,
    /// Whether each answer could be kept.
    whole: bool,
    sent: Pieces<u32>,
    said: Vec<u8>,
    joined: Pieces<u32>,
    disk_faults: u64,
    write_faults: u64,
    link_faults: u64,
    send_faults: u64,
    say_faults: u64,
    ghost ordered: { ToldBy told (past_of disk.written.items disk.past.items) } by { ToldBy-prop told (past_of disk.written.items disk.past.items) },
    ghost timed: { TicksBy ticks heard.items } by { TicksBy-prop ticks heard.items },
    ghost counted: { ticks ≤ calls } by { le_prop },
    ghost short: { All (λ a. length a.items ≤ 65507) arrivals.items } by { Prim.hlevel props },
}

impl MemStation {
    ghost use Rattle.psb_station.specs.Memory.{view_of, IsFresh, IsGiven, Plans, planned_of, Same_tears, Same_syncs, Tears_writes, Settles_until_a_fault, change_of, calls_made, began_with, changes_of, left_image, may_leave_at};

    /// A station whose disk reads `image`, whose link has these arrivals, each of at most 65,507 bytes,
    /// and whose clock gives these numbers, the last one again at the end, and 0 where there is none.
    /// Takes no memory.
    pub fn new(
        alloc: Global,
        image: Vec<u8>,
        arrivals: Vec<Vec<u8>>,
        clock: Vec<u64>,
        faults: Vec<u64>,
    ) -> MemStation
        requires { All (λ a. length a.items ≤ 65507) arrivals.items }
        ensures fresh { IsFresh image.items (view_of result) }
        ensures given { IsGiven arrivals.items clock.items faults.items result }
        ensures began { began_with result ≡ image.items }
        ensures no_change { changes_of result ≡ [] }
    {
        MemStation {
            disk: MemDisk::new(alloc, image),
            told: 0,
            arrivals,
            next: 0,
            clock,
            ticks: 0,
            faults,
            calls: 0,
            plan: Plan::new(alloc),
            tears: Tears::new(alloc),
            syncs: Syncs::Each,
            heard: Vec::new(alloc),
            whole: true,
            sent: Pieces::new(alloc),
            said: Vec::new(alloc),
            joined: Pieces::new(alloc),
            disk_faults: 0,
            write_faults: 0,
            link_faults: 0,
            send_faults: 0,
            say_faults: 0,
        }
    }

    /// Has the calls of these kinds and numbers fail, counted from here, and no other that was planned
    /// by its kind.
    pub fn plan(&mut self, faults: Vec<Planned<StationCall>>)
        ensures plans { Plans faults.items self.old self.new }
        ensures tears { Same_tears self.old self.new }
        ensures syncs { Same_syncs self.old self.new }
    {
        self.plan.faults = faults;
    }

    /// Has the writes of these numbers, counted from here, fail after they put down a part of what they
    /// were given, and no other that was given here before. The part is read then, and is unsynced. A
    /// write that fails for another reason puts down nothing.
    pub fn tear(&mut self, writes: Vec<TornWrite>)
        ensures plans { Plans (planned_of self.old) self.old self.new }
        ensures syncs { Same_syncs self.old self.new }
        ensures torn { Tears_writes writes.items self.new }
    {
        self.tears = Tears {
            torn: writes,
            writes: 0,
        };
    }

    /// Has each sync after the next one that fails fail too, and settle nothing, as on a disk that
    /// forgot what it could not put down.
    pub fn settle_until_a_fault(&mut self)
        ensures plans { Plans (planned_of self.old) self.old self.new }
        ensures tears { Same_tears self.old self.new }
        ensures settled { Settles_until_a_fault self.new }
    {
        self.syncs = Syncs::UntilOneFails;
    }

    /// The number among all calls of a `write_at`, a `cut` or a `sync`, counted from 1 among these three,
    /// where there were so many.
    pub fn change_number(&self, change: u64) -> Option<u64>
        ensures { result ≡ change_of self.now change }
    {
        if change == 0 {
            return None;
        }
        self.plan.changes.get((change - 1) as usize).copied()
    }

    /// What the disk reads.
    pub fn image(&self) -> &[u8]
        ensures { (view_of self.now).bytes ≡ Some result.now }
    {
        &self.disk.bytes
    }

    /// All bytes that were said.
    pub fn said_bytes(&self) -> &[u8]
        ensures { (view_of self.now).outside.said ≡ Some result.now }
    {
        &self.said
    }

    /// How many frames were sent.
    pub fn sent_count(&self) -> usize
        ensures { IfSome (view_of self.now).outside.sent (λ sent. result ≡ length sent) }
    {
        self.sent.len()
    }

    /// How many calls were made, of all its methods.
    pub fn call_count(&self) -> u64
        ensures { result ≡ calls_made self.now }
    {
        self.calls
    }

    /// An image that a crash may leave at a call, counted from 1 as in the list of those that fail. A
    /// change by that call, or what it put down before it failed, is unsynced then, and a sync by it
    /// has not happened. Outcome 0 leaves nothing that is unsynced, 1 leaves all of it, 2 fills each
    /// range that is unsynced with the byte 0xff.
    pub fn left(&self, call: u64, outcome: u8) -> Result<Vec<u8>, Memory>
        requires made { (1 ≤ call) × (call ≤ calls_made self.now) }
        requires outcome { outcome ≤ 2 }
        ensures image { IfOk result (λ image. image.items ≡ left_image self.now call outcome) }
        ensures allowed { IfOk result (λ image. may_leave_at self.now call image.items) }
    {
        let outcome = match outcome {
            0 => Outcome::Nothing,
            1 => Outcome::All,
            _ => Outcome::Filled,
        };
        Ok(left(&self.disk, call, outcome)?)
    }

    /// To whom a frame was sent.
    pub fn sent_to(&self, j: usize) -> u32
        requires { IfSome (view_of self.now).outside.sent (λ sent. j < length sent) }
        ensures { IfSome (view_of self.now).outside.sent (λ sent. IfSome (slice_get sent j) (λ s. result ≡ s.0)) }
    {
        self.sent.label(j)
    }

    /// A frame that was sent.
    pub fn sent_frame(&self, j: usize) -> &[u8]
        requires { IfSome (view_of self.now).outside.sent (λ sent. j < length sent) }
        ensures { IfSome (view_of self.now).outside.sent (λ sent. IfSome (slice_get sent j) (λ s. result.now ≡ s.1)) }
    {
        self.sent.content(j)
    }

    /// How many nodes the link was told of.
    pub fn joined_count(&self) -> usize
        ensures { IfSome (view_of self.now).outside.joined (λ joined. result ≡ length joined) }
    {
        self.joined.len()
    }

    /// A node that the link was told of, and its address.
    pub fn joined_node(&self, j: usize) -> (u32, &[u8])
        requires { IfSome (view_of self.now).outside.joined (λ joined. j < length joined) }
        ensures { IfSome (view_of self.now).outside.joined (λ joined. IfSome (slice_get joined j) (λ node. (result.0 ≡ node.0) × (result.1.now ≡ node.1))) }
    {
        (self.joined.label(j), self.joined.content(j))
    }
}

impl Disk for MemStation {
    ghost use Rattle.psb_station.specs.Memory.{view_of, ahead_of, Fails, Works, Changed};
    ghost use Rattle.psb_station.specs.MemDisk.{start, past_in};
    ghost use Rattle.psb_station.specs.Past.{leaves};
    ghost use Rattle.psb_station.specs.Replay.{now_counts, now_only, seen_left};
    ghost use Rattle.std.specs.Prelude.{◌+◌, length};
    ghost use Rattle.std.proofs.Common.{arith, subst, sym, refl};

    ghost view = { view_of };

    ghost ahead = { ahead_of };

    ghost failed = { Fails };

    ghost worked = { Works };

    ghost changed = { Changed };

    ghost counts_now = { λ m t c le left. now_counts (λ c. c ≡ start m.disk) (start m.disk) 0 0 (past_in m.disk) m.told t c m.ordered (Prim.omega arith) (Prim.omega arith) left };

    ghost only_now = { λ m c k left. now_only (λ c. c ≡ start m.disk) (start m.disk) 0 0 (past_in m.disk) m.told (length (past_in m.disk) + m.told) c k m.ordered (Prim.omega arith) left };

    ghost reads_image = { λ m. subst (leaves (λ c. c ≡ start m.disk) (start m.disk) (past_in m.disk)) (sym m.disk.same) (seen_left (λ c. c ≡ start m.disk) (start m.disk) (past_in m.disk) m.disk.in_bytes refl) };

    fn len(&mut self) -> Result<u64, Failed> {
        let len = self.disk.bytes.len() as u64;
        if is_due(
            &self.faults,
            &mut self.calls,
            &mut self.plan,
            StationCall::Len,
        ) || len > LONGEST_DISK
        {
            return Err(fault(&mut self.disk_faults));
        }
        Ok(len)
    }

    fn read(&mut self, at: u64, into: &mut [u8]) -> Result<usize, Failed> {
        if is_due(
            &self.faults,
            &mut self.calls,
            &mut self.plan,
            StationCall::Read,
        ) {
            return Err(fault(&mut self.disk_faults));
        }
        let len = self.disk.bytes.len();
        if at >= len as u64 {
            return Ok(0);
        }
        let begin = at as usize;
        let count = into.len().min(len - begin);
        into[..count].copy_from_slice(&self.disk.bytes[begin..begin + count]);
        Ok(count)
    }

    fn write_at(&mut self, at: u64, from: &[u8]) -> Result<(), Failed> {
        let torn = self.tears.next();
        if is_due(
            &self.faults,
            &mut self.calls,
            &mut self.plan,
            StationCall::Write,
        ) || at + from.len() as u64 > LONGEST_DISK
        {
            return Err(write_fault(&mut self.disk_faults, &mut self.write_faults));
        }
        let part = part_of(torn, from.len());
        match self.disk.write(self.calls, self.told, at, &from[..part]) {
            Ok(()) => match torn {
                None => Ok(()),
                Some(_) => Err(write_fault(&mut self.disk_faults, &mut self.write_faults)),
            },
            Err(_) => Err(write_fault(&mut self.disk_faults, &mut self.write_faults)),
        }
    }

    fn cut(&mut self, len: u64) -> Result<(), Failed> {
        if is_due(
            &self.faults,
            &mut self.calls,
            &mut self.plan,
            StationCall::Cut,
        ) {
            return Err(write_fault(&mut self.disk_faults, &mut self.write_faults));
        }
        match self.disk.cut(self.calls, self.told, len) {
            Ok(()) => Ok(()),
            Err(_) => Err(write_fault(&mut self.disk_faults, &mut self.write_faults)),
        }
    }

    fn sync(&mut self) -> Result<(), Failed> {
        let settle = self.syncs.settle();
        if is_due(
            &self.faults,
            &mut self.calls,
            &mut self.plan,
            StationCall::Sync,
        ) || !settle
        {
            self.syncs = self.syncs.after_fault();
            return Err(write_fault(&mut self.disk_faults, &mut self.write_faults));
        }
        match self.disk.sync(self.calls, self.told) {
            Ok(()) => Ok(()),
            Err(_) => {
                self.syncs = self.syncs.after_fault();
                Err(write_fault(&mut self.disk_faults, &mut self.write_faults))
            }
        }
    }
}

impl Station for MemStation {
    ghost use Rattle.psb_station.specs.Memory.{Ticks};

    ghost gave_time = { Ticks };

    fn join(&mut self, id: u32, address: &str) -> Result<(), Failed> {
        if is_due(
            &self.faults,
            &mut self.calls,
            &mut self.plan,
            StationCall::Join,
        ) {
            let _ = keep(&mut self.heard, &mut self.whole, self.ticks, Answer::Fault);
            return Err(fault(&mut self.link_faults));
        }
        if let Err(_) = self.joined.make_room(address.len()) {
            let _ = keep(&mut self.heard, &mut self.whole, self.ticks, Answer::Fault);
            return Err(fault(&mut self.link_faults));
        }
        if let Err(_) = keep(&mut self.heard, &mut self.whole, self.ticks, Answer::Joined) {
            return Err(fault(&mut self.link_faults));
        }
        self.joined.push(id, address.as_bytes());
        Ok(())
    }

    fn recv(&mut self, into: &mut [u8]) -> Result<Option<usize>, Failed> {
        if is_due(
            &self.faults,
            &mut self.calls,
            &mut self.plan,
            StationCall::Recv,
        ) {
            let _ = keep(&mut self.heard, &mut self.whole, self.ticks, Answer::Fault);
            return Err(fault(&mut self.link_faults));
        }
        if self.next >= self.arrivals.len() {
            if let Err(_) = keep(
                &mut self.heard,
                &mut self.whole,
                self.ticks,
                Answer::Nothing,
            ) {
                return Err(fault(&mut self.link_faults));
            }
            return Ok(None);
        }
        if let Err(_) = keep(
            &mut self.heard,
            &mut self.whole,
            self.ticks,
            Answer::Frame(self.next),
        ) {
            return Err(fault(&mut self.link_faults));
        }
        let frame = &self.arrivals[self.next];
        let count = frame.len();
        into[..count].copy_from_slice(frame);
        self.next += 1;
        Ok(Some(count))
    }

    fn send(&mut self, to: u32, frame: &[u8]) -> Result<(), Failed> {
        self.told = self.told.saturating_add(1);
        if is_due(
            &self.faults,
            &mut self.calls,
            &mut self.plan,
            StationCall::Send,
        ) {
            return Err(fault(&mut self.send_faults));
        }
        if let Err(_) = self.sent.make_room(frame.len()) {
            return Err(fault(&mut self.send_faults));
        }
        self.sent.push(to, frame);
        Ok(())
    }

    fn say(&mut self, text: &[u8]) -> Result<(), Failed> {
        self.told = self.told.saturating_add(1);
        if is_due(
            &self.faults,
            &mut self.calls,
            &mut self.plan,
            StationCall::Say,
        ) {
            return Err(fault(&mut self.say_faults));
        }
        if let Err(_) = self.said.extend_from_slice(text) {
            return Err(fault(&mut self.say_faults));
        }
        Ok(())
    }

    fn now(&mut self) -> u64 {
        self.calls = self.calls.saturating_add(1);
        let time = time_at(&self.clock, self.ticks);
        match self.ticks.checked_add(1) {
            Some(ticks) => self.ticks = ticks,
            None => self.whole = false,
        }
        time
    }
}

#[cfg(test)]
mod tests;
