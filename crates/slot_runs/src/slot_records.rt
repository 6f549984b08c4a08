//! Which record of the log gave each slot its bytes.

ghost use Rattle.std.specs.Prelude.{◌≡◌, ◌≤◌, ◌+◌, ◌*◌, ℕ, length, None, Some, if◌then◌else◌, OnOk};
ghost use Rattle.psb_bytes.specs.declared.ids.Object.TheVariants.{Slot};
ghost use Rattle.psb_model.specs.Words.{listed, slots};
ghost use Rattle.slot_runs.specs.Records.{record_at};

use crate::run_tree::SlotRuns;
use psb_bytes::Memory;
use std::alloc::Global;
use std::marker::Model;

/// The record of the log, by the number of its change, that gave a slot its 512 bytes. Slots with
/// consecutive numbers of one record are kept as one run. Contracts see the record of each slot
/// (`record_at`), and how many more runs have room.
///
/// A call takes steps that grow with the logarithm of the runs for each slot, and one more for each run
/// that came since room was made.
#[derive(Drop)]
pub struct SlotRecords {
    records: SlotRuns<u64>,
}

impl Model for SlotRecords {
    ghost use Rattle.slot_runs.specs.SlotRuns.{runs, runs_room, IsKept};
    ghost use Rattle.slot_runs.specs.Records.{RecordsView};

    ghost Value = { RecordsView };

    ghost view = { λ r. record { runs = runs r.records; room = runs_room r.records } };

    ghost invariant = { λ r. IsKept r.records };
}

impl SlotRecords {
    /// Takes no memory.
    pub fn new(alloc: Global) -> SlotRecords
        ensures { (n : ℕ) → record_at result n ≡ None }
    {
        SlotRecords {
            records: SlotRuns::new(alloc),
        }
    }

    /// The record that gave the slot its bytes.
    pub fn record_of(&self, slot: u32) -> Option<u64>
        ensures { result ≡ record_at self.now slot }
    {
        self.records.get(slot)
    }

    /// Makes room for so many runs.
    pub fn reserve(&mut self, count: usize) -> Result<(), Memory>
        ensures records { (n : ℕ) → record_at self.new n ≡ record_at self.old n }
        ensures room { OnOk result (count ≤ self.new.room) }
    {
        self.records.reserve(count)
    }

    /// The record gave these slots their bytes, in place of what did before. Each takes the room of two runs.
    pub fn put(&mut self, numbers: &[u32], record_no: u64)
        requires { 2 * length numbers.now ≤ self.old.room }
        ensures records { (n : ℕ) → record_at self.new n ≡ (if listed (slots numbers.now) (Slot n) then Some record_no else record_at self.old n) }
        ensures room { self.old.room ≤ self.new.room + 2 * length numbers.now }
    {
        self.records.put_each(numbers, record_no);
    }

    /// Forgets the records of these slots. Each takes the room of one run.
    pub fn forget(&mut self, numbers: &[u32])
        requires { length numbers.now ≤ self.old.room }
        ensures records { (n : ℕ) → record_at self.new n ≡ (if listed (slots numbers.now) (Slot n) then None else record_at self.old n) }
        ensures room { self.old.room ≤ self.new.room + length numbers.now }
    {
        self.records.remove_each(numbers);
    }
}
