//! The record of the log that gave each slot of a peer its bytes.

ghost use Rattle.std.specs.Prelude.{◌≡◌, ◌≤◌, ◌+◌, ◌*◌, ◌==◌, ℕ, List, [], ◌∷◌, ◌++◌, true, length, None, Some, not, ◌&&◌, if◌then◌else◌, find, position, OnOk};
ghost use Rattle.std.specs.Option.{option_copied};
ghost use Rattle.psb_bytes.specs.declared.ids.Object.TheVariants.{Slot};
ghost use Rattle.psb_model.specs.Words.{listed, slots, has};
ghost use Rattle.psb_model.specs.State.{State, row, in_key};
ghost use Rattle.psb_model.specs.Conditions.{allowed};
ghost use Rattle.psb_model.specs.Effects.{after};
ghost use Rattle.psb_model.specs.History.{state};
ghost use Rattle.psb_model.specs.declared.change.Change.{Change};
ghost use Rattle.slot_runs.specs.Records.{record_at};
ghost use Rattle.slot_places.specs.declared.moved.SlotsMoved.TheVariants.{Moves};
ghost use Rattle.slot_places.specs.Moves.{IsMoved, slot_after};

use crate::moved::SlotsMoved;
use psb_bytes::{Memory, Object, PeerId};
use psb_ledger::Ledger;
use slot_runs::SlotRecords;
use std::alloc::Global;
use std::slice;

/// The records that gave the slots of one peer their bytes.
#[derive(Drop)]
struct PeerSlots {
    peer: PeerId,
    records: SlotRecords,
}

/// The record of the log, by the number of its change, that gave each slot of each peer its 512 bytes last.
/// The table of a peer is found by a walk, and comes when room for its first slot is made.
#[derive(Drop)]
pub struct SlotTables {
    alloc: Global,
    tables: Vec<PeerSlots>,
}

impl PeerSlots {
    /// Forgets the record of the slot, if the node does not answer for it to the peer. Takes the room of one
    /// run.
    fn forget_lost(&mut self, slot: u32, left: &Ledger)
        requires { 1 ≤ self.old.records.room }
        ensures peer { self.new.peer ≡ self.old.peer }
        ensures records { (n : ℕ) → record_at self.new.records n ≡ (if (slot == n) && not (has in_key (row left.now.state self.old.peer).ins (Slot n)) then None else record_at self.old.records n) }
        ensures room { self.old.records.room ≤ self.new.records.room + 1 }
    {
        if !left.row(self.peer).has(&Object::Slot(slot)) {
            self.records.forget(slice::from_ref(&slot));
        }
    }

    /// The same for each of these slots.
    fn forget_all_lost(&mut self, leaving: &[u32], left: &Ledger)
        requires { length leaving.now ≤ self.old.records.room }
        ensures peer { self.new.peer ≡ self.old.peer }
        ensures records { (n : ℕ) → record_at self.new.records n ≡ (if listed (slots leaving.now) (Slot n) && not (has in_key (row left.now.state self.old.peer).ins (Slot n)) then None else record_at self.old.records n) }
        ensures room { self.old.records.room ≤ self.new.records.room + length leaving.now }
    {
        for slot in leaving {
            self.forget_lost(*slot, left);
        }
    }

    /// The record with this number gave these slots their bytes, and those left but for the ones that are still
    /// there.
    fn enter(&mut self, given: &[u32], leaving: &[u32], number: u64, left: &Ledger)
        requires { 2 * length given.now + length leaving.now ≤ self.old.records.room }
        ensures peer { self.new.peer ≡ self.old.peer }
        ensures records { (n : ℕ) → record_at self.new.records n ≡ slot_after (listed (slots given.now) (Slot n)) (listed (slots leaving.now) (Slot n)) (has in_key (row left.now.state self.old.peer).ins (Slot n)) number (record_at self.old.records n) }
    {
        self.forget_all_lost(leaving, left);
        self.records.put(given, number);
    }
}

impl SlotTables {
    ghost use Rattle.slot_places.specs.Slots.{table_of, slot_record, has_runs, has_room, HasSlotRoom, KnowsSlots, AreBelow};
    ghost use Rattle.slot_places.specs.Enters.{EntersSlots, Moved};

    /// No slot has a record. Takes no memory; what `make_room` takes comes from `alloc`.
    pub fn new(alloc: Global) -> SlotTables
        ensures { (p n : ℕ) → slot_record result p n ≡ None }
    {
        SlotTables {
            alloc,
            tables: Vec::new(alloc),
        }
    }

    /// The place of the peer's table.
    fn place_of(&self, peer: PeerId) -> Option<usize>
        ensures { result ≡ position (λ t. t.peer == peer) self.now.tables.items }
    {
        self.tables.iter().position(|t| t.peer == peer)
    }

    /// The peer's table.
    fn table_of(&self, peer: PeerId) -> Option<&PeerSlots>
        ensures { option_copied result ≡ table_of self.now.tables.items peer }
    {
        self.tables.iter().find(|t| t.peer == peer)
    }

    /// The record that gave the slot of the peer its bytes.
    pub fn record_of(&self, peer: PeerId, slot: u32) -> Option<u64>
        ensures { result ≡ slot_record self.now peer slot }
    {
        match self.table_of(peer) {
            None => None,
            Some(table) => table.records.record_of(slot),
        }
    }

    /// Adds a table of no records for the peer, with room for so many runs.
    fn add_table(&mut self, peer: PeerId, count: usize) -> Result<(), Memory>
        requires { table_of self.old.tables.items peer ≡ None }
        ensures records { (p n : ℕ) → slot_record self.new p n ≡ slot_record self.old p n }
        ensures room { OnOk result (has_runs (table_of self.new.tables.items peer) count) }
    {
        let mut records = SlotRecords::new(self.alloc);
        records.reserve(count)?;
        self.tables.push(PeerSlots { peer, records })?;
        Ok(())
    }

    /// Makes room in the peer's table for so many slots.
    fn make_room_for(&mut self, peer: PeerId, given: &[u32], leaving: &[u32]) -> Result<(), Memory>
        ensures records { (p n : ℕ) → slot_record self.new p n ≡ slot_record self.old p n }
        ensures room { OnOk result (has_room (table_of self.new.tables.items peer) given.now leaving.now) }
    {
        let count = 2 * given.len() + leaving.len();
        match self.place_of(peer) {
            Some(place) => {
                let table = &mut self.tables[place];
                table.records.reserve(count)
            }
            None if given.is_empty() => Ok(()),
            None => self.add_table(peer, count),
        }
    }

    /// Takes all memory that `enter` needs. Each slot has the record that it had.
    pub fn make_room(&mut self, moved: &SlotsMoved) -> Result<(), Memory>
        ensures records { (p n : ℕ) → slot_record self.new p n ≡ slot_record self.old p n }
        ensures room { OnOk result (HasSlotRoom self.new moved.now) }
    {
        match moved {
            SlotsMoved::Nothing => Ok(()),
            SlotsMoved::Moves {
                peer,
                given,
                leaving,
            } => self.make_room_for(*peer, given.as_slice(), leaving.as_slice()),
        }
    }

    /// The record with this number gave these slots of the peer their bytes, and those left but for the ones
    /// that are still there. Takes no memory.
    fn enter_at(&mut self, peer: PeerId, given: &[u32], leaving: &[u32], number: u64, left: &Ledger)
        requires { has_room (table_of self.old.tables.items peer) given.now leaving.now }
        ensures { Moved self.old self.new (Moves peer given.now leaving.now) number left.now.state }
    {
        if let Some(place) = self.place_of(peer) {
            let table = &mut self.tables[place];
            table.enter(given, leaving, number, left);
        }
    }

    /// Has the records as the change leaves them, whose record has this number, and after which this is the
    /// state. Takes no memory.
    pub fn enter(&mut self, moved: &SlotsMoved, number: u64, left: &Ledger)
        requires { HasSlotRoom self.old moved.now }
        ensures moved { Moved self.old self.new moved.now number left.now.state }
        // So a change that may come next carries what is known of the slots whose bytes are here.
        ensures enters { (s : State) (c : Change) → IsMoved s c moved.now → left.now.state ≡ after s c → EntersSlots s self.old self.new c number }
        ensures knows { (h : List Change) (c : Change) → allowed (state h) c ≡ true → IsMoved (state h) c moved.now → left.now.state ≡ state (h ++ c ∷ []) → number ≡ length h → KnowsSlots self.old h → KnowsSlots self.new (h ++ c ∷ []) }
        ensures below { AreBelow self.old number → AreBelow self.new (number + 1) }
    {
        match moved {
            SlotsMoved::Nothing => {}
            SlotsMoved::Moves {
                peer,
                given,
                leaving,
            } => self.enter_at(*peer, given.as_slice(), leaving.as_slice(), number, left),
        }
    }
}
