//! What the node answers for to a peer.

ghost use Rattle.std.specs.Prelude.{◌≡◌, ◌≤◌, ◌+◌, ◌*◌, ◌^◌, ◌∷◌, [], true, false, length, map, take, if◌then◌else◌, OnOk, IfOk};
ghost use Rattle.std.specs.List.{slice_get};
ghost use Rattle.psb_bytes.specs.declared.ids.Object.TheVariants.{Chunk, Slot};
ghost use Rattle.psb_model.specs.Words.{has, object_eq, slots, with_one, with_all, without};
ghost use Rattle.psb_model.specs.Grammar.{ascend};
ghost use Rattle.psb_model.specs.State.{in_key};
ghost use Rattle.psb_model.specs.Effects.{chunk_in, direct_slots};
ghost use Rattle.peer_lists.specs.Entries.{find_at, lacks_all, in_order};
ghost use Rattle.peer_lists.specs.Walks.{IsSlotFrom, chunk_after, entry_after, name_of};
ghost use Rattle.peer_lists.specs.Sought.{sought, in_passes};

use crate::entry::{Entry, Holding, InTest};
use crate::entry_list::EntryList;
use psb_bytes::{Digest, Memory, Object, SlotList};
use psb_model::{InEntry, InState};
use std::alloc::Global;
use std::marker::Model;
use std::slice;

/// What the node answers for to a peer, in object order: chunks by the bytes of their names, then
/// slots by number. Contracts see the entries, and how many more chunks, and runs of slots, have room.
///
/// A chunk that comes or goes, a slot that goes, and a search take steps that grow with the logarithm
/// of what is kept; slots with consecutive numbers of one state are kept as one run.
#[derive(Drop)]
pub struct InList {
    list: EntryList<InEntry, Holding<InState>>,
}

/// The name of a chunk.
fn name_of(place: &Option<Object>) -> Option<Digest>
    ensures { result ≡ name_of place.now }
{
    match place {
        Some(Object::Chunk(name)) => Some(*name),
        _ => None,
    }
}

impl Model for InList {
    ghost use Rattle.psb_model.specs.declared.entries.InEntry.{InEntry};
    ghost use Rattle.psb_model.specs.State.{in_key};
    ghost use Rattle.peer_lists.specs.Joined.{in_joined};
    ghost use Rattle.peer_lists.specs.ListViews.{ListView};
    ghost use Rattle.peer_lists.specs.EntryLists.{items, room, IsList};

    ghost Value = { ListView InEntry };

    ghost view = { λ l. record { items = items in_key in_joined l.list; room = room l.list } };

    ghost invariant = { λ l. IsList in_key in_joined l.list };
}

impl InList {
    ghost use Rattle.psb_model.specs.declared.entries.InEntry.{InEntry};

    /// Takes no memory.
    pub fn new(alloc: Global) -> InList
        ensures { result.items ≡ [] }
    {
        InList {
            list: EntryList::new(alloc),
        }
    }

    /// The entry at the object. The entries are in object order.
    pub fn get(&self, object: &Object) -> Option<InEntry>
        ensures entry { result ≡ find_at in_key self.now.items object.now }
        ensures ordered { in_order in_key self.now.items ≡ true }
    {
        self.list.get(object)
    }

    /// The first chunk, or the first behind the one of this name.
    pub fn chunk_after(&self, place: &Option<Digest>) -> Option<InEntry>
        ensures chunk { result ≡ chunk_after in_key place.now self.now.items }
        ensures ordered { in_order in_key self.now.items ≡ true }
    {
        self.list.chunk_after(place)
    }

    /// The first slot from the number on. A slot's number has four bytes.
    pub fn slot_from(&self, number: u64) -> Option<InEntry>
        requires { number ≤ 2 ^ 32 }
        ensures { IsSlotFrom in_key self.now.items number result }
    {
        self.list.slot_from(number)
    }

    /// The first entry, or the first behind the object.
    pub fn next_after(&self, place: &Option<Object>) -> Option<InEntry>
        ensures entry { result ≡ entry_after in_key place.now self.now.items }
        ensures ordered { in_order in_key self.now.items ≡ true }
    {
        let _list = &self.list;
        if let Some(Object::Slot(number)) = place {
            return self.slot_from(u64::from(*number) + 1);
        }
        match self.chunk_after(&name_of(place)) {
            Some(entry) => Some(entry),
            None => self.slot_from(0),
        }
    }

    /// How many slots pass the test, but for those of these numbers, which ascend. Takes a step for each
    /// run and each of the numbers, as the next two do.
    pub fn count_slots(&self, test: InTest, but: &[u32]) -> u64
        requires { ascend but.now ≡ true }
        ensures { result ≡ length (sought in_key (in_passes test) but.now self.now.items) }
    {
        self.list.count_sought(&test, but)
    }

    /// The slot at this place among them, from 0.
    pub fn slot_at(&self, test: InTest, but: &[u32], place: u64) -> Option<InEntry>
        requires { ascend but.now ≡ true }
        ensures { result ≡ slice_get (sought in_key (in_passes test) but.now self.now.items) place }
    {
        self.list.sought_at(&test, but, place)
    }

    /// The numbers of the least of them, `most` at most.
    pub fn least_slots(
        &self,
        alloc: Global,
        test: InTest,
        but: &[u32],
        most: usize,
    ) -> Result<SlotList, Memory>
        requires { ascend but.now ≡ true }
        ensures { IfOk result (λ l. slots l ≡ take most (map in_key (sought in_key (in_passes test) but.now self.now.items))) }
    {
        self.list.least_sought(alloc, &test, but, most)
    }

    /// Makes room for so many chunks, and as many runs.
    pub fn reserve(&mut self, count: usize) -> Result<(), Memory>
        ensures items { self.new.items ≡ self.old.items }
        ensures room { OnOk result (count ≤ self.new.room) }
    {
        self.list.reserve(count)
    }

    /// Puts in a chunk whose body is here, which is not there yet.
    pub fn insert_chunk(&mut self, name: Digest, units: u32)
        requires room { 1 ≤ self.old.room }
        requires absent { has in_key self.old.items (Chunk name) ≡ false }
        ensures items { self.new.items ≡ with_one in_key (chunk_in name units) self.old.items }
    {
        self.list.insert_chunk(InEntry {
            object: Object::Chunk(name),
            units,
            state: InState::Body,
        });
    }

    /// Takes out the chunk, if it is there.
    pub fn remove_chunk(&mut self, name: Digest)
        ensures items { self.new.items ≡ without in_key (Chunk name ∷ []) self.old.items }
        ensures room { self.old.room ≤ self.new.room }
    {
        self.list.remove_chunk(&Object::Chunk(name));
    }

    /// Puts in direct slots of these numbers, of which none is there yet.
    pub fn insert_direct_slots(&mut self, numbers: &[u32])
        requires room { length numbers.now ≤ self.old.room }
        requires ascend { ascend numbers.now ≡ true }
        requires absent { lacks_all in_key (direct_slots numbers.now) self.old.items ≡ true }
        ensures items { self.new.items ≡ with_all in_key (direct_slots numbers.now) self.old.items }
    {
        let direct = Holding {
            units: 1,
            state: InState::Direct,
        };
        self.list.insert_slots(numbers, direct);
    }

    /// Takes out the slots of these numbers that are there. Each takes the room of two runs.
    pub fn remove_slots(&mut self, numbers: &[u32])
        requires { 2 * length numbers.now ≤ self.old.room }
        ensures items { self.new.items ≡ without in_key (slots numbers.now) self.old.items }
        ensures room { self.old.room ≤ self.new.room + 2 * length numbers.now }
    {
        self.list.remove_slots(numbers);
    }

    /// Takes out the object, if it is there. That takes the room of two runs.
    pub fn remove(&mut self, object: &Object)
        requires { 2 ≤ self.old.room }
        ensures items { self.new.items ≡ without in_key (object.now ∷ []) self.old.items }
        ensures room { self.old.room ≤ self.new.room + 2 }
    {
        match object {
            Object::Chunk(_) => self.list.remove_chunk(object),
            Object::Slot(number) => self.list.remove_slots(slice::from_ref(number)),
        }
    }

    /// Sets the state of the slot, if it is there. That takes the room of two runs.
    pub fn set_state(&mut self, slot: u32, state: InState)
        requires room { 2 ≤ self.old.room }
        ensures items { self.new.items ≡ map (λ (e : InEntry). if object_eq e.object (Slot slot) then record e { state = state } else e) self.old.items }
        ensures room { self.old.room ≤ self.new.room + 2 }
    {
        if let Some(entry) = self.list.get(&Object::Slot(slot)) {
            let units = entry.units;
            self.list.set_slot(slot, Holding { units, state });
        }
    }
}
