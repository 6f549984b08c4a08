//! What the node has on a peer.

ghost use Rattle.std.specs.Prelude.{◌≡◌, ◌≤◌, ◌<◌, ◌+◌, ◌*◌, ◌^◌, ◌∷◌, [], true, false, length, map, take, if◌then◌else◌, OnOk, IfOk};
ghost use Rattle.std.specs.List.{slice_get};
ghost use Rattle.std.specs.Option.{option_map};
ghost use Rattle.psb_bytes.specs.declared.ids.Object.TheVariants.{Chunk, Slot};
ghost use Rattle.psb_model.specs.Words.{has, object_eq, slots, with_one, with_all, without};
ghost use Rattle.psb_model.specs.Grammar.{ascend};
ghost use Rattle.psb_model.specs.State.{out_key};
ghost use Rattle.psb_model.specs.Effects.{chunk_out, own_slots};
ghost use Rattle.peer_lists.specs.Entries.{find_at, lacks_all, in_order};
ghost use Rattle.peer_lists.specs.Walks.{IsSlotFrom, chunk_after, entry_after};
ghost use Rattle.peer_lists.specs.Sought.{sought, out_passes};

use crate::entry::{Entry, Holding, OutTest};
use crate::entry_list::EntryList;
use psb_bytes::{Digest, Memory, Object, SlotList};
use psb_model::{OutEntry, OutState};
use std::alloc::Global;
use std::marker::Model;
use std::slice;

/// What the node has on a peer, in object order, kept as an `InList` is.
#[derive(Drop)]
pub struct OutList {
    list: EntryList<OutEntry, Holding<OutState>>,
}

impl Model for OutList {
    ghost use Rattle.psb_model.specs.declared.entries.OutEntry.{OutEntry};
    ghost use Rattle.psb_model.specs.State.{out_key};
    ghost use Rattle.peer_lists.specs.Joined.{out_joined};
    ghost use Rattle.peer_lists.specs.ListViews.{ListView};
    ghost use Rattle.peer_lists.specs.EntryLists.{items, room, IsList};

    ghost Value = { ListView OutEntry };

    ghost view = { λ l. record { items = items out_key out_joined l.list; room = room l.list } };

    ghost invariant = { λ l. IsList out_key out_joined l.list };
}

impl OutList {
    ghost use Rattle.psb_model.specs.declared.entries.OutEntry.{OutEntry};

    /// Takes no memory.
    pub fn new(alloc: Global) -> OutList
        ensures { result.items ≡ [] }
    {
        OutList {
            list: EntryList::new(alloc),
        }
    }

    /// The entry at the object. The entries are in object order.
    pub fn get(&self, object: &Object) -> Option<OutEntry>
        ensures entry { result ≡ find_at out_key self.now.items object.now }
        ensures ordered { in_order out_key self.now.items ≡ true }
    {
        self.list.get(object)
    }

    /// The first chunk, or the first behind the one of this name.
    pub fn chunk_after(&self, place: &Option<Digest>) -> Option<OutEntry>
        ensures chunk { result ≡ chunk_after out_key place.now self.now.items }
        ensures ordered { in_order out_key self.now.items ≡ true }
    {
        self.list.chunk_after(place)
    }

    /// The first slot from the number on. A slot's number has four bytes.
    pub fn slot_from(&self, number: u64) -> Option<OutEntry>
        requires { number ≤ 2 ^ 32 }
        ensures { IsSlotFrom out_key self.now.items number result }
    {
        self.list.slot_from(number)
    }

    /// How many slots pass the test, but for those of these numbers, which ascend. Takes a step for each
    /// run and each of the numbers, as the next two do.
    pub fn count_slots(&self, test: OutTest, but: &[u32]) -> u64
        requires { ascend but.now ≡ true }
        ensures { result ≡ length (sought out_key (out_passes test) but.now self.now.items) }
    {
        self.list.count_sought(&test, but)
    }

    /// The slot at this place among them, from 0.
    pub fn slot_at(&self, test: OutTest, but: &[u32], place: u64) -> Option<OutEntry>
        requires { ascend but.now ≡ true }
        ensures { result ≡ slice_get (sought out_key (out_passes test) but.now self.now.items) place }
    {
        self.list.sought_at(&test, but, place)
    }

    /// The first of them, or the first behind the slot of this number. Takes a step for each run that it
    /// passes on the way, and each of the numbers.
    pub fn slot_after(&self, test: OutTest, but: &[u32], place: Option<u32>) -> Option<OutEntry>
        requires { ascend but.now ≡ true }
        ensures slot { result ≡ entry_after out_key (option_map Slot place) (sought out_key (out_passes test) but.now self.now.items) }
        ensures ordered { in_order out_key self.now.items ≡ true }
    {
        self.list.sought_after(&test, but, place)
    }

    /// The numbers of the least of them, `most` at most.
    pub fn least_slots(
        &self,
        alloc: Global,
        test: OutTest,
        but: &[u32],
        most: usize,
    ) -> Result<SlotList, Memory>
        requires { ascend but.now ≡ true }
        ensures { IfOk result (λ l. slots l ≡ take most (map out_key (sought out_key (out_passes test) but.now self.now.items))) }
    {
        self.list.least_sought(alloc, &test, but, most)
    }

    /// Makes room for so many chunks, and as many runs.
    pub fn reserve(&mut self, count: usize) -> Result<(), Memory>
        ensures items { self.new.items ≡ self.old.items }
        ensures room { OnOk result (count ≤ self.new.room) }
    {
        self.list.reserve(count)
    }

    /// Puts in a chunk whose body the peer has, which is not there yet.
    pub fn insert_chunk(&mut self, name: Digest, units: u32)
        requires room { 1 ≤ self.old.room }
        requires absent { has out_key self.old.items (Chunk name) ≡ false }
        ensures items { self.new.items ≡ with_one out_key (chunk_out name units) self.old.items }
    {
        self.list.insert_chunk(OutEntry {
            object: Object::Chunk(name),
            units,
            state: OutState::Body,
        });
    }

    /// Takes out the chunk, if it is there.
    pub fn remove_chunk(&mut self, name: Digest)
        ensures items { self.new.items ≡ without out_key (Chunk name ∷ []) self.old.items }
        ensures room { self.old.room ≤ self.new.room }
    {
        self.list.remove_chunk(&Object::Chunk(name));
    }

    /// Puts in `count` own slots from `first` on, of which none is there yet.
    pub fn insert_own_slots(&mut self, first: u32, count: u32)
        requires room { 1 ≤ self.old.room }
        requires numbers { first + count < 2 ^ 32 }
        requires absent { lacks_all out_key (own_slots first count) self.old.items ≡ true }
        ensures items { self.new.items ≡ with_all out_key (own_slots first count) self.old.items }
    {
        let own = Holding {
            units: 1,
            state: OutState::Own,
        };
        self.list.insert_run(first, count, own);
    }

    /// Takes out the slots of these numbers that are there. Each takes the room of two runs.
    pub fn remove_slots(&mut self, numbers: &[u32])
        requires { 2 * length numbers.now ≤ self.old.room }
        ensures items { self.new.items ≡ without out_key (slots numbers.now) self.old.items }
        ensures room { self.old.room ≤ self.new.room + 2 * length numbers.now }
    {
        self.list.remove_slots(numbers);
    }

    /// Puts in an entry whose object is not there yet.
    pub fn insert(&mut self, entry: &OutEntry)
        requires room { 1 ≤ self.old.room }
        requires absent { has out_key self.old.items entry.now.object ≡ false }
        ensures items { self.new.items ≡ with_one out_key entry.now self.old.items }
        ensures room { self.old.room ≤ self.new.room + 1 }
    {
        match entry.object {
            Object::Chunk(_) => self.list.insert_chunk(*entry),
            Object::Slot(number) => {
                self.list
                    .insert_slots(slice::from_ref(&number), entry.rest());
            }
        }
    }

    /// Takes out the object, if it is there. That takes the room of two runs.
    pub fn remove(&mut self, object: &Object)
        requires { 2 ≤ self.old.room }
        ensures items { self.new.items ≡ without out_key (object.now ∷ []) self.old.items }
        ensures room { self.old.room ≤ self.new.room + 2 }
    {
        match object {
            Object::Chunk(_) => self.list.remove_chunk(object),
            Object::Slot(number) => self.list.remove_slots(slice::from_ref(number)),
        }
    }

    /// Sets the state of the slot, if it is there. That takes the room of two runs.
    pub fn set_state(&mut self, slot: u32, state: OutState)
        requires room { 2 ≤ self.old.room }
        ensures items { self.new.items ≡ map (λ (e : OutEntry). if object_eq e.object (Slot slot) then record e { state = state } else e) self.old.items }
        ensures room { self.old.room ≤ self.new.room + 2 }
    {
        if let Some(entry) = self.list.get(&Object::Slot(slot)) {
            let units = entry.units;
            self.list.set_slot(slot, Holding { units, state });
        }
    }
}
