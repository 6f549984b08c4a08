//! A list of entries in object order: chunks in a tree, and slots as runs.

ghost use Rattle.std.specs.Prelude.{◌≡◌, ◌≤◌, ◌<◌, ◌+◌, ◌*◌, ◌^◌, ◌∷◌, ◌++◌, [], true, false, length, map, if◌then◌else◌, OnOk, IfSome};
ghost use Rattle.psb_bytes.specs.declared.ids.Object.TheVariants.{Slot};
ghost use Rattle.psb_model.specs.Words.{has, object_eq, slots, with_one, with_all, without};
ghost use Rattle.peer_lists.specs.Entries.{find_at, lacks_all};
ghost use Rattle.peer_lists.specs.Slots.{slots_from};
ghost use Rattle.peer_lists.specs.Chunks.{is_chunk};
ghost use Rattle.peer_lists.specs.Walks.{IsSlotFrom, IsRunFrom, chunk_after};
ghost use Rattle.psb_model.specs.Grammar.{ascend};

use crate::entry::Entry;
use crate::entry_tree::EntryTree;
use psb_bytes::{Digest, Memory, Object};
use slot_runs::{Run, SlotRuns};
use std::alloc::Global;

/// Chunks and slots. What is said of a slot is said of runs of them.
#[derive(Drop)]
pub(crate) struct EntryList<E, R> {
    chunks: EntryTree<E, R>,
    slots: SlotRuns<R>,
}

impl<E: Entry> EntryList<E, E::Rest> {
    ghost use Rattle.peer_lists.specs.EntryLists.{items, room, IsList};

    /// Takes no memory.
    pub fn new(alloc: Global) -> EntryList<E, E::Rest>
        ensures items { items E.key E.joined result ≡ [] }
        ensures list { IsList E.key E.joined result }
    {
        EntryList {
            chunks: EntryTree::new(alloc),
            slots: SlotRuns::new(alloc),
        }
    }

    /// The entry at the object.
    pub fn get(&self, object: &Object) -> Option<E>
        requires { IsList E.key E.joined self.now }
        ensures { result ≡ find_at E.key (items E.key E.joined self.now) object.now }
    {
        match object {
            Object::Chunk(_) => self.chunks.get(object),
            Object::Slot(number) => match self.slots.get(*number) {
                None => None,
                Some(rest) => Some(E::join(*object, rest)),
            },
        }
    }

    /// Makes room for so many chunks, and as many runs.
    pub fn reserve(&mut self, count: usize) -> Result<(), Memory>
        requires { IsList E.key E.joined self.old }
        ensures list { IsList E.key E.joined self.new }
        ensures items { items E.key E.joined self.new ≡ items E.key E.joined self.old }
        ensures room { OnOk result (count ≤ room self.new) }
    {
        self.chunks.reserve(count)?;
        self.slots.reserve(count)
    }

    /// Puts in a chunk at its place.
    pub fn insert_chunk(&mut self, entry: E)
        requires room { 1 ≤ room self.old }
        requires chunk { is_chunk (E.key entry) ≡ true }
        requires absent { has E.key (items E.key E.joined self.old) (E.key entry) ≡ false }
        requires list { IsList E.key E.joined self.old }
        ensures list { IsList E.key E.joined self.new }
        ensures items { items E.key E.joined self.new ≡ with_one E.key entry (items E.key E.joined self.old) }
        ensures room { room self.old ≤ room self.new + 1 }
    {
        self.chunks.insert(entry);
    }

    /// Takes out the chunk, if it is there.
    pub fn remove_chunk(&mut self, chunk: &Object)
        requires chunk { is_chunk chunk.now ≡ true }
        requires list { IsList E.key E.joined self.old }
        ensures list { IsList E.key E.joined self.new }
        ensures items { items E.key E.joined self.new ≡ without E.key (chunk.now ∷ []) (items E.key E.joined self.old) }
        ensures room { room self.old ≤ room self.new }
    {
        self.chunks.remove(chunk);
    }

    /// Puts in `count` slots from `first` on, of which the same is said.
    pub fn insert_run(&mut self, first: u32, count: u32, rest: E::Rest)
        requires room { 1 ≤ room self.old }
        requires numbers { first + count < 2 ^ 32 }
        requires absent { lacks_all E.key (slots_from E.joined rest first count) (items E.key E.joined self.old) ≡ true }
        requires list { IsList E.key E.joined self.old }
        ensures list { IsList E.key E.joined self.new }
        ensures items { items E.key E.joined self.new ≡ with_all E.key (slots_from E.joined rest first count) (items E.key E.joined self.old) }
    {
        if count > 0 {
            self.slots.add(Run {
                first,
                last: first + (count - 1),
                rest,
            });
        }
    }

    /// Puts in the slots of these numbers, of which the same is said.
    pub fn insert_slots(&mut self, numbers: &[u32], rest: E::Rest)
        requires room { length numbers.now ≤ room self.old }
        requires ascend { ascend numbers.now ≡ true }
        requires absent { lacks_all E.key (map (λ n. E.joined (Slot n) rest) numbers.now) (items E.key E.joined self.old) ≡ true }
        requires list { IsList E.key E.joined self.old }
        ensures list { IsList E.key E.joined self.new }
        ensures items { items E.key E.joined self.new ≡ with_all E.key (map (λ n. E.joined (Slot n) rest) numbers.now) (items E.key E.joined self.old) }
        ensures room { room self.old ≤ room self.new + length numbers.now }
    {
        self.slots.add_each(numbers, rest);
    }

    /// Takes out the slots of these numbers that are there. Each takes the room of two.
    pub fn remove_slots(&mut self, numbers: &[u32])
        requires room { 2 * length numbers.now ≤ room self.old }
        requires list { IsList E.key E.joined self.old }
        ensures list { IsList E.key E.joined self.new }
        ensures items { items E.key E.joined self.new ≡ without E.key (slots numbers.now) (items E.key E.joined self.old) }
        ensures room { room self.old ≤ room self.new + 2 * length numbers.now }
    {
        self.slots.remove_each(numbers);
    }

    /// Says this of the slot, which is there. That takes the room of two runs.
    pub fn set_slot(&mut self, number: u32, rest: E::Rest)
        requires room { 2 ≤ room self.old }
        requires there { has E.key (items E.key E.joined self.old) (Slot number) ≡ true }
        requires list { IsList E.key E.joined self.old }
        ensures list { IsList E.key E.joined self.new }
        ensures items { items E.key E.joined self.new ≡ map (λ e. if object_eq (E.key e) (Slot number) then E.joined (Slot number) rest else e) (items E.key E.joined self.old) }
        ensures room { room self.old ≤ room self.new + 2 }
    {
        self.slots.put(number, rest);
    }

    /// The first slot from the number on.
    pub fn slot_from(&self, number: u64) -> Option<E>
        requires number { number ≤ 2 ^ 32 }
        requires list { IsList E.key E.joined self.now }
        ensures { IsSlotFrom E.key (items E.key E.joined self.now) number result }
    {
        if number > u64::from(u32::MAX) {
            return None;
        }
        match self.slots.next(number as u32) {
            None => None,
            Some(run) => Some(E::join(Object::Slot(run.first), run.rest)),
        }
    }

    /// The first slots from the number on, as far as the same is said of them.
    pub fn run_from(&self, number: u64) -> Option<Run<E::Rest>>
        requires number { number ≤ 2 ^ 32 }
        requires list { IsList E.key E.joined self.now }
        ensures { IsRunFrom E.key E.joined (items E.key E.joined self.now) number result }
    {
        if number > u64::from(u32::MAX) {
            return None;
        }
        self.slots.next(number as u32)
    }

    /// The first chunk, or the first behind the one of this name.
    pub fn chunk_after(&self, place: &Option<Digest>) -> Option<E>
        requires { IsList E.key E.joined self.now }
        ensures { result ≡ chunk_after E.key place.now (items E.key E.joined self.now) }
    {
        self.chunks.next_after(place)
    }
}
