//! Entries in a tree in object order, where one that comes or goes moves no other.

ghost use Rattle.std.specs.Prelude.{◌+◌, ◌≡◌, ◌≤◌, ◌∷◌, true, [], OnOk, find};
ghost use Rattle.std.specs.Option.{option_copied};
ghost use Rattle.std.specs.BTreeMap.Range.{is_from_start};
ghost use Rattle.psb_bytes.specs.Objects.{object_cmp};
ghost use Rattle.psb_model.specs.Words.{with_one, without};
ghost use Rattle.peer_lists.specs.Walks.{is_past, if_past, nearer};
ghost use Rattle.peer_lists.specs.Entries.{in_order, find_at};
ghost use Rattle.peer_lists.specs.Trees.{items_of};

use crate::entry::Entry;
use crate::order::compare;
use psb_bytes::{Digest, Memory, Object};
use std::alloc::Global;
use std::collections::BTreeMap;
use std::ops::Bound;

/// The entries in a tree, and beside it the latest: a tree takes memory where it grows, so the
/// latest go in when room is made for the next.
#[derive(Drop)]
pub struct EntryTree<E, R> {
    alloc: Global,
    tree: BTreeMap<Object, R>,
    latest: Vec<E>,
}

/// The entry at the object, where it waits.
fn waiting<'a, E: Entry>(latest: &'a [E], object: &Object) -> Option<&'a E>
    ensures { option_copied result ≡ find_at E.key latest.now object.now }
{
    latest.iter().find(|e| e.object() == object)
}

/// The entry, where it stands behind the place.
fn if_past<E: Entry>(entry: &E, place: &Option<Digest>) -> Option<E>
    ensures { result ≡ if_past E.key place.now entry.now }
{
    is_past(place, entry.object()).then_some(*entry)
}

/// The one of two entries that comes first.
fn nearer<E: Entry>(a: Option<E>, b: Option<E>) -> Option<E>
    ensures { result ≡ nearer E.key a b }
{
    let Some(x) = a else { return b };
    let Some(y) = b else { return Some(x) };
    if compare(y.object(), x.object()).is_lt() {
        Some(y)
    } else {
        Some(x)
    }
}

/// Whether the object stands behind the chunk of this name, if there is one.
fn is_past(place: &Option<Digest>, object: &Object) -> bool
    ensures { result ≡ is_past place.now object.now }
{
    match place {
        None => true,
        Some(name) => compare(&Object::Chunk(*name), object).is_lt(),
    }
}

/// Moves the latest entries into the tree.
fn settle<E: Entry>(tree: &mut BTreeMap<Object, E::Rest>, latest: &mut Vec<E>) -> Result<(), Memory>
    requires { in_order E.key (items_of E.key E.joined tree.old.entries latest.old.items) ≡ true }
    ensures items { items_of E.key E.joined tree.new.entries latest.new.items ≡ items_of E.key E.joined tree.old.entries latest.old.items }
    ensures none { OnOk result (latest.new.items ≡ []) }
{
    for _ in 0..latest.len() {
        let entry = latest[0];
        tree.insert(*entry.object(), entry.rest())?;
        latest.remove(0);
    }
    Ok(())
}

impl<E: Entry> EntryTree<E, E::Rest> {
    ghost use Rattle.peer_lists.specs.Trees.{tree_items, tree_room};

    /// Takes no memory.
    pub fn new(alloc: Global) -> EntryTree<E, E::Rest>
        ensures { tree_items E.key E.joined result ≡ [] }
    {
        EntryTree {
            alloc,
            tree: BTreeMap::new(alloc),
            latest: Vec::new(alloc),
        }
    }

    /// The entry at the object.
    pub fn get(&self, object: &Object) -> Option<E>
        requires { in_order E.key (tree_items E.key E.joined self.now) ≡ true }
        ensures { result ≡ find_at E.key (tree_items E.key E.joined self.now) object.now }
    {
        match self.tree.get(object) {
            Some(rest) => Some(E::join(*object, *rest)),
            None => waiting(self.latest.as_slice(), object).copied(),
        }
    }

    /// Makes room for `count` entries: the latest go into the tree.
    pub fn reserve(&mut self, count: usize) -> Result<(), Memory>
        requires { in_order E.key (tree_items E.key E.joined self.old) ≡ true }
        ensures items { tree_items E.key E.joined self.new ≡ tree_items E.key E.joined self.old }
        ensures room { OnOk result (count ≤ tree_room self.new) }
    {
        settle(&mut self.tree, &mut self.latest)?;
        self.latest.try_reserve(count)?;
        Ok(())
    }

    pub fn insert(&mut self, entry: E)
        requires { 1 ≤ tree_room self.old }
        ensures items { tree_items E.key E.joined self.new ≡ with_one E.key entry (tree_items E.key E.joined self.old) }
        ensures room { tree_room self.old ≤ tree_room self.new + 1 }
    {
        self.latest.push(entry).unwrap();
    }

    /// Takes out the entry at the object, if it is there.
    pub fn remove(&mut self, object: &Object)
        requires { in_order E.key (tree_items E.key E.joined self.old) ≡ true }
        ensures items { tree_items E.key E.joined self.new ≡ without E.key (object.now ∷ []) (tree_items E.key E.joined self.old) }
        ensures room { tree_room self.old ≤ tree_room self.new }
    {
        self.tree.remove(object);
        self.latest.retain(|e| e.object() != object);
    }

    /// The first entry, or the first behind the chunk of this name.
    pub fn next_after(&self, place: &Option<Digest>) -> Option<E>
        ensures { result ≡ find (λ e. is_past place.now (E.key e)) (tree_items E.key E.joined self.now) }
    {
        let mut next = self.next_in_tree(place);
        for entry in self.latest.as_slice() {
            next = nearer(next, if_past(entry, place));
        }
        next
    }

    fn next_in_tree(&self, place: &Option<Digest>) -> Option<E>
        ensures { result ≡ find (λ e. is_past place.now (E.key e)) (items_of E.key E.joined self.now.tree.entries []) }
    {
        match place {
            None => self.first_from(Bound::Unbounded),
            Some(name) => self.first_from(Bound::Excluded(Object::Chunk(*name))),
        }
    }

    fn first_from(&self, start: Bound<Object>) -> Option<E>
        ensures { result ≡ find (λ e. is_from_start object_cmp start (E.key e)) (items_of E.key E.joined self.now.tree.entries []) }
    {
        let (object, rest) = self.tree.range((start, Bound::Unbounded)).next()?;
        Some(E::join(*object, *rest))
    }
}
