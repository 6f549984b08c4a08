//! The node's own chunks, in the order of their names' bytes.

ghost use Rattle.std.specs.Prelude.{◌≡◌, ◌≤◌, ◌||◌, not, true, [], OnOk, find, map};
ghost use Rattle.peer_account.specs.View.{named_row};
ghost use Rattle.std.specs.List.{list_all};
ghost use Rattle.std.specs.Option.{option_map};
ghost use Rattle.std.specs.Ordering.{nat_cmp};
ghost use Rattle.std.specs.Cmp.Lexicographic.{slice_cmp};
ghost use Rattle.std.specs.BTreeMap.Range.{is_from_start};
ghost use Rattle.psb_model.specs.Conditions.{names_ascend};
ghost use Rattle.psb_model.specs.State.{own_has, own_marked};
ghost use Rattle.psb_model.specs.Effects.{own_with, set_marks, given_up, is_named};
ghost use Rattle.peer_lists.specs.Entries.{in_order};
ghost use Rattle.own_chunks.specs.OwnList.{own_entry, is_newest, newest_len, newest_marked, newest_lifted, newest_left, newest_named, newest_other, newest_behind, nearer, known_len, next_own, lifts, marks, without_name, released, own_key, own_units};

use crate::snapshots::is_below;
use peer_account::{Account, is_named};
use psb_bytes::{Digest, Memory, units_of};
use psb_model::{OwnEntry, Snapshot, has_name, is_listed};
use std::alloc::Global;
use std::collections::BTreeMap;
use std::marker::Model;
use std::ops::Bound;

/// What is kept of an own chunk beside its name.
#[derive(Clone, Copy)]
pub struct OwnChunk {
    len: u32,
    marked: bool,
}

/// The chunks in a tree, and beside it the latest: a tree takes memory where it grows, so the latest
/// goes in when room is made for the next. Contracts see the chunks in byte order, and how many more
/// have room.
#[derive(Drop)]
pub struct Own {
    tree: BTreeMap<Digest, OwnChunk>,
    latest: Option<OwnEntry>,
}

impl Model for Own {
    ghost use Rattle.std.specs.Prelude.{map};
    ghost use Rattle.own_chunks.specs.OwnTree.{OwnView};
    ghost use Rattle.own_chunks.specs.OwnList.{own_entry, with_newest, room_for_newest};

    ghost Value = { OwnView };

    ghost view = { λ o. record { items = with_newest o.latest (map own_entry o.tree.entries); room = room_for_newest o.latest } };
}

/// Whether there is a chunk, and it has the name.
fn is_newest(chunk: &Option<OwnEntry>, name: &Digest) -> bool
    ensures { result ≡ is_newest chunk.now name.now }
{
    match chunk {
        None => false,
        Some(c) => c.name == *name,
    }
}

/// The length of the chunk, where it has the name.
fn newest_len(chunk: &Option<OwnEntry>, name: &Digest) -> Option<u32>
    ensures { result ≡ newest_len chunk.now name.now }
{
    match chunk {
        Some(c) if c.name == *name => Some(c.len),
        _ => None,
    }
}

/// Whether the chunk has the name and is marked.
fn newest_marked(chunk: &Option<OwnEntry>, name: &Digest) -> bool
    ensures { result ≡ newest_marked chunk.now name.now }
{
    match chunk {
        None => false,
        Some(c) => c.name == *name && c.marked,
    }
}

/// The chunk, without its mark where a list has its name.
fn if_lifted(chunk: Option<OwnEntry>, names: &[Digest]) -> Option<OwnEntry>
    requires { names_ascend names.now ≡ true }
    ensures { result ≡ newest_lifted names.now chunk }
{
    let Some(c) = chunk else { return None };
    Some(OwnEntry {
        name: c.name,
        len: c.len,
        marked: c.marked && !has_name(names, &c.name),
    })
}

/// The chunk, marked where no kept snapshot lists it, unless it is to leave.
fn if_left(chunk: Option<OwnEntry>, kept: &[Snapshot], accounts: &[Account]) -> Option<OwnEntry>
    requires { list_all (λ k. names_ascend k.names) kept.now ≡ true }
    ensures { result ≡ newest_left kept.now (map named_row accounts.now) chunk }
{
    let Some(c) = chunk else { return None };
    let marked = c.marked || !is_listed(kept, &c.name);
    let stays = !marked || is_named(accounts, &c.name);
    stays.then_some(OwnEntry {
        name: c.name,
        len: c.len,
        marked,
    })
}

/// The chunk, unless it is marked and no account names it.
fn if_named(chunk: Option<OwnEntry>, accounts: &[Account]) -> Option<OwnEntry>
    ensures { result ≡ newest_named (map named_row accounts.now) chunk }
{
    let Some(c) = chunk else { return None };
    let stays = !c.marked || is_named(accounts, &c.name);
    stays.then_some(c)
}

/// Whether an own chunk stays: it is not marked, or some account names it.
fn is_kept(chunk: &OwnChunk, name: &Digest, accounts: &[Account]) -> bool
    ensures { result ≡ (not chunk.now.marked || is_named (map named_row accounts.now) name.now) }
{
    !chunk.marked || is_named(accounts, name)
}

/// The chunk, where it has another name.
fn if_other(chunk: Option<OwnEntry>, name: &Digest) -> Option<OwnEntry>
    ensures { result ≡ newest_other name.now chunk }
{
    match chunk {
        Some(c) if c.name == *name => None,
        _ => chunk,
    }
}

/// The chunk, where it stands behind the name.
fn if_behind(chunk: Option<OwnEntry>, name: Option<&Digest>) -> Option<OwnEntry>
    ensures { result ≡ newest_behind (option_map (λ n. n.now) name.entry) chunk }
{
    let (Some(c), Some(n)) = (chunk, name) else {
        return chunk;
    };
    is_below(n, &c.name).then_some(c)
}

/// The one of two chunks that comes first.
fn nearer(in_tree: Option<OwnEntry>, chunk: Option<OwnEntry>) -> Option<OwnEntry>
    ensures { result ≡ nearer in_tree chunk }
{
    let Some(c) = chunk else { return in_tree };
    match in_tree {
        Some(e) if !is_below(&c.name, &e.name) => Some(e),
        _ => Some(c),
    }
}

/// Whether an own chunk stays whose mark is set where no kept snapshot lists it.
fn is_left(chunk: &mut OwnChunk, name: &Digest, kept: &[Snapshot], accounts: &[Account]) -> bool
    requires { list_all (λ k. names_ascend k.names) kept.now ≡ true }
    ensures chunk { own_entry (name.now, chunk.new) ≡ record (own_entry (name.now, chunk.old)) { marked = marks kept.now (own_entry (name.now, chunk.old)) } }
    ensures stays { result ≡ (not (marks kept.now (own_entry (name.now, chunk.old))) || is_named (map named_row accounts.now) name.now) }
{
    chunk.marked = chunk.marked || !is_listed(kept, name);
    !chunk.marked || is_named(accounts, name)
}

/// Lifts the mark of a chunk, where a list has its name. Each stays.
fn is_lifted(chunk: &mut OwnChunk, name: &Digest, names: &[Digest]) -> bool
    requires { names_ascend names.now ≡ true }
    ensures chunk { own_entry (name.now, chunk.new) ≡ record (own_entry (name.now, chunk.old)) { marked = lifts names.now (own_entry (name.now, chunk.old)) } }
    ensures stays { result ≡ true }
{
    chunk.marked = chunk.marked && !has_name(names, name);
    true
}

impl Own {
    /// Takes no memory.
    pub fn new(alloc: Global) -> Own
        ensures { result.items ≡ [] }
    {
        Own {
            tree: BTreeMap::new(alloc),
            latest: None,
        }
    }

    pub fn has(&self, name: &Digest) -> bool
        ensures { result ≡ own_has self.now.items name.now }
    {
        let in_tree = self.tree.contains_key(name);
        in_tree || is_newest(&self.latest, name)
    }

    /// Whether each name is that of a chunk: one search for each.
    pub fn has_all(&self, names: &[Digest]) -> bool
        ensures { result ≡ list_all (own_has self.now.items) names.now }
    {
        names.iter().all(|name| self.has(name))
    }

    /// The length of the chunk's sealed bytes.
    pub fn len_of(&self, name: &Digest) -> Option<u32>
        requires { in_order own_key self.now.items ≡ true }
        ensures { result ≡ known_len self.now.items name.now }
    {
        match self.tree.get(name) {
            Some(chunk) => Some(chunk.len),
            None => newest_len(&self.latest, name),
        }
    }

    /// Makes room for one chunk: the latest goes into the tree.
    pub fn reserve(&mut self) -> Result<(), Memory>
        requires { in_order own_key self.old.items ≡ true }
        ensures items { self.new.items ≡ self.old.items }
        ensures room { OnOk result (1 ≤ self.new.room) }
    {
        if let Some(chunk) = self.latest {
            let kept = OwnChunk {
                len: chunk.len,
                marked: chunk.marked,
            };
            self.tree.insert(chunk.name, kept)?;
            self.latest = None;
        }
        Ok(())
    }

    pub fn insert(&mut self, chunk: OwnEntry)
        requires { 1 ≤ self.old.room }
        ensures { self.new.items ≡ own_with chunk self.old.items }
    {
        self.latest = Some(chunk);
    }

    /// Whether the chunk of this name is marked.
    pub fn is_marked(&self, name: &Digest) -> bool
        requires { in_order own_key self.now.items ≡ true }
        ensures { result ≡ own_marked self.now.items name.now }
    {
        match self.tree.get(name) {
            Some(chunk) => chunk.marked,
            None => newest_marked(&self.latest, name),
        }
    }

    /// The units of the chunk, 0 where no name is given.
    pub fn units_of(&self, name: Option<Digest>) -> u32
        requires { in_order own_key self.now.items ≡ true }
        ensures { result ≡ own_units self.now.items name }
    {
        let Some(n) = name else { return 0 };
        match self.len_of(&n) {
            None => units_of(0),
            Some(len) => units_of(len),
        }
    }

    /// Lifts the marks of these names: one search for each chunk.
    pub fn lift(&mut self, names: &[Digest])
        requires ordered { in_order own_key self.old.items ≡ true }
        requires names { names_ascend names.now ≡ true }
        ensures { self.new.items ≡ set_marks (lifts names.now) self.old.items }
    {
        self.tree
            .retain(|name, chunk| is_lifted(chunk, name, names));
        self.latest = if_lifted(self.latest, names);
    }

    /// Marks the chunks that no kept snapshot lists, and gives up the marked ones that no account
    /// names.
    pub fn mark_unlisted(&mut self, kept: &[Snapshot], accounts: &[Account])
        requires ordered { in_order own_key self.old.items ≡ true }
        requires names { list_all (λ k. names_ascend k.names) kept.now ≡ true }
        ensures { self.new.items ≡ given_up (map named_row accounts.now) (set_marks (marks kept.now) self.old.items) }
    {
        self.tree
            .retain(|name, chunk| is_left(chunk, name, kept, accounts));
        self.latest = if_left(self.latest, kept, accounts);
    }

    /// Gives up the marked chunks that no account names.
    pub fn give_up(&mut self, accounts: &[Account])
        requires { in_order own_key self.old.items ≡ true }
        ensures { self.new.items ≡ given_up (map named_row accounts.now) self.old.items }
    {
        self.tree
            .retain(|name, chunk| is_kept(chunk, name, accounts));
        self.latest = if_named(self.latest, accounts);
    }

    /// Takes out the chunk of this name, if it is there.
    pub fn remove(&mut self, name: &Digest)
        requires { in_order own_key self.old.items ≡ true }
        ensures { self.new.items ≡ without_name name.now self.old.items }
    {
        self.tree.remove(name);
        self.latest = if_other(self.latest, name);
    }

    /// The first chunk, or the first behind the name.
    pub fn next_after(&self, name: Option<&Digest>) -> Option<OwnEntry>
        ensures { result ≡ next_own (option_map (λ n. n.now) name.entry) self.now.items }
    {
        nearer(next_in_tree(&self.tree, name), if_behind(self.latest, name))
    }

    /// Gives up the chunk of a deal that has its reply, where it is marked and no account names it.
    pub fn release(&mut self, accounts: &[Account], name: Option<Digest>)
        requires { in_order own_key self.old.items ≡ true }
        ensures { self.new.items ≡ released (map named_row accounts.now) name self.old.items }
    {
        if let Some(n) = name {
            if self.is_marked(&n) && !is_named(accounts, &n) {
                self.remove(&n);
            }
        }
    }
}

/// The first chunk of the tree, or the first behind the name.
fn next_in_tree(tree: &BTreeMap<Digest, OwnChunk>, name: Option<&Digest>) -> Option<OwnEntry>
    ensures { result ≡ next_own (option_map (λ n. n.now) name.entry) (map own_entry tree.now.entries) }
{
    match name {
        None => first_from(tree, Bound::Unbounded),
        Some(n) => first_from(tree, Bound::Excluded(*n)),
    }
}

fn first_from(tree: &BTreeMap<Digest, OwnChunk>, start: Bound<Digest>) -> Option<OwnEntry>
    ensures { result ≡ find (λ e. is_from_start (slice_cmp nat_cmp) start e.name) (map own_entry tree.now.entries) }
{
    let (name, chunk) = tree.range((start, Bound::Unbounded)).next()?;
    Some(OwnEntry {
        name: *name,
        len: chunk.len,
        marked: chunk.marked,
    })
}
