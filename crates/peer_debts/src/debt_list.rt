//! What a peer lost: rows of debt.

ghost use Rattle.std.specs.Prelude.{◌≡◌, ◌≤◌, ◌<◌, ◌+◌, ◌-◌, ◌^◌, ◌∷◌, ◌++◌, [], length, map, filter, not, take, drop, if◌then◌else◌, vec_len, vec_capacity, OnOk, OnErr};
ghost use Rattle.std.specs.List.{list_any};
ghost use Rattle.psb_bytes.specs.declared.ids.Object.TheVariants.{Slot};
ghost use Rattle.psb_model.specs.Words.{has, has_so, object_eq};
ghost use Rattle.psb_model.specs.declared.entries.DebtEntry.{DebtEntry};
ghost use Rattle.psb_model.specs.State.{debt_key};
ghost use Rattle.psb_model.specs.Move.{use_up};
ghost use Rattle.psb_model.specs.Conditions.{is_whole, is_whole_own};
ghost use Rattle.psb_model.specs.Effects.{is_whole_listed};
ghost use Rattle.peer_debts.specs.Debts.{count_at, KnowsCounts, CountsStay, CountsMore, CountsLess, CountsWithout, first_less, FirstHas};

use psb_bytes::{Memory, Object};
use psb_model::{DebtEntry, OutState};
use std::alloc::Global;
use std::collections::BTreeMap;
use std::marker::Model;

/// What a peer lost: rows in order of booking. Contracts see the rows, and how many more have room.
///
/// A tree beside them counts the rows of each object, and takes memory where it grows: so the latest
/// rows are counted when room is made for more. To look for an object takes steps that grow with the
/// logarithm of the rows, and one for each row that was booked since then.
#[derive(Drop)]
pub struct DebtList {
    rows: Vec<DebtEntry>,
    counts: BTreeMap<Object, u64>,
    counted: usize,
}

/// How far units use up rows: so many rows whole, and so many units of the next.
#[derive(Clone, Copy)]
struct Used {
    rows: usize,
    units: u32,
}

/// How many of the counted rows have the object.
fn count_of(counts: &BTreeMap<Object, u64>, object: &Object) -> u64
    ensures { result ≡ count_at counts.now.entries object.now }
{
    match counts.get(object) {
        Some(count) => *count,
        None => 0,
    }
}

/// Counts one more row with the object.
fn add_count(counts: &mut BTreeMap<Object, u64>, object: &Object) -> Result<(), Memory>
    requires { count_at counts.old.entries object.now + 1 < 2 ^ 64 }
    ensures added { OnOk result (CountsMore object.now counts.old.entries counts.new.entries) }
    ensures stays { OnErr result (CountsStay counts.old.entries counts.new.entries) }
{
    let count = count_of(counts, object) + 1;
    match counts.insert(*object, count) {
        Ok(_) => Ok(()),
        Err(_) => Err(Memory),
    }
}

/// Counts one row less with the object, where there is one.
fn take_count(counts: &mut BTreeMap<Object, u64>, object: &Object)
    ensures { CountsLess object.now counts.old.entries counts.new.entries }
{
    let count = count_of(counts, object);
    if count < 2 {
        counts.remove(object);
        return;
    }
    // Only a new key takes memory.
    match counts.insert(*object, count - 1) {
        Ok(_) => (),
        Err(_) => (),
    }
}

/// Counts the rows that are not counted yet.
fn count_rows(
    counts: &mut BTreeMap<Object, u64>,
    rows: &[DebtEntry],
    counted: &mut usize,
) -> Result<(), Memory>
    requires { KnowsCounts rows.now counts.old.entries counted.old }
    ensures knows { KnowsCounts rows.now counts.new.entries counted.new }
    ensures all { OnOk result (counted.new ≡ length rows.now) }
{
    for place in *counted..rows.len() {
        add_count(counts, &rows[place].object)?;
        *counted = place + 1;
    }
    Ok(())
}

/// Counts these rows no more.
fn take_counts(counts: &mut BTreeMap<Object, u64>, rows: &[DebtEntry])
    ensures { CountsWithout rows.now counts.old.entries counts.new.entries }
{
    for row in rows {
        take_count(counts, &row.object);
    }
}

/// Whether the row is listed, and nothing of it was used up.
pub fn is_whole_listed(row: &DebtEntry, objects: &[Object]) -> bool
    ensures { result ≡ is_whole_listed objects.now row.now }
{
    objects.contains(&row.object) && row.left == row.units
}

/// How many rows are listed and whole.
fn count_whole(rows: &[DebtEntry], objects: &[Object]) -> usize
    ensures { result ≡ length (filter (is_whole_listed objects.now) rows.now) }
{
    rows.iter()
        .filter(|row| is_whole_listed(row, objects))
        .count()
}

/// Whether one of the rows has the object, and nothing of it was used up.
fn has_whole(rows: &[DebtEntry], object: &Object) -> bool
    ensures { result ≡ has_so debt_key is_whole rows.now object.now }
{
    rows.iter()
        .any(|row| row.object == *object && row.left == row.units)
}

/// Whether one of the rows has the object as an own slot, and nothing of it was used up.
fn has_whole_own(rows: &[DebtEntry], object: &Object) -> bool
    ensures { result ≡ has_so debt_key is_whole_own rows.now object.now }
{
    rows.iter().any(|row| {
        row.object == *object && row.left == row.units && matches!(row.state, OutState::Own)
    })
}

/// Whether one of the rows has one of the objects.
fn has_any(list: &DebtList, objects: &[Object]) -> bool
    ensures { result ≡ list_any (has debt_key list.now.items) objects.now }
{
    objects.iter().any(|object| list.has(object))
}

/// Counts no more those of these rows that are taken back. Answers how many are left.
fn take_counts_back(
    counts: &mut BTreeMap<Object, u64>,
    rows: &[DebtEntry],
    objects: &[Object],
) -> usize
    ensures left { result ≡ length (filter (λ (d : DebtEntry). not (is_whole_listed objects.now d)) rows.now) }
    ensures counts { CountsWithout (filter (is_whole_listed objects.now) rows.now) counts.old.entries counts.new.entries }
{
    let mut left = 0;
    for row in rows {
        if is_whole_listed(row, objects) {
            take_count(counts, &row.object);
        } else {
            left += 1;
        }
    }
    left
}

/// Whether one of the rows has the object.
fn is_among(rows: &[DebtEntry], object: &Object) -> bool
    ensures { result ≡ has debt_key rows.now object.now }
{
    rows.iter().any(|row| row.object == *object)
}

/// How far the units use up the rows, the oldest first.
fn used_up(rows: &[DebtEntry], units: u32) -> Used
    ensures rows { result.rows ≤ length rows.now }
    ensures first { FirstHas result.units (drop result.rows rows.now) }
    ensures left { use_up units rows.now ≡ first_less result.units (drop result.rows rows.now) }
{
    let mut left = units;
    for place in 0..rows.len() {
        let row = rows[place];
        if left == 0 || left < row.left {
            return Used {
                rows: place,
                units: left,
            };
        }
        left -= row.left;
    }
    Used {
        rows: rows.len(),
        units: left,
    }
}

/// The first row loses units, if there is one.
fn use_first(rows: &mut Vec<DebtEntry>, units: u32)
    requires { FirstHas units rows.old.items }
    ensures items { rows.new.items ≡ first_less units rows.old.items }
    ensures capacity { vec_capacity rows.new ≡ vec_capacity rows.old }
{
    if rows.is_empty() {
        return;
    }
    rows[0].left -= units;
}

/// Adds a row, for which there is room.
fn push_row<D: Copy>(rows: &mut Vec<D>, row: &D)
    requires { vec_len rows.old < vec_capacity rows.old }
    ensures items { rows.new.items ≡ rows.old.items ++ row.now ∷ [] }
    ensures capacity { vec_capacity rows.new ≡ vec_capacity rows.old }
{
    rows.push_reserved(*row);
}

/// Takes the first rows out.
fn drop_first(rows: &mut Vec<DebtEntry>, count: usize)
    requires { count ≤ length rows.old.items }
    ensures items { rows.new.items ≡ drop count rows.old.items }
    ensures capacity { vec_capacity rows.new ≡ vec_capacity rows.old }
{
    let left = rows.len() - count;
    rows.rotate_left(count);
    rows.truncate(left);
}

/// The row, with the state if it is one of the slot.
fn with_state(row: &DebtEntry, slot: u32, state: &OutState) -> DebtEntry
    ensures { result ≡ (if object_eq row.now.object (Slot slot) then record row.now { state = state.now } else row.now) }
{
    if row.object != Object::Slot(slot) {
        return *row;
    }
    DebtEntry {
        object: row.object,
        units: row.units,
        left: row.left,
        cause: row.cause,
        declined: row.declined,
        state: *state,
    }
}

/// Sets the state of the rows of the slot.
fn set_states(rows: &mut Vec<DebtEntry>, slot: u32, state: OutState)
    ensures items { rows.new.items ≡ map (λ (d : DebtEntry). if object_eq d.object (Slot slot) then record d { state = state } else d) rows.old.items }
    ensures capacity { vec_capacity rows.new ≡ vec_capacity rows.old }
{
    for place in 0..rows.len() {
        let row = with_state(&rows[place], slot, &state);
        rows[place] = row;
    }
}

impl Model for DebtList {
    ghost use Rattle.std.specs.Prelude.{◌-◌, vec_len, vec_capacity};
    ghost use Rattle.psb_model.specs.declared.entries.DebtEntry.{DebtEntry};
    ghost use Rattle.peer_lists.specs.ListViews.{ListView};
    ghost use Rattle.peer_debts.specs.Debts.{KnowsCounts};

    ghost Value = { ListView DebtEntry };

    ghost view = { λ l. record { items = l.rows.items; room = vec_capacity l.rows - vec_len l.rows } };

    ghost invariant = { λ l. KnowsCounts l.rows.items l.counts.entries l.counted };
}

impl DebtList {
    /// Takes no memory.
    pub fn new(alloc: Global) -> DebtList
        ensures { result.items ≡ [] }
    {
        DebtList {
            rows: Vec::new(alloc),
            counts: BTreeMap::new(alloc),
            counted: 0,
        }
    }

    /// The rows in order of booking.
    pub fn as_slice(&self) -> &[DebtEntry]
        ensures { result.now ≡ self.now.items }
    {
        self.rows.as_slice()
    }

    /// Whether the object is owed.
    pub fn has(&self, object: &Object) -> bool
        ensures { result ≡ has debt_key self.now.items object.now }
    {
        count_of(&self.counts, object) > 0 || is_among(&self.rows[self.counted..], object)
    }

    /// Whether the object is owed, and nothing of it was used up.
    pub fn has_whole(&self, object: &Object) -> bool
        ensures { result ≡ has_so debt_key is_whole self.now.items object.now }
    {
        self.has(object) && has_whole(self.rows.as_slice(), object)
    }

    /// Whether the object is owed as an own slot, and nothing of it was used up.
    pub fn has_whole_own(&self, object: &Object) -> bool
        ensures { result ≡ has_so debt_key is_whole_own self.now.items object.now }
    {
        self.has(object) && has_whole_own(self.rows.as_slice(), object)
    }

    /// How many rows are listed, of which nothing was used up.
    pub fn count_whole(&self, objects: &[Object]) -> usize
        ensures { result ≡ length (filter (is_whole_listed objects.now) self.now.items) }
    {
        if !has_any(self, objects) {
            return 0;
        }
        count_whole(self.rows.as_slice(), objects)
    }

    /// Makes room for so many rows.
    pub fn reserve(&mut self, count: usize) -> Result<(), Memory>
        ensures items { self.new.items ≡ self.old.items }
        ensures room { OnOk result (count ≤ self.new.room) }
    {
        count_rows(&mut self.counts, self.rows.as_slice(), &mut self.counted)?;
        self.rows.try_reserve(count)?;
        Ok(())
    }

    /// Books a row behind the others.
    pub fn book(&mut self, row: DebtEntry)
        requires room { 1 ≤ self.old.room }
        ensures items { self.new.items ≡ self.old.items ++ row ∷ [] }
        ensures room { self.old.room ≤ self.new.room + 1 }
    {
        push_row(&mut self.rows, &row);
    }

    /// Takes out the rows that are listed and of which nothing was used up: the peer has these objects again.
    pub fn take_back(&mut self, objects: &[Object])
        ensures items { self.new.items ≡ filter (λ (d : DebtEntry). not (is_whole_listed objects.now d)) self.old.items }
        ensures room { self.old.room ≤ self.new.room }
    {
        let counted = take_counts_back(&mut self.counts, &self.rows[..self.counted], objects);
        self.rows.retain(|row| !is_whole_listed(row, objects));
        self.counted = counted;
    }

    /// Uses up so many units, of the oldest rows first. A row with nothing left is gone.
    pub fn use_up(&mut self, units: u32)
        ensures items { self.new.items ≡ use_up units self.old.items }
        ensures room { self.old.room ≤ self.new.room }
    {
        let used = used_up(self.rows.as_slice(), units);
        let gone = used.rows.min(self.counted);
        take_counts(&mut self.counts, &self.rows[..gone]);
        drop_first(&mut self.rows, used.rows);
        use_first(&mut self.rows, used.units);
        self.counted -= gone;
    }

    /// Sets the state of the rows of the slot.
    pub fn set_state(&mut self, slot: u32, state: OutState)
        ensures items { self.new.items ≡ map (λ (d : DebtEntry). if object_eq d.object (Slot slot) then record d { state = state } else d) self.old.items }
        ensures room { self.new.room ≡ self.old.room }
    {
        if self.has(&Object::Slot(slot)) {
            set_states(&mut self.rows, slot, state);
        }
    }
}
