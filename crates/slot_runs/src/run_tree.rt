//! The slots of a list, as runs in a tree.

ghost use Rattle.std.specs.Prelude.{◌≡◌, IsTrue, ◌≤◌, ◌<◌, ◌+◌, ◌==◌, ◌++◌, ◌∷◌, [], ℕ, find, true, false, if◌then◌else◌, vec_len, vec_capacity, OnOk, IfSome, IfNone, None, Some, nat_le, max, ◌-◌, position, option_to_list, is_some, IsSome, length, map, ◌*◌, ◌^◌, nat_lt};
ghost use Rattle.std.specs.List.{list_all};
ghost use Rattle.std.specs.BTreeMap.{IsOrdered, is_at, get, insert_entry};
ghost use Rattle.std.specs.Map.{remove_entry};
ghost use Rattle.std.specs.Ordering.{nat_cmp};
ghost use Rattle.slot_runs.specs.Runs.{covers, rest_in, less_first, in_front, behind, from_number, nearer, AreRuns, AreLongest, NoneBehind, NoneInFront, IsNext};
ghost use Rattle.psb_bytes.specs.declared.ids.Object.TheVariants.{Slot};
ghost use Rattle.psb_model.specs.Words.{listed, slots};

use crate::run::{Run, Said, covers, rest_in};
use psb_bytes::Memory;
use std::alloc::Global;
use std::collections::BTreeMap;
use std::ops::Bound;

/// What a run has beside its last number, by which a tree keeps it.
#[derive(Clone, Copy)]
pub(crate) struct Stretch<R> {
    first: u32,
    rest: R,
}

/// The runs by their last numbers in a tree, each as long as it can be, and beside it the latest: a tree
/// takes memory where it grows, so these go in, joined with those next to them, when room is made for more.
/// A slot is found in steps that grow with the logarithm of the runs, and one for each run beside the tree.
#[derive(Drop)]
pub struct SlotRuns<R> {
    tree: BTreeMap<u32, Stretch<R>>,
    latest: Vec<Run<R>>,
}

/// The part of the run from the number on, if there is one.
fn from_number<R: Copy>(run: Option<Run<R>>, number: u32) -> Option<Run<R>>
    ensures { result ≡ from_number number run }
{
    match run {
        Some(run) if number <= run.last => Some(Run {
            first: run.first.max(number),
            last: run.last,
            rest: run.rest,
        }),
        _ => None,
    }
}

/// The one of two runs that begins first.
fn nearer<R: Copy>(a: Option<Run<R>>, b: Option<Run<R>>) -> Option<Run<R>>
    ensures { result ≡ nearer a b }
{
    let Some(x) = a else { return b };
    let Some(y) = b else { return Some(x) };
    if y.first < x.first { Some(y) } else { Some(x) }
}

/// A slot by itself.
fn run_of<R: Copy>(number: u32, rest: R) -> Run<R>
    ensures { result ≡ record { first = number; last = number; rest = rest } }
{
    Run {
        first: number,
        last: number,
        rest,
    }
}

/// Where the first of the runs stands that has the number.
fn place_of<R: Copy>(runs: &[Run<R>], number: u32) -> Option<usize>
    ensures { result ≡ position (λ r. covers r number) runs.now }
{
    runs.iter().position(|run| covers(run, number))
}

/// Takes the first of the runs that has the number out of them.
fn take_from<R: Copy>(runs: &mut Vec<Run<R>>, number: u32) -> Option<Run<R>>
    ensures run { result ≡ find (λ r. covers r number) runs.old.items }
    ensures left { runs.new.items ≡ less_first (λ r. covers r number) runs.old.items }
    ensures room { vec_capacity runs.old - vec_len runs.old + (if is_some result then 1 else 0) ≤ vec_capacity runs.new - vec_len runs.new }
{
    match place_of(runs.as_slice(), number) {
        None => None,
        Some(place) => Some(runs.remove(place)),
    }
}

/// The part of the run in front of the number, if there is one.
fn in_front<R: Copy>(run: &Run<R>, number: u32) -> Option<Run<R>>
    ensures { option_to_list result ≡ in_front run.now number }
{
    (run.first < number).then_some(Run {
        first: run.first,
        last: number.saturating_sub(1),
        rest: run.rest,
    })
}

/// The part of the run behind the number, if there is one.
fn behind<R: Copy>(run: &Run<R>, number: u32) -> Option<Run<R>>
    ensures { option_to_list result ≡ behind run.now number }
{
    (number < run.last).then_some(Run {
        first: number.saturating_add(1),
        last: run.last,
        rest: run.rest,
    })
}

/// Whether the second run stands behind the first, and says the same.
fn goes_on<R: Said>(run: &Run<R>, next: &Run<R>) -> bool
    ensures same { IsTrue result → (run.now.last < next.now.first) × (run.now.rest ≡ next.now.rest) }
    ensures all { (run.now.last < next.now.first) × (run.now.rest ≡ next.now.rest) → IsTrue result }
{
    run.last < next.first && run.rest.is_same(&next.rest)
}

/// Whether the second run begins right behind the first, and says the same.
fn is_followed<R: Said>(run: &Run<R>, next: &Run<R>) -> bool
    ensures { IsTrue result → (next.now.first ≡ run.now.last + 1) × (run.now.rest ≡ next.now.rest) }
{
    goes_on(run, next) && next.first == run.last.saturating_add(1)
}

/// The two runs as one.
fn joined<R: Copy>(run: &Run<R>, next: &Run<R>) -> Run<R>
    ensures { result ≡ record run.now { last = next.now.last } }
{
    Run {
        first: run.first,
        last: next.last,
        rest: run.rest,
    }
}

impl<R: Said> SlotRuns<R> {
    ghost use Rattle.slot_runs.specs.SlotRuns.{runs, tree_runs, runs_room, IsKept};

    /// Takes no memory.
    pub fn new(alloc: Global) -> SlotRuns<R>
        ensures runs { runs result ≡ [] }
        ensures kept { IsKept result }
    {
        SlotRuns {
            tree: BTreeMap::new(alloc),
            latest: Vec::new(alloc),
        }
    }

    /// The first run in the tree that ends at the number or behind it.
    fn next_in_tree(&self, number: u32) -> Option<Run<R>>
        ensures run { result ≡ find (λ r. nat_le number r.last) (tree_runs self.now) }
        ensures ordered { IsOrdered nat_cmp self.now.tree }
    {
        let from = (Bound::Included(number), Bound::Unbounded);
        let (last, stretch) = self.tree.range(from).next()?;
        Some(Run {
            first: stretch.first,
            last: *last,
            rest: stretch.rest,
        })
    }

    /// The run in the tree that has the number.
    fn in_tree(&self, number: u32) -> Option<Run<R>>
        requires { AreRuns (runs self.now) }
        ensures run { result ≡ find (λ r. covers r number) (tree_runs self.now) }
        ensures ordered { IsOrdered nat_cmp self.now.tree }
    {
        let run = self.next_in_tree(number)?;
        if covers(&run, number) {
            Some(run)
        } else {
            None
        }
    }

    /// What is said of the slot, if it is there.
    pub fn get(&self, number: u32) -> Option<R>
        requires { AreRuns (runs self.now) }
        ensures { result ≡ rest_in (runs self.now) number }
    {
        match self.in_tree(number) {
            Some(run) => Some(run.rest),
            None => rest_in(self.latest.as_slice(), number),
        }
    }

    /// Puts a run in.
    pub fn add(&mut self, run: Run<R>)
        requires { 1 ≤ runs_room self.old }
        ensures runs { runs self.new ≡ runs self.old ++ run ∷ [] }
        ensures tree { self.new.tree ≡ self.old.tree }
        ensures latest { self.new.latest.items ≡ self.old.latest.items ++ run ∷ [] }
        ensures room { runs_room self.old ≤ runs_room self.new + 1 }
    {
        self.latest.push(run).unwrap();
    }

    /// Puts a run in, if there is one.
    fn add_some(&mut self, run: Option<Run<R>>)
        requires { 1 ≤ runs_room self.old }
        ensures runs { runs self.new ≡ runs self.old ++ option_to_list run }
        ensures tree { self.new.tree ≡ self.old.tree }
        ensures latest { self.new.latest.items ≡ self.old.latest.items ++ option_to_list run }
        ensures room { runs_room self.old ≤ runs_room self.new + 1 }
    {
        if let Some(run) = run {
            self.add(run);
        }
    }

    /// Takes the slot out, if it is there. What is left of its run takes the room of one more.
    pub fn remove(&mut self, number: u32)
        requires kept { IsKept self.old }
        requires room { 1 ≤ runs_room self.old }
        ensures kept { IsKept self.new }
        ensures rest { (n : ℕ) → rest_in (runs self.new) n ≡ (if n == number then None else rest_in (runs self.old) n) }
        ensures room { runs_room self.old ≤ runs_room self.new + 1 }
    {
        match self.in_tree(number) {
            Some(run) => self.cut_in_tree(&run, number),
            None => self.cut_beside(number),
        }
    }

    /// Takes the slot out of the run in the tree that has it. The part in front of it goes beside the tree.
    fn cut_in_tree(&mut self, run: &Run<R>, number: u32)
        requires kept { IsKept self.old }
        requires room { 1 ≤ runs_room self.old }
        requires run { Some run.now ≡ find (λ r. covers r number) (tree_runs self.old) }
        requires ordered { IsOrdered nat_cmp self.old.tree }
        ensures kept { IsKept self.new }
        ensures rest { (n : ℕ) → rest_in (runs self.new) n ≡ (if n == number then None else rest_in (runs self.old) n) }
        ensures room { runs_room self.old ≤ runs_room self.new + 1 }
    {
        self.add_some(in_front(run, number));
        match behind(run, number) {
            Some(left) => self.put_over(&left),
            None => self.take_out(run),
        }
    }

    /// Takes the slot out of the run beside the tree that has it, if there is one.
    fn cut_beside(&mut self, number: u32)
        requires kept { IsKept self.old }
        requires room { 1 ≤ runs_room self.old }
        requires none { find (λ r. covers r number) (tree_runs self.old) ≡ None }
        ensures kept { IsKept self.new }
        ensures rest { (n : ℕ) → rest_in (runs self.new) n ≡ (if n == number then None else rest_in (runs self.old) n) }
        ensures room { runs_room self.old ≤ runs_room self.new + 1 }
    {
        if let Some(run) = take_from(&mut self.latest, number) {
            self.add_some(in_front(&run, number));
            self.add_some(behind(&run, number));
        }
    }

    /// Puts a run into the tree in the place of the one that ends where it does, which takes no memory.
    fn put_over(&mut self, run: &Run<R>)
        requires { IsSome (get nat_cmp self.old.tree run.now.last) }
        ensures entries { self.new.tree.entries ≡ insert_entry nat_cmp self.old.tree.entries run.now.last (record { first = run.now.first; rest = run.now.rest }) }
        ensures latest { self.new.latest ≡ self.old.latest }
    {
        let stretch = Stretch {
            first: run.first,
            rest: run.rest,
        };
        // Only a new key takes memory.
        match self.tree.insert(run.last, stretch) {
            Ok(_) => (),
            Err(_) => (),
        }
    }

    /// Says this of the slot, whether it was there or not. That takes the room of two runs.
    pub fn put(&mut self, number: u32, rest: R)
        requires kept { IsKept self.old }
        requires room { 2 ≤ runs_room self.old }
        ensures kept { IsKept self.new }
        ensures rest { (n : ℕ) → rest_in (runs self.new) n ≡ (if n == number then Some rest else rest_in (runs self.old) n) }
        ensures room { runs_room self.old ≤ runs_room self.new + 2 }
    {
        self.remove(number);
        let run = self.with_latest(run_of(number, rest));
        self.add(run);
    }

    /// The run, and the latest one, if it goes on from that one: so slots that come one after another wait
    /// as one run.
    fn with_latest(&mut self, run: Run<R>) -> Run<R>
        requires { AreRuns (runs self.old ++ run ∷ []) }
        ensures runs { AreRuns (runs self.new ++ result ∷ []) }
        ensures rest { (n : ℕ) → rest_in (runs self.new ++ result ∷ []) n ≡ rest_in (runs self.old ++ run ∷ []) n }
        ensures tree { self.new.tree ≡ self.old.tree }
        ensures room { runs_room self.old ≤ runs_room self.new }
    {
        let Some(latest) = self.latest.pop() else {
            return run;
        };
        if is_followed(&latest, &run) {
            return joined(&latest, &run);
        }
        self.add(latest);
        run
    }

    /// Takes a run out of the tree.
    fn take_out(&mut self, run: &Run<R>)
        ensures entries { self.new.tree.entries ≡ remove_entry (is_at (nat_cmp run.now.last)) self.old.tree.entries }
        ensures latest { self.new.latest ≡ self.old.latest }
    {
        self.tree.remove(&run.last);
    }

    /// The run, and the one in the tree that goes on from it, if both say the same: it leaves the tree.
    fn with_next(&mut self, run: Run<R>) -> Run<R>
        requires runs { AreRuns (runs self.old ++ run ∷ []) }
        requires longest { AreLongest (tree_runs self.old) }
        ensures runs { AreRuns (runs self.new ++ result ∷ []) }
        ensures longest { AreLongest (tree_runs self.new) }
        ensures rest { (n : ℕ) → rest_in (runs self.new ++ result ∷ []) n ≡ rest_in (runs self.old ++ run ∷ []) n }
        ensures latest { self.new.latest ≡ self.old.latest }
        ensures behind { NoneBehind (tree_runs self.new) result }
    {
        let Some(next) = self.in_tree(run.last.saturating_add(1)) else {
            return run;
        };
        if !goes_on(&run, &next) {
            return run;
        }
        self.take_out(&next);
        joined(&run, &next)
    }

    /// The run, and the one in the tree that ends in front of it, if both say the same: it leaves the
    /// tree.
    fn with_before(&mut self, run: Run<R>) -> Run<R>
        requires runs { AreRuns (runs self.old ++ run ∷ []) }
        requires longest { AreLongest (tree_runs self.old) }
        requires behind { NoneBehind (tree_runs self.old) run }
        ensures runs { AreRuns (runs self.new ++ result ∷ []) }
        ensures longest { AreLongest (tree_runs self.new) }
        ensures rest { (n : ℕ) → rest_in (runs self.new ++ result ∷ []) n ≡ rest_in (runs self.old ++ run ∷ []) n }
        ensures latest { self.new.latest ≡ self.old.latest }
        ensures behind { NoneBehind (tree_runs self.new) result }
        ensures front { NoneInFront (tree_runs self.new) result }
    {
        let Some(before) = self.in_tree(run.first.saturating_sub(1)) else {
            return run;
        };
        if !goes_on(&before, &run) {
            return run;
        }
        self.take_out(&before);
        joined(&before, &run)
    }

    /// Moves the latest run into the tree, joined with those next to it. Where there is no memory all
    /// say what they said.
    fn settle_one(&mut self, run: Run<R>) -> Result<(), Memory>
        requires runs { AreRuns (runs self.old ++ run ∷ []) }
        requires longest { AreLongest (tree_runs self.old) }
        requires room { 1 ≤ runs_room self.old }
        ensures kept { IsKept self.new }
        ensures rest { (n : ℕ) → rest_in (runs self.new) n ≡ rest_in (runs self.old ++ run ∷ []) n }
        ensures latest { OnOk result (self.new.latest ≡ self.old.latest) }
    {
        let run = self.with_next(run);
        let run = self.with_before(run);
        let stretch = Stretch {
            first: run.first,
            rest: run.rest,
        };
        match self.tree.insert(run.last, stretch) {
            Ok(_) => Ok(()),
            Err(_) => {
                self.add(run);
                Err(Memory)
            }
        }
    }

    /// Moves the latest runs into the tree.
    fn settle(&mut self) -> Result<(), Memory>
        requires kept { IsKept self.old }
        ensures kept { IsKept self.new }
        ensures rest { (n : ℕ) → rest_in (runs self.new) n ≡ rest_in (runs self.old) n }
        ensures all { OnOk result (self.new.latest.items ≡ []) }
    {
        while let Some(run) = self.latest.pop() {
            self.settle_one(run)?;
        }
        Ok(())
    }

    /// Makes room for so many runs. All are as long as they can be then.
    pub fn reserve(&mut self, count: usize) -> Result<(), Memory>
        requires kept { IsKept self.old }
        ensures kept { IsKept self.new }
        ensures rest { (n : ℕ) → rest_in (runs self.new) n ≡ rest_in (runs self.old) n }
        ensures room { OnOk result (count ≤ runs_room self.new) }
        ensures all { OnOk result (AreLongest (runs self.new)) }
    {
        self.settle()?;
        self.latest.try_reserve(count)?;
        Ok(())
    }

    /// The first slot from the number on, with the rest of its run.
    pub fn next(&self, number: u32) -> Option<Run<R>>
        requires { AreRuns (runs self.now) }
        ensures { IsNext (runs self.now) number result }
    {
        let mut next = from_number(self.next_in_tree(number), number);
        for run in self.latest.as_slice() {
            next = nearer(next, from_number(Some(*run), number));
        }
        next
    }

    /// Puts in slots one by one, of which the same is said. Each takes the room of one run.
    pub fn add_each(&mut self, numbers: &[u32], rest: R)
        requires { length numbers.now ≤ runs_room self.old }
        ensures runs { runs self.new ≡ runs self.old ++ map (λ n. record { first = n; last = n; rest = rest }) numbers.now }
        ensures tree { self.new.tree ≡ self.old.tree }
        ensures small { list_all (λ n. nat_lt n (2 ^ 32)) numbers.now ≡ true }
        ensures room { runs_room self.old ≤ runs_room self.new + length numbers.now }
    {
        for number in numbers {
            self.add(run_of(*number, rest));
        }
    }

    /// Takes the slots out that are there. Each takes the room of one run.
    pub fn remove_each(&mut self, numbers: &[u32])
        requires kept { IsKept self.old }
        requires room { length numbers.now ≤ runs_room self.old }
        ensures kept { IsKept self.new }
        ensures rest { (n : ℕ) → rest_in (runs self.new) n ≡ (if listed (slots numbers.now) (Slot n) then None else rest_in (runs self.old) n) }
        ensures room { runs_room self.old ≤ runs_room self.new + length numbers.now }
    {
        for number in numbers {
            self.remove(*number);
        }
    }

    /// Says the same of each of these slots, whether they were there or not. Each takes the room of two runs.
    pub fn put_each(&mut self, numbers: &[u32], rest: R)
        requires kept { IsKept self.old }
        requires room { 2 * length numbers.now ≤ runs_room self.old }
        ensures kept { IsKept self.new }
        ensures rest { (n : ℕ) → rest_in (runs self.new) n ≡ (if listed (slots numbers.now) (Slot n) then Some rest else rest_in (runs self.old) n) }
        ensures room { runs_room self.old ≤ runs_room self.new + 2 * length numbers.now }
    {
        for number in numbers {
            self.put(*number, rest);
        }
    }
}
