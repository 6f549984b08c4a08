//! Parts of runs, of which all slots are sought or none.

ghost use Rattle.std.specs.Prelude.{◌≡◌, ◌≤◌, ◌<◌, ◌+◌, ◌-◌, ◌^◌, ◌++◌, ℕ, true, not, find, nat_le, min, length, take, if◌then◌else◌, OnOk};
ghost use Rattle.std.specs.List.{slice_get};
ghost use Rattle.psb_bytes.specs.declared.ids.Object.TheVariants.{Slot};
ghost use Rattle.psb_model.specs.Grammar.{ascend};
ghost use Rattle.psb_model.specs.Words.{listed, slots};
ghost use Rattle.slot_runs.specs.Runs.{count_up};

use crate::run::Run;
use psb_bytes::Memory;

/// Slots with consecutive numbers of which the same is said, and whether they are sought.
#[derive(Clone, Copy)]
pub struct Part<R> {
    pub run: Run<R>,
    pub is_sought: bool,
}

/// Where the first of the numbers stands that is not below this one: behind them if all are.
fn place_from(numbers: &[u32], number: u32) -> usize
    requires { ascend numbers.now ≡ true }
    ensures { slice_get numbers.now result ≡ find (λ n. nat_le number n) numbers.now }
{
    numbers.partition_point(|n| *n < number)
}

/// The first of the numbers that is not below this one.
fn first_from(numbers: &[u32], number: u32) -> Option<u32>
    requires { ascend numbers.now ≡ true }
    ensures { result ≡ find (λ n. nat_le number n) numbers.now }
{
    numbers.get(place_from(numbers, number)).copied()
}

/// The run up to this number, which is not behind its end.
fn up_to<R: Copy>(run: &Run<R>, last: u32, is_sought: bool) -> Part<R>
    ensures run { result.run ≡ record run.now { last = last } }
    ensures sought { result.is_sought ≡ is_sought }
{
    Part {
        run: Run {
            first: run.first,
            last,
            rest: run.rest,
        },
        is_sought,
    }
}

/// The first part of a run whose slots are sought but for those of these numbers.
pub fn part_of<R: Copy>(run: &Run<R>, but: &[u32]) -> Part<R>
    requires run { run.now.first ≤ run.now.last }
    requires ascend { ascend but.now ≡ true }
    ensures first { result.run.first ≡ run.now.first }
    ensures last { (run.now.first ≤ result.run.last) × (result.run.last ≤ run.now.last) }
    ensures rest { result.run.rest ≡ run.now.rest }
    ensures sought { (n : ℕ) → run.now.first ≤ n → n ≤ result.run.last → listed (slots but.now) (Slot n) ≡ not result.is_sought }
{
    match first_from(but, run.first) {
        None => up_to(run, run.last, true),
        Some(other) => {
            if other == run.first {
                up_to(run, other, false)
            } else {
                up_to(run, run.last.min(other.saturating_sub(1)), true)
            }
        }
    }
}

/// Adds so many numbers from the first on.
fn push_run(numbers: &mut Vec<u32>, first: u32, count: u64) -> Result<(), Memory>
    requires { first + count ≤ 2 ^ 32 }
    ensures { OnOk result (numbers.new.items ≡ numbers.old.items ++ count_up first count) }
{
    for offset in 0..count {
        numbers.push((u64::from(first) + offset) as u32)?;
    }
    Ok(())
}

impl<R: Copy> Part<R> {
    /// How many slots are sought.
    pub fn count(&self) -> u64
        requires { self.now.run.first ≤ self.now.run.last }
        ensures count { result ≡ (if self.now.is_sought then self.now.run.last + 1 - self.now.run.first else 0) }
        ensures fits { self.now.run.first + result ≤ 2 ^ 32 }
    {
        let first = u64::from(self.run.first);
        let last = u64::from(self.run.last);
        if self.is_sought { last + 1 - first } else { 0 }
    }

    /// Adds the numbers of the slots that are sought, until there are `most`.
    pub fn push_to(&self, numbers: &mut Vec<u32>, most: usize) -> Result<(), Memory>
        requires { self.now.run.first ≤ self.now.run.last }
        ensures { OnOk result (numbers.new.items ≡ numbers.old.items ++ count_up self.now.run.first (min (if self.now.is_sought then self.now.run.last + 1 - self.now.run.first else 0) (most - length numbers.old.items))) }
    {
        let room = most.saturating_sub(numbers.len()) as u64;
        push_run(numbers, self.run.first, self.count().min(room))
    }
}
