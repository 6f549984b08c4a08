//! Runs: slots with consecutive numbers of which the same is said.

ghost use Rattle.std.specs.Prelude.{◌≡◌, IsTrue, find};
ghost use Rattle.std.specs.Option.{option_copied};
ghost use Rattle.slot_runs.specs.Runs.{covers, rest_in};

/// The slots from `first` to `last`, and what is said of each.
#[derive(Clone, Copy)]
pub struct Run<R> {
    pub first: u32,
    pub last: u32,
    pub rest: R,
}

/// What is said of a slot, where two can be compared.
pub trait Said: Copy {
    fn is_same(&self, other: &Self) -> bool
        ensures same { IsTrue result → self.now ≡ other.now }
        ensures all { self.now ≡ other.now → IsTrue result };
}

impl Said for u64 {
    fn is_same(&self, other: &u64) -> bool {
        *self == *other
    }
}

/// Whether the run has the number.
pub(crate) fn covers<R: Copy>(run: &Run<R>, number: u32) -> bool
    ensures { result ≡ covers run.now number }
{
    run.first <= number && number <= run.last
}

/// What is said of the number by the first of the runs that has it.
pub(crate) fn rest_in<R: Copy>(runs: &[Run<R>], number: u32) -> Option<R>
    ensures { result ≡ rest_in runs.now number }
{
    run_in(runs, number).map(|run| run.rest)
}

/// The first of the runs that has the number.
fn run_in<R: Copy>(runs: &[Run<R>], number: u32) -> Option<&Run<R>>
    ensures { option_copied result ≡ find (λ r. covers r number) runs.now }
{
    runs.iter().find(|run| covers(run, number))
}
