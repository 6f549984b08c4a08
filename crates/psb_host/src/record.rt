//! The calls that were made, kept where clauses alone can read them.
ghost use Rattle.std.specs.Prelude.{◌≡◌, List, [], ◌∷◌};
ghost use Rattle.std.specs.Borrow.{ftrue};
ghost use Rattle.psb_host.specs.Noted.{Event, event_of};

use crate::call::Call;
use std::marker::{Model, PhantomData};

/// A list of calls with their answers, the newest first. It takes no memory, so no code can read it.
/// What is noted is a value of the code, and no ghost, so the list depends on nothing else.
#[derive(Drop)]
pub(crate) struct Record {
    none: PhantomData<u8>,
    pub ghost events: { List Event },
}

impl Model for Record {
    ghost also_owns = { λ _. ftrue };
}

impl Record {
    /// No call yet.
    pub(crate) fn new() -> Record
        ensures { result.events ≡ [] }
    {
        Record { none: PhantomData }
    }

    /// One call more.
    pub(crate) fn note(&mut self, _call: &Call<'_>)
        ensures { self.new.events ≡ event_of _call.now ∷ self.old.events }
    {}
}
