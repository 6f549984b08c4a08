//! Entries of both kinds, by their objects and what they say of them.

ghost use Rattle.std.specs.Prelude.{◌≡◌, Bool};
ghost use Rattle.psb_bytes.specs.declared.ids.Object.{Object};

use psb_bytes::Object;
use psb_model::{InEntry, InState, OutEntry, OutState};
use slot_runs::Said;

/// What an entry says of its object: its units, and where it stands.
#[derive(Clone, Copy)]
pub struct Holding<S> {
    pub units: u32,
    pub state: S,
}

/// Which of the slots that the node answers for are sought, by their states.
#[derive(Clone, Copy, PartialEq, Eq, Debug)]
pub enum InTest {
    Direct,
    DirectOrHome,
}

/// Which of the slots that the node has on a peer are sought, by their states.
#[derive(Clone, Copy, PartialEq, Eq, Debug)]
pub enum OutTest {
    Own,
    Loose,
}

impl Said for Holding<InState> {
    fn is_same(&self, other: &Holding<InState>) -> bool {
        self.units == other.units && self.state == other.state
    }
}

impl Said for Holding<OutState> {
    fn is_same(&self, other: &Holding<OutState>) -> bool {
        self.units == other.units && self.state == other.state
    }
}

/// An entry, which a tree keeps in two parts.
pub trait Entry: Copy {
    type Rest: Said;

    type Test;

    ghost key: { Self → Object };

    ghost joined: { Object → Self.Rest → Self };

    ghost passes: { Self.Test → Self → Bool };

    fn object(&self) -> &Object
        ensures { result.now ≡ key self.now };

    fn rest(&self) -> Self::Rest
        ensures { joined (key self.now) result ≡ self.now };

    fn join(object: Object, rest: Self::Rest) -> Self
        ensures { result ≡ joined object rest };

    /// Whether entries of which this is said pass the test.
    fn passes(test: &Self::Test, rest: &Self::Rest) -> bool
        ensures { (o : Object) → result ≡ passes test.now (joined o rest.now) };

    ghost key_joined: { (o : Object) (r : Self.Rest) → key (joined o r) ≡ o };
}

impl Entry for InEntry {
    type Rest = Holding<InState>;

    type Test = InTest;

    ghost use Rattle.std.specs.Prelude.{refl};
    ghost use Rattle.psb_model.specs.State.{in_key};
    ghost use Rattle.peer_lists.specs.Joined.{in_joined};
    ghost use Rattle.peer_lists.specs.Sought.{in_passes};

    ghost key = { in_key };

    ghost joined = { in_joined };

    ghost passes = { in_passes };

    ghost key_joined = { λ o r. refl };

    fn object(&self) -> &Object {
        &self.object
    }

    fn rest(&self) -> Holding<InState> {
        Holding {
            units: self.units,
            state: self.state,
        }
    }

    fn join(object: Object, rest: Holding<InState>) -> InEntry {
        InEntry {
            object,
            units: rest.units,
            state: rest.state,
        }
    }

    fn passes(test: &InTest, rest: &Holding<InState>) -> bool {
        match test {
            InTest::Direct => matches!(rest.state, InState::Direct),
            InTest::DirectOrHome => matches!(rest.state, InState::Direct | InState::Home(_)),
        }
    }
}

impl Entry for OutEntry {
    type Rest = Holding<OutState>;

    type Test = OutTest;

    ghost use Rattle.std.specs.Prelude.{refl};
    ghost use Rattle.psb_model.specs.State.{out_key};
    ghost use Rattle.peer_lists.specs.Joined.{out_joined};
    ghost use Rattle.peer_lists.specs.Sought.{out_passes};

    ghost key = { out_key };

    ghost joined = { out_joined };

    ghost passes = { out_passes };

    ghost key_joined = { λ o r. refl };

    fn object(&self) -> &Object {
        &self.object
    }

    fn rest(&self) -> Holding<OutState> {
        Holding {
            units: self.units,
            state: self.state,
        }
    }

    fn join(object: Object, rest: Holding<OutState>) -> OutEntry {
        OutEntry {
            object,
            units: rest.units,
            state: rest.state,
        }
    }

    fn passes(test: &OutTest, rest: &Holding<OutState>) -> bool {
        match test {
            OutTest::Own => matches!(rest.state, OutState::Own),
            OutTest::Loose => matches!(rest.state, OutState::Loose),
        }
    }
}
