//! What changes the states of entries in an account: a claim is forwarded or found home, and the slot
//! that carries it is given to it, or comes loose.

ghost use Rattle.std.specs.Prelude.{◌≡◌, ℕ, ◌+◌, ◌^◌, ◌<◌, ◌≤◌, OnOk, [], ◌∷◌, Some, option_to_list, slice_get};
ghost use Rattle.psb_bytes.specs.declared.ids.Object.TheVariants.{Slot};
ghost use Rattle.psb_model.specs.Words.{only, has_so};
ghost use Rattle.psb_model.specs.State.{in_key, out_key};
ghost use Rattle.psb_model.specs.Conditions.{is_loose};
ghost use Rattle.psb_model.specs.Effects.{relabel_in, relabel_out, loose_at};
ghost use Rattle.peer_account.specs.States.{seat_of, seats, is_forwarded, given};

use super::Account;
use psb_bytes::{Memory, Object, Seat};
use psb_model::{DealWhat, InState, OutEntry, OutState};

/// The seat that an entry of this state is forwarded to.
fn seat_of(state: InState) -> Option<Seat>
    ensures { result ≡ seat_of state }
{
    match state {
        InState::Forwarded(seat) => Some(seat),
        _ => None,
    }
}

/// Whether the entry carried a forwarded claim that is there no more.
fn is_freed(entry: &OutEntry) -> bool
    ensures { result ≡ is_loose entry.now }
{
    matches!(entry.state, OutState::Loose)
}

impl Account {
    /// Whether the node has a slot there on the peer that carried a forwarded claim, and has come loose.
    pub fn is_loose(&self, object: &Object) -> bool
        ensures { result ≡ has_so out_key is_loose self.now.row.outs object.now }
    {
        let _back = self.back;
        match self.outs.get(object) {
            None => false,
            Some(entry) => is_freed(&entry),
        }
    }

    /// The seat at another peer that carries the bytes of what the node answers for at the object, None
    /// where it is not forwarded.
    pub fn forwarded(&self, object: &Object) -> Option<Seat>
        ensures { option_to_list result ≡ seats (only in_key (object.now ∷ []) self.now.row.ins) }
    {
        let _held = self.held;
        match self.ins.get(object) {
            None => None,
            Some(entry) => seat_of(entry.state),
        }
    }

    /// Whether what the node answers for at the object is forwarded.
    pub fn is_forwarded(&self, object: &Object) -> bool
        ensures { result ≡ is_forwarded self.now.row.ins object.now }
    {
        self.forwarded(object).is_some()
    }

    /// The slot at this place of those that a pending Cancel gives for its chunk.
    pub fn given(&self, place: usize) -> Option<u32>
        ensures slot { result ≡ slice_get (given self.now.row.pending) place }
        ensures fits { (n : ℕ) → result ≡ Some n → place + 1 < 2 ^ 64 }
    {
        match &self.pending()?.what {
            DealWhat::Cancel { slots, .. } => slots.as_slice().get(place).copied(),
            _ => None,
        }
    }

    /// Sets the state of the slot in what the node answers for, if it is there.
    pub fn set_in(&mut self, slot: u32, state: InState)
        requires { 2 ≤ self.old.in_room }
        ensures id { self.new.id ≡ self.old.id }
        ensures row { self.new.row ≡ relabel_in (Slot slot) state self.old.row }
    {
        self.ins.set_state(slot, state);
    }

    /// Sets the state of the slot in what the node has there, if it is there.
    pub fn set_out(&mut self, slot: u32, state: OutState)
        requires { 2 ≤ self.old.out_room }
        ensures id { self.new.id ≡ self.old.id }
        ensures row { self.new.row ≡ relabel_out (Slot slot) state self.old.row }
        ensures in_room { self.new.in_room ≡ self.old.in_room }
    {
        self.outs.set_state(slot, state);
    }

    /// The slot has come loose, in what the node has there and in what was lost of it.
    pub fn loosen(&mut self, slot: u32)
        requires { 2 ≤ self.old.out_room }
        ensures id { self.new.id ≡ self.old.id }
        ensures row { self.new.row ≡ loose_at slot self.old.row }
        ensures in_room { self.new.in_room ≡ self.old.in_room }
        ensures out_room { self.old.out_room ≤ self.new.out_room + 2 }
    {
        self.outs.set_state(slot, OutState::Loose);
        self.debts.set_state(slot, OutState::Loose);
    }
}
