//! What an account says of an object: whether it is there, in which state, and of how many units.

ghost use Rattle.std.specs.Prelude.{◌≡◌, not};
ghost use Rattle.psb_bytes.specs.declared.ids.Object.TheVariants.{Slot};
ghost use Rattle.psb_model.specs.Words.{has, has_so, units_at};
ghost use Rattle.psb_model.specs.State.{in_key, in_size, out_key, out_size, debt_key};
ghost use Rattle.psb_model.specs.Conditions.{carries_none, is_direct, is_direct_or_home, is_own, may_ask};

use super::Account;
use psb_bytes::Object;
use psb_model::{InEntry, InState, OutEntry, OutState};

/// Whether the entry is of a claim whose bytes are here.
fn is_here(entry: &InEntry) -> bool
    ensures { result ≡ is_direct entry.now }
{
    matches!(entry.state, InState::Direct)
}

/// Whether the entry is of a claim whose bytes are here, or that has come home as an own one.
fn is_ready(entry: &InEntry) -> bool
    ensures { result ≡ is_direct_or_home entry.now }
{
    matches!(entry.state, InState::Direct | InState::Home(_))
}

/// Whether the entry is an own claim.
fn is_claim(entry: &OutEntry) -> bool
    ensures { result ≡ is_own entry.now }
{
    matches!(entry.state, OutState::Own)
}

/// Whether the entry carries no forwarded claim.
fn is_free(entry: &OutEntry) -> bool
    ensures { result ≡ carries_none entry.now }
{
    !matches!(entry.state, OutState::Carries(_))
}

impl Account {
    /// Whether the node answers for the object to the peer.
    pub fn has(&self, object: &Object) -> bool
        ensures { result ≡ has in_key self.now.row.ins object.now }
    {
        let _held = self.held;
        self.ins.get(object).is_some()
    }

    /// The units of the object in what the node answers for to the peer, 0 where it is not there.
    pub fn units_held(&self, object: &Object) -> u32
        ensures { result ≡ units_at in_key in_size self.now.row.ins object.now }
    {
        let _held = self.held;
        match self.ins.get(object) {
            None => 0,
            Some(entry) => entry.units,
        }
    }

    /// Whether the node answers to the peer for a claim in this slot whose bytes are here.
    pub fn is_direct(&self, slot: u32) -> bool
        ensures { result ≡ has_so in_key is_direct self.now.row.ins (Slot slot) }
    {
        let _held = self.held;
        match self.ins.get(&Object::Slot(slot)) {
            None => false,
            Some(entry) => is_here(&entry),
        }
    }

    /// Whether the node answers to the peer for a claim in this slot, with its bytes here or as an
    /// own one that has come home.
    pub fn is_ready(&self, object: &Object) -> bool
        ensures { result ≡ has_so in_key is_direct_or_home self.now.row.ins object.now }
    {
        let _held = self.held;
        match self.ins.get(object) {
            None => false,
            Some(entry) => is_ready(&entry),
        }
    }

    /// Whether the node has the object on the peer.
    pub fn has_out(&self, object: &Object) -> bool
        ensures { result ≡ has out_key self.now.row.outs object.now }
    {
        let _back = self.back;
        self.outs.get(object).is_some()
    }

    /// The units of the object in what the node has on the peer, 0 where it is not there.
    pub fn units_out(&self, object: &Object) -> u32
        ensures { result ≡ units_at out_key out_size self.now.row.outs object.now }
    {
        let _back = self.back;
        match self.outs.get(object) {
            None => 0,
            Some(entry) => entry.units,
        }
    }

    /// Whether the node has an own claim there on the peer.
    pub fn is_own(&self, object: &Object) -> bool
        ensures { result ≡ has_so out_key is_own self.now.row.outs object.now }
    {
        let _back = self.back;
        match self.outs.get(object) {
            None => false,
            Some(entry) => is_claim(&entry),
        }
    }

    /// Whether the object on the peer carries a forwarded claim.
    pub fn carries(&self, object: &Object) -> bool
        ensures { result ≡ has_so out_key (λ e. not (carries_none e)) self.now.row.outs object.now }
    {
        let _back = self.back;
        match self.outs.get(object) {
            None => false,
            Some(entry) => !is_free(&entry),
        }
    }

    /// Whether the node has the object on the peer, and it carries no forwarded claim.
    pub fn has_free(&self, object: &Object) -> bool
        ensures { result ≡ has_so out_key carries_none self.now.row.outs object.now }
    {
        let _back = self.back;
        match self.outs.get(object) {
            None => false,
            Some(entry) => is_free(&entry),
        }
    }

    /// Whether the peer lost the object.
    pub fn has_debt(&self, object: &Object) -> bool
        ensures { result ≡ has debt_key self.now.row.debts object.now }
    {
        let _debt = self.debt;
        self.debts.has(object)
    }

    /// Whether a probe may ask for the object: a chunk or an own slot that stands there, or that was
    /// lost and of which nothing was used up.
    pub fn may_ask(&self, object: &Object) -> bool
        ensures { result ≡ may_ask self.now.row object.now }
    {
        let _debt = self.debt;
        match object {
            Object::Chunk(_) => self.has_out(object) || self.debts.has_whole(object),
            Object::Slot(_) => self.is_own(object) || self.debts.has_whole_own(object),
        }
    }
}
