//! Which names lack their bytes, and which slots.

ghost use Rattle.std.specs.Prelude.{◌≡◌, ℕ, List, Bool, None, true, false, not, ◌&&◌, ◌==◌, is_some, OnOk, if◌then◌else◌};
ghost use Rattle.std.specs.List.{list_any};
ghost use Rattle.psb_bytes.specs.Objects.{name_eq};
ghost use Rattle.psb_bytes.specs.declared.ids.Object.TheVariants.{Slot};
ghost use Rattle.psb_model.specs.Words.{has_so};
ghost use Rattle.psb_model.specs.State.{row, in_key};
ghost use Rattle.psb_model.specs.Conditions.{is_direct};
ghost use Rattle.chunk_store.specs.Store.{record_of};

use chunk_store::Store;
use psb_bytes::{Digest, Memory, PeerId};
use psb_ledger::Ledger;
use std::alloc::Global;
use std::collections::BTreeSet;

/// A slot that the node has for a peer.
#[derive(Clone, Copy, PartialEq, Eq, PartialOrd, Ord)]
pub(crate) struct SlotAt {
    peer: u32,
    slot: u32,
}

/// The names whose bytes the last change that brings them does not have, since none are there, or others; and
/// the slots of which that is true. It is kept while a history is read, which may bring bytes that it needs no
/// longer at its end.
#[derive(Drop)]
pub(crate) struct Lacking {
    names: BTreeSet<[u8; 32]>,
    slots: BTreeSet<SlotAt>,
}

impl Lacking {
    ghost use Rattle.node_history.specs.Lacking.{is_lacking, is_slot_lacking};

    /// Nothing lacks its bytes. Takes no memory.
    pub(crate) fn new(alloc: Global) -> Lacking
        ensures names { (name : List ℕ) → is_lacking result name ≡ false }
        ensures slots { (p n : ℕ) → is_slot_lacking result p n ≡ false }
    {
        Lacking {
            names: BTreeSet::new(alloc),
            slots: BTreeSet::new(alloc),
        }
    }

    /// Notes whether the change that brings the bytes of a name has them.
    pub(crate) fn note(&mut self, name: &Digest, has_them: bool) -> Result<(), Memory>
        ensures noted { OnOk result ((q : List ℕ) → is_lacking self.new q ≡ (if name_eq name.now q then not has_them else is_lacking self.old q)) }
        ensures slots { OnOk result ((p n : ℕ) → is_slot_lacking self.new p n ≡ is_slot_lacking self.old p n) }
    {
        if has_them {
            self.names.remove(&name.0);
        } else {
            self.names.insert(name.0)?;
        }
        Ok(())
    }

    /// Notes whether the change that gives a slot its bytes has them.
    fn note_slot(&mut self, peer: PeerId, slot: u32, has_them: bool) -> Result<(), Memory>
        ensures noted { OnOk result ((p n : ℕ) → is_slot_lacking self.new p n ≡ (if peer == p && slot == n then not has_them else is_slot_lacking self.old p n)) }
        ensures names { OnOk result ((q : List ℕ) → is_lacking self.new q ≡ is_lacking self.old q) }
    {
        let at = SlotAt { peer: peer.0, slot };
        if has_them {
            self.slots.remove(&at);
        } else {
            self.slots.insert(at)?;
        }
        Ok(())
    }

    /// Notes whether the change that gives these slots of a peer their bytes has them.
    pub(crate) fn note_slots(
        &mut self,
        peer: PeerId,
        slots: &[u32],
        has_them: bool,
    ) -> Result<(), Memory>
        ensures noted { OnOk result ((p n : ℕ) → is_slot_lacking self.new p n ≡ (if peer == p && list_any (λ m. m == n) slots.now then not has_them else is_slot_lacking self.old p n)) }
        ensures names { OnOk result ((q : List ℕ) → is_lacking self.new q ≡ is_lacking self.old q) }
    {
        for slot in slots {
            self.note_slot(peer, *slot, has_them)?;
        }
        Ok(())
    }

    /// Whether one of the names is held.
    pub(crate) fn any_held(&self, names: &Store) -> bool
        ensures some { result ≡ true → (name : List ℕ) × (is_lacking self.now name ≡ true) × (is_some (record_of names.now name) ≡ true) }
        ensures none { result ≡ false → (name : List ℕ) → is_lacking self.now name ≡ true → is_some (record_of names.now name) ≡ false }
    {
        self.names
            .iter()
            .any(|name| names.record_of(&Digest(*name)).is_some())
    }

    /// Whether one of the slots is to have its bytes here.
    pub(crate) fn any_direct(&self, ledger: &Ledger) -> bool
        ensures some { result ≡ true → (p : ℕ) × (n : ℕ) × (is_slot_lacking self.now p n ≡ true) × (has_so in_key is_direct (row ledger.now.state p).ins (Slot n) ≡ true) }
        ensures none { result ≡ false → (p n : ℕ) → is_slot_lacking self.now p n ≡ true → has_so in_key is_direct (row ledger.now.state p).ins (Slot n) ≡ false }
    {
        self.slots
            .iter()
            .any(|at| ledger.row(PeerId(at.peer)).is_direct(at.slot))
    }
}
