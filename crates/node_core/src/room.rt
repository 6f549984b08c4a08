//! What is made ready before a change is written.

ghost use Rattle.std.specs.Prelude.{◌≡◌, ◌≤◌, ◌+◌, ◌∷◌, [], ◌++◌, ℕ, List, length, true, IfOk, OnOk};
ghost use Rattle.std.specs.List.{list_all};
ghost use Rattle.peer_lists.specs.Entries.{in_order};
ghost use Rattle.own_chunks.specs.OwnList.{own_key};
ghost use Rattle.psb_model.specs.Conditions.{names_ascend};
ghost use Rattle.psb_ledger.specs.View.{HasRoom};
ghost use Rattle.chunk_store.specs.Store.{has_room};
ghost use Rattle.node_journal.specs.Entry.{Entry};
ghost use Rattle.psb_model.specs.Conditions.{allowed};
ghost use Rattle.psb_model.specs.History.{state};
ghost use Rattle.psb_model.specs.declared.change.Change.{Change};
ghost use Rattle.slot_places.specs.Moves.{IsMoved};
ghost use Rattle.slot_places.specs.Slots.{slot_record, HasSlotRoom, KnowsSlots, AreBelow};
ghost use Rattle.node_history.specs.Names.{SameNames, IsEntering, IsNew, Enter};

use chunk_store::Store;
use next_deals::Planner;
use node_history::Entering;
use node_journal::Log;
use psb_bytes::Memory;
use psb_ledger::Ledger;
use psb_model::Change;
use slot_places::{SlotTables, SlotsMoved};
use std::alloc::Global;

/// What a change does to the names that are held and to the records of slots, with room for it.
#[derive(Drop)]
pub(crate) struct Prepared {
    names: Entering,
    slots: SlotsMoved,
}

impl Prepared {
    /// Has the names and the records of slots as the change leaves them, whose record has this number, and after which
    /// this is the state. Takes no memory.
    pub(crate) fn enter(
        &self,
        names: &mut Store,
        slots: &mut SlotTables,
        number: u64,
        left: &Ledger,
    )
        requires room { has_room names.old ≡ true }
        requires fresh { IsNew names.old self.now.names }
        requires slots_room { HasSlotRoom slots.old self.now.slots }
        ensures names { Enter left.now.state.own names.old names.new self.now.names number }
        ensures slots { (h : List Change) (c : Change) → allowed (state h) c ≡ true → IsMoved (state h) c self.now.slots → left.now.state ≡ state (h ++ c ∷ []) → number ≡ length h → KnowsSlots slots.old h → KnowsSlots slots.new (h ++ c ∷ []) }
        ensures below { AreBelow slots.old number → AreBelow slots.new (number + 1) }
    {
        self.names.enter(names, number, left);
        slots.enter(&self.slots, number, left);
    }
}

/// Works out what a change does to the names and to the records of slots, and takes all the memory that making it
/// wants, and writing a record of these lengths.
pub(crate) fn ready<L: Log>(
    alloc: Global,
    ledger: &mut Planner,
    names: &mut Store,
    slots: &mut SlotTables,
    log: &mut L,
    change: &Change,
    head: usize,
    body: usize,
) -> Result<Prepared, Memory>
    requires limit { head + body ≤ 67108864 }
    requires own { in_order own_key ledger.old.state.own ≡ true }
    requires kept { list_all (λ k. names_ascend k.names) ledger.old.state.kept ≡ true }
    ensures entering { IfOk result (λ r. IsEntering ledger.old.state change.now r.names) }
    ensures moved { IfOk result (λ r. IsMoved ledger.old.state change.now r.slots) }
    ensures state { ledger.new.state ≡ ledger.old.state }
    ensures room { OnOk result (HasRoom ledger.new change.now) }
    ensures names { SameNames names.old names.new }
    ensures names_room { OnOk result (has_room names.new ≡ true) }
    ensures slots { (p n : ℕ) → slot_record slots.new p n ≡ slot_record slots.old p n }
    ensures slots_room { IfOk result (λ r. HasSlotRoom slots.new r.slots) }
    ensures log_room { OnOk result (L.has_room log.new head body) }
    ensures holds { (es : List Entry) (i : List ℕ) → L.holds log.old es i → L.holds log.new es i }
    ensures size { L.size log.new ≡ L.size log.old }
    ensures bodies { (i : ℕ) → L.keeps_body log.new i ≡ L.keeps_body log.old i }
    ensures broken { L.is_broken log.new ≡ L.is_broken log.old }
{
    log.make_room(head, body)?;
    names.make_room()?;
    ledger.make_room(change)?;
    let moved = SlotsMoved::of(alloc, ledger.ledger(), change)?;
    slots.make_room(&moved)?;
    Ok(Prepared {
        names: Entering::of(alloc, ledger.ledger(), change)?,
        slots: moved,
    })
}
