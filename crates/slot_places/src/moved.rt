//! What a change does to the places of slots.

ghost use Rattle.std.specs.Prelude.{◌≡◌, List, [], ℕ, Some, IfOk};
ghost use Rattle.peer_account.specs.States.{given};
ghost use Rattle.slot_places.specs.declared.moved.SlotsMoved.TheVariants.{Moves};
ghost use Rattle.slot_places.specs.Moves.{AreSlots, IsMoved};

use peer_account::Account;
use psb_bytes::{Items, Memory, Object, PeerId, SlotList};
use psb_ledger::Ledger;
use psb_model::{Change, Deal, DealWhat};
use std::alloc::Global;
use std::slice;

/// What a change does to the places of slots, as it is worked out before the change is made.
#[derive(Drop)]
pub enum SlotsMoved {
    Nothing,
    /// Slots of the peer whose bytes the change gives, and slots that may leave what the node answers for to it.
    Moves {
        peer: PeerId,
        given: SlotList,
        leaving: SlotList,
    },
}

/// The slots that the peer's pending deal gives for a chunk, if it is a Cancel.
fn cancelled(row: &Account) -> &[u32]
    ensures { result.now ≡ given row.now.row.pending }
{
    match row.pending() {
        None => &[],
        Some(deal) => cancelled_by(deal),
    }
}

/// The slots that a Cancel gives for a chunk; of another deal none.
fn cancelled_by(deal: &Deal) -> &[u32]
    ensures { result.now ≡ given (Some deal.now) }
{
    match &deal.what {
        DealWhat::Cancel { slots, .. } => slots.as_slice(),
        _ => &[],
    }
}

/// The numbers of the slots among the objects, in their order.
fn slots_among(alloc: Global, objects: &[Object]) -> Result<SlotList, Memory>
    ensures { IfOk result (AreSlots objects.now) }
{
    let mut numbers = Vec::new(alloc);
    for object in objects {
        if let Object::Slot(number) = object {
            numbers.push(*number)?;
        }
    }
    Ok(Items::from_vec(numbers))
}

/// A change gives these slots their bytes, and those may leave.
fn moves(alloc: Global, peer: PeerId, given: &[u32], leaving: &[u32]) -> Result<SlotsMoved, Memory>
    ensures { IfOk result (λ m. m ≡ Moves peer given.now leaving.now) }
{
    Ok(SlotsMoved::Moves {
        peer,
        given: SlotList::copy(alloc, given)?,
        leaving: SlotList::copy(alloc, leaving)?,
    })
}

/// A discard of these objects may take slots.
fn discards(alloc: Global, peer: PeerId, objects: &[Object]) -> Result<SlotsMoved, Memory>
    ensures { IfOk result (λ m. (leaving : List ℕ) × (m ≡ Moves peer [] leaving) × AreSlots objects.now leaving) }
{
    Ok(SlotsMoved::Moves {
        peer,
        given: Items::from_vec(Vec::new(alloc)),
        leaving: slots_among(alloc, objects)?,
    })
}

impl SlotsMoved {
    /// What a change does, behind what is past.
    pub fn of(alloc: Global, past: &Ledger, change: &Change) -> Result<SlotsMoved, Memory>
        ensures { IfOk result (IsMoved past.now.state change.now) }
    {
        match change {
            Change::TookSwap(x) => moves(alloc, x.peer, &[], x.slots.as_slice()),
            Change::LetGoBack(x) => moves(alloc, x.peer, x.slots.as_slice(), &[]),
            Change::Replaced(x) if x.place == 0 => {
                moves(alloc, x.peer, slice::from_ref(&x.slot), &[])
            }
            Change::Settled(x) => {
                let leaving = cancelled(past.row(x.peer));
                moves(alloc, x.peer, x.slots.as_slice(), leaving)
            }
            Change::Discarded(x) => discards(alloc, x.peer, x.objects.as_slice()),
            _ => Ok(SlotsMoved::Nothing),
        }
    }
}
