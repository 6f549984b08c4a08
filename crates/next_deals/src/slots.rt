//! The slots that are given or filled for a chunk.

ghost use Rattle.std.specs.Prelude.{◌≡◌, ◌≤◌, ◌^◌, ◌++◌, take, option_to_list, IfOk, OnOk};
ghost use Rattle.psb_model.specs.State.{row, in_key, out_key};
ghost use Rattle.psb_model.specs.Proposing.{gives, slots_to_give, fills, slots_to_fill};
ghost use Rattle.peer_lists.specs.Walks.{IsSlotFrom};
ghost use Rattle.next_deals.specs.Searches.{number_behind};

use crate::seeking::is_free;
use psb_bytes::{Memory, Object, PeerId, SlotList};
use psb_ledger::Ledger;
use psb_model::{InEntry, InState, OutEntry, OutState};

/// The slot, if it may be given for a chunk there.
fn gives(ledger: &Ledger, peer: PeerId, entry: &InEntry) -> Option<u32>
    ensures { option_to_list result ≡ gives ledger.now.state peer entry.now }
{
    let Object::Slot(number) = entry.object else {
        return None;
    };
    let is_ready = matches!(entry.state, InState::Direct | InState::Home(_));
    (is_ready && !ledger.tied_in(peer, &entry.object)).then_some(number)
}

/// The first slots here that may be given for a chunk there, `most` of them at most.
pub fn slots_to_give(ledger: &Ledger, peer: PeerId, most: usize) -> Result<SlotList, Memory>
    ensures { IfOk result (λ l. l ≡ take most (slots_to_give ledger.now.state peer)) }
{
    let mut numbers = Vec::new(ledger.alloc());
    let mut from = 0;
    while let Some(entry) = slot_here(ledger, peer, from) {
        if numbers.len() == most {
            return Ok(SlotList::from_vec(numbers));
        }
        push_some(&mut numbers, gives(ledger, peer, &entry))?;
        from = number_behind(&entry.object);
    }
    Ok(SlotList::from_vec(numbers))
}

fn slot_here(ledger: &Ledger, peer: PeerId, number: u64) -> Option<InEntry>
    requires { number ≤ 2 ^ 32 }
    ensures { IsSlotFrom in_key (row ledger.now.state peer).ins number result }
{
    ledger.row(peer).ins().slot_from(number)
}

/// The slot, if a chunk may be stored in its place.
fn fills(ledger: &Ledger, peer: PeerId, probed: &[Object], entry: &OutEntry) -> Option<u32>
    ensures { option_to_list result ≡ fills ledger.now.state peer probed.now entry.now }
{
    let Object::Slot(number) = entry.object else {
        return None;
    };
    let is_own = matches!(entry.state, OutState::Own);
    (is_own && is_free(ledger, peer, probed, &entry.object)).then_some(number)
}

/// The first own slots there in whose place a chunk may be stored, `most` of them at most.
pub fn slots_to_fill(
    ledger: &Ledger,
    peer: PeerId,
    probed: &[Object],
    most: usize,
) -> Result<SlotList, Memory>
    ensures { IfOk result (λ l. l ≡ take most (slots_to_fill ledger.now.state peer probed.now)) }
{
    let mut numbers = Vec::new(ledger.alloc());
    let mut from = 0;
    while let Some(entry) = slot_there(ledger, peer, from) {
        if numbers.len() == most {
            return Ok(SlotList::from_vec(numbers));
        }
        push_some(&mut numbers, fills(ledger, peer, probed, &entry))?;
        from = number_behind(&entry.object);
    }
    Ok(SlotList::from_vec(numbers))
}

fn slot_there(ledger: &Ledger, peer: PeerId, number: u64) -> Option<OutEntry>
    requires { number ≤ 2 ^ 32 }
    ensures { IsSlotFrom out_key (row ledger.now.state peer).outs number result }
{
    ledger.row(peer).outs().slot_from(number)
}

/// The number behind that of a slot.
fn number_behind(object: &Object) -> u64
    ensures number { result ≡ number_behind object.now }
    ensures few { result ≤ 2 ^ 32 }
{
    match object {
        Object::Chunk(_) => 0,
        Object::Slot(number) => u64::from(*number) + 1,
    }
}

/// Puts a number behind the others, if there is one.
fn push_some(numbers: &mut Vec<u32>, number: Option<u32>) -> Result<(), Memory>
    ensures { OnOk result (numbers.new.items ≡ numbers.old.items ++ option_to_list number) }
{
    if let Some(n) = number {
        numbers.push(n)?;
    }
    Ok(())
}
