//! What of a peer's row a probe may ask for: chunks there, slots there, and rows of debt.

ghost use Rattle.std.specs.Prelude.{◌≡◌, ◌++◌, ◌∷◌, [], true, length, map, slice_get, if◌then◌else◌, IfOk, OnOk};
ghost use Rattle.std.specs.Option.{option_map};
ghost use Rattle.psb_bytes.specs.declared.ids.Object.TheVariants.{Slot};
ghost use Rattle.psb_model.specs.Words.{in_order};
ghost use Rattle.psb_model.specs.State.{out_key};
ghost use Rattle.peer_lists.specs.Walks.{chunk_after, entry_after, name_of};
ghost use Rattle.asked_objects.specs.Listable.{tied_slots, deal_ties, IsListable};
ghost use Rattle.asked_objects.specs.Parts.{is_listed_chunk, chunks_there, slots_there, is_listed_kind, is_listed_debt, debts_there, IsSorted};

use peer_account::Account;
use peer_lists::OutTest;
use psb_bytes::{Digest, Memory, Object};
use psb_model::{DealWhat, DebtEntry, OutEntry, OutState};
use std::alloc::Global;
use std::slice;

/// The slots there that a deal ties.
fn deal_ties(what: &DealWhat) -> &[u32]
    ensures { result.now ≡ deal_ties what.now }
{
    match what {
        DealWhat::Swap { slots, .. } => slots.as_slice(),
        DealWhat::Forward { slot, .. } | DealWhat::Return { slot } => slice::from_ref(slot),
        _ => &[],
    }
}

/// The slots there that the pending deal ties.
fn tied_slots(account: &Account) -> &[u32]
    ensures { result.now ≡ tied_slots account.now.row.pending }
{
    match account.pending() {
        None => &[],
        Some(deal) => deal_ties(&deal.what),
    }
}

/// Puts an object behind the others, where it is listed.
fn push_if(objects: &mut Vec<Object>, object: &Object, is_listed: bool) -> Result<(), Memory>
    ensures { OnOk result (objects.new.items ≡ (if is_listed then objects.old.items ++ object.now ∷ [] else objects.old.items)) }
{
    if is_listed {
        objects.push(*object)?;
    }
    Ok(())
}

/// The name of a chunk.
fn name_of(object: &Object) -> Option<Digest>
    ensures { result ≡ name_of (Some object.now) }
{
    match object {
        Object::Chunk(name) => Some(*name),
        Object::Slot(_) => None,
    }
}

/// The first chunk there behind the place.
fn chunk_there(account: &Account, place: &Option<Digest>) -> Option<OutEntry>
    ensures chunk { result ≡ chunk_after out_key place.now account.now.row.outs }
    ensures ordered { in_order out_key account.now.row.outs ≡ true }
{
    account.outs().chunk_after(place)
}

/// Whether a probe may ask for the chunk there.
fn is_listed_chunk(account: &Account, entry: &OutEntry) -> bool
    ensures { result ≡ is_listed_chunk account.now.row entry.now }
{
    matches!(entry.object, Object::Chunk(_)) && !account.ties_out(&entry.object)
}

/// The chunks there that a probe may ask for, in object order. It passes each chunk there once.
pub fn chunks_there(alloc: Global, account: &Account) -> Result<Vec<Object>, Memory>
    ensures chunks { IfOk result (λ v. v.items ≡ chunks_there account.now.row) }
    ensures ordered { OnOk result (in_order out_key account.now.row.outs ≡ true) }
{
    let mut chunks = Vec::new(alloc);
    let mut passed = None;
    while let Some(entry) = chunk_there(account, &passed) {
        push_if(&mut chunks, &entry.object, is_listed_chunk(account, &entry))?;
        passed = name_of(&entry.object);
    }
    Ok(chunks)
}

/// How many slots there a probe may ask for. Takes a step for each run of slots.
pub fn count_slots(account: &Account) -> u64
    requires { IsListable account.now.row }
    ensures { result ≡ length (slots_there account.now.row) }
{
    account
        .outs()
        .count_slots(OutTest::Own, tied_slots(account))
}

/// The slot at this place among them, from 0.
pub fn slot_at(account: &Account, place: u64) -> Option<Object>
    requires { IsListable account.now.row }
    ensures { result ≡ slice_get (map out_key (slots_there account.now.row)) place }
{
    match account
        .outs()
        .slot_at(OutTest::Own, tied_slots(account), place)
    {
        None => None,
        Some(entry) => Some(entry.object),
    }
}

/// The first of them, or the first behind the slot of this number.
pub fn slot_after(account: &Account, place: Option<u32>) -> Option<Object>
    requires { IsListable account.now.row }
    ensures slot { result ≡ option_map out_key (entry_after out_key (option_map Slot place) (slots_there account.now.row)) }
    ensures ordered { in_order out_key account.now.row.outs ≡ true }
{
    match account
        .outs()
        .slot_after(OutTest::Own, tied_slots(account), place)
    {
        None => None,
        Some(entry) => Some(entry.object),
    }
}

/// Whether nothing of the row of debt was used up, and it is a chunk or an own slot.
fn is_listed_kind(row: &DebtEntry) -> bool
    ensures { result ≡ is_listed_kind row.now }
{
    let is_whole = row.left == row.units;
    match row.object {
        Object::Chunk(_) => is_whole,
        Object::Slot(_) => is_whole && matches!(row.state, OutState::Own),
    }
}

/// Whether a probe may ask for the row of debt.
fn is_listed_debt(account: &Account, row: &DebtEntry) -> bool
    ensures { result ≡ is_listed_debt account.now.row row.now }
{
    is_listed_kind(row) && !account.ties_out(&row.object)
}

/// The objects in debt that a probe may ask for, in order of booking.
fn debts_booked(alloc: Global, account: &Account) -> Result<Vec<Object>, Memory>
    ensures { IfOk result (λ v. v.items ≡ debts_there account.now.row) }
{
    let mut debts = Vec::new(alloc);
    for row in account.debts() {
        push_if(&mut debts, &row.object, is_listed_debt(account, row))?;
    }
    Ok(debts)
}

/// The objects in debt that a probe may ask for, in object order.
pub fn debts_there(alloc: Global, account: &Account) -> Result<Vec<Object>, Memory>
    requires { IsListable account.now.row }
    ensures { IfOk result (λ v. IsSorted (debts_there account.now.row) v.items) }
{
    let mut debts = debts_booked(alloc, account)?;
    debts.sort_unstable();
    Ok(debts)
}
