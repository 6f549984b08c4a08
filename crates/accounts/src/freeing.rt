//! What comes loose where entries leave that were forwarded, and the states that a settled deal sets.

ghost use Rattle.std.specs.Prelude.{◌≡◌, ◌==◌, ℕ, ◌+◌, ◌*◌, ◌<◌, ◌≤◌, true, List, [], ◌∷◌, map, length, OnOk, Some, position};
ghost use Rattle.std.specs.List.{list_any};
ghost use Rattle.psb_bytes.specs.declared.ids.Object.TheVariants.{Slot};
ghost use Rattle.psb_model.specs.declared.entries.InState.TheVariants as at;
ghost use Rattle.psb_model.specs.declared.entries.OutState.TheVariants as on;
ghost use Rattle.psb_model.specs.Words.{slots};
ghost use Rattle.psb_model.specs.State.{has_row, at_row};
ghost use Rattle.psb_model.specs.Effects.{loose_at, relabel_in, relabel_out};
ghost use Rattle.peer_account.specs.View.{named_row};
ghost use Rattle.peer_account.specs.States.{is_forwarded, given};
ghost use Rattle.accounts.specs.Table.{account_in};
ghost use Rattle.accounts.specs.Freeing.{row_at, have_out_room, in_rooms, free_room, Freed, ForwardRoom, StatesSet, StatesRoom};

use crate::table::place_of;
use peer_account::Account;
use psb_bytes::{Memory, Object, PeerId, Seat};
use psb_model::{DealWhat, InState, OutState};

/// Makes room in each account for so many runs of slots in what the node has there.
pub fn reserve_outs(accounts: &mut Vec<Account>, count: usize) -> Result<(), Memory>
    ensures rows { map named_row accounts.new.items ≡ map named_row accounts.old.items }
    ensures rooms { in_rooms accounts.new.items ≡ in_rooms accounts.old.items }
    ensures room { OnOk result (have_out_room count accounts.new.items ≡ true) }
{
    for place in 0..accounts.len() {
        let account = &mut accounts[place];
        account.reserve_outs(count)?;
    }
    Ok(())
}

fn any_number(account: &Account, numbers: &[u32]) -> bool
    ensures { result ≡ list_any (λ n. is_forwarded account.now.row.ins (Slot n)) numbers.now }
{
    numbers
        .iter()
        .any(|n| account.is_forwarded(&Object::Slot(*n)))
}

fn any_slot(account: &Account, numbers: &[u32]) -> bool
    ensures { result ≡ list_any (is_forwarded account.now.row.ins) (slots numbers.now) }
{
    any_number(account, numbers)
}

fn any_object(account: &Account, objects: &[Object]) -> bool
    ensures { result ≡ list_any (is_forwarded account.now.row.ins) objects.now }
{
    objects.iter().any(|o| account.is_forwarded(o))
}

/// How many runs each account needs room for where these slots leave the peer's: none where none of them
/// is forwarded.
pub fn room_for_slots(account: &Account, numbers: &[u32]) -> usize
    ensures { result ≡ free_room account.now.row.ins (slots numbers.now) }
{
    if any_slot(account, numbers) {
        2 * numbers.len()
    } else {
        0
    }
}

/// The same for objects.
pub fn room_for_objects(account: &Account, objects: &[Object]) -> usize
    ensures { result ≡ free_room account.now.row.ins objects.now }
{
    if any_object(account, objects) {
        2 * objects.len()
    } else {
        0
    }
}

/// The slot at the seat has come loose.
fn loosen_at(accounts: &mut Vec<Account>, seat: Seat)
    requires { have_out_room 2 accounts.old.items ≡ true }
    ensures rows { map named_row accounts.new.items ≡ at_row seat.peer (loose_at seat.slot) (map named_row accounts.old.items) }
    ensures rooms { in_rooms accounts.new.items ≡ in_rooms accounts.old.items }
    ensures room { (n : ℕ) → have_out_room (n + 2) accounts.old.items ≡ true → have_out_room n accounts.new.items ≡ true }
{
    if let Some(place) = place_of(accounts.as_slice(), seat.peer) {
        let account = &mut accounts[place];
        account.loosen(seat.slot);
    }
}

/// Where the entry at the object, of the account at this place, is forwarded, the slot that carries it
/// has come loose.
pub fn free_one(accounts: &mut Vec<Account>, place: usize, object: &Object)
    requires within { place < length accounts.old.items }
    requires room { is_forwarded (row_at accounts.old.items place).ins object.now ≡ true → have_out_room 2 accounts.old.items ≡ true }
    ensures freed { Freed accounts.old.items place (object.now ∷ []) accounts.new.items }
    ensures room { (n : ℕ) → have_out_room (n + 2) accounts.old.items ≡ true → have_out_room n accounts.new.items ≡ true }
{
    if let Some(seat) = accounts[place].forwarded(object) {
        loosen_at(accounts, seat);
    }
}

/// The same for each of these slots.
pub fn free_slots(accounts: &mut Vec<Account>, place: usize, numbers: &[u32])
    requires within { place < length accounts.old.items }
    requires room { have_out_room (free_room (row_at accounts.old.items place).ins (slots numbers.now)) accounts.old.items ≡ true }
    ensures { Freed accounts.old.items place (slots numbers.now) accounts.new.items }
{
    for number in numbers {
        free_one(accounts, place, &Object::Slot(*number));
    }
}

/// The same for each of these objects.
pub fn free(accounts: &mut Vec<Account>, place: usize, objects: &[Object])
    requires within { place < length accounts.old.items }
    requires room { have_out_room (free_room (row_at accounts.old.items place).ins objects.now) accounts.old.items ≡ true }
    ensures { Freed accounts.old.items place objects.now accounts.new.items }
{
    for object in objects {
        free_one(accounts, place, object);
    }
}

/// The same for each slot that the pending Cancel gives.
fn free_given(accounts: &mut Vec<Account>, place: usize)
    requires within { place < length accounts.old.items }
    requires room { have_out_room (free_room (row_at accounts.old.items place).ins (slots (given (row_at accounts.old.items place).pending))) accounts.old.items ≡ true }
    ensures { Freed accounts.old.items place (slots (given (row_at accounts.old.items place).pending)) accounts.new.items }
{
    let mut count = 0;
    while let Some(slot) = accounts[place].given(count) {
        free_one(accounts, place, &Object::Slot(slot));
        count += 1;
    }
}

/// The slot that the node answers for to the peer is forwarded to the seat.
fn set_forwarded(accounts: &mut Vec<Account>, holder: PeerId, slot: u32, seat: Seat)
    requires { has_row (map named_row accounts.old.items) holder ≡ true → 2 ≤ (account_in accounts.old.items holder).in_room }
    ensures { map named_row accounts.new.items ≡ at_row holder (relabel_in (Slot slot) (at.Forwarded seat)) (map named_row accounts.old.items) }
{
    if let Some(place) = place_of(accounts.as_slice(), holder) {
        let account = &mut accounts[place];
        account.set_in(slot, InState::Forwarded(seat));
    }
}

/// The slot on the peer, whose account stands at this place, gets the state.
fn set_out(accounts: &mut Vec<Account>, place: usize, peer: PeerId, slot: u32, state: OutState)
    requires place { Some place ≡ position (λ v. v.id == peer) accounts.old.items }
    requires room { 2 ≤ (account_in accounts.old.items peer).out_room }
    ensures rows { map named_row accounts.new.items ≡ at_row peer (relabel_out (Slot slot) state) (map named_row accounts.old.items) }
    ensures rooms { in_rooms accounts.new.items ≡ in_rooms accounts.old.items }
{
    let account = &mut accounts[place];
    account.set_out(slot, state);
}

/// The slot on the peer at this place carries the claim of the entry, which is forwarded there.
fn forward(accounts: &mut Vec<Account>, place: usize, peer: PeerId, slot: u32, entry: Seat)
    requires place { Some place ≡ position (λ v. v.id == peer) accounts.old.items }
    requires room { ForwardRoom accounts.old.items peer entry.peer }
    ensures { map named_row accounts.new.items ≡ at_row entry.peer (relabel_in (Slot entry.slot) (at.Forwarded (record { peer = peer; slot = slot }))) (at_row peer (relabel_out (Slot slot) (on.Carries entry)) (map named_row accounts.old.items)) }
{
    let holder = entry.peer;
    let held = entry.slot;
    set_out(accounts, place, peer, slot, OutState::Carries(entry));
    set_forwarded(accounts, holder, held, Seat { peer, slot });
}

/// Sets the states that the pending deal of the account at this place sets when it is settled.
pub fn set_states(accounts: &mut Vec<Account>, place: usize, peer: PeerId)
    requires place { Some place ≡ position (λ v. v.id == peer) accounts.old.items }
    requires room { StatesRoom accounts.old.items peer (row_at accounts.old.items place).ins (row_at accounts.old.items place).pending }
    ensures { StatesSet accounts.old.items peer place (row_at accounts.old.items place).pending accounts.new.items }
{
    let Some(deal) = accounts[place].pending() else {
        return;
    };
    match deal.what {
        DealWhat::Cancel { .. } => free_given(accounts, place),
        DealWhat::Forward { slot, entry } => forward(accounts, place, peer, slot, entry),
        DealWhat::Return { slot } => set_out(accounts, place, peer, slot, OutState::Own),
        _ => {}
    }
}
