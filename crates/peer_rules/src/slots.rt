//! What the row of a peer says of each slot of a list.

ghost use Rattle.std.specs.Prelude.{◌≡◌, not};
ghost use Rattle.psb_model.specs.Words.{has, has_so};
ghost use Rattle.psb_model.specs.State.{in_key, out_key, ties_out};
ghost use Rattle.psb_model.specs.Conditions.{each_slot, carries_none, is_direct_or_home, is_own};

use peer_account::Account;
use psb_bytes::Object;

/// Whether the node answers for each of these slots to the peer.
pub fn has_slots(account: &Account, slots: &[u32]) -> bool
    ensures { result ≡ each_slot (has in_key account.now.row.ins) slots.now }
{
    slots.iter().all(|n| account.has(&Object::Slot(*n)))
}

/// Whether the node answers for none of these slots to the peer.
pub fn lacks_slots(account: &Account, slots: &[u32]) -> bool
    ensures { result ≡ each_slot (λ o. not (has in_key account.now.row.ins o)) slots.now }
{
    slots.iter().all(|n| !account.has(&Object::Slot(*n)))
}

/// Whether the node has each of these slots on the peer, and none carries a forwarded claim.
pub fn are_free(account: &Account, slots: &[u32]) -> bool
    ensures { result ≡ each_slot (has_so out_key carries_none account.now.row.outs) slots.now }
{
    slots.iter().all(|n| account.has_free(&Object::Slot(*n)))
}

/// Whether the node answers to the peer for a claim in each of these slots, with its bytes here or
/// come home.
pub fn are_ready(account: &Account, slots: &[u32]) -> bool
    ensures { result ≡ each_slot (has_so in_key is_direct_or_home account.now.row.ins) slots.now }
{
    slots.iter().all(|n| account.is_ready(&Object::Slot(*n)))
}

/// Whether the node has an own claim in each of these slots on the peer.
pub fn are_own(account: &Account, slots: &[u32]) -> bool
    ensures { result ≡ each_slot (has_so out_key is_own account.now.row.outs) slots.now }
{
    slots.iter().all(|n| account.is_own(&Object::Slot(*n)))
}

/// Whether the pending deal ties none of these slots there.
pub fn unties_out(account: &Account, slots: &[u32]) -> bool
    ensures { result ≡ each_slot (λ o. not (ties_out account.now.row.pending o)) slots.now }
{
    slots.iter().all(|n| !account.ties_out(&Object::Slot(*n)))
}
