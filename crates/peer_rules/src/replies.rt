//! What the row of a peer says of an own deal with it, and of the reply.

ghost use Rattle.std.specs.Prelude.{◌≡◌, ◌==◌, ◌+◌, ◌&&◌, is_none};
ghost use Rattle.psb_model.specs.Words.{all_of};
ghost use Rattle.psb_model.specs.Conditions.{settle_tests};

use crate::slots::lacks_slots;
use peer_account::Account;
use psb_model::Settled;

/// Whether the deal is the next own one, and none is pending.
pub fn is_next_own(account: &Account, deal: u64) -> bool
    ensures { result ≡ ((deal == account.now.row.mine + 1) && is_none account.now.row.pending) }
{
    deal != 0 && deal - 1 == account.mine() && account.pending().is_none()
}

/// Whether the pending deal may be settled with its slots: a Fresh with new ones, as many as
/// its chunk has units, any other deal with none.
pub fn allows_settling(account: &Account, x: &Settled, units: u32) -> bool
    ensures { result ≡ all_of (settle_tests account.now.row x.now.deal x.now.slots units) }
{
    if !account.is_pending(x.deal) {
        return false;
    }
    let slots = x.slots.as_slice();
    match account.coming() {
        None => slots.is_empty(),
        Some(_) => slots.len() == units as usize && lacks_slots(account, slots),
    }
}
