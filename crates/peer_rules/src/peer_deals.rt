//! What the row of a peer says of a deal of the peer's.

ghost use Rattle.std.specs.Prelude.{◌≡◌, ◌==◌, ◌+◌, ◌&&◌, ◌||◌, nat_lt};
ghost use Rattle.psb_model.specs.Words.{all_of};
ghost use Rattle.psb_model.specs.Conditions.{fresh_tests, swap_tests, let_go_tests, put_back_tests, refusal_tests};
ghost use Rattle.peer_rules.specs.Replacing.{replace_tests};

use crate::slots::{are_free, has_slots, lacks_slots, unties_out};
use peer_account::Account;
use psb_bytes::{LAST_REASON, Object};
use psb_model::{LetGo, LetGoBack, Replaced, TookFresh, TookSwap, may_issue};

/// What a new chunk is measured by: whether a body is held under its name, the units in use, its own
/// units, the capacity, and how many claim numbers were drawn.
#[derive(Clone, Copy)]
pub struct Measure {
    pub is_held: bool,
    pub used: u32,
    pub units: u32,
    pub capacity: u32,
    pub issued: u32,
}

/// Whether the deal is the next of the peer.
fn is_next(account: &Account, deal: u64) -> bool
    ensures { result ≡ (deal == account.now.row.last.number + 1) }
{
    deal != 0 && deal - 1 == account.last().number
}

/// Whether the chunk may be taken against new slots.
pub fn allows_fresh(account: &Account, x: &TookFresh, m: &Measure) -> bool
    ensures { result ≡ all_of (fresh_tests account.now.row x.now.deal x.now.name x.now.first x.now.new m.now.is_held m.now.used m.now.units m.now.capacity m.now.issued) }
{
    is_next(account, x.deal)
        && !account.has(&Object::Chunk(x.name))
        && x.new != m.is_held
        && account.debt() == 0
        && m.used as u64 + m.units as u64 <= m.capacity as u64
        && x.first == m.issued
        && may_issue(m.issued, m.units)
}

/// Whether the chunk, of so many units, may be taken in the place of its slots: whether a body is
/// held under its name, and whether no deal ties a slot, is given.
pub fn allows_swap(
    account: &Account,
    x: &TookSwap,
    units: u32,
    is_held: bool,
    is_untied: bool,
) -> bool
    ensures { result ≡ all_of (swap_tests account.now.row x.now.deal x.now.name x.now.slots x.now.new is_held is_untied units) }
{
    is_next(account, x.deal)
        && !account.has(&Object::Chunk(x.name))
        && x.new != is_held
        && has_slots(account, x.slots.as_slice())
        && is_untied
        && x.slots.as_slice().len() == units as usize
        && account.debt() == 0
}

/// Whether the chunk may be let go against its slots.
pub fn allows_let_go(account: &Account, x: &LetGo) -> bool
    ensures { result ≡ all_of (let_go_tests account.now.row x.now.deal x.now.name x.now.slots) }
{
    let chunk = Object::Chunk(x.name);
    let slots = x.slots.as_slice();
    is_next(account, x.deal)
        && account.has(&chunk)
        && are_free(account, slots)
        && unties_out(account, slots)
        && slots.len() == account.units_held(&chunk) as usize
}

/// Whether the chunk may be put back into its slots.
pub fn allows_put_back(account: &Account, x: &LetGoBack) -> bool
    ensures { result ≡ all_of (put_back_tests account.now.row x.now.deal x.now.name x.now.slots) }
{
    let chunk = Object::Chunk(x.name);
    let slots = x.slots.as_slice();
    is_next(account, x.deal)
        && account.has(&chunk)
        && lacks_slots(account, slots)
        && slots.len() == account.units_held(&chunk) as usize
}

/// Whether the bytes come with the change, or are those of an own claim that was drawn.
fn is_drawn(x: &Replaced, issued: u32) -> bool
    ensures { result ≡ ((x.now.place == 0 && x.now.home == 0) || (x.now.place == 1 && nat_lt x.now.home issued)) }
{
    (x.place == 0 && x.home == 0) || (x.place == 1 && x.home < issued)
}

/// Whether the bytes of the claim may be replaced: whether no deal ties its slot, and how many claim
/// numbers were drawn, is given.
pub fn allows_replacing(account: &Account, x: &Replaced, issued: u32, is_untied: bool) -> bool
    ensures { result ≡ all_of (replace_tests account.now.row x.now issued is_untied) }
{
    is_next(account, x.deal)
        && account.has(&Object::Slot(x.slot))
        && is_untied
        && is_drawn(x, issued)
}

/// Whether the deal may be refused for the reason.
pub fn allows_refusal(account: &Account, deal: u64, why: u8) -> bool
    ensures { result ≡ all_of (refusal_tests account.now.row deal why) }
{
    is_next(account, deal) && 1 <= why && why <= LAST_REASON
}
