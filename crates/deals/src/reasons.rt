//! Why a fresh deal is refused.

ghost use Rattle.std.specs.Prelude.{◌≡◌, ◌≤◌, ◌==◌, length, if◌then◌else◌, Some, None};
ghost use Rattle.psb_bytes.specs.Units.{longest_chunk};
ghost use Rattle.psb_machine.specs.Deals.{StoreFresh, StoreSwap, Cancel, PutBack, Replace, first_that_holds, reasons};
ghost use Rattle.psb_machine.specs.declared.deals.Reason.TheVariants.{Unequal};
ghost use Rattle.psb_machine.specs.Judging.{IsShort};
ghost use Rattle.deals.specs.Views.{deal_in, facts_in};
ghost use Rattle.deals.specs.Naming.{name_reason};

use crate::slots::{Sought, first_claim, first_slot};
use crate::{DealView, Facts};
use psb_bytes::{Digest, Object, PeerId, units_of};
use psb_ledger::Ledger;
use psb_machine::{Reason, Refusal};
use psb_model::may_issue;
use wire_codec::{ClaimsView, SlotsView};

/// A refusal with its detail.
fn told(why: Reason, detail: u32) -> Refusal
    ensures { result ≡ record { why = why; detail = detail } }
{
    Refusal {
        why,
        detail: u64::from(detail),
    }
}

/// Why bytes are not kept under their name for the peer.
fn name_reason(ledger: &Ledger, peer: PeerId, name: &Digest, facts: &Facts) -> Option<Reason>
    ensures { result ≡ name_reason (facts_in facts.now) ledger.now.state peer name.now }
{
    if !facts.name_fits {
        Some(Reason::BadName)
    } else if ledger.row(peer).has(&Object::Chunk(*name)) {
        Some(Reason::Already)
    } else if facts.clash {
        Some(Reason::Clash)
    } else {
        None
    }
}

/// Slots that are not as many as a chunk's units.
fn unequal(count: usize, units: u32) -> Option<Refusal>
    ensures { result ≡ (if count == units then None else Some (record { why = Unequal; detail = units })) }
{
    if count == units as usize {
        None
    } else {
        Some(told(Reason::Unequal, units))
    }
}

fn fresh_refusal(
    ledger: &Ledger,
    peer: PeerId,
    name: &Digest,
    bytes: &[u8],
    facts: &Facts,
) -> Option<Refusal>
    requires { length bytes.now ≤ longest_chunk }
    ensures { result ≡ first_that_holds (reasons (facts_in facts.now) ledger.now.state peer (StoreFresh name.now bytes.now)) }
{
    if let Some(why) = name_reason(ledger, peer, name, facts) {
        return Some(told(why, 0));
    }
    let units = units_of(bytes.len() as u32);
    let (used, debt) = (ledger.used(), ledger.row(peer).debt());
    let (why, detail) = if debt > 0 {
        (Reason::Indebted, debt)
    } else if u64::from(used) + u64::from(units) > u64::from(facts.capacity) {
        (Reason::Full, used)
    } else if !may_issue(facts.issued, units) {
        (Reason::Spent, facts.issued)
    } else {
        return None;
    };
    Some(told(why, detail))
}

fn swap_refusal(
    ledger: &Ledger,
    peer: PeerId,
    name: &Digest,
    slots: &SlotsView<'_>,
    bytes: &[u8],
    facts: &Facts,
) -> Option<Refusal>
    requires { length bytes.now ≤ longest_chunk }
    ensures { result ≡ first_that_holds (reasons (facts_in facts.now) ledger.now.state peer (StoreSwap name.now slots.now bytes.now)) }
{
    if let Some(slot) = first_slot(ledger, peer, slots, Sought::TiedIn) {
        return Some(told(Reason::Busy, slot));
    }
    if let Some(why) = name_reason(ledger, peer, name, facts) {
        return Some(told(why, 0));
    }
    if let Some(slot) = first_slot(ledger, peer, slots, Sought::NotIn) {
        return Some(told(Reason::NotThere, slot));
    }
    if let Some(refusal) = unequal(slots.len(), units_of(bytes.len() as u32)) {
        return Some(refusal);
    }
    let debt = ledger.row(peer).debt();
    if debt > 0 {
        return Some(told(Reason::Indebted, debt));
    }
    None
}

// The facts stand for the clause alone: no reason of a cancel asks for them.
fn cancel_refusal(
    ledger: &Ledger,
    peer: PeerId,
    name: &Digest,
    slots: &SlotsView<'_>,
    facts: &Facts,
) -> Option<Refusal>
    ensures { result ≡ first_that_holds (reasons (facts_in facts.now) ledger.now.state peer (Cancel name.now slots.now)) }
{
    let chunk = Object::Chunk(*name);
    let row = ledger.row(peer);
    if let Some(slot) = first_slot(ledger, peer, slots, Sought::Engaged) {
        return Some(told(Reason::Busy, slot));
    }
    // A slot that is not there is told whether or not the chunk is.
    if let Some(slot) = first_slot(ledger, peer, slots, Sought::NotOut) {
        return Some(told(Reason::NotThere, slot));
    }
    if !row.has(&chunk) {
        return Some(told(Reason::NotThere, 0));
    }
    unequal(slots.len(), row.units_held(&chunk))
}

// As of a cancel, the facts stand for the clause alone.
fn put_back_refusal(
    ledger: &Ledger,
    peer: PeerId,
    name: &Digest,
    claims: &ClaimsView<'_>,
    facts: &Facts,
) -> Option<Refusal>
    ensures { result ≡ first_that_holds (reasons (facts_in facts.now) ledger.now.state peer (PutBack name.now claims.now)) }
{
    let chunk = Object::Chunk(*name);
    let row = ledger.row(peer);
    if let Some(slot) = first_claim(ledger, peer, claims, Sought::In) {
        return Some(told(Reason::Already, slot));
    }
    if !row.has(&chunk) {
        return Some(told(Reason::NotThere, 0));
    }
    unequal(claims.len(), row.units_held(&chunk))
}

// As of a cancel, the facts stand for the clause alone.
fn replace_refusal(
    ledger: &Ledger,
    peer: PeerId,
    slot: u32,
    bytes: &[u8],
    facts: &Facts,
) -> Option<Refusal>
    ensures { result ≡ first_that_holds (reasons (facts_in facts.now) ledger.now.state peer (Replace slot bytes.now)) }
{
    let object = Object::Slot(slot);
    if ledger.tied_in(peer, &object) {
        return Some(told(Reason::Busy, slot));
    }
    if !ledger.row(peer).has(&object) {
        return Some(told(Reason::NotThere, slot));
    }
    None
}

/// Why a fresh deal of a peer is refused: the first reason of its kind that holds, with its detail, or
/// None where it is taken. Each slot is looked up once for each reason that asks for it. Takes no memory.
pub fn refusal(ledger: &Ledger, peer: PeerId, deal: &DealView<'_>, facts: &Facts) -> Option<Refusal>
    requires { IsShort (deal_in deal.now) }
    ensures { result ≡ first_that_holds (reasons (facts_in facts.now) ledger.now.state peer (deal_in deal.now)) }
{
    match deal {
        DealView::StoreFresh { name, bytes } => fresh_refusal(ledger, peer, name, bytes, facts),
        DealView::StoreSwap { name, slots, bytes } => {
            swap_refusal(ledger, peer, name, slots, bytes, facts)
        }
        DealView::Cancel { name, slots } => cancel_refusal(ledger, peer, name, slots, facts),
        DealView::PutBack { name, claims } => put_back_refusal(ledger, peer, name, claims, facts),
        DealView::Replace { slot, bytes } => replace_refusal(ledger, peer, *slot, bytes, facts),
    }
}
