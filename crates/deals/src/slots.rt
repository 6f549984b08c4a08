//! The slots of a deal.

ghost use Rattle.std.specs.Prelude.{◌≡◌, ◌<◌, length, slice_index, IfOk};
ghost use Rattle.psb_bytes.specs.declared.ids.Object.TheVariants.{Slot};
ghost use Rattle.psb_machine.specs.Deals.{first_slot, slots_of};
ghost use Rattle.deals.specs.Sought.{is_sought};

use psb_bytes::{Memory, Object, PeerId, SlotList};
use psb_ledger::Ledger;
use std::alloc::Global;
use wire_codec::{ClaimsView, SlotsView};

/// What is looked for among the slots of a deal.
#[derive(Clone, Copy)]
pub(crate) enum Sought {
    /// One that the peer has here.
    In,
    /// One that it does not have here.
    NotIn,
    /// One of its here that a deal ties.
    TiedIn,
    /// One that the node does not have there.
    NotOut,
    /// One of the node's there that a deal ties, or that carries a claim of another peer.
    Engaged,
}

impl Sought {
    /// Whether the slot is one, by one look at the ledger or two.
    fn is(self, ledger: &Ledger, peer: PeerId, slot: u32) -> bool
        ensures { result ≡ is_sought self ledger.now.state peer (Slot slot) }
    {
        let slot = Object::Slot(slot);
        match self {
            Sought::In => ledger.row(peer).has(&slot),
            Sought::NotIn => !ledger.row(peer).has(&slot),
            Sought::TiedIn => ledger.tied_in(peer, &slot),
            Sought::NotOut => !ledger.row(peer).has_out(&slot),
            Sought::Engaged => {
                let row = ledger.row(peer);
                row.ties_out(&slot) || row.carries(&slot)
            }
        }
    }
}

/// The first of the slots that is sought.
pub(crate) fn first_slot(
    ledger: &Ledger,
    peer: PeerId,
    slots: &SlotsView<'_>,
    sought: Sought,
) -> Option<u32>
    ensures { result ≡ first_slot (is_sought sought ledger.now.state peer) slots.now }
{
    for j in 0..slots.len() {
        let slot = slots.at(j);
        if sought.is(ledger, peer, slot) {
            return Some(slot);
        }
    }
    None
}

/// The slot of claim `j`.
fn slot_at(claims: &ClaimsView<'_>, j: usize) -> u32
    requires { j < length claims.now }
    ensures { result ≡ slice_index (slots_of claims.now) j }
{
    claims.at(j).0
}

/// The first of the claims' slots that is sought.
pub(crate) fn first_claim(
    ledger: &Ledger,
    peer: PeerId,
    claims: &ClaimsView<'_>,
    sought: Sought,
) -> Option<u32>
    ensures { result ≡ first_slot (is_sought sought ledger.now.state peer) (slots_of claims.now) }
{
    for j in 0..claims.len() {
        let slot = slot_at(claims, j);
        if sought.is(ledger, peer, slot) {
            return Some(slot);
        }
    }
    None
}

/// The claims' slots.
pub(crate) fn claim_slots(alloc: Global, claims: &ClaimsView<'_>) -> Result<SlotList, Memory>
    ensures { IfOk result (λ l. l ≡ slots_of claims.now) }
{
    let mut slots = Vec::with_capacity(alloc, claims.len())?;
    for j in 0..claims.len() {
        slots.push(slot_at(claims, j))?;
    }
    Ok(SlotList::from_vec(slots))
}
