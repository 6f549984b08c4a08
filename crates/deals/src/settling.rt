//! The change that a reply to an own deal makes.

ghost use Rattle.std.specs.Prelude.{◌≡◌, Some, IfOk};
ghost use Rattle.psb_model.specs.State.{row, own_len};
ghost use Rattle.psb_model.specs.Words.{units};
ghost use Rattle.psb_model.specs.Conditions.{may_settle};
ghost use Rattle.psb_machine.specs.Deals.{slots_of};
ghost use Rattle.psb_machine.specs.Settling.{Accepts, Refuses, settle};
ghost use Rattle.deals.specs.Views.{answer_in};

use crate::slots::{Sought, claim_slots, first_claim};
use crate::taking::joined;
use crate::{AnswerView, ReplyView};
use psb_bytes::{Digest, Memory, PeerId, units_of};
use psb_ledger::Ledger;
use psb_model::{Change, DealWhat, Settled, Turned};
use std::alloc::Global;
use wire_codec::ClaimsView;

/// The units of an own chunk.
fn own_units(ledger: &Ledger, name: &Digest) -> usize
    ensures { result ≡ units (own_len ledger.now.state.own name.now) }
{
    let len = ledger.own_len(name).unwrap_or(0);
    units_of(len) as usize
}

/// Whether the claims are as many as the pending deal asks for, and each in a slot that is not in use.
fn may_settle(ledger: &Ledger, peer: PeerId, claims: &ClaimsView<'_>) -> bool
    ensures { result ≡ may_settle ledger.now.state peer (row ledger.now.state peer).pending (slots_of claims.now) }
{
    let Some(deal) = ledger.row(peer).pending() else {
        return false;
    };
    match &deal.what {
        DealWhat::Fresh { name } => {
            claims.len() == own_units(ledger, name)
                && first_claim(ledger, peer, claims, Sought::In).is_none()
        }
        _ => claims.len() == 0,
    }
}

fn accepted(
    alloc: Global,
    ledger: &Ledger,
    peer: PeerId,
    number: u64,
    claims: &ClaimsView<'_>,
) -> Result<Option<Change>, Memory>
    ensures { IfOk result (λ c. c ≡ settle ledger.now.state peer number (Accepts claims.now)) }
{
    if !ledger.row(peer).is_pending(number) || !may_settle(ledger, peer, claims) {
        return Ok(None);
    }
    Ok(Some(Change::Settled(Settled {
        peer,
        deal: number,
        slots: claim_slots(alloc, claims)?,
        body: Some(joined(alloc, claims)?),
    })))
}

fn refused(ledger: &Ledger, peer: PeerId, number: u64, why: u8, detail: u64) -> Option<Change>
    ensures { result ≡ settle ledger.now.state peer number (Refuses why detail) }
{
    ledger
        .row(peer)
        .is_pending(number)
        .then_some(Change::Turned(Turned {
            peer,
            deal: number,
            why,
            detail,
        }))
}

/// The change that a peer's reply makes, None exactly where it does not fit the pending deal.
pub fn settle(
    alloc: Global,
    ledger: &Ledger,
    peer: PeerId,
    reply: &ReplyView<'_>,
) -> Result<Option<Change>, Memory>
    ensures { IfOk result (λ c. c ≡ settle ledger.now.state peer reply.now.number (answer_in reply.now.answer)) }
{
    match &reply.answer {
        AnswerView::Accepts { claims } => accepted(alloc, ledger, peer, reply.number, claims),
        AnswerView::Refuses { why, detail } => {
            Ok(refused(ledger, peer, reply.number, *why, *detail))
        }
    }
}
