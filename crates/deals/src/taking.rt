//! The change that takes a deal.

ghost use Rattle.std.specs.Prelude.{◌≡◌, Some, IfOk};
ghost use Rattle.psb_machine.specs.Deals.{takes, replaced, sealed_part, claims_joined};
ghost use Rattle.psb_machine.specs.Judging.{IsShort};
ghost use Rattle.deals.specs.Views.{deal_in};

use crate::slots::claim_slots;
use crate::{DealView, Facts};
use psb_bytes::{Bytes, Memory, PeerId};
use psb_model::{Change, LetGo, LetGoBack, Replaced, TookFresh, TookSwap};
use std::alloc::Global;
use wire_codec::ClaimsView;

/// The bytes that a change carries of sealed ones: all of them where they are new.
fn sealed(alloc: Global, new: bool, bytes: &[u8]) -> Result<Bytes, Memory>
    ensures { IfOk result (λ part. Some part ≡ sealed_part new bytes.now) }
{
    Bytes::copy(alloc, if new { bytes } else { &[] })
}

/// The bytes of claims, one behind the other.
pub(crate) fn joined(alloc: Global, claims: &ClaimsView<'_>) -> Result<Bytes, Memory>
    ensures { IfOk result (λ all. all ≡ claims_joined claims.now) }
{
    let mut all = Vec::new(alloc);
    for j in 0..claims.len() {
        let (_, bytes) = claims.at(j);
        all.extend_from_slice(bytes)?;
    }
    Ok(Bytes::from_vec(all))
}

/// The change that gives a slot other bytes. Those of an own claim are not kept: its number stands for them.
fn replaced(
    alloc: Global,
    peer: PeerId,
    number: u64,
    slot: u32,
    bytes: &[u8],
    home: Option<u32>,
) -> Result<Change, Memory>
    ensures { IfOk result (λ c. c ≡ replaced peer number slot bytes.now home) }
{
    let (place, home, kept): (u8, u32, &[u8]) = match home {
        None => (0, 0, bytes),
        Some(claim) => (1, claim, &[]),
    };
    Ok(Change::Replaced(Replaced {
        peer,
        deal: number,
        slot,
        place,
        home,
        body: Some(Bytes::copy(alloc, kept)?),
    }))
}

/// The change that takes a deal of a peer under this number.
pub(crate) fn taken(
    alloc: Global,
    peer: PeerId,
    number: u64,
    deal: &DealView<'_>,
    facts: &Facts,
) -> Result<Change, Memory>
    requires { IsShort (deal_in deal.now) }
    ensures { IfOk result (λ c. c ≡ takes facts.now.issued facts.now.new_body facts.now.home peer number (deal_in deal.now)) }
{
    match deal {
        DealView::StoreFresh { name, bytes } => Ok(Change::TookFresh(TookFresh {
            peer,
            deal: number,
            name: *name,
            first: facts.issued,
            len: bytes.len() as u32,
            new: facts.new_body,
            body: Some(sealed(alloc, facts.new_body, bytes)?),
        })),
        DealView::StoreSwap { name, slots, bytes } => Ok(Change::TookSwap(TookSwap {
            peer,
            deal: number,
            name: *name,
            slots: slots.to_list(alloc)?,
            len: bytes.len() as u32,
            new: facts.new_body,
            body: Some(sealed(alloc, facts.new_body, bytes)?),
        })),
        DealView::Cancel { name, slots } => Ok(Change::LetGo(LetGo {
            peer,
            deal: number,
            name: *name,
            slots: slots.to_list(alloc)?,
        })),
        DealView::PutBack { name, claims } => Ok(Change::LetGoBack(LetGoBack {
            peer,
            deal: number,
            name: *name,
            slots: claim_slots(alloc, claims)?,
            body: Some(joined(alloc, claims)?),
        })),
        DealView::Replace { slot, bytes } => {
            replaced(alloc, peer, number, *slot, bytes, facts.home)
        }
    }
}
