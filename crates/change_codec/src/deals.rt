//! Own deals, read from the fields of a head.
ghost use Rattle.change_codec.specs.Reading.{Answers, fresh_at, swap_at, cancel_at, put_back_at, forward_at, return_at, deal_by, proposed_at};

use crate::ChangeError;
use crate::fields::whole;
use crate::lists::take_list;
use byte_fields::{take_digest, take_u8, take_u32, take_u64};
use psb_bytes::{Cursor, PeerId, Seat};
use psb_model::{Change, DealWhat, Proposed};
use std::alloc::Global;

#[tactic(auto, unfolding(crate::specs::Reading::fresh_at))]
fn fresh(fields: &mut Cursor<'_>) -> Result<DealWhat, ChangeError>
    ensures { Answers result (fresh_at fields.old) }
{
    let name = take_digest(fields)?;
    whole(fields, DealWhat::Fresh { name })
}

#[tactic(auto, unfolding(crate::specs::Reading::swap_at))]
fn swap(alloc: Global, fields: &mut Cursor<'_>) -> Result<DealWhat, ChangeError>
    ensures { Answers result (swap_at fields.old) }
{
    let name = take_digest(fields)?;
    let slots = take_list(alloc, fields)?;
    whole(fields, DealWhat::Swap { name, slots })
}

#[tactic(auto, unfolding(crate::specs::Reading::cancel_at))]
fn cancel(alloc: Global, fields: &mut Cursor<'_>) -> Result<DealWhat, ChangeError>
    ensures { Answers result (cancel_at fields.old) }
{
    let name = take_digest(fields)?;
    let slots = take_list(alloc, fields)?;
    whole(fields, DealWhat::Cancel { name, slots })
}

#[tactic(auto, unfolding(crate::specs::Reading::put_back_at))]
fn put_back(fields: &mut Cursor<'_>) -> Result<DealWhat, ChangeError>
    ensures { Answers result (put_back_at fields.old) }
{
    let name = take_digest(fields)?;
    let first = take_u32(fields)?;
    whole(fields, DealWhat::PutBack { name, first })
}

#[tactic(auto, unfolding(crate::specs::Reading::forward_at))]
fn forward(fields: &mut Cursor<'_>) -> Result<DealWhat, ChangeError>
    ensures { Answers result (forward_at fields.old) }
{
    let slot = take_u32(fields)?;
    let entry = Seat {
        peer: PeerId(take_u32(fields)?),
        slot: take_u32(fields)?,
    };
    whole(fields, DealWhat::Forward { slot, entry })
}

#[tactic(auto, unfolding(crate::specs::Reading::return_at))]
fn return_(fields: &mut Cursor<'_>) -> Result<DealWhat, ChangeError>
    ensures { Answers result (return_at fields.old) }
{
    let slot = take_u32(fields)?;
    whole(fields, DealWhat::Return { slot })
}

/// The own deal of this kind.
#[tactic(auto, unfolding(crate::specs::Reading::deal_by))]
fn deal_of(alloc: Global, kind: u8, fields: &mut Cursor<'_>) -> Result<DealWhat, ChangeError>
    ensures { Answers result (deal_by kind fields.old) }
{
    match kind {
        1 => fresh(fields),
        2 => swap(alloc, fields),
        3 => cancel(alloc, fields),
        4 => put_back(fields),
        5 => forward(fields),
        6 => return_(fields),
        _ => Err(ChangeError::BadHead),
    }
}

#[tactic(auto, unfolding(crate::specs::Reading::proposed_at))]
pub(crate) fn proposed(alloc: Global, fields: &mut Cursor<'_>) -> Result<Change, ChangeError>
    ensures { Answers result (proposed_at fields.old) }
{
    let peer = PeerId(take_u32(fields)?);
    let deal = take_u64(fields)?;
    let kind = take_u8(fields)?;
    let what = deal_of(alloc, kind, fields)?;
    Ok(Change::Proposed(Proposed { peer, deal, what }))
}
