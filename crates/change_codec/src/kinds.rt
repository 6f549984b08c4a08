//! The kinds of changes, read from the fields of a head.
ghost use Rattle.std.specs.Option.{option_map};
ghost use Rattle.change_codec.specs.Reading.{Answers, begun_at, kept_at, snapped_at, forgot_at, took_fresh_at, took_swap_at, let_go_at, let_go_back_at, replaced_at, refused_at, settled_at, turned_at, asked_at, passed_at, failed_at, declined_at, discarded_at, chose_at};

use crate::ChangeError;
use crate::fields::{copied, take_flag, take_ticket, whole};
use crate::lists::take_list;
use byte_fields::{take_digest, take_u8, take_u32, take_u64};
use psb_bytes::{Cursor, PeerId};
use psb_model::{
    Asked, Begun, Change, Chose, Declined, Discarded, Failed, Forgot, Kept, LetGo, LetGoBack,
    Passed, Refused, Replaced, Settled, Snapped, TookFresh, TookSwap, Turned,
};
use std::alloc::Global;

#[tactic(auto, unfolding(crate::specs::Reading::begun_at))]
pub(crate) fn begun(
    alloc: Global,
    fields: &mut Cursor<'_>,
    body: Option<&[u8]>,
) -> Result<Change, ChangeError>
    ensures { Answers result (begun_at fields.old (option_map (λ b. b.now) body.entry)) }
{
    let body = copied(alloc, body)?;
    whole(fields, Change::Begun(Begun { body }))
}

#[tactic(auto, unfolding(crate::specs::Reading::kept_at))]
pub(crate) fn kept(
    alloc: Global,
    fields: &mut Cursor<'_>,
    body: Option<&[u8]>,
) -> Result<Change, ChangeError>
    ensures { Answers result (kept_at fields.old (option_map (λ b. b.now) body.entry)) }
{
    let name = take_digest(fields)?;
    let len = take_u32(fields)?;
    let new = take_flag(fields)?;
    let body = copied(alloc, body)?;
    let change = Change::Kept(Kept {
        name,
        len,
        new,
        body,
    });
    whole(fields, change)
}

#[tactic(auto, unfolding(crate::specs::Reading::snapped_at))]
pub(crate) fn snapped(alloc: Global, fields: &mut Cursor<'_>) -> Result<Change, ChangeError>
    ensures { Answers result (snapped_at fields.old) }
{
    let number = take_u32(fields)?;
    let ticket = take_ticket(fields)?;
    let files = take_u32(fields)?;
    let folders = take_u32(fields)?;
    let bytes = take_u64(fields)?;
    let left = take_u32(fields)?;
    let names = take_list(alloc, fields)?;
    let change = Change::Snapped(Snapped {
        number,
        ticket,
        files,
        folders,
        bytes,
        left,
        names,
    });
    whole(fields, change)
}

#[tactic(auto, unfolding(crate::specs::Reading::forgot_at))]
pub(crate) fn forgot(fields: &mut Cursor<'_>) -> Result<Change, ChangeError>
    ensures { Answers result (forgot_at fields.old) }
{
    let number = take_u32(fields)?;
    whole(fields, Change::Forgot(Forgot { number }))
}

#[tactic(auto, unfolding(crate::specs::Reading::took_fresh_at))]
pub(crate) fn took_fresh(
    alloc: Global,
    fields: &mut Cursor<'_>,
    body: Option<&[u8]>,
) -> Result<Change, ChangeError>
    ensures { Answers result (took_fresh_at fields.old (option_map (λ b. b.now) body.entry)) }
{
    let peer = PeerId(take_u32(fields)?);
    let deal = take_u64(fields)?;
    let name = take_digest(fields)?;
    let first = take_u32(fields)?;
    let len = take_u32(fields)?;
    let new = take_flag(fields)?;
    let body = copied(alloc, body)?;
    let change = Change::TookFresh(TookFresh {
        peer,
        deal,
        name,
        first,
        len,
        new,
        body,
    });
    whole(fields, change)
}

#[tactic(auto, unfolding(crate::specs::Reading::took_swap_at))]
pub(crate) fn took_swap(
    alloc: Global,
    fields: &mut Cursor<'_>,
    body: Option<&[u8]>,
) -> Result<Change, ChangeError>
    ensures { Answers result (took_swap_at fields.old (option_map (λ b. b.now) body.entry)) }
{
    let peer = PeerId(take_u32(fields)?);
    let deal = take_u64(fields)?;
    let name = take_digest(fields)?;
    let slots = take_list(alloc, fields)?;
    let len = take_u32(fields)?;
    let new = take_flag(fields)?;
    let body = copied(alloc, body)?;
    let change = Change::TookSwap(TookSwap {
        peer,
        deal,
        name,
        slots,
        len,
        new,
        body,
    });
    whole(fields, change)
}

#[tactic(auto, unfolding(crate::specs::Reading::let_go_at))]
pub(crate) fn let_go(alloc: Global, fields: &mut Cursor<'_>) -> Result<Change, ChangeError>
    ensures { Answers result (let_go_at fields.old) }
{
    let peer = PeerId(take_u32(fields)?);
    let deal = take_u64(fields)?;
    let name = take_digest(fields)?;
    let slots = take_list(alloc, fields)?;
    let change = Change::LetGo(LetGo {
        peer,
        deal,
        name,
        slots,
    });
    whole(fields, change)
}

#[tactic(auto, unfolding(crate::specs::Reading::let_go_back_at))]
pub(crate) fn let_go_back(
    alloc: Global,
    fields: &mut Cursor<'_>,
    body: Option<&[u8]>,
) -> Result<Change, ChangeError>
    ensures { Answers result (let_go_back_at fields.old (option_map (λ b. b.now) body.entry)) }
{
    let peer = PeerId(take_u32(fields)?);
    let deal = take_u64(fields)?;
    let name = take_digest(fields)?;
    let slots = take_list(alloc, fields)?;
    let body = copied(alloc, body)?;
    let change = Change::LetGoBack(LetGoBack {
        peer,
        deal,
        name,
        slots,
        body,
    });
    whole(fields, change)
}

#[tactic(auto, unfolding(crate::specs::Reading::replaced_at))]
pub(crate) fn replaced(
    alloc: Global,
    fields: &mut Cursor<'_>,
    body: Option<&[u8]>,
) -> Result<Change, ChangeError>
    ensures { Answers result (replaced_at fields.old (option_map (λ b. b.now) body.entry)) }
{
    let peer = PeerId(take_u32(fields)?);
    let deal = take_u64(fields)?;
    let slot = take_u32(fields)?;
    let place = take_u8(fields)?;
    let home = take_u32(fields)?;
    let body = copied(alloc, body)?;
    let change = Change::Replaced(Replaced {
        peer,
        deal,
        slot,
        place,
        home,
        body,
    });
    whole(fields, change)
}

#[tactic(auto, unfolding(crate::specs::Reading::refused_at))]
pub(crate) fn refused(fields: &mut Cursor<'_>) -> Result<Change, ChangeError>
    ensures { Answers result (refused_at fields.old) }
{
    let peer = PeerId(take_u32(fields)?);
    let deal = take_u64(fields)?;
    let why = take_u8(fields)?;
    let detail = take_u64(fields)?;
    let change = Change::Refused(Refused {
        peer,
        deal,
        why,
        detail,
    });
    whole(fields, change)
}

#[tactic(auto, unfolding(crate::specs::Reading::settled_at))]
pub(crate) fn settled(
    alloc: Global,
    fields: &mut Cursor<'_>,
    body: Option<&[u8]>,
) -> Result<Change, ChangeError>
    ensures { Answers result (settled_at fields.old (option_map (λ b. b.now) body.entry)) }
{
    let peer = PeerId(take_u32(fields)?);
    let deal = take_u64(fields)?;
    let slots = take_list(alloc, fields)?;
    let body = copied(alloc, body)?;
    let change = Change::Settled(Settled {
        peer,
        deal,
        slots,
        body,
    });
    whole(fields, change)
}

#[tactic(auto, unfolding(crate::specs::Reading::turned_at))]
pub(crate) fn turned(fields: &mut Cursor<'_>) -> Result<Change, ChangeError>
    ensures { Answers result (turned_at fields.old) }
{
    let peer = PeerId(take_u32(fields)?);
    let deal = take_u64(fields)?;
    let why = take_u8(fields)?;
    let detail = take_u64(fields)?;
    let change = Change::Turned(Turned {
        peer,
        deal,
        why,
        detail,
    });
    whole(fields, change)
}

#[tactic(auto, unfolding(crate::specs::Reading::asked_at))]
pub(crate) fn asked(alloc: Global, fields: &mut Cursor<'_>) -> Result<Change, ChangeError>
    ensures { Answers result (asked_at fields.old) }
{
    let peer = PeerId(take_u32(fields)?);
    let objects = take_list(alloc, fields)?;
    whole(fields, Change::Asked(Asked { peer, objects }))
}

#[tactic(auto, unfolding(crate::specs::Reading::passed_at))]
pub(crate) fn passed(alloc: Global, fields: &mut Cursor<'_>) -> Result<Change, ChangeError>
    ensures { Answers result (passed_at fields.old) }
{
    let peer = PeerId(take_u32(fields)?);
    let asked = take_u64(fields)?;
    let objects = take_list(alloc, fields)?;
    let change = Change::Passed(Passed {
        peer,
        asked,
        objects,
    });
    whole(fields, change)
}

#[tactic(auto, unfolding(crate::specs::Reading::failed_at))]
pub(crate) fn failed(alloc: Global, fields: &mut Cursor<'_>) -> Result<Change, ChangeError>
    ensures { Answers result (failed_at fields.old) }
{
    let peer = PeerId(take_u32(fields)?);
    let asked = take_u64(fields)?;
    let how = take_u8(fields)?;
    let got = take_digest(fields)?;
    let objects = take_list(alloc, fields)?;
    let change = Change::Failed(Failed {
        peer,
        asked,
        how,
        got,
        objects,
    });
    whole(fields, change)
}

#[tactic(auto, unfolding(crate::specs::Reading::declined_at))]
pub(crate) fn declined(alloc: Global, fields: &mut Cursor<'_>) -> Result<Change, ChangeError>
    ensures { Answers result (declined_at fields.old) }
{
    let peer = PeerId(take_u32(fields)?);
    let asked = take_u64(fields)?;
    let places = take_list(alloc, fields)?;
    let change = Change::Declined(Declined {
        peer,
        asked,
        places,
    });
    whole(fields, change)
}

#[tactic(auto, unfolding(crate::specs::Reading::discarded_at))]
pub(crate) fn discarded(alloc: Global, fields: &mut Cursor<'_>) -> Result<Change, ChangeError>
    ensures { Answers result (discarded_at fields.old) }
{
    let peer = PeerId(take_u32(fields)?);
    let objects = take_list(alloc, fields)?;
    whole(fields, Change::Discarded(Discarded { peer, objects }))
}

#[tactic(auto, unfolding(crate::specs::Reading::chose_at))]
pub(crate) fn chose(alloc: Global, fields: &mut Cursor<'_>) -> Result<Change, ChangeError>
    ensures { Answers result (chose_at fields.old) }
{
    let candidates = take_list(alloc, fields)?;
    whole(fields, Change::Chose(Chose { candidates }))
}
