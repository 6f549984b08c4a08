//! The bodies of frames, read by their kinds.
ghost use Rattle.std.specs.Prelude.{◌≡◌, length};
ghost use Rattle.wire_codec.specs.declared.limits.TheConstants.{DIGEST_BYTES};
ghost use Rattle.wire_codec.specs.Fields.{Gives};
ghost use Rattle.wire_codec.specs.Frames.{store_at, cancel_at, put_back_at, release_at, replace_at, accepted_at, refused_at, declined_at, get_at, here_at, probe_at, proof_at, ask_at, sample_at, read_body};
ghost use Rattle.wire_codec.specs.Views.{frame_of};

use crate::cells::digest_in;
use crate::fields::{take_claims, take_names, take_places, take_slots, take_text};
use crate::limits::{CLAIM_BYTES, DIGEST_BYTES};
use crate::objects::take_objects;
use crate::view::BodyView;
use byte_fields::{split_bytes, split_u8, split_u32, split_u64};
use psb_bytes::LAST_REASON;

#[tactic(auto, unfolding(crate::specs::Frames::store_at))]
fn store(body: &[u8]) -> Option<BodyView<'_>>
    ensures { Gives frame_of result (store_at body.now) }
{
    let (name, rest) = split_bytes(body, DIGEST_BYTES)?;
    let (slots, rest) = take_slots(rest, 0)?;
    let (bytes, rest) = take_text(rest, 1)?;
    if !rest.is_empty() {
        return None;
    }
    Some(BodyView::Store {
        name: digest_in(name),
        slots,
        bytes,
    })
}

#[tactic(auto, unfolding(crate::specs::Frames::cancel_at))]
fn cancel<'a>(name: &[u8], rest: &'a [u8]) -> Option<BodyView<'a>>
    requires { length name.now ≡ DIGEST_BYTES }
    ensures { Gives frame_of result (cancel_at name.now rest.now) }
{
    let (slots, rest) = take_slots(rest, 1)?;
    if !rest.is_empty() {
        return None;
    }
    Some(BodyView::Cancel {
        name: digest_in(name),
        slots,
    })
}

#[tactic(auto, unfolding(crate::specs::Frames::put_back_at))]
fn put_back<'a>(name: &[u8], rest: &'a [u8]) -> Option<BodyView<'a>>
    requires { length name.now ≡ DIGEST_BYTES }
    ensures { Gives frame_of result (put_back_at name.now rest.now) }
{
    let (claims, rest) = take_claims(rest, 1)?;
    if !rest.is_empty() {
        return None;
    }
    Some(BodyView::PutBack {
        name: digest_in(name),
        claims,
    })
}

/// A release says behind the name whether it cancels or puts back.
#[tactic(auto, unfolding(crate::specs::Frames::release_at))]
fn release(body: &[u8]) -> Option<BodyView<'_>>
    ensures { Gives frame_of result (release_at body.now) }
{
    let (name, rest) = split_bytes(body, DIGEST_BYTES)?;
    let (mode, rest) = split_u8(rest)?;
    match mode {
        0 => cancel(name, rest),
        1 => put_back(name, rest),
        _ => None,
    }
}

#[tactic(auto, unfolding(crate::specs::Frames::replace_at))]
fn replace(body: &[u8]) -> Option<BodyView<'_>>
    ensures { Gives frame_of result (replace_at body.now) }
{
    let (slot, rest) = split_u32(body)?;
    let (bytes, rest) = split_bytes(rest, CLAIM_BYTES)?;
    if !rest.is_empty() {
        return None;
    }
    Some(BodyView::Replace { slot, bytes })
}

#[tactic(auto, unfolding(crate::specs::Frames::accepted_at))]
fn accepted(body: &[u8]) -> Option<BodyView<'_>>
    ensures { Gives frame_of result (accepted_at body.now) }
{
    let (claims, rest) = take_claims(body, 0)?;
    if !rest.is_empty() {
        return None;
    }
    Some(BodyView::Accepted { claims })
}

#[tactic(auto, unfolding(crate::specs::Frames::refused_at))]
fn refused(body: &[u8]) -> Option<BodyView<'_>>
    ensures { Gives frame_of result (refused_at body.now) }
{
    let (why, rest) = split_u8(body)?;
    let (detail, rest) = split_u64(rest)?;
    if why < 1 || why > LAST_REASON || !rest.is_empty() {
        return None;
    }
    Some(BodyView::Refused { why, detail })
}

#[tactic(auto, unfolding(crate::specs::Frames::declined_at))]
fn declined(body: &[u8]) -> Option<BodyView<'_>>
    ensures { Gives frame_of result (declined_at body.now) }
{
    let (nonce, rest) = split_bytes(body, DIGEST_BYTES)?;
    let (places, rest) = take_places(rest)?;
    if !rest.is_empty() {
        return None;
    }
    Some(BodyView::Declined {
        nonce: digest_in(nonce),
        places,
    })
}

#[tactic(auto, unfolding(crate::specs::Frames::get_at))]
fn get(body: &[u8]) -> Option<BodyView<'_>>
    ensures { Gives frame_of result (get_at body.now) }
{
    let (name, rest) = split_bytes(body, DIGEST_BYTES)?;
    if !rest.is_empty() {
        return None;
    }
    Some(BodyView::Get {
        name: digest_in(name),
    })
}

#[tactic(auto, unfolding(crate::specs::Frames::here_at))]
fn here(body: &[u8]) -> Option<BodyView<'_>>
    ensures { Gives frame_of result (here_at body.now) }
{
    let (name, rest) = split_bytes(body, DIGEST_BYTES)?;
    let (bytes, rest) = take_text(rest, 0)?;
    if !rest.is_empty() {
        return None;
    }
    Some(BodyView::Here {
        name: digest_in(name),
        bytes,
    })
}

#[tactic(auto, unfolding(crate::specs::Frames::probe_at))]
fn probe(body: &[u8]) -> Option<BodyView<'_>>
    ensures { Gives frame_of result (probe_at body.now) }
{
    let (nonce, rest) = split_bytes(body, DIGEST_BYTES)?;
    let (objects, rest) = take_objects(rest)?;
    if !rest.is_empty() {
        return None;
    }
    Some(BodyView::Probe {
        nonce: digest_in(nonce),
        objects,
    })
}

#[tactic(auto, unfolding(crate::specs::Frames::proof_at))]
fn proof(body: &[u8]) -> Option<BodyView<'_>>
    ensures { Gives frame_of result (proof_at body.now) }
{
    let (nonce, rest) = split_bytes(body, DIGEST_BYTES)?;
    let (value, rest) = split_bytes(rest, DIGEST_BYTES)?;
    if !rest.is_empty() {
        return None;
    }
    Some(BodyView::Proof {
        nonce: digest_in(nonce),
        value: digest_in(value),
    })
}

#[tactic(auto, unfolding(crate::specs::Frames::ask_at))]
fn ask(body: &[u8]) -> Option<BodyView<'_>>
    ensures { Gives frame_of result (ask_at body.now) }
{
    let (salt, rest) = split_bytes(body, DIGEST_BYTES)?;
    let (names, rest) = take_names(rest)?;
    if !rest.is_empty() {
        return None;
    }
    Some(BodyView::Ask {
        salt: digest_in(salt),
        names,
    })
}

#[tactic(auto, unfolding(crate::specs::Frames::sample_at))]
fn sample(body: &[u8]) -> Option<BodyView<'_>>
    ensures { Gives frame_of result (sample_at body.now) }
{
    let (salt, rest) = split_bytes(body, DIGEST_BYTES)?;
    let (bits, rest) = split_u32(rest)?;
    if !rest.is_empty() {
        return None;
    }
    Some(BodyView::Sample {
        salt: digest_in(salt),
        bits,
    })
}

/// What a body of this kind says.
#[tactic(auto, unfolding(crate::specs::Frames::read_body))]
pub(crate) fn body_of_kind(kind: u8, body: &[u8]) -> Option<BodyView<'_>>
    ensures { Gives frame_of result (read_body kind body.now) }
{
    match kind {
        1 => store(body),
        2 => release(body),
        3 => replace(body),
        4 => accepted(body),
        5 => refused(body),
        6 => declined(body),
        7 => get(body),
        8 => here(body),
        9 => probe(body),
        10 => proof(body),
        11 => ask(body),
        12 => sample(body),
        _ => None,
    }
}
