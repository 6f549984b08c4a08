ghost use Rattle.std.specs.Prelude.{◌≡◌, ◌<◌, ◌≤◌, ◌^◌, ◌++◌, ◌∷◌, [], length, IsTrue, OnOk, IfOk};
ghost use Rattle.psb_bytes.specs.Numbers.{u16_bytes};
ghost use Rattle.wire_codec.specs.Fields.{slots_bytes, claims_bytes, places_bytes, objects_bytes, names_bytes, text_bytes, claim_bytes, object_bytes};
ghost use Rattle.wire_codec.specs.Frames.{kind_of, body_of, fits, header, datagram};
ghost use Rattle.wire_codec.specs.declared.limits.TheConstants.{MOST_FRAME_BYTES};

use crate::frame::Frame;
use crate::limits::{HEADER_BYTES, MAGIC, TAG_BYTES};
use psb_bytes::{Digest, Memory, Object, PeerId, SlotClaim};
use psb_digest::hmac;
use std::alloc::Global;

/// How many items follow.
fn put_count(out: &mut Vec<u8>, count: usize) -> Result<(), Memory>
    requires { count < 2 ^ 16 }
    ensures { OnOk result (out.new.items ≡ out.old.items ++ u16_bytes count) }
{
    out.extend_from_slice(&(count as u16).to_be_bytes())?;
    Ok(())
}

fn put_text(out: &mut Vec<u8>, bytes: &[u8]) -> Result<(), Memory>
    requires { length bytes.now < 2 ^ 32 }
    ensures { OnOk result (out.new.items ≡ out.old.items ++ text_bytes bytes.now) }
{
    out.extend_from_slice(&(bytes.len() as u32).to_be_bytes())?;
    out.extend_from_slice(bytes)?;
    Ok(())
}

fn put_slots(out: &mut Vec<u8>, slots: &[u32]) -> Result<(), Memory>
    requires { length slots.now < 2 ^ 16 }
    ensures { OnOk result (out.new.items ≡ out.old.items ++ slots_bytes slots.now) }
{
    put_count(out, slots.len())?;
    for slot in slots {
        out.extend_from_slice(&slot.to_be_bytes())?;
    }
    Ok(())
}

fn put_claim(out: &mut Vec<u8>, claim: &SlotClaim) -> Result<(), Memory>
    ensures { OnOk result (out.new.items ≡ out.old.items ++ claim_bytes claim.now) }
{
    out.extend_from_slice(&claim.slot.to_be_bytes())?;
    out.extend_from_slice(&claim.bytes)?;
    Ok(())
}

fn put_claims(out: &mut Vec<u8>, claims: &[SlotClaim]) -> Result<(), Memory>
    requires { length claims.now < 2 ^ 16 }
    ensures { OnOk result (out.new.items ≡ out.old.items ++ claims_bytes claims.now) }
{
    put_count(out, claims.len())?;
    for claim in claims {
        put_claim(out, claim)?;
    }
    Ok(())
}

fn put_places(out: &mut Vec<u8>, places: &[u16]) -> Result<(), Memory>
    requires { length places.now < 2 ^ 16 }
    ensures { OnOk result (out.new.items ≡ out.old.items ++ places_bytes places.now) }
{
    put_count(out, places.len())?;
    for place in places {
        out.extend_from_slice(&place.to_be_bytes())?;
    }
    Ok(())
}

fn put_object(out: &mut Vec<u8>, object: &Object) -> Result<(), Memory>
    ensures { OnOk result (out.new.items ≡ out.old.items ++ object_bytes object.now) }
{
    match object {
        Object::Chunk(name) => {
            out.push(0)?;
            out.extend_from_slice(&name.0)?;
        }
        Object::Slot(slot) => {
            out.push(1)?;
            out.extend_from_slice(&slot.to_be_bytes())?;
        }
    }
    Ok(())
}

fn put_objects(out: &mut Vec<u8>, objects: &[Object]) -> Result<(), Memory>
    requires { length objects.now < 2 ^ 16 }
    ensures { OnOk result (out.new.items ≡ out.old.items ++ objects_bytes objects.now) }
{
    put_count(out, objects.len())?;
    for object in objects {
        put_object(out, object)?;
    }
    Ok(())
}

fn put_names(out: &mut Vec<u8>, names: &[Digest]) -> Result<(), Memory>
    requires { length names.now < 2 ^ 16 }
    ensures { OnOk result (out.new.items ≡ out.old.items ++ names_bytes names.now) }
{
    put_count(out, names.len())?;
    for name in names {
        out.extend_from_slice(&name.0)?;
    }
    Ok(())
}

fn put_bytes(out: &mut Vec<u8>, bytes: &[u8]) -> Result<(), Memory>
    ensures { OnOk result (out.new.items ≡ out.old.items ++ bytes.now) }
{
    out.extend_from_slice(bytes)?;
    Ok(())
}

/// A release: the name, and whether it cancels (0) or puts back (1).
fn put_release(out: &mut Vec<u8>, name: &Digest, mode: u8) -> Result<(), Memory>
    ensures { OnOk result (out.new.items ≡ out.old.items ++ name.now ++ mode ∷ []) }
{
    out.extend_from_slice(&name.0)?;
    out.push(mode)?;
    Ok(())
}

/// The body of a frame, behind what stands there.
fn put_body(out: &mut Vec<u8>, frame: &Frame) -> Result<(), Memory>
    requires { IsTrue (fits frame.now) }
    ensures { OnOk result (out.new.items ≡ out.old.items ++ body_of frame.now) }
{
    match frame {
        Frame::Store { name, slots, bytes } => {
            put_bytes(out, &name.0)?;
            put_slots(out, slots.as_slice())?;
            put_text(out, bytes.as_slice())
        }
        Frame::Cancel { name, slots } => {
            put_release(out, name, 0)?;
            put_slots(out, slots.as_slice())
        }
        Frame::PutBack { name, claims } => {
            put_release(out, name, 1)?;
            put_claims(out, claims.as_slice())
        }
        Frame::Replace { slot, bytes } => {
            put_bytes(out, &slot.to_be_bytes())?;
            put_bytes(out, bytes.as_slice())
        }
        Frame::Accepted { claims } => put_claims(out, claims.as_slice()),
        Frame::Refused { why, detail } => {
            put_bytes(out, &[*why])?;
            put_bytes(out, &detail.to_be_bytes())
        }
        Frame::Declined { nonce, places } => {
            put_bytes(out, &nonce.0)?;
            put_places(out, places.as_slice())
        }
        Frame::Get { name } => put_bytes(out, &name.0),
        Frame::Here { name, bytes } => {
            put_bytes(out, &name.0)?;
            put_text(out, bytes.as_slice())
        }
        Frame::Probe { nonce, objects } => {
            put_bytes(out, &nonce.0)?;
            put_objects(out, objects.as_slice())
        }
        Frame::Proof { nonce, value } => {
            put_bytes(out, &nonce.0)?;
            put_bytes(out, &value.0)
        }
        Frame::Ask { salt, names } => {
            put_bytes(out, &salt.0)?;
            put_names(out, names.as_slice())
        }
        Frame::Sample { salt, bits } => {
            put_bytes(out, &salt.0)?;
            put_bytes(out, &bits.to_be_bytes())
        }
    }
}

/// The byte that stands for a frame's kind.
fn kind(frame: &Frame) -> u8
    ensures { result ≡ kind_of frame.now }
{
    match frame {
        Frame::Store { .. } => 1,
        Frame::Cancel { .. } | Frame::PutBack { .. } => 2,
        Frame::Replace { .. } => 3,
        Frame::Accepted { .. } => 4,
        Frame::Refused { .. } => 5,
        Frame::Declined { .. } => 6,
        Frame::Get { .. } => 7,
        Frame::Here { .. } => 8,
        Frame::Probe { .. } => 9,
        Frame::Proof { .. } => 10,
        Frame::Ask { .. } => 11,
        Frame::Sample { .. } => 12,
    }
}

/// The header of a frame with a body of `len` bytes.
#[tactic(auto, unfolding(crate::specs::Frames::header))]
fn put_header(
    out: &mut Vec<u8>,
    kind: u8,
    from: PeerId,
    to: PeerId,
    number: u64,
    len: u32,
) -> Result<(), Memory>
    ensures { OnOk result (out.new.items ≡ out.old.items ++ header kind from to number len) }
{
    put_bytes(out, &MAGIC)?;
    put_bytes(out, &[kind, 0, 0, 0])?;
    put_bytes(out, &from.0.to_be_bytes())?;
    put_bytes(out, &to.0.to_be_bytes())?;
    put_bytes(out, &number.to_be_bytes())?;
    put_bytes(out, &len.to_be_bytes())
}

/// The one datagram of a frame from `from` to `to`, under the key that the two share. The frame's
/// lists and bytes are within the limits of the grammar, and its slots and places ascend.
pub fn encode(
    alloc: Global,
    frame: &Frame,
    from: PeerId,
    to: PeerId,
    number: u64,
    key: &Digest,
) -> Result<Vec<u8>, Memory>
    requires { IsTrue (fits frame.now) }
    ensures exact { IfOk result (λ v. v.items ≡ datagram key.now from to number frame.now) }
    ensures size { IfOk result (λ v. length v.items ≤ MOST_FRAME_BYTES) }
{
    let mut body = Vec::new(alloc);
    put_body(&mut body, frame)?;
    let mut out = Vec::with_capacity(alloc, HEADER_BYTES + body.len() + TAG_BYTES)?;
    put_header(&mut out, kind(frame), from, to, number, body.len() as u32)?;
    put_bytes(&mut out, &body)?;
    let tag = hmac(&key.0, &out);
    put_bytes(&mut out, &tag.0)?;
    Ok(out)
}
