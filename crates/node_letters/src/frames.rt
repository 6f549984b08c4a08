//! The frames that a node spells: each fits the grammar.

ghost use Rattle.std.specs.Prelude.{◌≡◌, ◌≤◌, ◌<◌, ◌+◌, ◌^◌, true, length, IfOk};
ghost use Rattle.std.specs.List.{list_all};
ghost use Rattle.psb_bytes.specs.Units.{longest_chunk};
ghost use Rattle.wire_codec.specs.Fields.{are_bytes, are_slots, are_places, is_digest, is_object};
ghost use Rattle.wire_codec.specs.Frames.{fits};
ghost use Rattle.wire_codec.specs.declared.frame.Frame.TheVariants.{Store, Cancel, PutBack, Accepted, Declined, Get, Here, Probe, Proof, Ask, Sample};
ghost use Rattle.wire_codec.specs.declared.limits.TheConstants.{MOST_SLOTS};
ghost use Rattle.psb_machine.specs.Replies.{claims_from};

use crate::issuing::claims_at;
use claims::ClaimSource;
use psb_bytes::{Digest, DigestList, Items, Memory, Object, ObjectList, PlaceList, SlotList};
use std::alloc::Global;
use wire_codec::Frame;

/// An Accepted with a claim for each of so many slots from the first one on.
pub(crate) fn accepted(
    alloc: Global,
    claims: &mut ClaimSource,
    first: u32,
    count: u32,
) -> Result<Frame, Memory>
    requires few { count ≤ MOST_SLOTS }
    requires claims { first + count < 2 ^ 32 }
    ensures frame { IfOk result (λ f. f ≡ Accepted (claims_from claims.old.seed first count)) }
    ensures fits { IfOk result (λ f. fits f ≡ true) }
    ensures seed { claims.new.seed ≡ claims.old.seed }
    ensures issued { claims.old.issued ≤ claims.new.issued }
{
    Ok(Frame::Accepted {
        claims: claims_at(alloc, claims, first, count)?,
    })
}

/// The frame that takes a chunk back, with a claim for each of so many slots from the first one on.
pub fn put_back_of(
    alloc: Global,
    claims: &mut ClaimSource,
    name: Digest,
    first: u32,
    count: u32,
) -> Result<Frame, Memory>
    requires some { 1 ≤ count }
    requires few { count ≤ MOST_SLOTS }
    requires claims { first + count < 2 ^ 32 }
    ensures frame { IfOk result (λ f. f ≡ PutBack name (claims_from claims.old.seed first count)) }
    ensures fits { IfOk result (λ f. fits f ≡ true) }
    ensures seed { claims.new.seed ≡ claims.old.seed }
    ensures issued { claims.old.issued ≤ claims.new.issued }
{
    Ok(Frame::PutBack {
        name: Digest(name.0),
        claims: claims_at(alloc, claims, first, count)?,
    })
}

/// Each byte is in its range, as a frame asks of its bytes.
fn are_in_range(bytes: &[u8])
    ensures { are_bytes bytes.now ≡ true }
{}

/// The frame that asks for the bytes under a name.
pub(crate) fn get_of(name: Digest) -> Frame
    ensures frame { result ≡ Get name }
    ensures fits { fits result ≡ true }
{
    Frame::Get {
        name: Digest(name.0),
    }
}

/// The frame that brings the bytes under a name.
pub(crate) fn here_of(name: Digest, bytes: Vec<u8>) -> Frame
    requires { length bytes.items ≤ longest_chunk }
    ensures frame { result ≡ Here name bytes.items }
    ensures fits { fits result ≡ true }
{
    are_in_range(&bytes);
    Frame::Here {
        name: Digest(name.0),
        bytes: Items::from_vec(bytes),
    }
}

/// The frame that stores a chunk, in the place of slots where there are some.
pub fn store_of(alloc: Global, name: Digest, slots: &[u32], bytes: Vec<u8>) -> Result<Frame, Memory>
    requires slots { are_slots 0 slots.now ≡ true }
    requires some { 1 ≤ length bytes.items }
    requires short { length bytes.items ≤ longest_chunk }
    ensures frame { IfOk result (λ f. f ≡ Store name slots.now bytes.items) }
    ensures fits { IfOk result (λ f. fits f ≡ true) }
{
    are_in_range(&bytes);
    Ok(Frame::Store {
        name: Digest(name.0),
        slots: SlotList::copy(alloc, slots)?,
        bytes: Items::from_vec(bytes),
    })
}

/// The frame that takes a chunk back against slots.
pub fn cancel_of(alloc: Global, name: Digest, slots: &[u32]) -> Result<Frame, Memory>
    requires { are_slots 1 slots.now ≡ true }
    ensures frame { IfOk result (λ f. f ≡ Cancel name slots.now) }
    ensures fits { IfOk result (λ f. fits f ≡ true) }
{
    Ok(Frame::Cancel {
        name: Digest(name.0),
        slots: SlotList::copy(alloc, slots)?,
    })
}

/// The frame that tells which names are held.
pub fn sample_frame(salt: &Digest, bits: u32) -> Frame
    ensures frame { result ≡ Sample salt.now bits }
    ensures fits { fits result ≡ true }
{
    Frame::Sample {
        salt: copied(*salt),
        bits,
    }
}

/// A copy of a name, whose bytes are each in their range.
fn copied(name: Digest) -> Digest
    ensures same { result ≡ name }
    ensures fits { is_digest result ≡ true }
{
    Digest(name.0)
}

/// The frame that declines a probe for what stood at these places of it.
pub fn declined_of(nonce: &Digest, places: PlaceList) -> Frame
    requires { are_places places ≡ true }
    ensures frame { result ≡ Declined nonce.now places }
    ensures fits { fits result ≡ true }
{
    Frame::Declined {
        nonce: copied(*nonce),
        places,
    }
}

/// The frame that gives a probe its proof.
pub fn proof_of(nonce: &Digest, value: &Digest) -> Frame
    ensures frame { result ≡ Proof nonce.now value.now }
    ensures fits { fits result ≡ true }
{
    Frame::Proof {
        nonce: copied(*nonce),
        value: copied(*value),
    }
}

/// A copy of names, each of which has a spelling in a frame.
fn names_copy(alloc: Global, names: &[Digest]) -> Result<DigestList, Memory>
    ensures same { IfOk result (λ l. l ≡ names.now) }
    ensures fit { IfOk result (λ l. list_all is_digest l ≡ true) }
{
    let mut copies = Vec::with_capacity(alloc, names.len())?;
    for name in names {
        copies.push(copied(*name))?;
    }
    Ok(Items::from_vec(copies))
}

/// The frame that asks which names are held.
pub fn ask_frame(alloc: Global, salt: &Digest, names: &[Digest]) -> Result<Frame, Memory>
    requires some { 1 ≤ length names.now }
    requires few { length names.now ≤ 32 }
    ensures frame { IfOk result (λ f. f ≡ Ask salt.now names.now) }
    ensures fits { IfOk result (λ f. fits f ≡ true) }
{
    Ok(Frame::Ask {
        salt: copied(*salt),
        names: names_copy(alloc, names)?,
    })
}

/// A copy of an object, which has a spelling in a frame.
pub fn object_copy(object: &Object) -> Object
    ensures same { result ≡ object.now }
    ensures fits { is_object result ≡ true }
{
    match object {
        Object::Chunk(name) => Object::Chunk(copied(*name)),
        Object::Slot(slot) => Object::Slot(*slot),
    }
}

/// A copy of objects, each of which has a spelling in a frame.
pub fn objects_copy(alloc: Global, objects: &[Object]) -> Result<ObjectList, Memory>
    ensures same { IfOk result (λ l. l ≡ objects.now) }
    ensures fit { IfOk result (λ l. list_all is_object l ≡ true) }
{
    let mut copies = Vec::with_capacity(alloc, objects.len())?;
    for object in objects {
        copies.push(object_copy(object))?;
    }
    Ok(Items::from_vec(copies))
}

/// The frame that asks for a proof that these objects are held.
pub fn probe_of(alloc: Global, nonce: &Digest, objects: &[Object]) -> Result<Frame, Memory>
    requires some { 1 ≤ length objects.now }
    requires few { length objects.now ≤ 32 }
    ensures frame { IfOk result (λ f. f ≡ Probe nonce.now objects.now) }
    ensures fits { IfOk result (λ f. fits f ≡ true) }
{
    Ok(Frame::Probe {
        nonce: copied(*nonce),
        objects: objects_copy(alloc, objects)?,
    })
}
