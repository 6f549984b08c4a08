//! The fields that frames and records have alike, read in turn. Numbers stand high byte first. No call takes
//! memory. Where no such field stands, the bytes are left at some place behind it.
#![tactic(auto)]

ghost use Rattle.byte_fields.specs.Fields.{Takes, u8_at, u16_at, u32_at, u64_at, digest_at, object_at};

mod splitting;

use psb_bytes::{Cursor, Digest, Object, Short};
pub use splitting::{split_bytes, split_u8, split_u16, split_u32, split_u64};
use thiserror::Error;

/// The bytes begin with no such field.
#[derive(Clone, Copy, PartialEq, Eq, Debug, Error)]
#[error("no such field stands here")]
pub struct NoField;

impl From<Short> for NoField {
    fn from(_error: Short) -> NoField {
        NoField
    }
}

/// A number of one byte.
#[tactic(auto, unfolding(crate::specs::Fields::u8_at))]
pub fn take_u8(fields: &mut Cursor<'_>) -> Result<u8, NoField>
    ensures { Takes result fields.new (u8_at fields.old) }
{
    Ok(fields.take_u8()?)
}

/// A number of two bytes.
#[tactic(auto, unfolding(crate::specs::Fields::u16_at, crate::specs::Fields::bytes_at))]
pub fn take_u16(fields: &mut Cursor<'_>) -> Result<u16, NoField>
    ensures { Takes result fields.new (u16_at fields.old) }
{
    Ok(fields.take_u16()?)
}

/// A number of four bytes.
#[tactic(auto, unfolding(crate::specs::Fields::u32_at, crate::specs::Fields::bytes_at))]
pub fn take_u32(fields: &mut Cursor<'_>) -> Result<u32, NoField>
    ensures { Takes result fields.new (u32_at fields.old) }
{
    Ok(fields.take_u32()?)
}

/// A number of eight bytes.
#[tactic(auto, unfolding(crate::specs::Fields::u64_at, crate::specs::Fields::bytes_at))]
pub fn take_u64(fields: &mut Cursor<'_>) -> Result<u64, NoField>
    ensures { Takes result fields.new (u64_at fields.old) }
{
    Ok(fields.take_u64()?)
}

/// A digest of 32 bytes.
#[tactic(auto, unfolding(crate::specs::Fields::digest_at, crate::specs::Fields::bytes_at))]
pub fn take_digest(fields: &mut Cursor<'_>) -> Result<Digest, NoField>
    ensures { Takes result fields.new (digest_at fields.old) }
{
    Ok(fields.take_digest()?)
}

/// An object: 0 and a name, or 1 and a slot.
#[tactic(auto, unfolding(crate::specs::Fields::object_at, crate::specs::Fields::object_by, crate::specs::Fields::digest_at))]
pub fn take_object(fields: &mut Cursor<'_>) -> Result<Object, NoField>
    ensures { Takes result fields.new (object_at fields.old) }
{
    match take_u8(fields)? {
        0 => Ok(Object::Chunk(take_digest(fields)?)),
        1 => Ok(Object::Slot(take_u32(fields)?)),
        _ => Err(NoField),
    }
}
