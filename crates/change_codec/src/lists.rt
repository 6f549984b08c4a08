//! The lists of changes: a count of four bytes, and the items one after another.
ghost use Rattle.std.specs.Prelude.{◌≡◌, ◌<◌, ◌^◌, ◌++◌, length, OnOk};
ghost use Rattle.byte_fields.specs.Fields.{items_at};
ghost use Rattle.psb_model.specs.Heads.{candidate, counted};
ghost use Rattle.change_codec.specs.Reading.{AnswersAt, counted_at};

use crate::ChangeError;
use crate::writing::{put_bytes, put_peer, put_u8, put_u32};
use byte_fields::{NoField, take_digest, take_object, take_u16, take_u32};
use psb_bytes::{Cursor, Digest, Items, Memory, Object, PeerId};
use psb_model::Candidate;
use std::alloc::Global;

/// An item of a list.
pub(crate) trait Item: Copy + Drop {
    ghost use Rattle.std.specs.Prelude.{◌≡◌, ℕ, List, ◌++◌, Option, OnOk};
    ghost use Rattle.byte_fields.specs.Fields.{Takes};

    ghost item_at: { List ℕ → Option (Self × List ℕ) };

    ghost spelled: { Self → List ℕ };

    /// How many bytes the shortest has, not 0.
    const LEAST: usize;

    fn take(fields: &mut Cursor<'_>) -> Result<Self, NoField>
        ensures { Takes result fields.new (item_at fields.old) };

    fn put(&self, out: &mut Vec<u8>) -> Result<(), Memory>
        ensures { OnOk result (out.new.items ≡ out.old.items ++ spelled self.now) };
}

impl Item for u32 {
    ghost use Rattle.psb_bytes.specs.Numbers.{u32_bytes};
    ghost use Rattle.byte_fields.specs.Fields.{u32_at};

    ghost item_at = { u32_at };

    ghost spelled = { u32_bytes };

    const LEAST: usize = 4;

    fn take(fields: &mut Cursor<'_>) -> Result<u32, NoField> {
        take_u32(fields)
    }

    fn put(&self, out: &mut Vec<u8>) -> Result<(), Memory> {
        put_u32(out, *self)
    }
}

impl Item for u16 {
    ghost use Rattle.psb_bytes.specs.Numbers.{u16_bytes};
    ghost use Rattle.byte_fields.specs.Fields.{u16_at};

    ghost item_at = { u16_at };

    ghost spelled = { u16_bytes };

    const LEAST: usize = 2;

    fn take(fields: &mut Cursor<'_>) -> Result<u16, NoField> {
        take_u16(fields)
    }

    fn put(&self, out: &mut Vec<u8>) -> Result<(), Memory> {
        Ok(out.extend_from_slice(&self.to_be_bytes())?)
    }
}

impl Item for Digest {
    ghost use Rattle.byte_fields.specs.Fields.{digest_at};

    ghost item_at = { digest_at };

    ghost spelled = { λ name. name };

    const LEAST: usize = 32;

    fn take(fields: &mut Cursor<'_>) -> Result<Digest, NoField> {
        take_digest(fields)
    }

    fn put(&self, out: &mut Vec<u8>) -> Result<(), Memory> {
        put_bytes(out, &self.0)
    }
}

impl Item for Object {
    ghost use Rattle.psb_model.specs.Heads.{object};
    ghost use Rattle.byte_fields.specs.Fields.{object_at};

    ghost item_at = { object_at };

    ghost spelled = { object };

    const LEAST: usize = 5;

    fn take(fields: &mut Cursor<'_>) -> Result<Object, NoField> {
        take_object(fields)
    }

    fn put(&self, out: &mut Vec<u8>) -> Result<(), Memory> {
        match self {
            Object::Chunk(name) => {
                put_u8(out, 0)?;
                put_bytes(out, &name.0)
            }
            Object::Slot(slot) => {
                put_u8(out, 1)?;
                put_u32(out, *slot)
            }
        }
    }
}

impl Item for Candidate {
    ghost use Rattle.change_codec.specs.Reading.{candidate_at};

    ghost item_at = { candidate_at };

    ghost spelled = { candidate };

    const LEAST: usize = 16;

    #[tactic(auto, unfolding(crate::specs::Reading::candidate_at))]
    fn take(fields: &mut Cursor<'_>) -> Result<Candidate, NoField> {
        Ok(Candidate {
            peer: PeerId(take_u32(fields)?),
            got: take_u32(fields)?,
            of: take_u32(fields)?,
            hops: take_u32(fields)?,
        })
    }

    fn put(&self, out: &mut Vec<u8>) -> Result<(), Memory> {
        put_peer(out, self.peer)?;
        put_u32(out, self.got)?;
        put_u32(out, self.of)?;
        put_u32(out, self.hops)?;
        Ok(())
    }
}

/// The next `count` items. Room is taken for no more than the bytes can spell.
fn take_items<T: Item>(
    alloc: Global,
    fields: &mut Cursor<'_>,
    count: usize,
) -> Result<Items<T>, ChangeError>
    ensures { AnswersAt result fields.new (items_at T.item_at count fields.old) }
{
    let most = fields.left() / T::LEAST.max(1);
    let mut items = Vec::with_capacity(alloc, count.min(most))?;
    for i in 0..count {
        let item = T::take(fields)?;
        items.push(item)?;
    }
    Ok(Items::from_vec(items))
}

/// How many items there are, and the items.
#[tactic(auto, unfolding(crate::specs::Reading::counted_at))]
pub(crate) fn take_list<T: Item>(
    alloc: Global,
    fields: &mut Cursor<'_>,
) -> Result<Items<T>, ChangeError>
    ensures { AnswersAt result fields.new (counted_at T.item_at fields.old) }
{
    let count = take_u32(fields)?;
    take_items(alloc, fields, count as usize)
}

/// How many items there are, and the items.
pub(crate) fn put_list<T: Item>(out: &mut Vec<u8>, items: &[T]) -> Result<(), Memory>
    requires { length items.now < 2 ^ 32 }
    ensures { OnOk result (out.new.items ≡ out.old.items ++ counted T.spelled items.now) }
{
    put_u32(out, items.len() as u32)?;
    out.reserve_exact(items.len().saturating_mul(T::LEAST))?;
    for item in items {
        item.put(out)?;
    }
    Ok(())
}
