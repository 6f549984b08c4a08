//! The objects of a question, lent from the datagram that it came in.
ghost use Rattle.std.specs.Prelude.{◌≡◌, ◌<◌, ◌≤◌, ◌*◌, ◌+◌, length, drop, slice_get, slice_index, Some, IfSome, IsSome, IfOk};
ghost use Rattle.wire_codec.specs.Fields.{Gives, object_in, object_at, objects_at};

use crate::cells::digest_in;
use crate::fields::take_count;
use crate::limits::{DIGEST_BYTES, MOST_OBJECTS};
use byte_fields::{split_bytes, split_u8, split_u32};
use psb_bytes::{Memory, Object, ObjectList};
use std::alloc::Global;
use std::marker::Model;

/// Objects, as they stand in the datagram: from `bytes` on, each at its start.
#[derive(Drop)]
pub struct ObjectsView<'a> {
    count: usize,
    bytes: &'a [u8],
    starts: [usize; MOST_OBJECTS as usize],
}

impl<'a> Model for ObjectsView<'a> {
    ghost use Rattle.std.specs.Prelude.{List};
    ghost use Rattle.psb_bytes.specs.declared.ids.Object.{Object};
    ghost use Rattle.wire_codec.specs.Fields.{objects_in, AreStarts};

    ghost Value = { List Object };

    ghost view = { λ v. objects_in v.count v.bytes.now };

    ghost invariant = { λ v. AreStarts v.count v.bytes.now v.starts };
}

impl<'a> ObjectsView<'a> {
    /// How many there are.
    pub fn len(&self) -> usize
        ensures { result ≡ length self.now }
    {
        self.count
    }

    /// Item `j`, counted from 0. Takes constant time.
    pub fn at(&self, j: usize) -> Object
        requires { j < length self.now }
        ensures { slice_get self.now j ≡ Some result }
    {
        object_from(self.bytes, &self.starts, j)
    }

    /// A copy of the items.
    pub fn to_list(&self, alloc: Global) -> Result<ObjectList, Memory>
        ensures { IfOk result (λ l. l ≡ self.now) }
    {
        let mut items = Vec::with_capacity(alloc, self.len())?;
        for j in 0..self.len() {
            items.push(self.at(j))?;
        }
        Ok(ObjectList::from_vec(items))
    }
}

/// The object that begins at start j.
fn object_from(bytes: &[u8], starts: &[usize], j: usize) -> Object
    requires within { j < length starts.now }
    requires inside { slice_index starts.now j ≤ length bytes.now }
    requires there { IsSome (object_in (drop (slice_index starts.now j) bytes.now)) }
    ensures { object_in (drop (slice_index starts.now j) bytes.now) ≡ Some result }
{
    object_of(&bytes[starts[j]..]).unwrap().0
}

/// One object, 0 and a name or 1 and a slot, and how many bytes it has.
#[tactic(auto, unfolding(byte_fields::specs::Fields::object_at, byte_fields::specs::Fields::object_by))]
fn object_of(bytes: &[u8]) -> Option<(Object, usize)>
    ensures within { IfSome result (λ x. x.1 ≤ length bytes.now) }
    ensures exact { Gives (λ x. (x.0, drop x.1 bytes.now)) result (object_at bytes.now) }
{
    let (kind, rest) = split_u8(bytes)?;
    match kind {
        0 => {
            let (name, _) = split_bytes(rest, DIGEST_BYTES)?;
            Some((Object::Chunk(digest_in(name)), 1 + DIGEST_BYTES))
        }
        1 => {
            let (slot, _) = split_u32(rest)?;
            Some((Object::Slot(slot), 1 + 4))
        }
        _ => None,
    }
}

/// The objects, of which there is at least one.
#[tactic(auto, unfolding(crate::specs::Fields::objects_at))]
pub(crate) fn take_objects(bytes: &[u8]) -> Option<(ObjectsView<'_>, &[u8])>
    ensures { Gives (λ x. (x.0, x.1.now)) result (objects_at bytes.now) }
{
    let (count, bytes) = take_count(bytes, 1, MOST_OBJECTS)?;
    let mut starts = [0; MOST_OBJECTS as usize];
    let mut place = 0;
    for j in 0..count {
        let (_, len) = object_of(&bytes[place..])?;
        starts[j] = place;
        place += len;
    }
    let view = ObjectsView {
        count,
        bytes,
        starts,
    };
    Some((view, &bytes[place..]))
}
