//! The order of objects.

ghost use Rattle.std.specs.Prelude.{◌≡◌};
ghost use Rattle.psb_bytes.specs.Objects.{object_cmp};

use psb_bytes::Object;
use std::cmp::Ordering;

/// How two objects stand: chunks by the bytes of their names, and then slots by number.
pub fn compare(a: &Object, b: &Object) -> Ordering
    ensures { result ≡ object_cmp a.now b.now }
{
    match a {
        Object::Chunk(x) => match b {
            Object::Chunk(y) => x.cmp(y),
            Object::Slot(_) => Ordering::Less,
        },
        Object::Slot(x) => match b {
            Object::Chunk(_) => Ordering::Greater,
            Object::Slot(y) => x.cmp(y),
        },
    }
}
