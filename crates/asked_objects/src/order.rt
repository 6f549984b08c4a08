//! The order of objects.

ghost use Rattle.std.specs.Prelude.{◌≡◌};
ghost use Rattle.asked_objects.specs.Ranks.{precedes, is_first};

use peer_lists::compare;
use psb_bytes::Object;

/// Whether the object comes before the other one, if there is one.
pub fn precedes(object: &Object, other: &Option<Object>) -> bool
    ensures { result ≡ precedes object.now other.now }
{
    match other {
        None => true,
        Some(o) => compare(object, o).is_lt(),
    }
}

/// Whether the first of two objects is there, and comes before the other one.
pub fn is_first(object: &Option<Object>, other: &Option<Object>) -> bool
    ensures { result ≡ is_first object.now other.now }
{
    match object {
        None => false,
        Some(o) => precedes(o, other),
    }
}
