//! Lists that grow in small steps.

ghost use Rattle.std.specs.Prelude.{◌≡◌, ◌++◌, [], ◌∷◌, OnOk, OnErr, vec_len, vec_capacity};
ghost use Rattle.claims.specs.Growth.{IsTight};

use psb_bytes::Memory;

/// The least that a full list grows by.
const LEAST_GROWTH: usize = 1024;

/// Adds an item at the end. A full list grows by an eighth, so that little of it stands empty: one
/// that doubles would be half empty at times.
pub(crate) fn push_tight<T: Copy>(list: &mut Vec<T>, item: T) -> Result<(), Memory>
    ensures added { OnOk result (list.new.items ≡ list.old.items ++ item ∷ []) }
    ensures same { OnErr result (list.new.items ≡ list.old.items) }
    ensures tight { IsTight (vec_capacity list.old) (vec_len list.old) → IsTight (vec_capacity list.new) (vec_len list.new) }
{
    if list.len() == list.capacity() {
        list.try_reserve_exact(LEAST_GROWTH.max(list.len() / 8))?;
    }
    list.push_reserved(item);
    Ok(())
}
