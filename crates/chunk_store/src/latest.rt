//! The owner that was added last, as long as the table does not have it.

ghost use Rattle.std.specs.Prelude.{◌≡◌, ◌⊎◌, ◌&&◌, ℕ, List, Some, None, true, false, not};
ghost use Rattle.std.specs.Option.{is_none};
ghost use Rattle.psb_bytes.specs.Objects.{name_eq};
ghost use Rattle.chunk_store.specs.declared.owner.Owner.{Owner};
ghost use Rattle.chunk_store.specs.Owners.{owner_eq};
ghost use Rattle.chunk_store.specs.Latest.{added_record, added_owner};

use crate::Owner;
use psb_bytes::Digest;

/// An owner of a name, and the record with the body.
#[derive(Clone, Copy)]
pub(crate) struct Addition {
    pub owner: Owner,
    pub name: Digest,
    pub record_no: u64,
}

/// Whether this is the addition.
pub(crate) fn is_added(latest: &Option<Addition>, owner: &Owner, name: &Digest) -> bool
    ensures { result ≡ added_owner latest.now owner.now name.now }
{
    match latest {
        Some(addition) => addition.name == *name && addition.owner == *owner,
        None => false,
    }
}

/// The record that the addition has for a name.
pub(crate) fn added_record(latest: &Option<Addition>, name: &Digest) -> Option<u64>
    ensures { result ≡ added_record latest.now name.now }
{
    match latest {
        Some(addition) if addition.name == *name => Some(addition.record_no),
        _ => None,
    }
}

/// What is left of the addition once an owner lets a name go. Where it is another owner's of that
/// name, it takes over the record that the name had.
pub(crate) fn left_of(
    latest: &Option<Addition>,
    owner: &Owner,
    name: &Digest,
    record_no: u64,
) -> Option<Addition>
    ensures owners { (o : Owner) (q : List ℕ) → added_owner result o q ≡ (added_owner latest.now o q && not (name_eq name.now q && owner_eq owner.now o)) }
    ensures others { (q : List ℕ) → name_eq name.now q ≡ false → added_record result q ≡ added_record latest.now q }
    ensures none { is_none latest.now ≡ true → is_none result ≡ true }
    ensures takes_over { (added_record result name.now ≡ Some record_no) ⊎ (added_record result name.now ≡ None) }
{
    match latest {
        Some(addition) if addition.name != *name => Some(*addition),
        Some(addition) if addition.owner != *owner => Some(Addition {
            owner: addition.owner,
            name: addition.name,
            record_no,
        }),
        _ => None,
    }
}
