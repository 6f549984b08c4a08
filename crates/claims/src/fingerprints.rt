//! Short fingerprints of claims, by which most of those that are not a body are passed over.

ghost use Rattle.std.specs.Prelude.{◌≡◌, ◌+◌, ℕ, List, OnOk, OnErr, vec_len, vec_capacity};
ghost use Rattle.psb_digest.specs.Claims.{claim};
ghost use Rattle.claims.specs.Fingerprints.{fingerprint, AreFingerprints};
ghost use Rattle.claims.specs.Growth.{IsTight};

use crate::growth::push_tight;
use psb_bytes::Memory;

/// The first four bytes of a claim or of a body.
pub(crate) fn fingerprint(body: &[u8; 512]) -> u32
    ensures { result ≡ fingerprint body.now }
{
    let mut first = [0; 4];
    first.copy_from_slice(&body[..4]);
    u32::from_be_bytes(first)
}

/// Keeps the fingerprint of the next claim behind those of the claims below it.
pub(crate) fn keep_fingerprint(list: &mut Vec<u32>, next: u32) -> Result<(), Memory>
    ensures kept { OnOk result ((seed : List ℕ) (count : ℕ) → next ≡ fingerprint (claim seed count) → AreFingerprints seed list.old.items count → AreFingerprints seed list.new.items (count + 1)) }
    ensures same { OnErr result (list.new.items ≡ list.old.items) }
    ensures tight { IsTight (vec_capacity list.old) (vec_len list.old) → IsTight (vec_capacity list.new) (vec_len list.new) }
{
    push_tight(list, next)
}
