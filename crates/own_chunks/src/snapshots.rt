//! The kept snapshots, and one that is made.

ghost use Rattle.std.specs.Prelude.{◌≡◌, ◌==◌, ◌+◌, ◌∷◌, []};
ghost use Rattle.std.specs.List.{list_all, list_any};
ghost use Rattle.std.specs.Ordering.{nat_cmp, is_lt};
ghost use Rattle.std.specs.Cmp.Lexicographic.{slice_cmp};
ghost use Rattle.psb_model.specs.Words.{all_of};
ghost use Rattle.psb_model.specs.State.{own_has};
ghost use Rattle.psb_model.specs.Conditions.{names_ascend};
ghost use Rattle.psb_model.specs.Effects.{kept_of};
ghost use Rattle.own_chunks.specs.Snapshots.{count_of};

use crate::own::Own;
use psb_bytes::Digest;
use psb_model::{SnapMark, Snapped, Snapshot};

/// Whether a name comes before another, by bytes.
pub fn is_below(a: &Digest, b: &Digest) -> bool
    ensures { result ≡ is_lt (slice_cmp nat_cmp a.now b.now) }
{
    a.cmp(b).is_lt()
}

/// Whether each name is below the next.
pub fn names_ascend(names: &[Digest]) -> bool
    ensures { result ≡ names_ascend names.now }
{
    for i in 1..names.len() {
        if !is_below(&names[i - 1], &names[i]) {
            return false;
        }
    }
    true
}

/// Whether the snapshot of this number is kept.
pub fn has_number(kept: &[Snapshot], number: u32) -> bool
    ensures { result ≡ list_any (λ k. k.number == number) kept.now }
{
    kept.iter().any(|k| k.number == number)
}

/// How many snapshots were made so far.
fn count_of(snapped: &Option<SnapMark>) -> u32
    ensures { result ≡ count_of snapped.now }
{
    match snapped {
        None => 0,
        Some(mark) => mark.number,
    }
}

/// The number is the next, and the names ascend and are all own ones.
pub fn allows_snapshot(snapped: &Option<SnapMark>, own: &Own, number: u32, names: &[Digest]) -> bool
    ensures { result ≡ all_of ((number == count_of snapped.now + 1) ∷ names_ascend names.now ∷ list_all (own_has own.now.items) names.now ∷ []) }
{
    number as u64 == count_of(snapped) as u64 + 1 && names_ascend(names) && own.has_all(names)
}

/// The snapshot, as it is kept.
pub fn kept_of(x: Snapped) -> Snapshot
    ensures { result ≡ kept_of x }
{
    Snapshot {
        number: x.number,
        ticket: x.ticket,
        files: x.files,
        folders: x.folders,
        bytes: x.bytes,
        left: x.left,
        names: x.names,
    }
}
