//! The order of candidates.

ghost use Rattle.std.specs.Prelude.{◌≡◌};
ghost use Rattle.psb_model.specs.Candidates.{comes_before};
ghost use Rattle.buddy_select.specs.Order.{place_in};

use psb_model::Candidate;

/// Whether a comes before b: the greater share of the sample first, by cross products, then the fewer hops,
/// then the lesser id.
pub fn comes_before(a: &Candidate, b: &Candidate) -> bool
    ensures { result ≡ comes_before a.now b.now }
{
    let left = u64::from(a.got) * u64::from(b.of);
    let right = u64::from(b.got) * u64::from(a.of);
    if left != right {
        return right < left;
    }
    if a.hops != b.hops {
        return a.hops < b.hops;
    }
    a.peer.0 < b.peer.0
}

/// How many stand before it.
pub(crate) fn place_in(new: &Candidate, ordered: &[Candidate]) -> usize
    ensures { result ≡ place_in new.now ordered.now }
{
    for i in 0..ordered.len() {
        if comes_before(new, &ordered[i]) {
            return i;
        }
    }
    ordered.len()
}
