//! What a list of candidates is to be: of peers that are listed once, each with a sample.

ghost use Rattle.std.specs.Prelude.{◌≡◌, ◌==◌, nat_le};
ghost use Rattle.std.specs.List.{list_any, list_all};
ghost use Rattle.psb_model.specs.Candidates.{distinct_peers};

use psb_bytes::PeerId;
use psb_model::Candidate;

/// Whether some candidate is this peer.
fn has_candidate(candidates: &[Candidate], peer: PeerId) -> bool
    ensures { result ≡ list_any (λ y. peer == y.peer) candidates.now }
{
    candidates.iter().any(|x| peer == x.peer)
}

/// Whether no peer is listed twice. Where each of `n` candidates is one of `p` peers, two of the first
/// `p + 1` are the same, so this takes at most some `p n` steps.
pub fn distinct_peers(candidates: &[Candidate]) -> bool
    ensures { result ≡ distinct_peers candidates.now }
{
    for i in 0..candidates.len() {
        if has_candidate(&candidates[i + 1..], candidates[i].peer) {
            return false;
        }
    }
    true
}

/// Whether each has a sample.
pub fn have_samples(candidates: &[Candidate]) -> bool
    ensures { result ≡ list_all (λ x. nat_le 1 x.of) candidates.now }
{
    candidates.iter().all(|x| 1 <= x.of)
}
