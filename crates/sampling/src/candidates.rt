//! Who is a candidate, and when one is chosen.

ghost use Rattle.std.specs.Prelude.{◌≡◌, ◌≤◌, ◌++◌, OnOk};
ghost use Rattle.psb_machine.specs.Sampling.{candidate_by, is_ready};

use abstracts::coverage;
use psb_bytes::Memory;
use psb_model::Candidate;
use psb_settings::PeerRow;

/// After so many ticks of the last peer those that did not answer are no longer waited for.
const TICKS_TO_CHOOSE: u64 = 8;

/// Whether a choice is made among so many of the peers, by the clock of the last one.
pub fn is_ready(peers: usize, found: usize, ticks: u64) -> bool
    ensures { result ≡ is_ready peers found ticks }
{
    0 < found && (found == peers || TICKS_TO_CHOOSE <= ticks)
}

/// Adds a peer to the candidates, where it answered a question of so many names, with the bits of its sample.
pub fn add_candidate(
    found: &mut Vec<Candidate>,
    peer: &PeerRow,
    sample: Option<u32>,
    names: u32,
) -> Result<(), Memory>
    requires few { names ≤ 32 }
    ensures { OnOk result (found.new.items ≡ found.old.items ++ candidate_by peer.now names sample) }
{
    if let Some(bits) = sample {
        found.push(Candidate {
            peer: peer.id,
            got: coverage(bits, names),
            of: names,
            hops: peer.hops,
        })?;
    }
    Ok(())
}
