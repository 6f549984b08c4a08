//! The candidates among whom buddies are chosen.

ghost use Rattle.std.specs.Prelude.{◌≡◌, ◌≤◌, IfOk};
ghost use Rattle.psb_machine.specs.Sampling.{candidates};
ghost use Rattle.peer_states.specs.PeerStates.{sample_of};

use crate::peer_state::{PeerState, sample_of};
use psb_bytes::Memory;
use psb_model::Candidate;
use psb_settings::PeerRow;
use sampling::add_candidate;
use std::alloc::Global;

/// The peers of which a sample of so many names is kept, in the order of the settings.
pub fn candidates_of(
    alloc: Global,
    peers: &[PeerRow],
    states: &[PeerState],
    names: u32,
) -> Result<Vec<Candidate>, Memory>
    requires few { names ≤ 32 }
    ensures { IfOk result (λ found. found.items ≡ candidates peers.now (sample_of states.now) names) }
{
    let mut found = Vec::new(alloc);
    for peer in peers {
        add_candidate(&mut found, peer, sample_of(states, peer.id), names)?;
    }
    Ok(found)
}
