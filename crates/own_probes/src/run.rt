//! The probe of a peer that runs.

ghost use Rattle.std.specs.Prelude.{◌≡◌, ◌&&◌, IfOk};
ghost use Rattle.std.specs.Option.{option_map};
ghost use Rattle.psb_model.specs.State.{row};
ghost use Rattle.psb_machine.specs.OwnProbes.{run_of, is_of};
ghost use Rattle.peer_states.specs.PeerStates.{kept};
ghost use Rattle.own_probes.specs.Probes.{run_in};

use node_letters::objects_copy;
use peer_states::PeerState;
use psb_bytes::{Digest, Memory, ObjectList, PeerId};
use psb_ledger::Ledger;
use sampling::salt_of;
use std::alloc::Global;

/// A probe that runs: the number of the change that asked, what it asked for, and the peer's clock then.
#[derive(Drop)]
pub struct Run {
    pub asked: u64,
    pub objects: ObjectList,
    pub began: u64,
}

impl Run {
    /// Whether an answer with this number and nonce is to this probe.
    pub(crate) fn is_asked_with(&self, seed: &Digest, number: u64, nonce: &Digest) -> bool
        ensures { result ≡ is_of seed.now number nonce.now (run_in self.now) }
    {
        number == self.asked && *nonce == salt_of(seed, self.asked)
    }
}

/// The probe of a peer that runs, if one does, by what is kept of the peer.
pub fn run_of(
    alloc: Global,
    ledger: &Ledger,
    peer: PeerId,
    state: &PeerState,
) -> Result<Option<Run>, Memory>
    ensures { IfOk result (λ o. option_map run_in o ≡ run_of (kept state.now) (row ledger.now.state peer)) }
{
    let Some(began) = state.began else {
        return Ok(None);
    };
    let Some(open) = ledger.row(peer).asked() else {
        return Ok(None);
    };
    Ok(Some(Run {
        asked: open.0,
        objects: objects_copy(alloc, open.1.as_slice())?,
        began,
    }))
}
