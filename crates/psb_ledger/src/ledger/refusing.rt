//! Room in the lists of a peer, and what a ledger makes of a deal that is refused.

ghost use Rattle.std.specs.Prelude.{◌≡◌, ◌==◌, ◌<◌, ◌^◌, OnOk, Some, position};
ghost use Rattle.psb_model.specs.declared.change.Change.TheVariants as change;
ghost use Rattle.psb_model.specs.Conditions.{allowed};
ghost use Rattle.psb_model.specs.Effects.{after};
ghost use Rattle.psb_ledger.specs.View.{HasListRoom};
ghost use Rattle.psb_ledger.specs.Moves.{MayRefuse};

use super::Ledger;
use accounts::place_of;
use peer_rules::allows_refusal;
use psb_bytes::{Memory, PeerId};
use psb_model::Refused;

impl Ledger {
    /// Makes room for so many chunks, and runs of slots, in the two lists of the peer.
    pub(super) fn make_room_for(
        &mut self,
        peer: PeerId,
        ins: usize,
        outs: usize,
    ) -> Result<(), Memory>
        ensures state { self.new.state ≡ self.old.state }
        ensures room { OnOk result (HasListRoom self.new peer ins outs) }
    {
        match place_of(self.accounts.as_slice(), peer) {
            None => Ok(()),
            Some(at) => {
                let account = &mut self.accounts[at];
                account.reserve(ins, outs)
            }
        }
    }

    pub(super) fn may_refuse(&self, x: &Refused) -> bool
        ensures { result ≡ allowed self.now.state (change.Refused x.now) }
    {
        self.is_open(x.peer) && allows_refusal(self.row(x.peer), x.deal, x.why)
    }

    pub(super) fn refuse(&mut self, at: usize, x: &Refused)
        requires few { self.old.state.changes < 2 ^ 62 }
        requires place { Some at ≡ position (λ v. v.id == x.now.peer) self.old.accounts }
        requires may { MayRefuse self.old x.now at }
        ensures { self.new.state ≡ after self.old.state (change.Refused x.now) }
    {
        let changes = self.changes;
        let account = &mut self.accounts[at];
        account.note(x.deal, changes);
        self.changes = changes + 1;
    }
}
