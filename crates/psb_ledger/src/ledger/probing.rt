//! What a ledger makes of a probe of a peer, and of its outcome: it passes, fails or is declined.

ghost use Rattle.std.specs.Prelude.{◌≡◌, ◌==◌, ◌<◌, ◌^◌, OnOk, Some, position};
ghost use Rattle.psb_model.specs.declared.change.Change.TheVariants as change;
ghost use Rattle.psb_model.specs.Conditions.{allowed};
ghost use Rattle.psb_model.specs.Effects.{after};
ghost use Rattle.psb_ledger.specs.View.{HasDebtRoom, HasRoom};
ghost use Rattle.psb_ledger.specs.Moves.{MayAsk, MayPass, MayFail, MayDecline};

use super::Ledger;
use accounts::place_of;
use peer_rules::{allows_asking, allows_declining, allows_failing, is_outcome};
use psb_bytes::{Memory, PeerId};
use psb_model::{Asked, Declined, Failed, Passed};

impl Ledger {
    /// Makes room for what a probe that passed gives back.
    pub(super) fn make_room_to_pass(&mut self, x: &Passed) -> Result<(), Memory>
        ensures state { self.new.state ≡ self.old.state }
        ensures room { OnOk result (HasRoom self.new (change.Passed x.now)) }
    {
        let objects = x.objects.as_slice();
        let count = self.row(x.peer).count_regained(objects);
        self.make_room_for(x.peer, 0, count)
    }

    /// Makes room for so many objects of the peer to be lost.
    pub(super) fn make_room_to_lose(&mut self, peer: PeerId, count: usize) -> Result<(), Memory>
        requires { count < 2 ^ 62 }
        ensures state { self.new.state ≡ self.old.state }
        ensures room { OnOk result (HasDebtRoom self.new peer count) }
    {
        match place_of(self.accounts.as_slice(), peer) {
            None => Ok(()),
            Some(at) => {
                let account = &mut self.accounts[at];
                account.reserve_debts(count)
            }
        }
    }

    pub(super) fn may_ask(&self, x: &Asked) -> bool
        ensures { result ≡ allowed self.now.state (change.Asked x.now) }
    {
        self.is_open(x.peer) && allows_asking(self.row(x.peer), x.objects.as_slice())
    }

    pub(super) fn ask(&mut self, at: usize, x: Asked)
        requires few { self.old.state.changes < 2 ^ 62 }
        requires place { Some at ≡ position (λ v. v.id == x.peer) self.old.accounts }
        requires may { MayAsk self.old x at }
        ensures { self.new.state ≡ after self.old.state (change.Asked x) }
    {
        let changes = self.changes;
        let account = &mut self.accounts[at];
        account.ask(x.objects, changes);
        self.changes = changes + 1;
    }

    pub(super) fn may_pass(&self, x: &Passed) -> bool
        ensures { result ≡ allowed self.now.state (change.Passed x.now) }
    {
        self.is_open(x.peer) && is_outcome(self.row(x.peer), x.asked, x.objects.as_slice())
    }

    pub(super) fn pass(&mut self, at: usize, x: &Passed)
        requires few { self.old.state.changes < 2 ^ 62 }
        requires place { Some at ≡ position (λ v. v.id == x.now.peer) self.old.accounts }
        requires may { MayPass self.old x.now at }
        ensures { self.new.state ≡ after self.old.state (change.Passed x.now) }
    {
        let changes = self.changes;
        let account = &mut self.accounts[at];
        account.pass(x);
        self.changes = changes + 1;
    }

    pub(super) fn may_fail(&self, x: &Failed) -> bool
        ensures { result ≡ allowed self.now.state (change.Failed x.now) }
    {
        self.is_open(x.peer) && allows_failing(self.row(x.peer), x)
    }

    pub(super) fn fail(&mut self, at: usize, x: &Failed)
        requires few { self.old.state.changes < 2 ^ 62 }
        requires place { Some at ≡ position (λ v. v.id == x.now.peer) self.old.accounts }
        requires may { MayFail self.old x.now at }
        ensures { self.new.state ≡ after self.old.state (change.Failed x.now) }
    {
        let changes = self.changes;
        let account = &mut self.accounts[at];
        account.fail(x, changes);
        self.changes = changes + 1;
    }

    pub(super) fn may_decline(&self, x: &Declined) -> bool
        ensures { result ≡ allowed self.now.state (change.Declined x.now) }
    {
        self.is_open(x.peer) && allows_declining(self.row(x.peer), x)
    }

    pub(super) fn decline(&mut self, at: usize, x: &Declined)
        requires few { self.old.state.changes < 2 ^ 62 }
        requires place { Some at ≡ position (λ v. v.id == x.now.peer) self.old.accounts }
        requires may { MayDecline self.old x.now at }
        ensures { self.new.state ≡ after self.old.state (change.Declined x.now) }
    {
        let changes = self.changes;
        let account = &mut self.accounts[at];
        account.decline(x, changes);
        self.changes = changes + 1;
    }
}
