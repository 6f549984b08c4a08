//! What a ledger makes of a chunk that a peer takes back: against slots that the node has there, or
//! against claims that the peer puts into new slots here.

ghost use Rattle.std.specs.Prelude.{◌≡◌, ◌==◌, ◌<◌, ◌^◌, true, Some, position};
ghost use Rattle.psb_model.specs.Grammar.{in_grammar};
ghost use Rattle.psb_model.specs.declared.change.Change.TheVariants as change;
ghost use Rattle.psb_model.specs.Conditions.{allowed};
ghost use Rattle.psb_model.specs.Effects.{after};
ghost use Rattle.psb_ledger.specs.Moves.{MayLetGo, MayPutBack};

use super::Ledger;
use peer_rules::{allows_let_go, allows_put_back};
use psb_model::{LetGo, LetGoBack};

impl Ledger {
    pub(super) fn may_let_go(&self, x: &LetGo) -> bool
        ensures { result ≡ allowed self.now.state (change.LetGo x.now) }
    {
        self.is_open(x.peer) && allows_let_go(self.row(x.peer), x)
    }

    pub(super) fn let_go(&mut self, at: usize, x: &LetGo)
        requires grammar { in_grammar (change.LetGo x.now) ≡ true }
        requires few { self.old.state.changes < 2 ^ 62 }
        requires place { Some at ≡ position (λ v. v.id == x.now.peer) self.old.accounts }
        requires may { MayLetGo self.old x.now at }
        ensures { self.new.state ≡ after self.old.state (change.LetGo x.now) }
    {
        let u = x.slots.as_slice().len() as u32;
        let changes = self.changes;
        let account = &mut self.accounts[at];
        account.let_go(x, u, changes);
        self.used -= u;
        self.changes = changes + 1;
    }

    pub(super) fn may_put_back(&self, x: &LetGoBack) -> bool
        ensures { result ≡ allowed self.now.state (change.LetGoBack x.now) }
    {
        self.is_open(x.peer) && allows_put_back(self.row(x.peer), x)
    }

    pub(super) fn put_back(&mut self, at: usize, x: &LetGoBack)
        requires few { self.old.state.changes < 2 ^ 62 }
        requires place { Some at ≡ position (λ v. v.id == x.now.peer) self.old.accounts }
        requires may { MayPutBack self.old x.now at }
        ensures { self.new.state ≡ after self.old.state (change.LetGoBack x.now) }
    {
        let changes = self.changes;
        let account = &mut self.accounts[at];
        account.put_back(x, changes);
        self.changes = changes + 1;
    }
}
