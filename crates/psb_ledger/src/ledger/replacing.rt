//! What a ledger makes of a claim whose bytes the peer replaces: they are here from now on, or the claim
//! is found to be an own one that has come home.

ghost use Rattle.std.specs.Prelude.{◌≡◌, ◌==◌, ◌<◌, ◌^◌, true, if◌then◌else◌, Some, length, position};
ghost use Rattle.psb_bytes.specs.declared.ids.Object.TheVariants.{Slot};
ghost use Rattle.psb_model.specs.declared.entries.InState.TheVariants as at;
ghost use Rattle.psb_model.specs.declared.change.Change.TheVariants as change;
ghost use Rattle.psb_model.specs.Conditions.{allowed};
ghost use Rattle.psb_model.specs.Effects.{after};
ghost use Rattle.peer_account.specs.States.{is_forwarded};
ghost use Rattle.accounts.specs.Freeing.{row_at, have_out_room};
ghost use Rattle.psb_ledger.specs.Moves.{MayReplace};

use super::Ledger;
use accounts::free_one;
use peer_rules::allows_replacing;
use psb_bytes::Object;
use psb_model::{InState, Replaced};

/// Where the bytes of the claim are.
fn state_of(x: &Replaced) -> InState
    ensures { result ≡ (if x.now.place == 0 then at.Direct else at.Home x.now.home) }
{
    if x.place == 0 {
        InState::Direct
    } else {
        InState::Home(x.home)
    }
}

impl Ledger {
    pub(super) fn may_replace(&self, x: &Replaced) -> bool
        ensures { result ≡ allowed self.now.state (change.Replaced x.now) }
    {
        let is_untied = !self.tied_in(x.peer, &Object::Slot(x.slot));
        self.is_open(x.peer) && allows_replacing(self.row(x.peer), x, self.issued, is_untied)
    }

    pub(super) fn replace(&mut self, at: usize, x: &Replaced)
        requires few { self.old.state.changes < 2 ^ 62 }
        requires place { Some at ≡ position (λ v. v.id == x.now.peer) self.old.accounts }
        requires within { at < length self.old.accounts }
        requires loose { is_forwarded (row_at self.old.accounts at).ins (Slot x.now.slot) ≡ true → have_out_room 2 self.old.accounts ≡ true }
        requires may { MayReplace self.old x.now at }
        ensures { self.new.state ≡ after self.old.state (change.Replaced x.now) }
    {
        let changes = self.changes;
        free_one(&mut self.accounts, at, &Object::Slot(x.slot));
        let account = &mut self.accounts[at];
        account.set_in(x.slot, state_of(x));
        account.note(x.deal, changes);
        self.changes = changes + 1;
    }
}
