//! What a ledger makes of a chunk that a peer stores in the place of slots that it has here.

ghost use Rattle.std.specs.Prelude.{◌≡◌, ◌==◌, ◌<◌, ◌^◌, true, length, Some, position};
ghost use Rattle.psb_model.specs.declared.change.Change.TheVariants as change;
ghost use Rattle.psb_model.specs.Conditions.{allowed};
ghost use Rattle.psb_model.specs.Effects.{after};
ghost use Rattle.psb_model.specs.Words.{slots};
ghost use Rattle.accounts.specs.Freeing.{row_at, have_out_room, free_room};
ghost use Rattle.psb_ledger.specs.Moves.{MaySwap};

use super::Ledger;
use accounts::free_slots;
use peer_rules::allows_swap;
use psb_bytes::units_of;
use psb_model::TookSwap;

impl Ledger {
    pub(super) fn may_take_swap(&self, x: &TookSwap) -> bool
        ensures { result ≡ allowed self.now.state (change.TookSwap x.now) }
    {
        let is_held = self.is_held(&x.name);
        let is_untied = self.unties_in(x.peer, x.slots.as_slice());
        let units = units_of(x.len);
        self.is_open(x.peer) && allows_swap(self.row(x.peer), x, units, is_held, is_untied)
    }

    pub(super) fn take_swap(&mut self, at: usize, x: &TookSwap)
        requires few { self.old.state.changes < 2 ^ 62 }
        requires place { Some at ≡ position (λ v. v.id == x.now.peer) self.old.accounts }
        requires within { at < length self.old.accounts }
        requires loose { have_out_room (free_room (row_at self.old.accounts at).ins (slots x.now.slots)) self.old.accounts ≡ true }
        requires may { MaySwap self.old x.now at }
        ensures { self.new.state ≡ after self.old.state (change.TookSwap x.now) }
    {
        let u = units_of(x.len);
        let changes = self.changes;
        free_slots(&mut self.accounts, at, x.slots.as_slice());
        let account = &mut self.accounts[at];
        account.take_swap(x, u, changes);
        self.changes = changes + 1;
    }
}
