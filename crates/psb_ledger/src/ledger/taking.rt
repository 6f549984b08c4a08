//! What a ledger makes of a chunk that a peer stores against new slots.

ghost use Rattle.std.specs.Prelude.{◌≡◌, ◌==◌, ◌<◌, ◌^◌, Some, position};
ghost use Rattle.psb_model.specs.Words.{units};
ghost use Rattle.psb_model.specs.State.{used, is_held};
ghost use Rattle.psb_model.specs.declared.change.Change.TheVariants as change;
ghost use Rattle.psb_model.specs.Conditions.{allowed, capacity};
ghost use Rattle.psb_model.specs.Effects.{after};
ghost use Rattle.psb_ledger.specs.Moves.{MayTake};

use super::Ledger;
use peer_rules::{Measure, allows_fresh};
use psb_bytes::units_of;
use psb_model::TookFresh;
use psb_settings::Settings;

pub(super) fn capacity_of(settings: &Option<Settings>) -> u32
    ensures { result ≡ capacity settings.now }
{
    match settings {
        None => 0,
        Some(x) => x.capacity,
    }
}

impl Ledger {
    fn measure(&self, x: &TookFresh) -> Measure
        ensures is_held { result.is_held ≡ is_held self.now.state x.now.name }
        ensures used { result.used ≡ used self.now.state }
        ensures units { result.units ≡ units x.now.len }
        ensures capacity { result.capacity ≡ capacity self.now.state.settings }
        ensures issued { result.issued ≡ self.now.state.issued }
    {
        Measure {
            is_held: self.is_held(&x.name),
            used: self.used,
            units: units_of(x.len),
            capacity: capacity_of(&self.settings),
            issued: self.issued,
        }
    }

    pub(super) fn may_take_fresh(&self, x: &TookFresh) -> bool
        ensures { result ≡ allowed self.now.state (change.TookFresh x.now) }
    {
        let measure = self.measure(x);
        self.is_open(x.peer) && allows_fresh(self.row(x.peer), x, &measure)
    }

    pub(super) fn take_fresh(&mut self, at: usize, x: &TookFresh)
        requires few { self.old.state.changes < 2 ^ 62 }
        requires place { Some at ≡ position (λ v. v.id == x.now.peer) self.old.accounts }
        requires may { MayTake self.old x.now at }
        ensures { self.new.state ≡ after self.old.state (change.TookFresh x.now) }
    {
        let u = units_of(x.len);
        let changes = self.changes;
        let account = &mut self.accounts[at];
        account.take_fresh(x, u, changes);
        self.issued += u;
        self.used += u;
        self.changes = changes + 1;
    }
}
