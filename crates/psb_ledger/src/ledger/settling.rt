//! What a ledger makes of a reply to an own deal.

ghost use Rattle.std.specs.Prelude.{◌≡◌, ◌==◌, ℕ, ◌<◌, ◌≤◌, ◌^◌, OnOk, Some, position};
ghost use Rattle.psb_model.specs.State.{row};
ghost use Rattle.psb_model.specs.declared.change.Change.TheVariants as change;
ghost use Rattle.psb_model.specs.Conditions.{allowed};
ghost use Rattle.psb_model.specs.Effects.{after};
ghost use Rattle.peer_account.specs.View.{outs_settled};
ghost use Rattle.accounts.specs.Freeing.{row_at, StatesRoom};
ghost use Rattle.psb_ledger.specs.View.{HasListRoom, HasStatesRoom, HasSettleRoom, HasTurnRoom};
ghost use Rattle.psb_ledger.specs.Moves.{MaySettle, MayTurn};

use super::Ledger;
use accounts::{place_of, room_for_slots, set_states};
use peer_rules::allows_settling;
use psb_bytes::{Memory, PeerId};
use psb_model::{DealWhat, Settled, Turned};

impl Ledger {
    /// Makes room for so many runs in what the node answers for to a peer.
    fn make_room_to_hold(&mut self, holder: PeerId, count: usize) -> Result<(), Memory>
        ensures state { self.new.state ≡ self.old.state }
        ensures lists { OnOk result ((p ins outs : ℕ) → ins ≤ count → HasListRoom self.old p ins outs → HasListRoom self.new p ins outs) }
        ensures room { OnOk result (HasListRoom self.new holder count 0) }
    {
        match place_of(self.accounts.as_slice(), holder) {
            None => Ok(()),
            Some(at) => {
                let account = &mut self.accounts[at];
                account.reserve_ins(count)
            }
        }
    }

    /// Makes room for the states that the peer's pending deal sets, beside the room for so many runs in
    /// what the node answers for to it.
    fn make_room_for_states(&mut self, peer: PeerId, ins: usize) -> Result<(), Memory>
        ensures state { self.new.state ≡ self.old.state }
        ensures room { OnOk result (HasListRoom self.old peer ins (outs_settled (row self.old.state peer).pending) → HasListRoom self.new peer ins (outs_settled (row self.old.state peer).pending) × HasStatesRoom self.new peer (row self.new.state peer).pending) }
    {
        let row = self.row(peer);
        let Some(deal) = row.pending() else {
            return Ok(());
        };
        match &deal.what {
            DealWhat::Cancel { slots, .. } => {
                let loose = room_for_slots(row, slots.as_slice());
                self.make_room_to_free(loose)
            }
            DealWhat::Forward { entry, .. } => {
                let holder = entry.peer;
                let count = ins.checked_add(2).ok_or(Memory)?;
                self.make_room_to_hold(holder, count)
            }
            _ => Ok(()),
        }
    }

    /// Makes room for the slots that come when the peer's pending deal is settled, and for what it
    /// places.
    pub(super) fn make_room_to_settle(&mut self, peer: PeerId, count: usize) -> Result<(), Memory>
        ensures state { self.new.state ≡ self.old.state }
        ensures room { OnOk result (HasSettleRoom self.new peer count) }
    {
        let room = self.row(peer).room_to_settle();
        let ins = count.checked_add(room.ins).ok_or(Memory)?;
        self.make_room_for(peer, ins, room.outs)?;
        self.make_room_for_states(peer, ins)
    }

    /// Makes room for a name that the peer turns down.
    pub(super) fn make_room_to_turn(&mut self, peer: PeerId) -> Result<(), Memory>
        ensures state { self.new.state ≡ self.old.state }
        ensures room { OnOk result (HasTurnRoom self.new peer) }
    {
        match place_of(self.accounts.as_slice(), peer) {
            None => Ok(()),
            Some(at) => {
                let account = &mut self.accounts[at];
                account.reserve_turn()
            }
        }
    }

    pub(super) fn may_settle(&self, x: &Settled) -> bool
        ensures { result ≡ allowed self.now.state (change.Settled x.now) }
    {
        let row = self.row(x.peer);
        let units = self.own.units_of(row.coming());
        self.is_open(x.peer) && allows_settling(row, x, units)
    }

    pub(super) fn settle(&mut self, at: usize, x: &Settled)
        requires few { self.old.state.changes < 2 ^ 62 }
        requires place { Some at ≡ position (λ v. v.id == x.now.peer) self.old.accounts }
        requires states { StatesRoom self.old.accounts x.now.peer (row_at self.old.accounts at).ins (row_at self.old.accounts at).pending }
        requires may { MaySettle self.old x.now at }
        ensures { self.new.state ≡ after self.old.state (change.Settled x.now) }
    {
        let changes = self.changes;
        set_states(&mut self.accounts, at, x.peer);
        let account = &mut self.accounts[at];
        let named = account.named();
        let placed = self.own.units_of(account.placed());
        let slots = x.slots.as_slice();
        let before = account.held() + self.own.units_of(account.coming());
        account.settle(placed, slots);
        let after = account.held();
        self.own.release(self.accounts.as_slice(), named);
        self.used = self.used - before + after;
        self.changes = changes + 1;
    }

    pub(super) fn may_turn(&self, x: &Turned) -> bool
        ensures { result ≡ allowed self.now.state (change.Turned x.now) }
    {
        self.is_open(x.peer) && self.row(x.peer).is_pending(x.deal)
    }

    pub(super) fn turn(&mut self, at: usize, x: &Turned)
        requires few { self.old.state.changes < 2 ^ 62 }
        requires place { Some at ≡ position (λ v. v.id == x.now.peer) self.old.accounts }
        requires may { MayTurn self.old x.now at }
        ensures { self.new.state ≡ after self.old.state (change.Turned x.now) }
    {
        let changes = self.changes;
        let account = &mut self.accounts[at];
        let named = account.named();
        let coming = self.own.units_of(account.coming());
        account.turn(x.why, changes);
        self.own.release(self.accounts.as_slice(), named);
        self.used -= coming;
        self.changes = changes + 1;
    }
}
