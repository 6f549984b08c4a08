//! What a ledger makes of an own deal that is proposed to a peer.

ghost use Rattle.std.specs.Prelude.{◌≡◌, ◌<◌, ◌^◌, ◌==◌, true, Some, position};
ghost use Rattle.psb_model.specs.declared.change.Change.TheVariants.{Proposed};
ghost use Rattle.psb_model.specs.declared.deals.DealWhat.TheVariants.{Fresh, Swap, Cancel, PutBack, Forward, Return};
ghost use Rattle.psb_model.specs.Words.{all_of};
ghost use Rattle.psb_model.specs.Grammar.{what_in_grammar};
ghost use Rattle.psb_model.specs.Conditions.{allowed, may_forward, place_tests, propose_tests};
ghost use Rattle.psb_model.specs.Effects.{after};
ghost use Rattle.psb_ledger.specs.Moves.{proposing, may_take_back, MayPropose};

use super::Ledger;
use super::taking::capacity_of;
use peer_rules::{are_own, are_ready, is_next_own, unties_out};
use psb_bytes::{Digest, Object, PeerId, Seat};
use psb_model::{Deal, DealWhat, may_issue};
use psb_settings::Settings;

/// Whether the settings let claims be forwarded.
fn forwards(settings: &Option<Settings>) -> bool
    ensures { result ≡ may_forward settings.now }
{
    match settings {
        None => false,
        Some(x) => x.forward,
    }
}

impl Ledger {
    /// The chunk may be placed on the peer: a buddy that neither has it nor lost it nor turned it
    /// down.
    fn may_place(&self, peer: PeerId, name: &Digest) -> bool
        ensures { result ≡ all_of (place_tests self.now.state peer name.now) }
    {
        let row = self.row(peer);
        let chunk = Object::Chunk(*name);
        self.chosen().contains(&peer)
            && self.is_wanted(name)
            && !row.has_out(&chunk)
            && !row.has_debt(&chunk)
            && !row.is_barred(name)
    }

    fn allows_fresh(&self, peer: PeerId, name: &Digest) -> bool
        ensures { result ≡ all_of (propose_tests self.now.state peer (Fresh name.now)) }
    {
        let u = self.own.units_of(Some(*name));
        self.may_place(peer, name)
            && self.used as u64 + u as u64 <= capacity_of(&self.settings) as u64
    }

    fn allows_swap(&self, peer: PeerId, name: &Digest, slots: &[u32]) -> bool
        ensures { result ≡ all_of (propose_tests self.now.state peer (Swap name.now slots.now)) }
    {
        let row = self.row(peer);
        self.may_place(peer, name)
            && slots.len() == self.own.units_of(Some(*name)) as usize
            && are_own(row, slots)
            && unties_out(row, slots)
    }

    /// The chunk stands on the peer, is wanted no more, and no deal ties it.
    fn may_take_back(&self, peer: PeerId, name: &Digest) -> bool
        ensures { result ≡ may_take_back self.now.state peer name.now }
    {
        let row = self.row(peer);
        let chunk = Object::Chunk(*name);
        row.has_out(&chunk) && self.own.is_marked(name) && !row.ties_out(&chunk)
    }

    fn allows_cancel(&self, peer: PeerId, name: &Digest, slots: &[u32]) -> bool
        ensures { result ≡ all_of (propose_tests self.now.state peer (Cancel name.now slots.now)) }
    {
        let row = self.row(peer);
        self.may_take_back(peer, name)
            && slots.len() == row.units_out(&Object::Chunk(*name)) as usize
            && are_ready(row, slots)
            && self.unties_in(peer, slots)
    }

    fn allows_put_back(&self, peer: PeerId, name: &Digest, first: u32) -> bool
        ensures { result ≡ all_of (propose_tests self.now.state peer (PutBack name.now first)) }
    {
        self.may_take_back(peer, name)
            && first == self.issued
            && may_issue(self.issued, self.row(peer).units_out(&Object::Chunk(*name)))
    }

    /// An own claim on the peer may give its place to a claim that is held for another.
    fn allows_forward(&self, peer: PeerId, slot: u32, entry: &Seat) -> bool
        ensures { result ≡ all_of (propose_tests self.now.state peer (Forward slot entry.now)) }
    {
        let row = self.row(peer);
        let mine = Object::Slot(slot);
        forwards(&self.settings)
            && row.is_own(&mine)
            && !row.ties_out(&mine)
            && self.row(entry.peer).is_direct(entry.slot)
            && !self.tied_in(entry.peer, &Object::Slot(entry.slot))
    }

    /// A loose slot on the peer may get the own claim again.
    fn allows_return(&self, peer: PeerId, slot: u32) -> bool
        ensures { result ≡ all_of (propose_tests self.now.state peer (Return slot)) }
    {
        let row = self.row(peer);
        let mine = Object::Slot(slot);
        row.is_loose(&mine) && !row.ties_out(&mine)
    }

    /// The objects of the deal stand where it needs them, and no deal ties them.
    fn allows_deal(&self, peer: PeerId, what: &DealWhat) -> bool
        ensures { result ≡ all_of (propose_tests self.now.state peer what.now) }
    {
        match what {
            DealWhat::Fresh { name } => self.allows_fresh(peer, name),
            DealWhat::Swap { name, slots } => self.allows_swap(peer, name, slots.as_slice()),
            DealWhat::Cancel { name, slots } => self.allows_cancel(peer, name, slots.as_slice()),
            DealWhat::PutBack { name, first } => self.allows_put_back(peer, name, *first),
            DealWhat::Forward { slot, entry } => self.allows_forward(peer, *slot, entry),
            DealWhat::Return { slot } => self.allows_return(peer, *slot),
        }
    }

    pub(super) fn may_propose(&self, peer: PeerId, deal: u64, what: &DealWhat) -> bool
        ensures { result ≡ allowed self.now.state (Proposed (record { peer = peer; deal = deal; what = what.now })) }
    {
        self.is_open(peer) && is_next_own(self.row(peer), deal) && self.allows_deal(peer, what)
    }

    pub(super) fn propose(&mut self, at: usize, peer: PeerId, deal: Deal)
        requires few { self.old.state.changes < 2 ^ 62 }
        requires grammar { what_in_grammar deal.what ≡ true }
        requires place { Some at ≡ position (λ v. v.id == peer) self.old.accounts }
        requires may { MayPropose self.old peer deal at }
        ensures { self.new.state ≡ after self.old.state (proposing peer deal) }
    {
        let account = &mut self.accounts[at];
        let drawn = account.drawn(&deal.what);
        account.propose(deal);
        let coming = account.coming();
        self.used += self.own.units_of(coming);
        self.issued += drawn;
        self.changes += 1;
    }
}
