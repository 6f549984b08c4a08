//! What a node makes of a tick of a peer. Nothing is written here.

ghost use Rattle.std.specs.Prelude.{◌≡◌, ◌⊎◌, ◌≤◌, ◌<◌, ◌^◌, List, ℕ, map, true, false, length, Some, None, IfSome, IfOk, OnErr};
ghost use Rattle.psb_station.specs.Span.{Tells_bytes, Looked};
ghost use Rattle.psb_settings.specs.declared.settings.Settings.{Settings};
ghost use Rattle.psb_model.specs.History.{state};
ghost use Rattle.wire_codec.specs.Frames.{key_in};
ghost use Rattle.psb_machine.specs.Letters.{spelled};
ghost use Rattle.psb_machine.specs.Proposals.{brings_bytes, is_askable, deal_letters};
ghost use Rattle.psb_machine.specs.Machine.{Situation, Tick, grown_by, react};

use super::Node;
use crate::Fault;
use crate::reaction::{Reaction, made, no_letter, quiet, ticked, with_asking, with_letter};
use node_facts::Holdings;
use node_journal::Log;
use own_offers::{Offer, deal_letter, offer_at, proposed};
use own_probes::Run;
use peer_states::{PeerState, state_of};
use psb_bytes::PeerId;
use psb_station::Disk;

impl<L: Log> Node<L> {
    ghost use Rattle.node_letters.specs.Letters.{letters_of};
    ghost use Rattle.peer_states.specs.PeerStates.{state_of};
    ghost use Rattle.own_offers.specs.Offers.{offer_in};
    ghost use Rattle.node_core.specs.Ticking.{IsBare, IsRunAt, Follows, FollowsSo, OffersDeal, OffersDealSo};
    ghost use Rattle.node_core.specs.Stored.{Knows, Stored, IsCounted};
    ghost use Rattle.node_core.specs.Unread.{IsUnread};
    ghost use Rattle.node_core.specs.Reacting.{Reacts, ReactsSo, MayCome, IsSame};

    /// What the machine makes of a tick of a peer, which is noted.
    pub(super) fn on_tick<D: Disk>(&mut self, disk: &mut D, peer: PeerId) -> Result<Reaction, Fault>
        requires whole { L.is_broken self.old.log ≡ false }
        requires known { (n : Situation) × Knows self.old n }
        requires counted { IsCounted L.size L.keeps_body self.old }
        requires few { self.old.ledger.state.changes < 2 ^ 62 }
        ensures exact { IfOk result (λ r. Tells_bytes (D.view disk.new) → (n : Situation) → Knows self.old n → Stored L.holds self.old n.history (D.view disk.old) → Reacts r n (react n (Tick peer))) }
        ensures unread { IfOk result (λ r. (n : Situation) → Knows self.old n → IsUnread n (Tick peer) → Reacts r n (react n (Tick peer))) }
        ensures so { IfOk result (λ r. (n : Situation) → Knows self.old n → ReactsSo r n (Tick peer)) }
        ensures may { IfOk result (λ r. IfSome r.change (MayCome Knows self.old)) }
        ensures few { IfOk result (λ r. length r.out ≤ 2) }
        ensures rests { (n : Situation) → Knows self.old n → IsUnread n (Tick peer) → disk.new ≡ disk.old }
        ensures same { IsSame self.old self.new }
        ensures looked { Looked (result ≡ Err Fault.DiskFault) (D.view disk.old) (D.view disk.new) }
        ensures reads { (D.view disk.new).write_faults ≡ (D.view disk.old).write_faults }
        ensures only { OnErr result ((result ≡ Err Fault.DiskFault) ⊎ (result ≡ Err Fault.Memory)) }
    {
        match self.follow_rules(disk, peer) {
            Ok(reaction) => Ok(ticked(reaction, peer)),
            Err(fault) => Err(fault),
        }
    }

    /// What the rules of a tick come to, in their order: the end of a probe that is late, a discard that is due, a choice of
    /// buddies, or a deal that is offered; and where no change is made, what is asked. Of one that is no peer nothing comes.
    fn follow_rules<D: Disk>(&mut self, disk: &mut D, peer: PeerId) -> Result<Reaction, Fault>
        requires whole { L.is_broken self.old.log ≡ false }
        requires known { (n : Situation) × Knows self.old n }
        requires counted { IsCounted L.size L.keeps_body self.old }
        requires few { self.old.ledger.state.changes < 2 ^ 62 }
        ensures exact { IfOk result (λ r. Tells_bytes (D.view disk.new) → (n : Situation) → Knows self.old n → Stored L.holds self.old n.history (D.view disk.old) → Follows r n peer) }
        ensures unread { IfOk result (λ r. (n : Situation) → Knows self.old n → IsBare n peer → Follows r n peer) }
        ensures so { IfOk result (λ r. (n : Situation) → Knows self.old n → FollowsSo r n peer) }
        ensures may { IfOk result (λ r. IfSome r.change (MayCome Knows self.old)) }
        ensures few { IfOk result (λ r. length r.out ≤ 2) }
        ensures rests { (n : Situation) → Knows self.old n → IsBare n peer → disk.new ≡ disk.old }
        ensures same { IsSame self.old self.new }
        ensures looked { Looked (result ≡ Err Fault.DiskFault) (D.view disk.old) (D.view disk.new) }
        ensures reads { (D.view disk.new).write_faults ≡ (D.view disk.old).write_faults }
        ensures only { OnErr result ((result ≡ Err Fault.DiskFault) ⊎ (result ≡ Err Fault.Memory)) }
    {
        let Some(at) = state_of(&self.states, peer) else {
            return Ok(quiet(self.alloc, None));
        };
        let run = self.run_at(peer, &at)?;
        if let Some(change) = self.failure_at(peer, &at, &run)? {
            return Ok(made(Some(change), no_letter(self.alloc)));
        }
        self.work_out_question()?;
        if let Some(change) = self.choice_at(peer, &at)? {
            return Ok(made(Some(change), no_letter(self.alloc)));
        }
        let reaction = match self.deal_at(disk, peer, &at, &run) {
            Ok(reaction) => reaction,
            Err(fault) => return Err(fault),
        };
        if reaction.change.is_some() {
            return Ok(reaction);
        }
        let asking = self.ask_at(peer, &at, run)?;
        Ok(with_asking(reaction, asking)?)
    }

    /// The deal that a tick of a peer offers, or nothing.
    fn deal_at<D: Disk>(
        &mut self,
        disk: &mut D,
        peer: PeerId,
        at: &PeerState,
        run: &Option<Run>,
    ) -> Result<Reaction, Fault>
        requires whole { L.is_broken self.old.log ≡ false }
        requires known { (n : Situation) × Knows self.old n }
        requires counted { IsCounted L.size L.keeps_body self.old }
        requires few { self.old.ledger.state.changes < 2 ^ 62 }
        requires kept { state_of self.old.states.items peer ≡ Some at.now }
        requires run { IsRunAt run.now self.old peer }
        ensures exact { IfOk result (λ r. Tells_bytes (D.view disk.new) → (n : Situation) → Knows self.old n → Stored L.holds self.old n.history (D.view disk.old) → OffersDeal r self.old n peer) }
        ensures unread { IfOk result (λ r. (n : Situation) → Knows self.old n → IsBare n peer → OffersDeal r self.old n peer) }
        ensures so { IfOk result (λ r. (n : Situation) → Knows self.old n → OffersDealSo r n peer) }
        ensures may { IfOk result (λ r. IfSome r.change (MayCome Knows self.old)) }
        ensures few { IfOk result (λ r. length r.out ≤ 1) }
        ensures rests { (n : Situation) → Knows self.old n → IsBare n peer → disk.new ≡ disk.old }
        ensures same { IsSame self.old self.new }
        ensures looked { Looked (result ≡ Err Fault.DiskFault) (D.view disk.old) (D.view disk.new) }
        ensures reads { (D.view disk.new).write_faults ≡ (D.view disk.old).write_faults }
        ensures only { OnErr result ((result ≡ Err Fault.DiskFault) ⊎ (result ≡ Err Fault.Memory)) }
    {
        match offer_at(self.alloc, &mut self.ledger, peer, at, run)? {
            None => Ok(quiet(self.alloc, None)),
            Some(offer) => self.offer(disk, peer, offer),
        }
    }

    /// Offers a deal to a peer, which is proposed where it is new.
    fn offer<D: Disk>(
        &mut self,
        disk: &mut D,
        peer: PeerId,
        offer: Offer,
    ) -> Result<Reaction, Fault>
        requires whole { L.is_broken self.old.log ≡ false }
        requires known { (n : Situation) × Knows self.old n }
        requires counted { IsCounted L.size L.keeps_body self.old }
        requires askable { is_askable self.old.ledger.state peer offer.deal.what ≡ true }
        ensures letters { IfOk result (λ r. (n : Situation) (settings : Settings) (key : List ℕ) → Knows self.old n → (state n.history).settings ≡ Some settings → key_in self.old.peers.keys peer ≡ Some key
            → (Tells_bytes (D.view disk.new) × Stored L.holds self.old n.history (D.view disk.old)) ⊎ (brings_bytes offer.deal.what ≡ false)
            → letters_of r.out ≡ map (spelled settings) (deal_letters settings n.history peer offer.deal)) }
        ensures change { IfOk result (λ r. r.change ≡ grown_by peer (offer_in offer)) }
        ensures plain { IfOk result (λ r. r.dropped ≡ None) }
        ensures few { IfOk result (λ r. length r.out ≤ 1) }
        ensures unread { brings_bytes offer.deal.what ≡ false → disk.new ≡ disk.old }
        ensures same { IsSame self.old self.new }
        ensures looked { Looked (result ≡ Err Fault.DiskFault) (D.view disk.old) (D.view disk.new) }
        ensures reads { (D.view disk.new).write_faults ≡ (D.view disk.old).write_faults }
        ensures only { OnErr result ((result ≡ Err Fault.DiskFault) ⊎ (result ≡ Err Fault.Memory)) }
    {
        let alloc = self.alloc;
        let held = Holdings {
            ledger: self.ledger.ledger(),
            names: &self.names,
            slots: &self.slots,
        };
        let letter = deal_letter(
            alloc,
            &mut self.log,
            disk,
            &held,
            &self.peers,
            &mut self.claims,
            peer,
            &offer.deal,
        )?;
        let reaction = made(proposed(peer, offer), no_letter(alloc));
        Ok(with_letter(reaction, letter)?)
    }
}
