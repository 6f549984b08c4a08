//! The node's own probes of its peers, and what comes of an answer. Nothing is written here.

ghost use Rattle.std.specs.Prelude.{◌≡◌, ◌⊎◌, ◌<◌, ◌^◌, [], ◌∷◌, List, ℕ, map, false, option_to_list, Some, None, IfSome, IfOk, OnErr};
ghost use Rattle.psb_settings.specs.declared.settings.Settings.{Settings};
ghost use Rattle.psb_station.specs.Span.{Tells_bytes, Looked};
ghost use Rattle.psb_model.specs.History.{state};
ghost use Rattle.wire_codec.specs.Frames.{key_in};
ghost use Rattle.psb_machine.specs.Letters.{spelled};
ghost use Rattle.psb_machine.specs.Messages.{Proves, Declines};
ghost use Rattle.psb_machine.specs.Volatile.{of_peer, later};
ghost use Rattle.psb_machine.specs.Machine.{Situation};
ghost use Rattle.peer_states.specs.PeerStates.{state_of};
ghost use Rattle.own_probes.specs.Probes.{letter_in, AreFew};

use super::Node;
use crate::Fault;
use crate::reaction::{Asking, Reaction, asks, made, no_letter};
use due_discards::discard_at;
use node_facts::Holdings;
use node_journal::Log;
use node_letters::{Letter, Sender, letter_to, probe_of};
use own_probes::{Probe, Run, Step, declined_for, late_probe, probe_step, proof_outcome, run_of};
use peer_states::{PeerState, state_of};
use psb_bytes::{Digest, Memory, PeerId};
use psb_model::{Asked, Change};
use psb_station::Disk;
use sampling::salt_of;
use wire_codec::PlacesView;

impl<L: Log> Node<L> {
    ghost use Rattle.node_letters.specs.Letters.{letters_of};
    ghost use Rattle.node_letters.specs.Messages.{sender_in};
    ghost use Rattle.node_core.specs.Stored.{Knows, Stored, IsCounted};
    ghost use Rattle.node_core.specs.Unread.{AnswersNone};
    ghost use Rattle.node_core.specs.Hearing.{Heard, Hears, HearsSo};
    ghost use Rattle.node_core.specs.Ticking.{IsWorkedOut, IsRunAt, by_failure, Asks};
    ghost use Rattle.node_core.specs.Reacting.{MayCome, IsSame};

    /// The probe of a peer that runs, if one does, by what is kept of the peer.
    pub(super) fn run_at(&self, peer: PeerId, at: &PeerState) -> Result<Option<Run>, Memory>
        requires kept { state_of self.now.states.items peer ≡ Some at.now }
        ensures run { IfOk result (λ o. IsRunAt o self.now peer) }
    {
        run_of(self.alloc, self.ledger.ledger(), peer, at)
    }

    /// What failures of a peer come to at this tick: the change that ends a probe which is late, or else a discard that is
    /// due, which may take nothing.
    pub(super) fn failure_at(
        &self,
        peer: PeerId,
        at: &PeerState,
        run: &Option<Run>,
    ) -> Result<Option<Change>, Memory>
        requires known { (n : Situation) × Knows self.now n }
        requires few { self.now.ledger.state.changes < 2 ^ 62 }
        requires kept { state_of self.now.states.items peer ≡ Some at.now }
        requires run { IsRunAt run.now self.now peer }
        ensures rule { IfOk result (λ o. (n : Situation) → Knows self.now n → o ≡ (by_failure n peer).grown) }
        ensures may { IfOk result (λ o. IfSome o (MayCome Knows self.now)) }
    {
        if let Some(change) = late_probe(self.alloc, peer, run, at)? {
            return Ok(Some(change));
        }
        discard_at(self.alloc, self.ledger.ledger(), peer)
    }

    /// What is asked of a peer at a tick, behind the deal that is offered: a probe that runs is sent again now and then,
    /// or the next one begins; and while none runs, which wanted names it holds.
    pub(super) fn ask_at(
        &self,
        peer: PeerId,
        at: &PeerState,
        run: Option<Run>,
    ) -> Result<Asking, Memory>
        requires known { (n : Situation) × Knows self.now n }
        requires worked { IsWorkedOut self.now.question self.now.ledger.state }
        requires few { self.now.ledger.state.changes < 2 ^ 62 }
        requires kept { state_of self.now.states.items peer ≡ Some at.now }
        requires run { IsRunAt run self.now peer }
        ensures asks { IfOk result (λ a. (n : Situation) → Knows self.now n → Asks a self.now n peer) }
        ensures may { IfOk result (λ a. IfSome a.change (MayCome Knows self.now)) }
    {
        let Some(settings) = self.ledger.ledger().settings() else {
            unreachable!()
        };
        match probe_step(
            self.alloc,
            self.ledger.ledger(),
            &settings.seed,
            peer,
            at,
            run,
        )? {
            Step::Rests => Ok(asks(self.question_to(peer)?)),
            Step::Waits => Ok(asks(None)),
            Step::Again(probe) => Ok(asks(self.probe_letter(peer, &probe)?)),
            Step::Begins(probe) => {
                let letter = self.probe_letter(peer, &probe)?;
                let objects = probe.objects;
                Ok(Asking {
                    change: Some(Change::Asked(Asked { peer, objects })),
                    letter,
                })
            }
        }
    }

    /// The letter of a probe. There is none for one that is no peer.
    fn probe_letter(&self, peer: PeerId, probe: &Probe) -> Result<Option<Letter>, Memory>
        requires few { AreFew probe.now.objects }
        ensures letter { IfOk result (λ o. (n : Situation) (settings : Settings) (key : List ℕ) → Knows self.now n → (state n.history).settings ≡ Some settings → key_in self.now.peers.keys peer ≡ Some key
            → letters_of (option_to_list o) ≡ map (spelled settings) (letter_in settings.seed peer probe.now ∷ [])) }
    {
        let alloc = self.alloc;
        let Some(settings) = self.ledger.ledger().settings() else {
            return Ok(None);
        };
        let key = match self.peers.keys().key_of(peer) {
            None => return Ok(None),
            Some(key) => *key,
        };
        let nonce = salt_of(&settings.seed, probe.asked);
        let frame = probe_of(alloc, &nonce, probe.objects.as_slice())?;
        let own = self.peers.own().id;
        Ok(Some(letter_to(alloc, &frame, own, peer, probe.asked, &key)?))
    }

    /// Makes what a proof of a peer makes of the probe of it that runs, of which no letter tells.
    pub(super) fn on_proof<D: Disk>(
        &mut self,
        disk: &mut D,
        sender: &Sender,
        nonce: &Digest,
        value: &Digest,
    ) -> Result<Reaction, Fault>
        requires whole { L.is_broken self.old.log ≡ false }
        requires known { (n : Situation) × Knows self.old n }
        requires counted { IsCounted L.size L.keeps_body self.old }
        requires few { self.old.ledger.state.changes < 2 ^ 62 }
        requires heard { Heard self.old.peers.keys sender.now (Proves nonce.now value.now) }
        ensures exact { IfOk result (λ r. Tells_bytes (D.view disk.new) → (n : Situation) → Knows self.old n → Stored L.holds self.old n.history (D.view disk.old)
            → Hears r n (sender_in sender.now) (Proves nonce.now value.now)) }
        ensures unread { IfOk result (λ r. (n : Situation) → Knows self.old n → AnswersNone n (sender_in sender.now) nonce.now → Hears r n (sender_in sender.now) (Proves nonce.now value.now)) }
        ensures so { IfOk result (λ r. (n : Situation) → Knows self.old n → HearsSo r n (sender_in sender.now) (Proves nonce.now value.now)) }
        ensures may { IfOk result (λ r. IfSome r.change (MayCome Knows self.old)) }
        ensures untold { IfOk result (λ r. r.out ≡ []) }
        ensures rests { (n : Situation) → Knows self.old n → AnswersNone n (sender_in sender.now) nonce.now → disk.new ≡ disk.old }
        ensures same { IsSame self.old self.new }
        ensures looked { Looked (result ≡ Err Fault.DiskFault) (D.view disk.old) (D.view disk.new) }
        ensures reads { (D.view disk.new).write_faults ≡ (D.view disk.old).write_faults }
        ensures only { OnErr result ((result ≡ Err Fault.DiskFault) ⊎ (result ≡ Err Fault.Memory)) }
    {
        let alloc = self.alloc;
        let Some(at) = state_of(&self.states, sender.peer) else {
            unreachable!()
        };
        let run = self.run_at(sender.peer, &at)?;
        let Some(settings) = self.ledger.ledger().settings() else {
            unreachable!()
        };
        let held = Holdings {
            ledger: self.ledger.ledger(),
            names: &self.names,
            slots: &self.slots,
        };
        let change = proof_outcome(
            alloc,
            &mut self.log,
            disk,
            &held,
            &mut self.claims,
            &settings.seed,
            run,
            sender.peer,
            sender.number,
            nonce,
            value,
        )?;
        Ok(made(change, no_letter(alloc)))
    }

    /// Makes what it makes of that probe that the peer declines it, of which no letter tells.
    pub(super) fn on_declined(
        &self,
        sender: &Sender,
        nonce: &Digest,
        places: &PlacesView<'_>,
    ) -> Result<Reaction, Fault>
        requires known { (n : Situation) × Knows self.now n }
        requires few { self.now.ledger.state.changes < 2 ^ 62 }
        requires heard { Heard self.now.peers.keys sender.now (Declines nonce.now places.now) }
        ensures hears { IfOk result (λ r. (n : Situation) → Knows self.now n → Hears r n (sender_in sender.now) (Declines nonce.now places.now)) }
        ensures may { IfOk result (λ r. IfSome r.change (MayCome Knows self.now)) }
        ensures untold { IfOk result (λ r. r.out ≡ []) }
        ensures only { OnErr result (result ≡ Err Fault.Memory) }
    {
        let alloc = self.alloc;
        let Some(at) = state_of(&self.states, sender.peer) else {
            unreachable!()
        };
        let run = self.run_at(sender.peer, &at)?;
        let Some(settings) = self.ledger.ledger().settings() else {
            unreachable!()
        };
        let change = declined_for(
            alloc,
            &settings.seed,
            &run,
            sender.peer,
            sender.number,
            nonce,
            places,
        )?;
        Ok(made(change, no_letter(alloc)))
    }
}
