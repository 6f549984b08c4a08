//! What a node asks before it chooses its buddies, and its choice. Nothing is written here.

ghost use Rattle.std.specs.Prelude.{◌≡◌, List, ℕ, map, Some, option_to_list, IfOk, OnOk};
ghost use Rattle.std.specs.Option.{option_map, option_copied};
ghost use Rattle.psb_settings.specs.declared.settings.Settings.{Settings};
ghost use Rattle.psb_model.specs.History.{state};
ghost use Rattle.wire_codec.specs.Frames.{key_in};
ghost use Rattle.psb_machine.specs.Sampling.{question_of, open_question, questions};
ghost use Rattle.psb_machine.specs.Machine.{Situation, choice_at, choice_of};
ghost use Rattle.psb_machine.specs.Letters.{spelled};
ghost use Rattle.peer_states.specs.PeerStates.{state_of};

use super::Node;
use node_journal::Log;
use node_letters::{Letter, ask_frame, letter_to};
use peer_states::{PeerState, candidates_of};
use psb_bytes::{Memory, PeerId};
use psb_model::Change;
use sampling::{Question, choose, has_names, is_ready, question_of};

impl<L: Log> Node<L> {
    ghost use Rattle.node_letters.specs.Letters.{letters_of};
    ghost use Rattle.node_core.specs.Stored.{Knows};
    ghost use Rattle.node_core.specs.Ticking.{IsWorkedOut};
    ghost use Rattle.node_core.specs.Reacting.{IsSame};

    /// Works out what peers are asked, while nothing was chosen: once for each snapshot.
    pub(super) fn work_out_question(&mut self) -> Result<(), Memory>
        requires known { (n : Situation) × Knows self.old n }
        ensures worked { OnOk result (IsWorkedOut self.new.question self.new.ledger.state) }
        ensures same { IsSame self.old self.new }
    {
        if self.question.is_none() && self.ledger.ledger().chosen().is_empty() {
            self.question = question_of(self.alloc, self.ledger.ledger())?;
        }
        Ok(())
    }

    /// What peers are asked, while nothing was chosen and some name is wanted.
    pub(super) fn open_question(&self) -> Option<&Question>
        requires worked { IsWorkedOut self.now.question self.now.ledger.state }
        ensures { option_copied result ≡ open_question self.now.ledger.state }
    {
        if !self.ledger.ledger().chosen().is_empty() {
            return None;
        }
        let Some(question) = &self.question else {
            return None;
        };
        if !has_names(question) {
            return None;
        }
        Some(question)
    }

    /// The change that chooses buddies at a tick of a peer, by what is kept of it before the tick.
    pub(super) fn choice_at(&self, peer: PeerId, at: &PeerState) -> Result<Option<Change>, Memory>
        requires known { (n : Situation) × Knows self.now n }
        requires worked { IsWorkedOut self.now.question self.now.ledger.state }
        requires kept { state_of self.now.states.items peer ≡ Some at.now }
        ensures choice { IfOk result (λ o. (n : Situation) (settings : Settings) → Knows self.now n → (state n.history).settings ≡ Some settings → o ≡ option_map choice_of (choice_at settings n peer)) }
    {
        let Some(question) = self.open_question() else {
            return Ok(None);
        };
        if !self.peers.is_last(peer) {
            return Ok(None);
        }
        let Some(settings) = self.ledger.ledger().settings() else {
            return Ok(None);
        };
        let names = question.names.as_slice().len() as u32;
        let found = candidates_of(self.alloc, self.peers.rows(), &self.states, names)?;
        if !is_ready(self.peers.count(), found.len(), at.next_tick()) {
            return Ok(None);
        }
        Ok(Some(choose(self.alloc, &found, settings.buddies)?))
    }

    /// The letter that asks a peer which wanted names it holds, while nothing was chosen.
    pub(super) fn question_to(&self, peer: PeerId) -> Result<Option<Letter>, Memory>
        requires known { (n : Situation) × Knows self.now n }
        requires worked { IsWorkedOut self.now.question self.now.ledger.state }
        ensures asks { IfOk result (λ o. (n : Situation) (settings : Settings) (key : List ℕ) → Knows self.now n → (state n.history).settings ≡ Some settings → key_in self.now.peers.keys peer ≡ Some key
            → letters_of (option_to_list o) ≡ map (spelled settings) (questions (state n.history) peer)) }
    {
        let alloc = self.alloc;
        let Some(question) = self.open_question() else {
            return Ok(None);
        };
        let key = match self.peers.keys().key_of(peer) {
            None => return Ok(None),
            Some(key) => *key,
        };
        let frame = ask_frame(alloc, &question.salt, question.names.as_slice())?;
        let own = self.peers.own().id;
        let number = question.number;
        Ok(Some(letter_to(alloc, &frame, own, peer, number, &key)?))
    }
}
