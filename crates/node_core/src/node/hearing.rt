//! What a node makes of an input, and of what a peer says. Nothing is written here.

ghost use Rattle.std.specs.Prelude.{◌≡◌, ◌⊎◌, ◌≤◌, ◌<◌, ◌^◌, if◌then◌else◌, [], ◌∷◌, List, Bool, ℕ, true, false, length, Some, None, IfSome, IfOk, OnOk, OnErr};
ghost use Rattle.psb_digest.specs.Clashes.{Pair};
ghost use Rattle.psb_model.specs.State.{row, is_held};
ghost use Rattle.psb_model.specs.History.{state};
ghost use Rattle.psb_station.specs.Span.{Tells_bytes, Looked};
ghost use Rattle.wire_codec.specs.Frames.{datagram};
ghost use Rattle.wire_codec.specs.declared.frame.Frame.TheVariants.{Sample};
ghost use Rattle.psb_machine.specs.Deals.{is_compared, judge};
ghost use Rattle.psb_machine.specs.Gets.{has_chunk};
ghost use Rattle.psb_machine.specs.Judging.{IsShort};
ghost use Rattle.psb_machine.specs.Machine.{Situation, Datagram, Forget, react};
ghost use Rattle.psb_machine.specs.Messages.{Deals, Replies, Gets, Probes};
ghost use Rattle.node_facts.specs.Probed.{Lacks};
ghost use Rattle.psb_machine.specs.Sampling.{open_question, bits_of, answers};
ghost use Rattle.psb_machine.specs.Settling.{settle};
ghost use Rattle.psb_machine.specs.Volatile.{Nothing, Sampled};

use super::Node;
use crate::reaction::{Reaction, made, no_letter, noted, one_letter, quiet};
use crate::{Fault, Input};
use chunk_store::Owner;
use deals::{AnswerView, DealView, Facts, ReplyView, Standing, standing};
use node_facts::{Holdings, facts_of, proof_for, reply_again};
use node_journal::Log;
use node_letters::{Message, Reading, Sender, answer_to, here_to, reply_to, sample_frame};
use peer_states::Note;
use psb_bytes::Digest;
use psb_station::Disk;
use sampling::{is_answer_to, sample_of};
use wire_codec::{MOST_BYTES, NamesView, ObjectsView};

impl<L: Log> Node<L> {
    ghost use Rattle.node_letters.specs.Letters.{letters_of};
    ghost use Rattle.node_letters.specs.Messages.{sender_in, message_in};
    ghost use Rattle.deals.specs.Views.{answer_in, deal_in, facts_in};
    ghost use Rattle.node_core.specs.Inputs.{input_of, is_own};
    ghost use Rattle.peer_states.specs.PeerStates.{note_in};
    ghost use Rattle.node_facts.specs.Refused.{why_refused};
    ghost use Rattle.node_core.specs.Making.{CanMake, CanTell, IsNext, made_of, made_in};
    ghost use Rattle.node_core.specs.Stored.{Knows, Stored, IsCounted};
    ghost use Rattle.node_core.specs.Unread.{IsUnread, IsUnreadMessage, IsCertain};
    ghost use Rattle.node_core.specs.Refusing.{IsApt, is_refused, when_taken, IsHeldAs, Refuses};
    ghost use Rattle.node_core.specs.Hearing.{Heard, Hears, HearsSo, MakesNo, Makes, IsAnswered, IsPlain, IsToldAgain, IsGiven};
    ghost use Rattle.node_core.specs.Reacting.{Reacts, ReactsSo, MayCome, IsSame};

    /// What the machine makes of an input. Nothing is written.
    pub(super) fn react<D: Disk>(
        &mut self,
        disk: &mut D,
        input: &Input<'_>,
    ) -> Result<Reaction, Fault>
        requires whole { L.is_broken self.old.log ≡ false }
        requires known { (n : Situation) × Knows self.old n }
        requires counted { IsCounted L.size L.keeps_body self.old }
        requires apt { IsApt self.old.ledger.state input.now }

        // Where the disk tells its bytes, and on every disk where no record is read for the input.
        ensures exact { IfOk result (λ r. Tells_bytes (D.view disk.new) → (n : Situation) → Knows self.old n → Stored L.holds self.old n.history (D.view disk.old)
            → Reacts r n (react n (input_of input.now))) }
        ensures unread { IfOk result (λ r. (n : Situation) → Knows self.old n → IsUnread n (input_of input.now) → Reacts r n (react n (input_of input.now))) }
        ensures so { IfOk result (λ r. (n : Situation) → Knows self.old n → ReactsSo r n (input_of input.now)) }
        ensures taken { IfOk result (λ r. (n : Situation) → Knows self.old n → is_own (input_of input.now) ≡ true → Reacts r n (when_taken n (input_of input.now))) }
        ensures may { IfOk result (λ r. IfSome r.change (MayCome Knows self.old)) }
        ensures few { IfOk result (λ r. length r.out ≤ 2) }
        ensures untold { IfOk result (λ r. is_own (input_of input.now) ≡ true → r.out ≡ []) }
        ensures rests { (n : Situation) → Knows self.old n → IsUnread n (input_of input.now) → (react n (input_of input.now)).grown ≡ None → disk.new ≡ disk.old }
        ensures same { IsSame self.old self.new }
        ensures looked { Looked (result ≡ Err Fault.DiskFault) (D.view disk.old) (D.view disk.new) }
        ensures reads { (D.view disk.new).write_faults ≡ (D.view disk.old).write_faults }
        ensures accepts { OnOk result ((n : Situation) → Knows self.old n → IsCertain n (input_of input.now) → is_refused n (input_of input.now) ≡ false) }
        ensures told_accepts { OnOk result (Tells_bytes (D.view disk.new) → (n : Situation) → Knows self.old n → Stored L.holds self.old n.history (D.view disk.old)
            → is_refused n (input_of input.now) ≡ false) }
        ensures no_snapshot { (k : ℕ) → result ≡ Err (Fault.NoSnapshot k) → (n : Situation) → Knows self.old n → is_refused n (Forget k) ≡ true }
        ensures clash { (c : Pair) → result ≡ Err (Fault.Clash c) → Tells_bytes (D.view disk.new) → (n : Situation) → Knows self.old n → Stored L.holds self.old n.history (D.view disk.old)
            → (is_refused n (input_of input.now) ≡ true) × IsHeldAs n (input_of input.now) c.first }
        ensures altered { (name : List ℕ) → result ≡ Err (Fault.Altered name) → Tells_bytes (D.view disk.new) → (n : Situation) → Knows self.old n → ¬ Stored L.holds self.old n.history (D.view disk.old) }
        ensures only { OnErr result ((result ≡ Err Fault.DiskFault) ⊎ (result ≡ Err Fault.Memory) ⊎ Refuses (input_of input.now) result) }
    {
        match input {
            Input::Frame(datagram) => self.on_datagram(disk, datagram),
            Input::Tick(peer) => self.on_tick(disk, *peer),
            Input::Keep(sealed) => self.on_keep(disk, &sealed.reference().name, sealed.body()),
            Input::Snap(note) => self.on_snap(note),
            Input::Forget(number) => self.on_forget(*number),
        }
    }

    /// What the machine makes of a datagram.
    fn on_datagram<D: Disk>(&mut self, disk: &mut D, datagram: &[u8]) -> Result<Reaction, Fault>
        requires whole { L.is_broken self.old.log ≡ false }
        requires known { (n : Situation) × Knows self.old n }
        requires counted { IsCounted L.size L.keeps_body self.old }
        ensures exact { IfOk result (λ r. Tells_bytes (D.view disk.new) → (n : Situation) → Knows self.old n → Stored L.holds self.old n.history (D.view disk.old)
            → Reacts r n (react n (Datagram datagram.now))) }
        ensures unread { IfOk result (λ r. (n : Situation) → Knows self.old n → IsUnread n (Datagram datagram.now) → Reacts r n (react n (Datagram datagram.now))) }
        ensures so { IfOk result (λ r. (n : Situation) → Knows self.old n → ReactsSo r n (Datagram datagram.now)) }
        ensures may { IfOk result (λ r. IfSome r.change (MayCome Knows self.old)) }
        ensures few { IfOk result (λ r. length r.out ≤ 2) }
        ensures rests { (n : Situation) → Knows self.old n → IsUnread n (Datagram datagram.now) → (react n (Datagram datagram.now)).grown ≡ None → disk.new ≡ disk.old }
        ensures same { IsSame self.old self.new }
        ensures looked { Looked (result ≡ Err Fault.DiskFault) (D.view disk.old) (D.view disk.new) }
        ensures reads { (D.view disk.new).write_faults ≡ (D.view disk.old).write_faults }
        ensures only { OnErr result ((result ≡ Err Fault.DiskFault) ⊎ (result ≡ Err Fault.Memory)) }
    {
        match self.peers.read(datagram) {
            Reading::Fails(why) => Ok(quiet(self.alloc, Some(why))),
            Reading::Other => Ok(quiet(self.alloc, None)),
            Reading::Says(sender, message) => self.on_message(disk, &sender, message),
        }
    }

    /// What the machine makes of a message of a peer.
    fn on_message<D: Disk>(
        &mut self,
        disk: &mut D,
        sender: &Sender,
        message: Message<'_>,
    ) -> Result<Reaction, Fault>
        requires whole { L.is_broken self.old.log ≡ false }
        requires known { (n : Situation) × Knows self.old n }
        requires counted { IsCounted L.size L.keeps_body self.old }
        requires heard { Heard self.old.peers.keys sender.now (message_in message) }
        ensures exact { IfOk result (λ r. Tells_bytes (D.view disk.new) → (n : Situation) → Knows self.old n → Stored L.holds self.old n.history (D.view disk.old)
            → Hears r n (sender_in sender.now) (message_in message.entry)) }
        ensures unread { IfOk result (λ r. (n : Situation) → Knows self.old n → IsUnreadMessage n (sender_in sender.now) (message_in message.entry) → Hears r n (sender_in sender.now) (message_in message.entry)) }
        ensures so { IfOk result (λ r. (n : Situation) → Knows self.old n → HearsSo r n (sender_in sender.now) (message_in message.entry)) }
        ensures may { IfOk result (λ r. IfSome r.change (MayCome Knows self.old)) }
        ensures few { IfOk result (λ r. length r.out ≤ 2) }
        ensures rests { (n : Situation) → Knows self.old n → IsUnreadMessage n (sender_in sender.now) (message_in message.entry) → MakesNo n (sender_in sender.now) (message_in message.entry) → disk.new ≡ disk.old }
        ensures same { IsSame self.old self.new }
        ensures looked { Looked (result ≡ Err Fault.DiskFault) (D.view disk.old) (D.view disk.new) }
        ensures reads { (D.view disk.new).write_faults ≡ (D.view disk.old).write_faults }
        ensures only { OnErr result ((result ≡ Err Fault.DiskFault) ⊎ (result ≡ Err Fault.Memory)) }
    {
        match message {
            Message::Deal(deal) => self.on_deal(disk, sender, &deal),
            Message::Reply(answer) => self.on_reply(sender, answer),
            Message::Get(name) => self.on_get(disk, sender, &name),
            Message::Ask { salt, names } => self.on_ask(sender, &salt, &names),
            Message::Sample { salt, bits } => self.on_told(sender, &salt, bits),
            Message::Probe { nonce, objects } => self.on_probe(disk, sender, &nonce, &objects),
            Message::Proof { nonce, value } => self.on_proof(disk, sender, &nonce, &value),
            Message::Declined { nonce, places } => self.on_declined(sender, &nonce, &places),
        }
    }

    /// A deal of a peer: a fresh one is judged, the last one is answered as it was, and nothing comes of any other.
    fn on_deal<D: Disk>(
        &mut self,
        disk: &mut D,
        sender: &Sender,
        deal: &DealView<'_>,
    ) -> Result<Reaction, Fault>
        requires whole { L.is_broken self.old.log ≡ false }
        requires known { (n : Situation) × Knows self.old n }
        requires counted { IsCounted L.size L.keeps_body self.old }
        requires few { self.old.ledger.state.changes < 2 ^ 62 }
        requires heard { Heard self.old.peers.keys sender.now (Deals (deal_in deal.now)) }
        ensures exact { IfOk result (λ r. Tells_bytes (D.view disk.new) → (n : Situation) → Knows self.old n → Stored L.holds self.old n.history (D.view disk.old)
            → Hears r n (sender_in sender.now) (Deals (deal_in deal.now))) }
        ensures unread { IfOk result (λ r. (n : Situation) → Knows self.old n → IsUnreadMessage n (sender_in sender.now) (Deals (deal_in deal.now)) → Hears r n (sender_in sender.now) (Deals (deal_in deal.now))) }
        ensures so { IfOk result (λ r. (n : Situation) → Knows self.old n → HearsSo r n (sender_in sender.now) (Deals (deal_in deal.now))) }
        ensures may { IfOk result (λ r. IfSome r.change (MayCome Knows self.old)) }
        ensures few { IfOk result (λ r. length r.out ≤ 2) }
        ensures rests { (n : Situation) → Knows self.old n → IsUnreadMessage n (sender_in sender.now) (Deals (deal_in deal.now)) → MakesNo n (sender_in sender.now) (Deals (deal_in deal.now)) → disk.new ≡ disk.old }
        ensures same { IsSame self.old self.new }
        ensures looked { Looked (result ≡ Err Fault.DiskFault) (D.view disk.old) (D.view disk.new) }
        ensures reads { (D.view disk.new).write_faults ≡ (D.view disk.old).write_faults }
        ensures only { OnErr result ((result ≡ Err Fault.DiskFault) ⊎ (result ≡ Err Fault.Memory)) }
    {
        let last = self.ledger.ledger().row(sender.peer).last();
        match standing(last.number, sender.number) {
            Standing::Fresh => self.judge(disk, sender, deal),
            Standing::Repeat => self.tell_again(disk, sender, last.change),
            Standing::Stale | Standing::Gap => Ok(quiet(self.alloc, None)),
        }
    }

    /// Makes what a reply makes of the pending deal, of which no letter tells.
    fn on_reply(&self, sender: &Sender, answer: AnswerView<'_>) -> Result<Reaction, Fault>
        requires known { (n : Situation) × Knows self.now n }
        requires few { self.now.ledger.state.changes < 2 ^ 62 }
        requires heard { Heard self.now.peers.keys sender.now (Replies (answer_in answer)) }
        ensures hears { IfOk result (λ r. (n : Situation) → Knows self.now n → Hears r n (sender_in sender.now) (Replies (answer_in answer.entry))) }
        ensures may { IfOk result (λ r. IfSome r.change (MayCome Knows self.now)) }
        ensures untold { IfOk result (λ r. r.out ≡ []) }
        ensures only { OnErr result (result ≡ Err Fault.Memory) }
    {
        let reply = ReplyView {
            number: sender.number,
            answer,
        };
        let change = deals::settle(self.alloc, self.ledger.ledger(), sender.peer, &reply)?;
        Ok(made(change, no_letter(self.alloc)))
    }

    /// A peer is given the bytes of each chunk that it has here, and of no other.
    fn on_get<D: Disk>(
        &mut self,
        disk: &mut D,
        sender: &Sender,
        name: &Digest,
    ) -> Result<Reaction, Fault>
        requires whole { L.is_broken self.old.log ≡ false }
        requires known { (n : Situation) × Knows self.old n }
        requires counted { IsCounted L.size L.keeps_body self.old }
        requires heard { Heard self.old.peers.keys sender.now (Gets name.now) }
        ensures exact { IfOk result (λ r. Tells_bytes (D.view disk.new) → (n : Situation) → Knows self.old n → Stored L.holds self.old n.history (D.view disk.old)
            → Hears r n (sender_in sender.now) (Gets name.now)) }
        ensures unread { IfOk result (λ r. (n : Situation) → Knows self.old n → has_chunk (state n.history) sender.now.peer name.now ≡ false → Hears r n (sender_in sender.now) (Gets name.now)) }
        ensures none { IfOk result IsPlain }
        ensures rests { (n : Situation) → Knows self.old n → has_chunk (state n.history) sender.now.peer name.now ≡ false → disk.new ≡ disk.old }
        ensures same { IsSame self.old self.new }
        ensures looked { Looked (result ≡ Err Fault.DiskFault) (D.view disk.old) (D.view disk.new) }
        ensures reads { (D.view disk.new).write_faults ≡ (D.view disk.old).write_faults }
        ensures only { OnErr result ((result ≡ Err Fault.DiskFault) ⊎ (result ≡ Err Fault.Memory)) }
    {
        if !self.names.holds(Owner::Peer(sender.peer), name) {
            return Ok(quiet(self.alloc, None));
        }
        self.give(disk, sender, name)
    }

    /// Answers a peer that asks for a proof of what the node has for it.
    fn on_probe<D: Disk>(
        &mut self,
        disk: &mut D,
        sender: &Sender,
        nonce: &Digest,
        objects: &ObjectsView<'_>,
    ) -> Result<Reaction, Fault>
        requires whole { L.is_broken self.old.log ≡ false }
        requires known { (n : Situation) × Knows self.old n }
        requires counted { IsCounted L.size L.keeps_body self.old }
        requires heard { Heard self.old.peers.keys sender.now (Probes nonce.now objects.now) }
        ensures exact { IfOk result (λ r. Tells_bytes (D.view disk.new) → (n : Situation) → Knows self.old n → Stored L.holds self.old n.history (D.view disk.old)
            → Hears r n (sender_in sender.now) (Probes nonce.now objects.now)) }
        ensures unread { IfOk result (λ r. (n : Situation) → Knows self.old n → Lacks (state n.history) sender.now.peer objects.now → Hears r n (sender_in sender.now) (Probes nonce.now objects.now)) }
        ensures none { IfOk result IsPlain }
        ensures rests { (n : Situation) → Knows self.old n → Lacks (state n.history) sender.now.peer objects.now → disk.new ≡ disk.old }
        ensures same { IsSame self.old self.new }
        ensures looked { Looked (result ≡ Err Fault.DiskFault) (D.view disk.old) (D.view disk.new) }
        ensures reads { (D.view disk.new).write_faults ≡ (D.view disk.old).write_faults }
        ensures only { OnErr result ((result ≡ Err Fault.DiskFault) ⊎ (result ≡ Err Fault.Memory)) }
    {
        let alloc = self.alloc;
        let held = Holdings {
            ledger: self.ledger.ledger(),
            names: &self.names,
            slots: &self.slots,
        };
        let log = &mut self.log;
        let claims = &mut self.claims;
        let peer = sender.peer;
        let Some(proof) = proof_for(alloc, log, disk, &held, claims, peer, nonce, objects)? else {
            return Ok(quiet(alloc, None));
        };
        let letter = answer_to(alloc, &proof, self.peers.own().id, sender)?;
        Ok(made(None, one_letter(alloc, letter)?))
    }

    /// Answers a Get with the bytes that are held under its name.
    fn give<D: Disk>(
        &mut self,
        disk: &mut D,
        sender: &Sender,
        name: &Digest,
    ) -> Result<Reaction, Fault>
        requires whole { L.is_broken self.old.log ≡ false }
        requires known { (n : Situation) × Knows self.old n }
        requires counted { IsCounted L.size L.keeps_body self.old }
        ensures given { IfOk result (λ r. Tells_bytes (D.view disk.new) → (n : Situation) → Knows self.old n → Stored L.holds self.old n.history (D.view disk.old)
            → IsGiven self.old n sender.now name.now (letters_of r.out)) }
        ensures none { IfOk result IsPlain }
        ensures same { IsSame self.old self.new }
        ensures looked { Looked (result ≡ Err Fault.DiskFault) (D.view disk.old) (D.view disk.new) }
        ensures reads { (D.view disk.new).write_faults ≡ (D.view disk.old).write_faults }
        ensures only { OnErr result ((result ≡ Err Fault.DiskFault) ⊎ (result ≡ Err Fault.Memory)) }
    {
        let alloc = self.alloc;
        let mut bytes = Vec::new(alloc);
        let there = match self.body(disk, name, &mut bytes) {
            Ok(there) => there,
            Err(fault) => return Err(fault),
        };
        if !there {
            return Ok(quiet(alloc, None));
        }
        // No chunk has more: they stand on a disk that was altered.
        if bytes.len() > MOST_BYTES as usize {
            return Ok(quiet(alloc, None));
        }
        let letter = here_to(alloc, name, bytes, self.peers.own().id, sender)?;
        Ok(made(None, one_letter(alloc, letter)?))
    }

    /// Tells a peer which of the names that it asks for are held.
    fn on_ask(
        &self,
        sender: &Sender,
        salt: &Digest,
        names: &NamesView<'_>,
    ) -> Result<Reaction, Fault>
        requires few { length names.now ≤ 32 }
        ensures letters { IfOk result (λ r. letters_of r.out ≡ (
          sender.now.peer,
          datagram sender.now.key self.now.peers.own.id sender.now.peer sender.now.number
              (Sample salt.now (bits_of (is_held self.now.ledger.state) names.now)),
        ) ∷ []) }
        ensures none { IfOk result IsPlain }
        ensures only { OnErr result (result ≡ Err Fault.Memory) }
    {
        let alloc = self.alloc;
        let bits = sample_of(self.ledger.ledger(), names);
        let frame = sample_frame(salt, bits);
        let letter = answer_to(alloc, &frame, self.peers.own().id, sender)?;
        Ok(made(None, one_letter(alloc, letter)?))
    }

    /// Has what a peer tells kept, where it answers the question that is open.
    fn on_told(&mut self, sender: &Sender, salt: &Digest, bits: u32) -> Result<Reaction, Fault>
        requires known { (n : Situation) × Knows self.old n }
        ensures note { IfOk result (λ r. note_in r.note ≡ (if answers (open_question self.old.ledger.state) salt.now bits then Sampled sender.now.peer bits else Nothing)) }
        ensures none { IfOk result IsAnswered }
        ensures same { IsSame self.old self.new }
        ensures only { OnErr result (result ≡ Err Fault.Memory) }
    {
        self.work_out_question()?;
        let Some(question) = self.open_question() else {
            return Ok(quiet(self.alloc, None));
        };
        if !is_answer_to(question, salt, bits) {
            return Ok(quiet(self.alloc, None));
        }
        Ok(noted(self.alloc, Note::Sampled(sender.peer, bits)))
    }

    /// Looks up the facts of a fresh deal, and judges it by them.
    fn judge<D: Disk>(
        &mut self,
        disk: &mut D,
        sender: &Sender,
        deal: &DealView<'_>,
    ) -> Result<Reaction, Fault>
        requires whole { L.is_broken self.old.log ≡ false }
        requires known { (n : Situation) × Knows self.old n }
        requires counted { IsCounted L.size L.keeps_body self.old }
        requires short { IsShort (deal_in deal.now) }
        requires next { IsNext self.old.ledger.state (sender_in sender.now) }
        requires can { CanMake self.old.ledger.state (sender_in sender.now) (deal_in deal.now) }

        // On each disk as if other bytes were held under its name, or as if none were; where the disk tells
        // its bytes, or none are held, as the machine does.
        ensures somehow { IfOk result (λ r. (clash : Bool) × Makes r self.old sender.now (made_of self.old.ledger.state (sender_in sender.now) (deal_in deal.now) (why_refused self.old.ledger.state sender.now.peer (deal_in deal.now) clash))) }
        ensures exact { IfOk result (λ r. Tells_bytes (D.view disk.new) → (n : Situation) → Knows self.old n → Stored L.holds self.old n.history (D.view disk.old)
            → Makes r self.old sender.now (made_in n.history (sender_in sender.now) (deal_in deal.now))) }
        ensures unheld { IfOk result (λ r. (n : Situation) → Knows self.old n → is_compared (state n.history) (deal_in deal.now) ≡ false
            → Makes r self.old sender.now (made_in n.history (sender_in sender.now) (deal_in deal.now))) }
        ensures same { IsSame self.old self.new }
        ensures looked { Looked (result ≡ Err Fault.DiskFault) (D.view disk.old) (D.view disk.new) }
        ensures reads { (D.view disk.new).write_faults ≡ (D.view disk.old).write_faults }
        ensures only { OnErr result ((result ≡ Err Fault.DiskFault) ⊎ (result ≡ Err Fault.Memory)) }
    {
        let facts = facts_of(
            self.alloc,
            &mut self.log,
            disk,
            self.ledger.ledger(),
            &self.names,
            &mut self.claims,
            sender.peer,
            deal,
        )?;
        self.answer(sender, deal, &facts)
    }

    /// The change of a fresh deal, judged by these facts, and the letter that tells of it.
    fn answer(
        &mut self,
        sender: &Sender,
        deal: &DealView<'_>,
        facts: &Facts,
    ) -> Result<Reaction, Fault>
        requires short { IsShort (deal_in deal.now) }
        requires next { IsNext self.old.ledger.state (sender_in sender.now) }
        requires can { CanTell self.old.ledger.state (judge (facts_in facts.now) self.old.ledger.state sender.now.peer sender.now.number (deal_in deal.now)) }
        ensures makes { IfOk result (λ r. Makes r self.old sender.now (judge (facts_in facts.now) self.old.ledger.state sender.now.peer sender.now.number (deal_in deal.now))) }
        ensures same { IsSame self.old self.new }
        ensures only { OnErr result (result ≡ Err Fault.Memory) }
    {
        let alloc = self.alloc;
        let change = deals::judge(alloc, self.ledger.ledger(), sender.peer, deal, facts)?;
        let Some(reply) = reply_to(alloc, &mut self.claims, &change)? else {
            unreachable!()
        };
        let letter = answer_to(alloc, &reply, self.peers.own().id, sender)?;
        Ok(made(Some(change), one_letter(alloc, letter)?))
    }

    /// Answers a deal that comes again as the change that it made was answered.
    fn tell_again<D: Disk>(
        &mut self,
        disk: &mut D,
        sender: &Sender,
        change: u64,
    ) -> Result<Reaction, Fault>
        requires whole { L.is_broken self.old.log ≡ false }
        requires below { change < L.size self.old.log }
        ensures told { IfOk result (λ r. Tells_bytes (D.view disk.new) → (n : Situation) → Knows self.old n → Stored L.holds self.old n.history (D.view disk.old)
            → IsToldAgain self.old n sender.now change (letters_of r.out)) }
        ensures none { IfOk result IsPlain }
        ensures same { IsSame self.old self.new }
        ensures looked { Looked (result ≡ Err Fault.DiskFault) (D.view disk.old) (D.view disk.new) }
        ensures reads { (D.view disk.new).write_faults ≡ (D.view disk.old).write_faults }
        ensures only { OnErr result ((result ≡ Err Fault.DiskFault) ⊎ (result ≡ Err Fault.Memory)) }
    {
        let alloc = self.alloc;
        let Some(reply) = reply_again(alloc, &mut self.log, disk, &mut self.claims, change)? else {
            return Ok(quiet(alloc, None));
        };
        let letter = answer_to(alloc, &reply, self.peers.own().id, sender)?;
        Ok(made(None, one_letter(alloc, letter)?))
    }
}
