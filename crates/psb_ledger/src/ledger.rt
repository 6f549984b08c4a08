//! The ledger: the state that a history gives, kept with running sums, and its changes.

ghost use Rattle.std.specs.Prelude.{◌≡◌, ◌<◌, ◌^◌, IsTrue, OnOk};
ghost use Rattle.psb_model.specs.State.{nothing_yet};
ghost use Rattle.psb_model.specs.Grammar.{in_grammar};
ghost use Rattle.psb_model.specs.Conditions.{allowed};
ghost use Rattle.psb_model.specs.Effects.{after};
ghost use Rattle.psb_ledger.specs.View.{HasRoom, IsReached};

mod begin;
mod choosing;
mod discarding;
mod keeping;
mod leaving;
mod letting_go;
mod looking;
mod probing;
mod proposing;
mod refusing;
mod replacing;
mod settling;
mod swapping;
mod taking;

use own_chunks::Own;
use peer_account::Account;
use psb_bytes::{Memory, PeerId};
use psb_model::{Change, Deal, SnapMark, Snapshot};
use psb_settings::Settings;
use std::alloc::Global;
use std::marker::Model;

/// The three numbers of a peer, in units of 512 bytes: what the node answers for to it, what the
/// node has there, and what the peer lost of that.
#[derive(Clone, Copy, PartialEq, Eq, Debug)]
pub struct Balance {
    pub held: u32,
    pub back: u32,
    pub debt: u32,
}

/// The state that a history of changes gives, with running sums.
#[derive(Drop)]
pub struct Ledger {
    alloc: Global,
    changes: u64,
    settings: Option<Settings>,
    issued: u32,
    used: u32,
    accounts: Vec<Account>,
    stranger: Account,
    own: Own,
    kept: Vec<Snapshot>,
    snapped: Option<SnapMark>,
    chosen: Vec<PeerId>,
    next: Option<Settings>,
    next_accounts: Vec<Account>,
    next_chosen: Vec<PeerId>,
}

impl Model for Ledger {
    ghost use Rattle.std.specs.Prelude.{◌-◌, vec_len, vec_capacity};
    ghost use Rattle.psb_ledger.specs.View.{LedgerView, plain_state, mine_of, IsLedger};

    ghost Value = { LedgerView };

    ghost view = { λ l. record { state = plain_state l.changes l.settings l.accounts.items l.issued (mine_of l.own.items l.kept.items l.snapped l.chosen.items); accounts = l.accounts.items; next = l.next; next_accounts = l.next_accounts.items; next_chosen = l.next_chosen.items; own_room = l.own.room; kept_room = vec_capacity l.kept - vec_len l.kept } };

    ghost invariant = { λ l. IsLedger l.used l.stranger.row (mine_of l.own.items l.kept.items l.snapped l.chosen.items) (plain_state l.changes l.settings l.accounts.items l.issued (mine_of l.own.items l.kept.items l.snapped l.chosen.items)) };
}

impl Ledger {
    /// The ledger of the empty history. Takes no memory; what `make_room` takes comes from `alloc`.
    pub fn new(alloc: Global) -> Ledger
        ensures { result.state ≡ nothing_yet }
    {
        Ledger {
            alloc,
            changes: 0,
            settings: None,
            issued: 0,
            used: 0,
            accounts: Vec::new(alloc),
            stranger: Account::new(alloc, PeerId(0)),
            own: Own::new(alloc),
            kept: Vec::new(alloc),
            snapped: None,
            chosen: Vec::new(alloc),
            next: None,
            next_accounts: Vec::new(alloc),
            next_chosen: Vec::new(alloc),
        }
    }

    /// Some lawful history gives the state.
    pub fn is_reached(&self)
        ensures { IsReached self.now.state }
    {
        let _changes = self.changes;
    }

    /// Takes all memory that `apply` of an equal change needs. For a Begun it reads the settings
    /// text, and keeps what it says, or that it is none.
    pub fn make_room(&mut self, c: &Change) -> Result<(), Memory>
        ensures state { self.new.state ≡ self.old.state }
        ensures room { OnOk result (HasRoom self.new c.now) }
    {
        match c {
            Change::Begun(x) => self.make_room_to_begin(&x.body),
            Change::Kept(_) => self.make_room_to_keep(),
            Change::Snapped(_) => self.make_room_to_snap(),
            Change::TookFresh(x) => self.make_room_for(x.peer, 1, 1),
            Change::TookSwap(x) => self.make_room_to_swap(x),
            Change::LetGo(x) => self.make_room_for(x.peer, 0, 2 * x.slots.as_slice().len()),
            Change::LetGoBack(x) => self.make_room_for(x.peer, x.slots.as_slice().len(), 0),
            Change::Replaced(x) => self.make_room_to_replace(x),
            Change::Settled(x) => self.make_room_to_settle(x.peer, x.slots.as_slice().len()),
            Change::Turned(x) => self.make_room_to_turn(x.peer),
            Change::Passed(x) => self.make_room_to_pass(x),
            Change::Failed(x) => self.make_room_to_lose(x.peer, x.objects.as_slice().len()),
            Change::Declined(x) => self.make_room_to_lose(x.peer, x.places.as_slice().len()),
            Change::Discarded(x) => self.make_room_to_discard(x),
            Change::Chose(x) => self.make_room_to_choose(x.candidates.as_slice()),
            _ => Ok(()),
        }
    }

    /// Whether the condition of the change holds. The settings text of a Begun is the one that room was
    /// made for. Takes no memory.
    pub fn allows(&self, c: &Change) -> bool
        requires { HasRoom self.now c.now }
        ensures { result ≡ allowed self.now.state c.now }
    {
        match c {
            Change::Begun(x) => self.may_begin(&x.body),
            Change::Kept(x) => self.may_keep(x),
            Change::Snapped(x) => self.may_snap(x),
            Change::Forgot(x) => self.may_forget(x.number),
            Change::TookFresh(x) => self.may_take_fresh(x),
            Change::TookSwap(x) => self.may_take_swap(x),
            Change::LetGo(x) => self.may_let_go(x),
            Change::LetGoBack(x) => self.may_put_back(x),
            Change::Replaced(x) => self.may_replace(x),
            Change::Refused(x) => self.may_refuse(x),
            Change::Proposed(x) => self.may_propose(x.peer, x.deal, &x.what),
            Change::Settled(x) => self.may_settle(x),
            Change::Turned(x) => self.may_turn(x),
            Change::Asked(x) => self.may_ask(x),
            Change::Passed(x) => self.may_pass(x),
            Change::Failed(x) => self.may_fail(x),
            Change::Declined(x) => self.may_decline(x),
            Change::Discarded(x) => self.may_discard(x),
            Change::Chose(x) => self.may_choose(x.candidates.as_slice()),
        }
    }

    /// Applies a change that is allowed. Takes no memory.
    pub fn apply(&mut self, c: Change)
        requires grammar { IsTrue (in_grammar c) }
        requires room { HasRoom self.old c }
        requires few { self.old.state.changes < 2 ^ 62 }
        requires may { IsTrue (allowed self.old.state c) }
        ensures { self.new.state ≡ after self.old.state c }
    {
        // A change of a peer is handed the place of the peer's account.
        let _issued = self.issued;
        match c {
            Change::Begun(x) => self.begin(&x.body),
            Change::Kept(x) => self.keep(&x),
            Change::Snapped(x) => self.snap(x),
            Change::Forgot(x) => self.forget(x.number),
            Change::TookFresh(x) => self.take_fresh(self.place_in(x.peer), &x),
            Change::TookSwap(x) => self.take_swap(self.place_in(x.peer), &x),
            Change::LetGo(x) => self.let_go(self.place_in(x.peer), &x),
            Change::LetGoBack(x) => self.put_back(self.place_in(x.peer), &x),
            Change::Replaced(x) => self.replace(self.place_in(x.peer), &x),
            Change::Refused(x) => self.refuse(self.place_in(x.peer), &x),
            Change::Proposed(x) => self.propose(
                self.place_in(x.peer),
                x.peer,
                Deal {
                    number: x.deal,
                    what: x.what,
                },
            ),
            Change::Settled(x) => self.settle(self.place_in(x.peer), &x),
            Change::Turned(x) => self.turn(self.place_in(x.peer), &x),
            Change::Asked(x) => self.ask(self.place_in(x.peer), x),
            Change::Passed(x) => self.pass(self.place_in(x.peer), &x),
            Change::Failed(x) => self.fail(self.place_in(x.peer), &x),
            Change::Declined(x) => self.decline(self.place_in(x.peer), &x),
            Change::Discarded(x) => self.discard(self.place_in(x.peer), &x),
            Change::Chose(x) => self.choose(x.candidates.as_slice()),
        }
    }
}
