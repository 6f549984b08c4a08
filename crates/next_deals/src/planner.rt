//! A ledger, and how far the next own deal with each peer was looked for.

ghost use Rattle.std.specs.Prelude.{◌≡◌, ◌<◌, ◌^◌, ◌&&◌, nat_le, take, find, IfOk, IsTrue, OnOk};
ghost use Rattle.psb_model.specs.Words.{units};
ghost use Rattle.psb_model.specs.State.{row, nothing_yet};
ghost use Rattle.psb_model.specs.Grammar.{in_grammar};
ghost use Rattle.psb_model.specs.Conditions.{allowed};
ghost use Rattle.psb_model.specs.Effects.{after};
ghost use Rattle.psb_model.specs.Proposing.{may_release, is_missing, slots_to_give, slots_to_fill};
ghost use Rattle.psb_ledger.specs.View.{HasRoom};

use crate::search::{Search, add_rows, missing_from, put_row, restart, search_in};
use crate::{seeking, slots};
use psb_bytes::{Memory, Object, PeerId, SlotList};
use psb_ledger::Ledger;
use psb_model::{Change, OutEntry, OwnEntry};
use std::alloc::Global;
use std::marker::Model;

/// A ledger, and the places that each search for the next own deal has reached: what was passed over
/// is not looked at again, until a change may have made another of it. Contracts see the ledger alone.
#[derive(Drop)]
pub struct Planner {
    ledger: Ledger,
    searches: Vec<Search>,
}

impl Model for Planner {
    ghost use Rattle.psb_ledger.specs.View.{LedgerView};
    ghost use Rattle.next_deals.specs.Searches.{IsSearched};

    ghost Value = { LedgerView };

    ghost view = { λ p. p.ledger };

    ghost invariant = { λ p. IsSearched p.ledger.state p.searches.items };
}

impl Planner {
    /// With the ledger of the empty history. Takes no memory; what `make_room` takes comes from
    /// `alloc`.
    pub fn new(alloc: Global) -> Planner
        ensures { result.state ≡ nothing_yet }
    {
        Planner {
            ledger: Ledger::new(alloc),
            searches: Vec::new(alloc),
        }
    }

    /// With a ledger that was read up: nothing was looked for yet.
    pub fn of(ledger: Ledger) -> Result<Planner, Memory>
        ensures { IfOk result (λ p. p ≡ ledger) }
    {
        let mut searches = Vec::new(ledger.alloc());
        add_rows(&mut searches, ledger.settings())?;
        Ok(Planner { ledger, searches })
    }

    /// The ledger.
    pub fn ledger(&self) -> &Ledger
        ensures { result.now ≡ self.now }
    {
        &self.ledger
    }

    /// Takes all memory that `apply` of an equal change needs, as `Ledger::make_room` does.
    pub fn make_room(&mut self, c: &Change) -> Result<(), Memory>
        ensures state { self.new.state ≡ self.old.state }
        ensures room { OnOk result (HasRoom self.new c.now) }
    {
        self.ledger.make_room(c)?;
        add_rows(&mut self.searches, self.ledger.settings())
    }

    /// Applies a change that the ledger allows. Takes no memory.
    pub fn apply(&mut self, c: Change)
        requires grammar { IsTrue (in_grammar c) }
        requires room { HasRoom self.old c }
        requires few { self.old.state.changes < 2 ^ 62 }
        requires may { IsTrue (allowed self.old.state c) }
        ensures { self.new.state ≡ after self.old.state c }
    {
        self.ledger.is_reached();
        let restarts = seeking::restarts(&self.ledger, &c);
        self.ledger.apply(c);
        restart(&mut self.searches, &restarts);
    }

    /// Looks on for the next own deal with the peer, where a chunk that is placed may have so many units
    /// at most: so that `to_release` and `to_place` find it in few steps. Nothing that the ledger tells
    /// changes. Each chunk is looked at once, until a change may have made another of it.
    pub fn seek(&mut self, peer: PeerId, most: u32)
        ensures { self.new ≡ self.old }
    {
        let x = search_in(self.searches.as_slice(), peer);
        let from = missing_from(&x, most);
        let row = Search {
            peer,
            marked: seeking::seek_marked(&self.ledger, peer, &x.marked),
            missing: seeking::seek_missing(&self.ledger, peer, most, &from),
            most,
        };
        put_row(&mut self.searches, &row);
    }

    /// The least marked chunk there that no deal ties and that is none of these.
    pub fn to_release(&self, peer: PeerId, probed: &[Object]) -> Option<OutEntry>
        ensures { result ≡ find (may_release self.now.state peer probed.now) (row self.now.state peer).outs }
    {
        let from = search_in(self.searches.as_slice(), peer).marked;
        seeking::to_release(&self.ledger, peer, probed, &from)
    }

    /// The least own chunk of at most so many units that is missing there.
    pub fn to_place(&self, peer: PeerId, most: u32) -> Option<OwnEntry>
        ensures { result ≡ find (λ e. is_missing self.now.state peer e.name && nat_le (units e.len) most) self.now.state.own }
    {
        let x = search_in(self.searches.as_slice(), peer);
        let from = missing_from(&x, most);
        seeking::to_place(&self.ledger, peer, most, &from)
    }

    /// The first slots here that may be given for a chunk there, `most` of them at most.
    pub fn slots_to_give(&self, peer: PeerId, most: usize) -> Result<SlotList, Memory>
        ensures { IfOk result (λ l. l ≡ take most (slots_to_give self.now.state peer)) }
    {
        slots::slots_to_give(&self.ledger, peer, most)
    }

    /// The first own slots there in whose place a chunk may be stored, `most` of them at most: no deal
    /// ties them, and they are none of these.
    pub fn slots_to_fill(
        &self,
        peer: PeerId,
        probed: &[Object],
        most: usize,
    ) -> Result<SlotList, Memory>
        ensures { IfOk result (λ l. l ≡ take most (slots_to_fill self.now.state peer probed.now)) }
    {
        slots::slots_to_fill(&self.ledger, peer, probed, most)
    }
}
