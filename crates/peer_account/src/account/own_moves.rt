//! What an own deal and its reply move in an account.

ghost use Rattle.std.specs.Prelude.{◌≡◌, ◌∷◌, [], ◌≤◌, Some, true, false};
ghost use Rattle.psb_bytes.specs.declared.ids.Object.TheVariants.{Chunk};
ghost use Rattle.psb_model.specs.Words.{units_at, slots, with_one, with_all, without};
ghost use Rattle.psb_model.specs.Grammar.{ascend, what_in_grammar};
ghost use Rattle.psb_model.specs.State.{in_key, out_key, out_size};
ghost use Rattle.psb_model.specs.Effects.{chunk_out, own_slots, direct_slots, was_turned};
ghost use Rattle.peer_account.specs.View.{settled_deal, settled_row};
ghost use Rattle.peer_account.specs.Settling.{SettlesFresh, SettlesSwap, SettlesCancel, SettlesPutBack, SettlesDeal, Settles};

use super::Account;
use psb_bytes::{Digest, Object};
use psb_model::{Deal, DealWhat};

impl Account {
    /// Notes a deal that is proposed.
    pub fn propose(&mut self, deal: Deal)
        requires { what_in_grammar deal.what ≡ true }
        ensures id { self.new.id ≡ self.old.id }
        ensures row { self.new.row ≡ record self.old.row { pending = Some deal; mine = deal.number } }
    {
        self.deals.propose(deal);
    }

    /// Notes that the pending deal was turned down for this reason, by the change of this number.
    pub fn turn(&mut self, why: u8, change: u64)
        requires barred_room { 1 ≤ self.old.barred_room }
        requires cancel_room { 1 ≤ self.old.cancel_room }
        ensures id { self.new.id ≡ self.old.id }
        ensures row { self.new.row ≡ was_turned change why self.old.row }
    {
        self.deals.turn(why, change);
    }

    /// Moves what the pending deal moves when it is settled: slots come for a Fresh, and `u` are the
    /// units of the chunk that it places.
    pub fn settle(&mut self, u: u32, slots: &[u32])
        requires { Settles self.old u slots.now self.old.row.pending }
        ensures id { self.new.id ≡ self.old.id }
        ensures row { self.new.row ≡ settled_row u slots.now self.old.row }
    {
        if let Some(deal) = self.deals.take() {
            self.settle_deal(&deal.what, u, slots);
        }
    }

    fn settle_deal(&mut self, what: &DealWhat, u: u32, slots: &[u32])
        requires { SettlesDeal self.old u slots.now what.now }
        ensures id { self.new.id ≡ self.old.id }
        ensures row { self.new.row ≡ settled_deal u slots.now self.old.row what.now }
    {
        match what {
            DealWhat::Fresh { name } => self.settle_fresh(*name, u, slots),
            DealWhat::Swap { name, slots: mine } => self.settle_swap(*name, u, mine.as_slice()),
            DealWhat::Cancel {
                name,
                slots: theirs,
            } => self.settle_cancel(*name, theirs.as_slice()),
            DealWhat::PutBack { name, first } => self.settle_put_back(*name, *first),
            _ => {}
        }
    }

    /// A chunk is placed, and the slots that came for it are answered for.
    fn settle_fresh(&mut self, name: Digest, u: u32, slots: &[u32])
        requires { SettlesFresh self.old u slots.now name }
        ensures id { self.new.id ≡ self.old.id }
        ensures row { self.new.row ≡ record self.old.row { ins = with_all in_key (direct_slots slots.now) self.old.row.ins; outs = with_one out_key (chunk_out name u) self.old.row.outs } }
    {
        self.ins.insert_direct_slots(slots);
        self.outs.insert_chunk(name, u);
        self.held += slots.len() as u32;
        self.back += u;
    }

    /// A chunk is placed in the place of own slots.
    fn settle_swap(&mut self, name: Digest, u: u32, mine: &[u32])
        requires { SettlesSwap self.old u name mine.now }
        ensures id { self.new.id ≡ self.old.id }
        ensures row { self.new.row ≡ record self.old.row { outs = with_one out_key (chunk_out name u) (without out_key (slots mine.now) self.old.row.outs) } }
    {
        self.outs.remove_slots(mine);
        self.outs.insert_chunk(name, u);
    }

    /// A chunk is gone from the peer, and slots of it here are given up.
    fn settle_cancel(&mut self, name: Digest, theirs: &[u32])
        requires { SettlesCancel self.old name theirs.now }
        ensures id { self.new.id ≡ self.old.id }
        ensures row { self.new.row ≡ record self.old.row { ins = without in_key (slots theirs.now) self.old.row.ins; outs = without out_key (Chunk name ∷ []) self.old.row.outs } }
    {
        self.ins.remove_slots(theirs);
        self.outs.remove_chunk(name);
        let u = theirs.len() as u32;
        self.held -= u;
        self.back -= u;
    }

    /// A chunk is gone from the peer, and own slots stand in its place.
    fn settle_put_back(&mut self, name: Digest, first: u32)
        requires { SettlesPutBack self.old name first (units_at out_key out_size self.old.row.outs (Chunk name)) }
        ensures id { self.new.id ≡ self.old.id }
        ensures row { self.new.row ≡ record self.old.row { outs = with_all out_key (own_slots first (units_at out_key out_size self.old.row.outs (Chunk name))) (without out_key (Chunk name ∷ []) self.old.row.outs) } }
    {
        let u = self.units_out(&Object::Chunk(name));
        self.outs.remove_chunk(name);
        self.outs.insert_own_slots(first, u);
    }
}
