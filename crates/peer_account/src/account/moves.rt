//! What a deal of the peer moves in its account.

ghost use Rattle.std.specs.Prelude.{◌≡◌};
ghost use Rattle.psb_model.specs.Effects.{took_deal};
ghost use Rattle.peer_account.specs.View.{fresh_row, swap_row, let_go_row, put_back_row};
ghost use Rattle.peer_account.specs.Taking.{TakesFresh, TakesSwap, LetsGo, PutsBack};

use super::Account;
use psb_model::{LastDeal, LetGo, LetGoBack, TookFresh, TookSwap};

impl Account {
    /// Notes a deal that was taken or refused, with the number of its change.
    pub fn note(&mut self, deal: u64, change: u64)
        ensures id { self.new.id ≡ self.old.id }
        ensures row { self.new.row ≡ took_deal deal change self.old.row }
    {
        self.last = LastDeal {
            number: deal,
            change,
        };
    }

    /// Takes a chunk of `u` units against as many new slots.
    pub fn take_fresh(&mut self, x: &TookFresh, u: u32, change: u64)
        requires { TakesFresh self.old x.now u }
        ensures id { self.new.id ≡ self.old.id }
        ensures row { self.new.row ≡ fresh_row x.now.name u x.now.first x.now.deal change self.old.row }
    {
        self.ins.insert_chunk(x.name, u);
        self.outs.insert_own_slots(x.first, u);
        self.held += u;
        self.back += u;
        self.last = LastDeal {
            number: x.deal,
            change,
        };
    }

    /// Takes a chunk of `u` units in the place of slots. As much is answered for as before.
    pub fn take_swap(&mut self, x: &TookSwap, u: u32, change: u64)
        requires { TakesSwap self.old x.now u change }
        ensures id { self.new.id ≡ self.old.id }
        ensures row { self.new.row ≡ swap_row x.now.name u x.now.slots x.now.deal change self.old.row }
    {
        self.ins.remove_slots(x.slots.as_slice());
        self.ins.insert_chunk(x.name, u);
        self.last = LastDeal {
            number: x.deal,
            change,
        };
    }

    /// Lets a chunk go, and gives up slots of `u` units in all, as many as the chunk has.
    pub fn let_go(&mut self, x: &LetGo, u: u32, change: u64)
        requires { LetsGo self.old x.now u change }
        ensures id { self.new.id ≡ self.old.id }
        ensures row { self.new.row ≡ let_go_row x.now.name x.now.slots x.now.deal change self.old.row }
    {
        self.ins.remove_chunk(x.name);
        self.outs.remove_slots(x.slots.as_slice());
        self.held -= u;
        self.back -= u;
        self.last = LastDeal {
            number: x.deal,
            change,
        };
    }

    /// Lets a chunk go, and answers for direct slots in its place. As much is answered for as before.
    pub fn put_back(&mut self, x: &LetGoBack, change: u64)
        requires { PutsBack self.old x.now change }
        ensures id { self.new.id ≡ self.old.id }
        ensures row { self.new.row ≡ put_back_row x.now.name x.now.slots x.now.deal change self.old.row }
    {
        self.ins.remove_chunk(x.name);
        self.ins.insert_direct_slots(x.slots.as_slice());
        self.last = LastDeal {
            number: x.deal,
            change,
        };
    }
}
