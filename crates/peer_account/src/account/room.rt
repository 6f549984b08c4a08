//! Room in the lists of an account.

ghost use Rattle.std.specs.Prelude.{◌≡◌, ◌≤◌, ◌<◌, ◌*◌, ◌^◌, OnOk};
ghost use Rattle.peer_account.specs.View.{ins_settled, outs_settled};

use super::Account;
use own_deals::{Room, room_of};
use psb_bytes::Memory;

impl Account {
    /// How much room the pending deal takes in the two lists when it is settled, but for the slots of
    /// its reply.
    pub fn room_to_settle(&self) -> Room
        ensures ins { result.ins ≡ ins_settled self.now.row.pending }
        ensures outs { result.outs ≡ outs_settled self.now.row.pending }
    {
        match self.pending() {
            None => Room { ins: 0, outs: 0 },
            Some(d) => room_of(&d.what),
        }
    }

    /// Makes room for so many chunks, and runs of slots, in the two lists.
    pub fn reserve(&mut self, ins: usize, outs: usize) -> Result<(), Memory>
        ensures id { self.new.id ≡ self.old.id }
        ensures row { self.new.row ≡ self.old.row }
        ensures in_room { OnOk result (ins ≤ self.new.in_room) }
        ensures out_room { OnOk result (outs ≤ self.new.out_room) }
    {
        self.ins.reserve(ins)?;
        self.outs.reserve(outs)
    }

    /// Makes room for so many runs of slots in what the node answers for.
    pub fn reserve_ins(&mut self, count: usize) -> Result<(), Memory>
        ensures id { self.new.id ≡ self.old.id }
        ensures row { self.new.row ≡ self.old.row }
        ensures in_room { OnOk result (count ≤ self.new.in_room) }
        ensures out_room { self.new.out_room ≡ self.old.out_room }
    {
        self.ins.reserve(count)
    }

    /// Makes room for so many runs of slots in what the node has there.
    pub fn reserve_outs(&mut self, count: usize) -> Result<(), Memory>
        ensures id { self.new.id ≡ self.old.id }
        ensures row { self.new.row ≡ self.old.row }
        ensures in_room { self.new.in_room ≡ self.old.in_room }
        ensures out_room { OnOk result (count ≤ self.new.out_room) }
    {
        self.outs.reserve(count)
    }

    /// Makes room for so many rows of debt, and for their objects to be taken out of what the node has
    /// there.
    pub fn reserve_debts(&mut self, count: usize) -> Result<(), Memory>
        requires { count < 2 ^ 62 }
        ensures id { self.new.id ≡ self.old.id }
        ensures row { self.new.row ≡ self.old.row }
        ensures out_room { OnOk result (2 * count ≤ self.new.out_room) }
        ensures debt_room { OnOk result (count ≤ self.new.debt_room) }
    {
        self.outs.reserve(2 * count)?;
        self.debts.reserve(count)
    }

    /// Makes room for a reply that turns the pending deal down.
    pub fn reserve_turn(&mut self) -> Result<(), Memory>
        ensures id { self.new.id ≡ self.old.id }
        ensures row { self.new.row ≡ self.old.row }
        ensures barred_room { OnOk result (1 ≤ self.new.barred_room) }
        ensures cancel_room { OnOk result (1 ≤ self.new.cancel_room) }
    {
        self.deals.reserve()
    }
}
