//! Seats by seats.

ghost use Rattle.std.specs.Prelude.{◌≡◌, Some, None, OnOk, OnErr, if◌then◌else◌};
ghost use Rattle.psb_bytes.specs.declared.ids.Seat.{Seat};
ghost use Rattle.claim_chain.specs.Seats.{seat_eq};

use psb_bytes::{Memory, Seat};
use std::alloc::Global;
use std::collections::BTreeMap;

/// A tree with a seat at each of some seats, which are ordered by peer and then by slot.
#[derive(Drop)]
pub(crate) struct SeatMap {
    tree: BTreeMap<(u32, u32), Seat>,
}

fn key_of(seat: &Seat) -> (u32, u32)
    ensures peer { result.0 ≡ seat.now.peer }
    ensures slot { result.1 ≡ seat.now.slot }
{
    (seat.peer.0, seat.slot)
}

impl SeatMap {
    ghost use Rattle.claim_chain.specs.SeatMap.{seat_at};

    /// Takes no memory.
    pub(crate) fn new(alloc: Global) -> SeatMap
        ensures { (s : Seat) → seat_at result s ≡ None }
    {
        SeatMap {
            tree: BTreeMap::new(alloc),
        }
    }

    pub(crate) fn get(&self, seat: &Seat) -> Option<Seat>
        ensures { result ≡ seat_at self.now seat.now }
    {
        self.tree.get(&key_of(seat)).copied()
    }

    /// Puts a seat at another, in the place of what was there.
    pub(crate) fn put(&mut self, seat: &Seat, value: &Seat) -> Result<(), Memory>
        ensures put { OnOk result ((s : Seat) → seat_at self.new s ≡ (if seat_eq seat.now s then Some value.now else seat_at self.old s)) }
        ensures same { OnErr result ((s : Seat) → seat_at self.new s ≡ seat_at self.old s) }
    {
        self.tree.insert(key_of(seat), *value)?;
        Ok(())
    }

    /// Takes out what stands at a seat, if anything does.
    pub(crate) fn take_out(&mut self, seat: &Seat)
        ensures { (s : Seat) → seat_at self.new s ≡ (if seat_eq seat.now s then None else seat_at self.old s) }
    {
        self.tree.remove(&key_of(seat));
    }
}
