//! The links.
#![tactic(auto, unfolding(crate::specs::Links::next_of, crate::specs::Links::carried_of, crate::specs::Links::has_room))]

ghost use Rattle.std.specs.Prelude.{◌≡◌, Some, None, true, OnOk, if◌then◌else◌};
ghost use Rattle.psb_bytes.specs.declared.ids.Seat.{Seat};
ghost use Rattle.claim_chain.specs.Seats.{seat_eq, is_seat};
ghost use Rattle.claim_chain.specs.OneToOne.{AreOneToOne, next_by, carried_by};

use crate::latest::{Link, carried_in, left_of, next_in};
use crate::seat_map::SeatMap;
use psb_bytes::{Memory, Seat};
use std::alloc::Global;

/// Links of held seats to the out seats that carry their bytes.
#[derive(Drop)]
pub struct Links {
    nexts: SeatMap,
    carried: SeatMap,
    // The link that was made since room was. The trees may have it too.
    latest: Option<Link>,
    ghost one_to_one: { AreOneToOne (next_by latest nexts) (carried_by latest carried) },
}

impl Links {
    ghost use Rattle.claim_chain.specs.Links.{next_of, carried_of, has_room};

    /// No links. Takes no memory.
    pub fn new(alloc: Global) -> Links
        ensures next { (h : Seat) → next_of result h ≡ None }
        ensures carried { (o : Seat) → carried_of result o ≡ None }
    {
        Links {
            nexts: SeatMap::new(alloc),
            carried: SeatMap::new(alloc),
            latest: None,
        }
    }

    /// Makes room for one `forward`. The links stay, also where there is no memory.
    pub fn make_room(&mut self) -> Result<(), Memory>
        ensures room { OnOk result (has_room self.new ≡ true) }
        ensures earlier { has_room self.old ≡ true → has_room self.new ≡ true }
        ensures next { (h : Seat) → next_of self.new h ≡ next_of self.old h }
        ensures carried { (o : Seat) → carried_of self.new o ≡ carried_of self.old o }
    {
        if let Some(link) = self.latest {
            self.nexts.put(&link.held, &link.out)?;
            self.carried.put(&link.out, &link.held)?;
            self.latest = None;
        }
        Ok(())
    }

    /// Links a held seat to an out seat. Takes no memory.
    pub fn forward(&mut self, held: Seat, out: Seat)
        requires room { has_room self.old ≡ true }
        requires held_free { next_of self.old held ≡ None }
        requires out_free { carried_of self.old out ≡ None }
        ensures next { (h : Seat) → next_of self.new h ≡ (if seat_eq held h then Some out else next_of self.old h) }
        ensures carried { (o : Seat) → carried_of self.new o ≡ (if seat_eq out o then Some held else carried_of self.old o) }
    {
        self.latest = Some(Link { held, out });
    }

    /// The out seat that carries the bytes of a held one. Takes no memory.
    pub fn next(&self, held: &Seat) -> Option<Seat>
        ensures { result ≡ next_of self.now held.now }
    {
        match next_in(&self.latest, held) {
            Some(out) => Some(out),
            None => self.nexts.get(held),
        }
    }

    /// The held seat whose bytes an out one carries. Takes no memory.
    pub fn carried(&self, out: &Seat) -> Option<Seat>
        ensures { result ≡ carried_of self.now out.now }
    {
        match carried_in(&self.latest, out) {
            Some(held) => Some(held),
            None => self.carried.get(out),
        }
    }

    /// Cuts the link of a held seat, and answers the out seat that it had. Takes no memory.
    pub fn loosen(&mut self, held: &Seat) -> Option<Seat>
        ensures cut { result ≡ next_of self.old held.now }
        ensures next { (h : Seat) → next_of self.new h ≡ (if seat_eq held.now h then None else next_of self.old h) }
        ensures carried { (o : Seat) → carried_of self.new o ≡ (if is_seat result o then None else carried_of self.old o) }
        ensures room { has_room self.old ≡ true → has_room self.new ≡ true }
    {
        let out = self.next(held)?;
        self.nexts.take_out(held);
        self.carried.take_out(&out);
        self.latest = left_of(&self.latest, held);
        Some(out)
    }
}
