//! The objects that a probe may ask for, by their places.

ghost use Rattle.std.specs.Prelude.{◌≡◌, ◌+◌, ◌-◌, ◌<◌, ◌^◌, ◌==◌, if◌then◌else◌, None, length, slice_get, IfOk};
ghost use Rattle.psb_machine.specs.OwnProbes.{objects_to_ask};
ghost use Rattle.asked_objects.specs.Listable.{IsListable};
ghost use Rattle.asked_objects.specs.Parts.{outs_there, AreParts};
ghost use Rattle.asked_objects.specs.Places.{passed_with, IsPassed, IsAt};
ghost use Rattle.asked_objects.specs.Ranks.{is_within, IsSplit};

use crate::listing::{chunks_there, count_slots, debts_there, slot_after, slot_at};
use crate::order::{is_first, precedes};
use peer_account::Account;
use psb_bytes::{Memory, Object};
use std::alloc::Global;

/// What a probe may ask for of one peer, in three parts, each in object order: the chunks there, the slots
/// there, of which only the count is kept, and the objects in debt.
#[derive(Drop)]
pub struct Parts {
    chunks: Vec<Object>,
    slots: u64,
    debts: Vec<Object>,
}

/// A place among all objects: how many are in front of it, how many of these are in debt, and the number of
/// the last slot there that is one of them.
#[derive(Clone, Copy)]
pub struct Place {
    number: u64,
    debts: usize,
    passed: Option<u32>,
}

/// The number of the last slot that was passed, with an object more.
fn passed_with(object: &Option<Object>, passed: Option<u32>) -> Option<u32>
    ensures { result ≡ passed_with object.now passed }
{
    match object {
        Some(Object::Slot(number)) => Some(*number),
        _ => passed,
    }
}

impl Parts {
    /// Takes a step for each chunk there and each run of slots, and the rows of debt are sorted.
    pub fn of(alloc: Global, account: &Account) -> Result<Parts, Memory>
        requires { IsListable account.now.row }
        ensures { IfOk result (λ p. AreParts account.now.row p.chunks.items p.slots p.debts.items) }
    {
        Ok(Parts {
            chunks: chunks_there(alloc, account)?,
            slots: count_slots(account),
            debts: debts_there(alloc, account)?,
        })
    }

    /// How many objects there are.
    pub fn count(&self, account: &Account) -> u64
        requires listable { IsListable account.now.row }
        requires parts { AreParts account.now.row self.now.chunks.items self.now.slots self.now.debts.items }
        ensures count { result ≡ length (objects_to_ask account.now.row) }
        ensures few { result < 2 ^ 63 + 2 ^ 32 }
    {
        let _back = account.back();
        self.chunks.len() as u64 + self.slots + self.debts.len() as u64
    }

    /// The object at a place among the chunks and slots there.
    fn out_at(&self, account: &Account, place: u64) -> Option<Object>
        requires listable { IsListable account.now.row }
        requires parts { AreParts account.now.row self.now.chunks.items self.now.slots self.now.debts.items }
        ensures { result ≡ slice_get (outs_there account.now.row) place }
    {
        let count = self.chunks.len() as u64;
        if place < count {
            self.chunk_at(place as usize)
        } else {
            slot_at(account, place - count)
        }
    }

    /// The chunk at a place among those there.
    fn chunk_at(&self, place: usize) -> Option<Object>
        ensures { result ≡ slice_get self.now.chunks.items place }
    {
        self.chunks.get(place).copied()
    }

    /// The object at a place among those in debt.
    fn debt_at(&self, place: usize) -> Option<Object>
        ensures { result ≡ slice_get self.now.debts.items place }
    {
        self.debts.get(place).copied()
    }

    /// Whether the object in debt at one place is among the first objects of all, up to the other place.
    fn is_within(&self, account: &Account, place: u64, debt: usize) -> bool
        requires listable { IsListable account.now.row }
        requires parts { AreParts account.now.row self.now.chunks.items self.now.slots self.now.debts.items }
        ensures { result ≡ is_within (outs_there account.now.row) self.now.debts.items place debt }
    {
        let Some(object) = self.debt_at(debt) else {
            return false;
        };
        let number = debt as u64;
        number < place && precedes(&object, &self.out_at(account, place - (number + 1)))
    }

    /// How many of the objects in debt are among the first objects of all, up to the place.
    fn debts_within(&self, account: &Account, place: u64) -> usize
        requires listable { IsListable account.now.row }
        requires parts { AreParts account.now.row self.now.chunks.items self.now.slots self.now.debts.items }
        ensures { IsSplit (outs_there account.now.row) self.now.debts.items place result }
    {
        let mut low = 0;
        let mut high = self.debts.len();
        while low < high {
            let middle = low + (high - low) / 2;
            if self.is_within(account, place, middle) {
                low = middle + 1;
            } else {
                high = middle;
            }
        }
        low
    }

    /// The number of the last of so many first slots there, or of all where there are fewer; None where there are
    /// none. Takes a step for each run of slots up to it.
    fn last_passed(&self, account: &Account, count: u64) -> Option<u32>
        requires listable { IsListable account.now.row }
        requires parts { AreParts account.now.row self.now.chunks.items self.now.slots self.now.debts.items }
        ensures { IsPassed account.now.row count result }
    {
        let most = count.min(self.slots);
        if most == 0 {
            return None;
        }
        passed_with(&slot_at(account, most - 1), None)
    }

    /// A place among all objects, from 0. The objects in debt in front of it are found by halving, each time
    /// with a step for each run of slots.
    pub fn place(&self, account: &Account, number: u64) -> Place
        requires listable { IsListable account.now.row }
        requires parts { AreParts account.now.row self.now.chunks.items self.now.slots self.now.debts.items }
        ensures number { result.number ≡ number }
        ensures at { IsAt account.now.row self.now.chunks.items self.now.debts.items result }
    {
        let debts = self.debts_within(account, number);
        let outs = number - debts as u64;
        let slots = outs.saturating_sub(self.chunks.len() as u64);
        Place {
            number,
            debts,
            passed: self.last_passed(account, slots),
        }
    }

    /// The first of the chunks and slots there behind a place.
    fn next_out(&self, account: &Account, place: &Place) -> Option<Object>
        requires listable { IsListable account.now.row }
        requires parts { AreParts account.now.row self.now.chunks.items self.now.slots self.now.debts.items }
        requires at { IsAt account.now.row self.now.chunks.items self.now.debts.items place.now }
        ensures { result ≡ slice_get (outs_there account.now.row) (place.now.number - place.now.debts) }
    {
        let number = place.number - place.debts as u64;
        if number < self.chunks.len() as u64 {
            self.chunk_at(number as usize)
        } else {
            slot_after(account, place.passed)
        }
    }

    /// The object at a place, which moves on by one.
    pub fn take_next(&self, account: &Account, place: &mut Place) -> Option<Object>
        requires listable { IsListable account.now.row }
        requires parts { AreParts account.now.row self.now.chunks.items self.now.slots self.now.debts.items }
        requires number { place.old.number + 1 < 2 ^ 64 }
        requires at { IsAt account.now.row self.now.chunks.items self.now.debts.items place.old }
        ensures object { result ≡ slice_get (objects_to_ask account.now.row) place.old.number }
        ensures number { place.new.number ≡ place.old.number + 1 }
        ensures at { IsAt account.now.row self.now.chunks.items self.now.debts.items place.new }
    {
        let debt = self.debt_at(place.debts);
        let out = self.next_out(account, place);
        place.number += 1;
        if is_first(&debt, &out) {
            place.debts += 1;
            debt
        } else {
            place.passed = passed_with(&out, place.passed);
            out
        }
    }
}

/// A place that reached the end, behind so many objects, is the first one again.
pub fn go_round(place: &mut Place, count: u64)
    ensures { place.new ≡ (if place.old.number == count then record { number = 0; debts = 0; passed = None } else place.old) }
{
    if place.number == count {
        place.number = 0;
        place.debts = 0;
        place.passed = None;
    }
}
