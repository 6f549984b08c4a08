//! Slots that are sought in a list: walks over the parts of its runs, of which all are sought or none.

ghost use Rattle.std.specs.Prelude.{◌≡◌, ◌≤◌, ◌^◌, true, length, take, map, IfOk};
ghost use Rattle.std.specs.List.{slice_get};
ghost use Rattle.std.specs.Option.{option_map};
ghost use Rattle.psb_bytes.specs.declared.ids.Object.TheVariants.{Slot};
ghost use Rattle.psb_model.specs.Grammar.{ascend};
ghost use Rattle.psb_model.specs.Words.{slots};
ghost use Rattle.peer_lists.specs.Walks.{IsRunFrom, entry_after};
ghost use Rattle.peer_lists.specs.Sought.{IsPart, sought, number_behind};

use crate::entry::Entry;
use crate::entry_list::EntryList;
use psb_bytes::{Memory, Object, SlotList};
use slot_runs::{Part, Run, part_of};
use std::alloc::Global;

/// The first number, or the first behind this one.
fn number_behind(place: Option<u32>) -> u64
    ensures number { result ≡ number_behind place }
    ensures fits { result ≤ 2 ^ 32 }
{
    match place {
        None => 0,
        Some(number) => u64::from(number) + 1,
    }
}

impl<E: Entry> EntryList<E, E::Rest> {
    ghost use Rattle.peer_lists.specs.EntryLists.{items, IsList};

    /// The first slots in a row from the number on of which all are sought or none.
    fn part_from(&self, test: &E::Test, but: &[u32], number: u64) -> Option<Part<E::Rest>>
        requires number { number ≤ 2 ^ 32 }
        requires ascend { ascend but.now ≡ true }
        requires list { IsList E.key E.joined self.now }
        ensures { IsPart E.key E.joined (E.passes test.now) but.now (items E.key E.joined self.now) number result }
    {
        let run = self.run_from(number)?;
        if E::passes(test, &run.rest) {
            Some(part_of(&run, but))
        } else {
            Some(Part {
                run,
                is_sought: false,
            })
        }
    }

    /// How many slots are sought.
    pub fn count_sought(&self, test: &E::Test, but: &[u32]) -> u64
        requires ascend { ascend but.now ≡ true }
        requires list { IsList E.key E.joined self.now }
        ensures { result ≡ length (sought E.key (E.passes test.now) but.now (items E.key E.joined self.now)) }
    {
        let mut count = 0_u64;
        let mut from = 0_u64;
        while let Some(part) = self.part_from(test, but, from) {
            count += part.count();
            from = u64::from(part.run.last) + 1;
        }
        count
    }

    /// The slot at this place among those that are sought, from 0.
    pub fn sought_at(&self, test: &E::Test, but: &[u32], place: u64) -> Option<E>
        requires ascend { ascend but.now ≡ true }
        requires list { IsList E.key E.joined self.now }
        ensures { result ≡ slice_get (sought E.key (E.passes test.now) but.now (items E.key E.joined self.now)) place }
    {
        let mut left = place;
        let mut from = 0_u64;
        while let Some(part) = self.part_from(test, but, from) {
            let count = part.count();
            if left < count {
                let number = (u64::from(part.run.first) + left) as u32;
                return Some(E::join(Object::Slot(number), part.run.rest));
            }
            left -= count;
            from = u64::from(part.run.last) + 1;
        }
        None
    }

    /// The first slot that is sought, or the first behind the one of this number.
    pub fn sought_after(&self, test: &E::Test, but: &[u32], place: Option<u32>) -> Option<E>
        requires ascend { ascend but.now ≡ true }
        requires list { IsList E.key E.joined self.now }
        ensures { result ≡ entry_after E.key (option_map Slot place) (sought E.key (E.passes test.now) but.now (items E.key E.joined self.now)) }
    {
        let mut from = number_behind(place);
        while let Some(part) = self.part_from(test, but, from) {
            if part.is_sought {
                return Some(E::join(Object::Slot(part.run.first), part.run.rest));
            }
            from = u64::from(part.run.last) + 1;
        }
        None
    }

    /// The numbers of the least slots that are sought, `most` of them at most.
    pub fn least_sought(
        &self,
        alloc: Global,
        test: &E::Test,
        but: &[u32],
        most: usize,
    ) -> Result<SlotList, Memory>
        requires ascend { ascend but.now ≡ true }
        requires list { IsList E.key E.joined self.now }
        ensures { IfOk result (λ l. slots l ≡ take most (map E.key (sought E.key (E.passes test.now) but.now (items E.key E.joined self.now)))) }
    {
        let mut numbers = Vec::new(alloc);
        let mut from = 0_u64;
        while let Some(part) = self.part_from(test, but, from) {
            part.push_to(&mut numbers, most)?;
            if numbers.len() == most {
                return Ok(SlotList::from_vec(numbers));
            }
            from = u64::from(part.run.last) + 1;
        }
        Ok(SlotList::from_vec(numbers))
    }
}
