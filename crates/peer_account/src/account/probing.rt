//! What an account says of the node's probes of its peer, and what a probe and its outcome move in it.

ghost use Rattle.std.specs.Prelude.{◌≡◌, ◌+◌, ◌*◌, ◌<◌, ◌≤◌, ◌^◌, ◌∷◌, [], true, false, length, filter, sum_by};
ghost use Rattle.std.specs.Option.{option_copied};
ghost use Rattle.psb_model.specs.Words.{with_all};
ghost use Rattle.psb_model.specs.State.{out_key, out_size, back_units, debt_units};
ghost use Rattle.psb_model.specs.Conditions.{at_places, objects_at};
ghost use Rattle.psb_model.specs.Effects.{debt_row, out_again, is_whole_listed};
ghost use Rattle.peer_account.specs.View.{asked_row, out_anew, regained_row, passed_row, lost_row, failed_row, declined_row};
ghost use Rattle.peer_account.specs.Probing.{StandOnce, Regains, Loses};

use super::Account;
use peer_debts::is_whole_listed;
use peer_lists::OutList;
use psb_bytes::{Object, ObjectList};
use psb_model::{DebtEntry, Declined, Failed, OutEntry, Passed};

/// The entry that a row of debt was.
fn out_again(row: &DebtEntry) -> OutEntry
    ensures { result ≡ out_again row.now }
{
    OutEntry {
        object: row.object,
        units: row.units,
        state: row.state,
    }
}

/// The row of debt that an entry becomes, by the change of this number.
fn debt_row(entry: &OutEntry, change: u64, declined: bool) -> DebtEntry
    ensures { result ≡ debt_row change declined entry.now }
{
    DebtEntry {
        object: entry.object,
        units: entry.units,
        left: entry.units,
        cause: change,
        declined,
        state: entry.state,
    }
}

/// Puts in again what the rows were that are listed and whole. Answers their units.
fn put_again(outs: &mut OutList, rows: &[DebtEntry], objects: &[Object]) -> u32
    requires room { length (filter (is_whole_listed objects.now) rows.now) ≤ outs.old.room }
    requires once { StandOnce outs.old.items rows.now }
    requires small { sum_by out_size (out_anew objects.now rows.now) < 2 ^ 32 }
    ensures items { outs.new.items ≡ with_all out_key (out_anew objects.now rows.now) outs.old.items }
    ensures units { result ≡ sum_by out_size (out_anew objects.now rows.now) }
{
    let mut units = 0;
    for row in rows {
        if is_whole_listed(row, objects) {
            outs.insert(&out_again(row));
            units += row.units;
        }
    }
    units
}

impl Account {
    /// The number of the last probe that has no outcome yet, and the objects that it asks for.
    pub fn asked(&self) -> Option<&(u64, ObjectList)>
        ensures { option_copied result ≡ self.now.row.asked }
    {
        let _held = self.held;
        self.probes.asked.as_ref()
    }

    /// How many probes failed in a row.
    pub fn fails(&self) -> u32
        ensures { result ≡ self.now.row.fails }
    {
        self.probes.fails
    }

    /// Whether what is here for the peer is due to be discarded.
    pub fn due(&self) -> bool
        ensures { result ≡ self.now.row.due }
    {
        self.probes.due
    }

    /// Notes that the peer was asked for these objects, by the change of this number.
    pub fn ask(&mut self, objects: ObjectList, change: u64)
        ensures id { self.new.id ≡ self.old.id }
        ensures row { self.new.row ≡ asked_row change objects self.old.row }
    {
        self.probes.ask(change, objects);
    }

    /// What was lost of these objects, and of which nothing was used up, stands there again.
    fn regain(&mut self, objects: &[Object])
        requires { Regains self.old objects.now }
        ensures id { self.new.id ≡ self.old.id }
        ensures row { self.new.row ≡ regained_row objects.now self.old.row }
    {
        if self.debts.count_whole(objects) == 0 {
            return;
        }
        let units = put_again(&mut self.outs, self.debts.as_slice(), objects);
        self.debts.take_back(objects);
        self.back += units;
        self.debt -= units;
    }

    /// How many rows of debt a probe of these objects would give back.
    pub fn count_regained(&self, objects: &[Object]) -> usize
        ensures { result ≡ length (filter (is_whole_listed objects.now) self.now.row.debts) }
    {
        let _debt = self.debt;
        self.debts.count_whole(objects)
    }

    /// The peer proved that it has these objects. A relay's outcome leaves the node's own probe as it is.
    pub fn pass(&mut self, x: &Passed)
        requires { Regains self.old x.now.objects }
        ensures id { self.new.id ≡ self.old.id }
        ensures row { self.new.row ≡ passed_row x.now.asked x.now.objects self.old.row }
    {
        self.regain(x.objects.as_slice());
        if x.asked != 0 {
            self.probes.clear_failures();
            self.probes.end();
        }
    }

    /// The object is lost, if it stands there: it is owed, by the change of this number.
    fn lose(&mut self, object: &Object, change: u64, declined: bool)
        requires { Loses self.old (object.now ∷ []) }
        ensures id { self.new.id ≡ self.old.id }
        ensures row { self.new.row ≡ lost_row change declined (object.now ∷ []) self.old.row }
        ensures out_room { self.old.out_room ≤ self.new.out_room + 2 }
        ensures debt_room { self.old.debt_room ≤ self.new.debt_room + 1 }
        ensures sums { back_units self.new.row + debt_units self.new.row ≡ back_units self.old.row + debt_units self.old.row }
    {
        if let Some(entry) = self.outs.get(object) {
            self.outs.remove(object);
            self.debts.book(debt_row(&entry, change, declined));
            self.back -= entry.units;
            self.debt += entry.units;
        }
    }

    /// These objects are lost.
    fn lose_all(&mut self, objects: &[Object], change: u64)
        requires { Loses self.old objects.now }
        ensures id { self.new.id ≡ self.old.id }
        ensures row { self.new.row ≡ lost_row change false objects.now self.old.row }
    {
        for object in objects {
            self.lose(object, change, false);
        }
    }

    /// The objects at these places of a list are lost, since the peer says so.
    fn lose_places(&mut self, objects: &[Object], places: &[u16], change: u64)
        requires { Loses self.old (at_places objects.now places.now) }
        ensures id { self.new.id ≡ self.old.id }
        ensures row { self.new.row ≡ lost_row change true (at_places objects.now places.now) self.old.row }
    {
        for place in places {
            self.lose_at(objects, *place, change);
        }
    }

    /// The object at this place of a list is lost, if there is one.
    fn lose_at(&mut self, objects: &[Object], place: u16, change: u64)
        requires { Loses self.old (at_places objects.now (place ∷ [])) }
        ensures id { self.new.id ≡ self.old.id }
        ensures row { self.new.row ≡ lost_row change true (at_places objects.now (place ∷ [])) self.old.row }
        ensures out_room { self.old.out_room ≤ self.new.out_room + 2 * length (at_places objects.now (place ∷ [])) }
        ensures debt_room { self.old.debt_room ≤ self.new.debt_room + length (at_places objects.now (place ∷ [])) }
        ensures sums { back_units self.new.row + debt_units self.new.row ≡ back_units self.old.row + debt_units self.old.row }
    {
        if let Some(object) = objects.get(usize::from(place)) {
            self.lose(object, change, true);
        }
    }

    /// A probe of these objects failed. A relay's outcome leaves the node's own probe as it is.
    pub fn fail(&mut self, x: &Failed, change: u64)
        requires { Loses self.old x.now.objects }
        ensures id { self.new.id ≡ self.old.id }
        ensures row { self.new.row ≡ failed_row change x.now.asked x.now.objects self.old.row }
    {
        self.lose_all(x.objects.as_slice(), change);
        self.probes.count_failure();
        if x.asked != 0 {
            self.probes.end();
        }
    }

    /// The peer declined the last probe for the objects at these places.
    pub fn decline(&mut self, x: &Declined, change: u64)
        requires { Loses self.old (objects_at self.old.row x.now.asked x.now.places) }
        ensures id { self.new.id ≡ self.old.id }
        ensures row { self.new.row ≡ declined_row change x.now.asked x.now.places self.old.row }
    {
        self.probes.count_failure();
        if let Some(objects) = self.probes.end_for(x.asked) {
            self.lose_places(objects.as_slice(), x.places.as_slice(), change);
        }
    }
}
