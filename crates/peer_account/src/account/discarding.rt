//! What a discard moves in an account: the node answers for less, against debt of the peer.

ghost use Rattle.std.specs.Prelude.{◌≡◌, ◌≤◌, ◌+◌, ◌*◌, ◌∷◌, [], length, sum_by};
ghost use Rattle.psb_model.specs.Words.{only};
ghost use Rattle.psb_model.specs.State.{in_key, in_size};
ghost use Rattle.peer_account.specs.View.{left_row, discarded_row};
ghost use Rattle.peer_account.specs.Discarding.{Discards};

use super::Account;
use psb_bytes::Object;

impl Account {
    /// The node answers for the object no more, if it did.
    fn take_out(&mut self, object: &Object)
        requires { 2 ≤ self.old.in_room }
        ensures id { self.new.id ≡ self.old.id }
        ensures row { self.new.row ≡ left_row (object.now ∷ []) self.old.row }
        ensures in_room { self.old.in_room ≤ self.new.in_room + 2 }
    {
        if let Some(entry) = self.ins.get(object) {
            self.ins.remove(object);
            self.held -= entry.units;
        }
    }

    /// It answers for these objects no more. Answers their units.
    fn take_out_all(&mut self, objects: &[Object]) -> u32
        requires { 2 * length objects.now ≤ self.old.in_room }
        ensures id { self.new.id ≡ self.old.id }
        ensures row { self.new.row ≡ left_row objects.now self.old.row }
        ensures units { result ≡ sum_by in_size (only in_key objects.now self.old.row.ins) }
    {
        let before = self.held();
        for object in objects {
            self.take_out(object);
        }
        before - self.held()
    }

    /// The node discards these objects, and as many units of the peer's debt are used up.
    pub fn discard(&mut self, objects: &[Object])
        requires { Discards self.old objects.now }
        ensures id { self.new.id ≡ self.old.id }
        ensures row { self.new.row ≡ discarded_row objects.now self.old.row }
    {
        let units = self.take_out_all(objects);
        self.debts.use_up(units);
        self.debt -= units;
        self.probes.clear_due();
    }
}
