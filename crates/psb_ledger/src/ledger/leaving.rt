//! Room for what leaves what the node answers for: runs of slots there, and in the accounts of all peers
//! where slots come loose.

ghost use Rattle.std.specs.Prelude.{◌≡◌, ℕ, ◌+◌, ◌*◌, ◌≤◌, [], ◌∷◌, true, length, OnOk};
ghost use Rattle.psb_bytes.specs.declared.ids.Object.TheVariants.{Slot};
ghost use Rattle.psb_model.specs.Words.{slots};
ghost use Rattle.accounts.specs.Freeing.{have_out_room};
ghost use Rattle.psb_ledger.specs.View.{HasListRoom, HasLeavingRoom};

use super::Ledger;
use accounts::{reserve_outs, room_for_objects, room_for_slots};
use psb_bytes::{Memory, Object, PeerId};
use psb_model::{Discarded, Replaced, TookSwap};

impl Ledger {
    /// Makes room in each account for so many runs of slots that come loose.
    pub(super) fn make_room_to_free(&mut self, count: usize) -> Result<(), Memory>
        ensures state { self.new.state ≡ self.old.state }
        ensures lists { (p ins : ℕ) → HasListRoom self.old p ins 0 → HasListRoom self.new p ins 0 }
        ensures loose { OnOk result (have_out_room count self.new.accounts ≡ true) }
    {
        if count == 0 {
            return Ok(());
        }
        reserve_outs(&mut self.accounts, count)
    }

    /// Makes room for so many runs in what the node answers for to the peer, and in each account for so
    /// many runs of slots that come loose.
    fn make_room_to_leave(&mut self, peer: PeerId, ins: usize, loose: usize) -> Result<(), Memory>
        ensures state { self.new.state ≡ self.old.state }
        ensures lists { OnOk result (HasListRoom self.new peer ins 0) }
        ensures loose { OnOk result (have_out_room loose self.new.accounts ≡ true) }
    {
        self.make_room_for(peer, ins, 0)?;
        self.make_room_to_free(loose)
    }

    /// Makes room for a chunk that takes the place of slots.
    pub(super) fn make_room_to_swap(&mut self, x: &TookSwap) -> Result<(), Memory>
        ensures state { self.new.state ≡ self.old.state }
        ensures room { OnOk result (HasLeavingRoom self.new x.now.peer (1 + 2 * length x.now.slots) (slots x.now.slots)) }
    {
        let slots = x.slots.as_slice();
        let loose = room_for_slots(self.row(x.peer), slots);
        self.make_room_to_leave(x.peer, 1 + 2 * slots.len(), loose)
    }

    /// Makes room for a slot whose claim is replaced.
    pub(super) fn make_room_to_replace(&mut self, x: &Replaced) -> Result<(), Memory>
        ensures state { self.new.state ≡ self.old.state }
        ensures room { OnOk result (HasLeavingRoom self.new x.now.peer 2 (Slot x.now.slot ∷ [])) }
    {
        let loose = room_for_objects(self.row(x.peer), &[Object::Slot(x.slot)]);
        self.make_room_to_leave(x.peer, 2, loose)
    }

    /// Makes room for objects that are discarded.
    pub(super) fn make_room_to_discard(&mut self, x: &Discarded) -> Result<(), Memory>
        ensures state { self.new.state ≡ self.old.state }
        ensures room { OnOk result (HasLeavingRoom self.new x.now.peer (2 * length x.now.objects) x.now.objects) }
    {
        let objects = x.objects.as_slice();
        let loose = room_for_objects(self.row(x.peer), objects);
        self.make_room_to_leave(x.peer, 2 * objects.len(), loose)
    }
}
