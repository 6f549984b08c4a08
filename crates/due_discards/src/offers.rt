//! One entry after another is offered to a picker.

ghost use Rattle.std.specs.Prelude.{◌≡◌, ◌++◌, ◌∷◌, [], List, true, if◌then◌else◌, None, IfSome, OnOk};
ghost use Rattle.psb_model.specs.declared.entries.InEntry.{InEntry};
ghost use Rattle.psb_model.specs.State.{in_key};
ghost use Rattle.psb_model.specs.Discards.{picks};
ghost use Rattle.discard_policy.specs.Grades.{every};
ghost use Rattle.discard_policy.specs.Drawing.{drawn};
ghost use Rattle.peer_lists.specs.Entries.{in_order};
ghost use Rattle.peer_lists.specs.Walks.{entry_after};
ghost use Rattle.due_discards.specs.Offers.{untied, is_spent};

use discard_policy::Picker;
use peer_lists::InList;
use psb_bytes::{Memory, Object, PeerId};
use psb_digest::Words;
use psb_ledger::Ledger;
use psb_model::InEntry;

/// Whether the picker takes nothing more: no unit of the debt is left, or it took as many entries as it may.
fn is_spent(picker: &Picker) -> bool
    ensures { result ≡ is_spent picker.now.left picker.now.room }
{
    picker.left == 0 || picker.room == 0
}

/// The entry behind the place, while the picker may take one.
pub fn next_offered(ins: &InList, place: &Option<Object>, picker: &Picker) -> Option<InEntry>
    ensures entry { result ≡ (if is_spent picker.now.left picker.now.room then None else entry_after in_key place.now ins.now.items) }
    ensures ordered { IfSome result (λ e. in_order in_key ins.now.items ≡ true) }
{
    if is_spent(picker) {
        return None;
    }
    ins.next_after(place)
}

/// Whether the picker takes the entry, which uses up a word unless a deal ties it.
pub fn takes(
    ledger: &Ledger,
    peer: PeerId,
    entry: &InEntry,
    words: &mut Words,
    picker: &mut Picker,
) -> bool
    ensures { (es : List InEntry) → picks (drawn words.old) (every picker.old.grade) 0 picker.old.left picker.old.room (untied ledger.now.state peer (entry.now ∷ es)) ≡ (if result then entry.now ∷ [] else []) ++ picks (drawn words.new) (every picker.new.grade) 0 picker.new.left picker.new.room (untied ledger.now.state peer es) }
{
    if ledger.tied_in(peer, &entry.object) {
        return false;
    }
    picker.draw(words, entry.units)
}

/// Puts an object that is taken behind the others.
pub fn push_if(objects: &mut Vec<Object>, object: &Object, is_taken: bool) -> Result<(), Memory>
    ensures { OnOk result (objects.new.items ≡ objects.old.items ++ (if is_taken then object.now ∷ [] else [])) }
{
    if is_taken {
        objects.push(*object)?;
    }
    Ok(())
}
