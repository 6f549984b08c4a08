//! Which entries of what the node answers for to a peer a discard takes: by chance, and none that a pending
//! deal ties.

ghost use Rattle.std.specs.Prelude.{◌≡◌, ◌&&◌, ◌+◌, ◌<◌, ◌∷◌, ◌++◌, [], List, true, length, map, drop, if◌then◌else◌};
ghost use Rattle.psb_bytes.specs.declared.ids.Object.{Object};
ghost use Rattle.psb_model.specs.declared.entries.InEntry.{InEntry};
ghost use Rattle.psb_model.specs.State.{in_key};
ghost use Rattle.psb_model.specs.Discards.{picks};
ghost use Rattle.psb_model.specs.Conditions.{same_objects};
ghost use Rattle.discard_policy.specs.Grades.{every};
ghost use Rattle.discard_policy.specs.Drawing.{drawn};
ghost use Rattle.accounts.specs.Table.{untied};

use crate::table::ties_in;
use discard_policy::Picker;
use peer_account::Account;
use peer_lists::InList;
use psb_bytes::{Object, PeerId};
use psb_digest::Words;
use psb_model::InEntry;

/// Whether the object stands at this place of the list.
fn is_at(objects: &[Object], place: usize, object: &Object) -> bool
    ensures same { (rest : List Object) → same_objects (drop place objects.now) (object.now ∷ rest) ≡ (result && same_objects (drop (place + 1) objects.now) rest) }
    ensures within { result ≡ true → place < length objects.now }
{
    match objects.get(place) {
        None => false,
        Some(o) => *o == *object,
    }
}

/// Whether the picker takes the entry, which uses up a word unless a deal ties it.
fn takes(
    accounts: &[Account],
    peer: PeerId,
    entry: &InEntry,
    words: &mut Words,
    picker: &mut Picker,
) -> bool
    ensures { (es : List InEntry) → picks (drawn words.old) (every picker.old.grade) 0 picker.old.left picker.old.room (untied accounts.now peer (entry.now ∷ es)) ≡ (if result then entry.now ∷ [] else []) ++ picks (drawn words.new) (every picker.new.grade) 0 picker.new.left picker.new.room (untied accounts.now peer es) }
{
    if ties_in(accounts, peer, &entry.object) {
        return false;
    }
    picker.draw(words, entry.units)
}

/// Whether these are the objects of the entries that the picker takes.
pub fn are_taken(
    accounts: &[Account],
    peer: PeerId,
    ins: &InList,
    objects: &[Object],
    words: &mut Words,
    picker: &mut Picker,
) -> bool
    ensures { result ≡ same_objects objects.now (map in_key (picks (drawn words.old) (every picker.old.grade) 0 picker.old.left picker.old.room (untied accounts.now peer ins.now.items))) }
{
    let mut place = None;
    let mut count = 0;
    while let Some(entry) = ins.next_after(&place) {
        place = Some(entry.object);
        if takes(accounts, peer, &entry, words, picker) {
            if !is_at(objects, count, &entry.object) {
                return false;
            }
            count += 1;
        }
    }
    count == objects.len()
}
