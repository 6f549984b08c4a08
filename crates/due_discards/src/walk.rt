//! What a picker takes of all that the node answers for to a peer.

ghost use Rattle.std.specs.Prelude.{◌≡◌, map, IfOk};
ghost use Rattle.psb_model.specs.State.{row, in_key};
ghost use Rattle.psb_model.specs.Discards.{picks};
ghost use Rattle.discard_policy.specs.Grades.{every};
ghost use Rattle.discard_policy.specs.Drawing.{drawn};
ghost use Rattle.due_discards.specs.Offers.{untied};

use crate::offers::{next_offered, push_if, takes};
use discard_policy::Picker;
use psb_bytes::{Memory, Object, PeerId};
use psb_digest::Words;
use psb_ledger::Ledger;
use std::alloc::Global;

/// The objects that the picker takes of the entries that no deal ties, in object order. One look-up for each entry, up
/// to the last that the picker may take; no memory but for the list.
pub fn taken(
    alloc: Global,
    ledger: &Ledger,
    peer: PeerId,
    words: &mut Words,
    picker: &mut Picker,
) -> Result<Vec<Object>, Memory>
    ensures { IfOk result (λ v. v.items ≡ map in_key (picks (drawn words.old) (every picker.old.grade) 0 picker.old.left picker.old.room (untied ledger.now.state peer (row ledger.now.state peer).ins))) }
{
    ledger.is_reached();
    let ins = ledger.row(peer).ins();
    let mut objects = Vec::new(alloc);
    let mut place = None;
    while let Some(entry) = next_offered(ins, &place, picker) {
        let is_taken = takes(ledger, peer, &entry, words, picker);
        push_if(&mut objects, &entry.object, is_taken)?;
        place = Some(entry.object);
    }
    Ok(objects)
}
