//! The bytes of a slot, read from the record that gave them.

ghost use Rattle.std.specs.Prelude.{◌≡◌, ◌⊎◌, ◌==◌, ◌+◌, ◌*◌, ◌<◌, ◌≤◌, List, ℕ, Some, None, true, false, if◌then◌else◌, length, take, drop, position, slice_get, IfSome, IfOk, OnErr};
ghost use Rattle.std.specs.List.{list_all};
ghost use Rattle.psb_station.specs.Span.{Shows, Tells_bytes, Looked};
ghost use Rattle.node_journal.specs.Entry.{Entry};
ghost use Rattle.psb_bytes.specs.declared.ids.Object.TheVariants.{Slot};
ghost use Rattle.psb_model.specs.Words.{has_so};
ghost use Rattle.psb_model.specs.State.{row, in_key};
ghost use Rattle.psb_model.specs.Conditions.{is_direct};
ghost use Rattle.psb_model.specs.Grammar.{fits_widths};
ghost use Rattle.psb_model.specs.History.{state, is_lawful};
ghost use Rattle.psb_model.specs.Needed.{slots_given, slot_bytes, IsValid};
ghost use Rattle.psb_model.specs.declared.change.Change.{Change};
ghost use Rattle.slot_places.specs.Slots.{slot_record, KnowsSlots, AreBelow};
ghost use Rattle.node_history.specs.Stands.{AreDecoded};
ghost use Rattle.node_history.specs.Given.{IsPlaceIn, AreGivenIn};

use crate::ReadFault;
use crate::history::given_slots;
use change_codec::{ChangeError, decode_change};
use node_journal::Log;
use psb_bytes::PeerId;
use psb_model::Change;
use psb_station::Disk;
use slot_places::SlotTables;
use std::alloc::Global;

/// How many bytes each slot has.
const SLOT_LEN: usize = 512;

/// The place of a slot among those whose bytes a change gives.
fn place_of(change: &Change, slot: u32) -> Option<usize>
    ensures { result ≡ position (λ m. m == slot) (slots_given change.now) }
{
    match given_slots(change) {
        None => None,
        Some(given) => given.slots.iter().position(|m| *m == slot),
    }
}

/// The place of a slot among those whose bytes the change with this head gives. None where it gives it none, or
/// the head is that of no change.
fn place_in(alloc: Global, head: &[u8], slot: u32) -> Result<Option<usize>, ReadFault>
    ensures place { IfOk result (λ place. IsPlaceIn place slot head.now) }
    ensures only { OnErr result (result ≡ Err ReadFault.Memory) }
{
    match decode_change(alloc, head, None) {
        Ok(change) => Ok(place_of(&change, slot)),
        Err(ChangeError::BadHead) => Ok(None),
        Err(ChangeError::Memory) => Err(ReadFault::Memory),
    }
}

/// Leaves the bytes of the slot at this place in a body, in place of those of all its slots. Answers whether the body
/// has so many.
fn take_piece(body: &mut Vec<u8>, place: usize) -> bool
    ensures piece { 512 * place + 512 ≤ length body.old.items → (result ≡ true) × (body.new.items ≡ take 512 (drop (512 * place) body.old.items)) }
    ensures len { result ≡ true → length body.new.items ≡ 512 }
{
    let start = place.saturating_mul(SLOT_LEN);
    if body.len().saturating_sub(start) < SLOT_LEN {
        return false;
    }
    body.as_mut_slice().copy_within(start..start + SLOT_LEN, 0);
    body.truncate(SLOT_LEN);
    true
}

/// Reads the bytes that the record with this number gives a slot into `into`, in place of what that held, and answers
/// whether there are any.
fn read_given<L: Log, D: Disk>(
    alloc: Global,
    log: &mut L,
    disk: &mut D,
    number: u64,
    slot: u32,
    into: &mut Vec<u8>,
) -> Result<bool, ReadFault>
    requires whole { L.is_broken log.old ≡ false }
    requires below { number < L.size log.old }
    ensures bytes { IfOk result (λ found. Tells_bytes (D.view disk.new) → (es : List Entry) → Shows (L.holds log.old es) (D.view disk.old)
        → IfSome (slice_get es number) (λ e. AreGivenIn e slot found into.new.items)) }
    ensures len { result ≡ Ok true → length into.new.items ≡ 512 }
    ensures log { log.new ≡ log.old }
    ensures looked { Looked (result ≡ Err ReadFault.DiskFault) (D.view disk.old) (D.view disk.new) }
    ensures reads { (D.view disk.new).write_faults ≡ (D.view disk.old).write_faults }
    ensures only { OnErr result ((result ≡ Err ReadFault.DiskFault) ⊎ (result ≡ Err ReadFault.Memory)) }
{
    log.head(disk, number, into)?;
    let Some(place) = place_in(alloc, into.as_slice(), slot)? else {
        return Ok(false);
    };
    if !log.has_body(number) {
        return Ok(false);
    }
    log.body(disk, number, into)?;
    Ok(take_piece(into, place))
}

/// Reads the 512 bytes of a slot of the peer from the record that gave them into `into`, in place of what that held,
/// and answers whether there are any. The slot is one whose bytes are here; where `slots` has no record of it, nothing
/// is read.
pub fn given_bytes<L: Log, D: Disk>(
    alloc: Global,
    log: &mut L,
    disk: &mut D,
    slots: &SlotTables,
    peer: PeerId,
    slot: u32,
    into: &mut Vec<u8>,
) -> Result<bool, ReadFault>
    requires whole { L.is_broken log.old ≡ false }
    requires below { AreBelow slots.now (L.size log.old) }

    // Of a history that the log holds it finds the bytes that were given last, or that their body was given up.
    ensures exact { IfOk result (λ found. Tells_bytes (D.view disk.new) → (h : List Change) (es : List Entry) → is_lawful h ≡ true → list_all fits_widths h ≡ true → KnowsSlots slots.now h
        → AreDecoded h es → Shows (L.holds log.old es) (D.view disk.old) → has_so in_key is_direct (row (state h) peer).ins (Slot slot) ≡ true
        → slot_bytes peer slot h ≡ (if found then Some into.new.items else None)) }
    // A valid history has them.
    ensures found { IfOk result (λ found. Tells_bytes (D.view disk.new) → (h : List Change) (es : List Entry) → IsValid h → KnowsSlots slots.now h
        → AreDecoded h es → Shows (L.holds log.old es) (D.view disk.old) → has_so in_key is_direct (row (state h) peer).ins (Slot slot) ≡ true → found ≡ true) }
    ensures len { result ≡ Ok true → length into.new.items ≡ 512 }
    ensures unread { slot_record slots.now peer slot ≡ None → (result ≡ Ok false) × (disk.new ≡ disk.old) × (into.new ≡ into.old) }
    ensures log { log.new ≡ log.old }
    ensures looked { Looked (result ≡ Err ReadFault.DiskFault) (D.view disk.old) (D.view disk.new) }
    ensures reads { (D.view disk.new).write_faults ≡ (D.view disk.old).write_faults }
    ensures only { OnErr result ((result ≡ Err ReadFault.DiskFault) ⊎ (result ≡ Err ReadFault.Memory)) }
{
    match slots.record_of(peer, slot) {
        None => Ok(false),
        Some(number) => read_given(alloc, log, disk, number, slot, into),
    }
}
