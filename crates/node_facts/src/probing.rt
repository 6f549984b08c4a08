//! The proof that a peer asks for: that the node has what it answers for to it.

ghost use Rattle.std.specs.Prelude.{◌≡◌, ◌≤◌, ◌⊎◌, ◌&&◌, ℕ, List, length, true, false, IfOk, OnOk, IfSome, OnErr};
ghost use Rattle.psb_bytes.specs.declared.ids.Object.TheVariants.{Chunk, Slot};
ghost use Rattle.psb_station.specs.Span.{Shows, Tells_bytes, Looked};
ghost use Rattle.node_journal.specs.Entry.{Entry};
ghost use Rattle.psb_model.specs.State.{debt_key};
ghost use Rattle.psb_model.specs.Conditions.{is_whole};
ghost use Rattle.psb_model.specs.Words.{object_eq, has_so};
ghost use Rattle.psb_model.specs.Needed.{IsValid};
ghost use Rattle.psb_digest.specs.Claims.{claim};
ghost use Rattle.psb_model.specs.History.{state};
ghost use Rattle.psb_model.specs.declared.change.Change.{Change};
ghost use Rattle.wire_codec.specs.Fields.{are_places};
ghost use Rattle.wire_codec.specs.Frames.{fits};
ghost use Rattle.psb_machine.specs.Probing.{entry_for, carries, is_within_reach, is_missing, missing_from, claim_bytes, bytes_at, object_bytes, chain_over, proof_by};
ghost use Rattle.slot_places.specs.Slots.{KnowsSlots, AreBelow};
ghost use Rattle.node_history.specs.Stands.{AreDecoded};
ghost use Rattle.node_history.specs.Names.{AreThere};
ghost use Rattle.node_facts.specs.Probed.{IsRead, IsAt, Knows, Lacks, IsProof};

use crate::bytes::{put, read_chunk, walk_to};
use chunk_store::Store;
use claims::ClaimSource;
use node_history::{ReadFault, given_bytes};
use node_journal::Log;
use node_letters::{declined_of, proof_of};
use probe::Chain;
use psb_bytes::{Digest, Items, Memory, Object, PeerId, PlaceList, Seat};
use psb_ledger::Ledger;
use psb_model::{DebtEntry, InEntry, InState};
use psb_station::Disk;
use slot_places::SlotTables;
use std::alloc::Global;
use wire_codec::{Frame, ObjectsView};

/// What a node keeps in memory of what it answers for: the lists of its peers, and where the bytes of names and of slots
/// stand in the log.
#[derive(Clone, Copy)]
pub struct Holdings<'a> {
    pub ledger: &'a Ledger,
    pub names: &'a Store,
    pub slots: &'a SlotTables,
}

/// Whether the row of debt is of this object, and nothing of it was used up.
fn is_whole_at(row: &DebtEntry, object: &Object) -> bool
    ensures { result ≡ (object_eq row.now.object object.now && is_whole row.now) }
{
    row.object == *object && row.left == row.units
}

/// Whether a row of debt is of this object, and nothing of it was used up.
fn has_whole(rows: &[DebtEntry], object: &Object) -> bool
    ensures { result ≡ has_so debt_key is_whole rows.now object.now }
{
    rows.iter().any(|row| is_whole_at(row, object))
}

/// Whether the slot that carries a claim which was handed on can still be asked for.
fn carries(ledger: &Ledger, to: &Seat) -> bool
    ensures { result ≡ carries ledger.now.state to.now }
{
    let row = ledger.row(to.peer);
    let slot = Object::Slot(to.slot);
    row.has_out(&slot) || has_whole(row.debts(), &slot)
}

/// Whether the bytes are here, or can be asked for.
fn is_within_reach(ledger: &Ledger, state: &InState) -> bool
    ensures { result ≡ is_within_reach ledger.now.state state.now }
{
    match state {
        InState::Forwarded(to) => carries(ledger, to),
        InState::Body | InState::Direct | InState::Home(_) => true,
    }
}

/// Whether the node does not have the object for the peer.
fn is_missing(ledger: &Ledger, peer: PeerId, object: &Object) -> bool
    ensures { result ≡ is_missing ledger.now.state peer object.now }
{
    match ledger.row(peer).ins().get(object) {
        None => true,
        Some(entry) => !is_within_reach(ledger, &entry.state),
    }
}

/// The places of the objects that are missing, in their order.
fn missing_places(
    alloc: Global,
    ledger: &Ledger,
    peer: PeerId,
    objects: &ObjectsView<'_>,
) -> Result<PlaceList, Memory>
    requires few { length objects.now ≤ 32 }
    ensures places { IfOk result (λ ps. ps ≡ missing_from 0 ledger.now.state peer objects.now) }
{
    let mut places = Vec::new(alloc);
    for place in 0..objects.len() {
        if is_missing(ledger, peer, &objects.at(place)) {
            places.push(place as u16)?;
        }
    }
    Ok(Items::from_vec(places))
}

/// Puts the bytes of a claim of the node's own into `into`, in place of what that held.
fn put_claim(claims: &mut ClaimSource, number: u32, into: &mut Vec<u8>) -> Result<(), Memory>
    ensures bytes { OnOk result (into.new.items ≡ claim claims.old.seed number) }
    ensures seed { claims.new.seed ≡ claims.old.seed }
    ensures issued { claims.new.issued ≡ claims.old.issued }
{
    walk_to(claims, number);
    put(&claims.claim(number), into)
}

/// Reads the bytes of a claim that the node answers for, as `read_object` does.
fn read_claim<L: Log, D: Disk>(
    alloc: Global,
    log: &mut L,
    disk: &mut D,
    held: &Holdings<'_>,
    claims: &mut ClaimSource,
    peer: PeerId,
    slot: u32,
    at: &InState,
    into: &mut Vec<u8>,
) -> Result<bool, ReadFault>
    requires whole { L.is_broken log.old ≡ false }
    requires below { AreBelow held.now.slots.now (L.size log.old) }
    ensures bytes { IfOk result (λ there. Tells_bytes (D.view disk.new) → (h : List Change) (es : List Entry) → IsValid h → KnowsSlots held.now.slots.now h → AreDecoded h es
        → Shows (L.holds log.old es) (D.view disk.old) → IsAt (state h) peer slot at.now → IsRead there into.new.items (claim_bytes claims.old.seed h peer slot at.now)) }
    ensures log { log.new ≡ log.old }
    ensures seed { claims.new.seed ≡ claims.old.seed }
    ensures issued { claims.new.issued ≡ claims.old.issued }
    ensures looked { Looked (result ≡ Err ReadFault.DiskFault) (D.view disk.old) (D.view disk.new) }
    ensures reads { (D.view disk.new).write_faults ≡ (D.view disk.old).write_faults }
    ensures only { OnErr result ((result ≡ Err ReadFault.DiskFault) ⊎ (result ≡ Err ReadFault.Memory)) }
{
    match at {
        InState::Direct => given_bytes(alloc, log, disk, held.slots, peer, slot, into),
        InState::Home(number) => {
            put_claim(claims, *number, into)?;
            Ok(true)
        }
        InState::Body | InState::Forwarded(_) => Ok(false),
    }
}

/// Reads the bytes of an object that the node answers for to the peer into `into`, in place of what that held, and
/// answers whether it has them.
fn read_object<L: Log, D: Disk>(
    alloc: Global,
    log: &mut L,
    disk: &mut D,
    held: &Holdings<'_>,
    claims: &mut ClaimSource,
    peer: PeerId,
    object: &Object,
    into: &mut Vec<u8>,
) -> Result<bool, ReadFault>
    requires whole { L.is_broken log.old ≡ false }
    requires there { AreThere held.now.names.now (L.size log.old) (L.keeps_body log.old) }
    requires below { AreBelow held.now.slots.now (L.size log.old) }
    ensures bytes { IfOk result (λ there. Tells_bytes (D.view disk.new) → (h : List Change) (es : List Entry) → Knows held.now h → AreDecoded h es
        → Shows (L.holds log.old es) (D.view disk.old) → IsRead there into.new.items (object_bytes claims.old.seed h peer object.now)) }
    ensures log { log.new ≡ log.old }
    ensures seed { claims.new.seed ≡ claims.old.seed }
    ensures issued { claims.new.issued ≡ claims.old.issued }
    ensures looked { Looked (result ≡ Err ReadFault.DiskFault) (D.view disk.old) (D.view disk.new) }
    ensures reads { (D.view disk.new).write_faults ≡ (D.view disk.old).write_faults }
    ensures only { OnErr result ((result ≡ Err ReadFault.DiskFault) ⊎ (result ≡ Err ReadFault.Memory)) }
{
    let Some(entry) = held.ledger.row(peer).ins().get(object) else {
        return Ok(false);
    };
    match object {
        Object::Chunk(name) => read_chunk(log, disk, held.names, name, into),
        Object::Slot(slot) => read_claim(
            alloc,
            log,
            disk,
            held,
            claims,
            peer,
            *slot,
            &entry.state,
            into,
        ),
    }
}

/// The value of the chain over the objects, where the node has the bytes of each. One body is read at a time.
fn chain_over<L: Log, D: Disk>(
    alloc: Global,
    log: &mut L,
    disk: &mut D,
    held: &Holdings<'_>,
    claims: &mut ClaimSource,
    peer: PeerId,
    nonce: &Digest,
    objects: &ObjectsView<'_>,
) -> Result<Option<Digest>, ReadFault>
    requires whole { L.is_broken log.old ≡ false }
    requires there { AreThere held.now.names.now (L.size log.old) (L.keeps_body log.old) }
    requires below { AreBelow held.now.slots.now (L.size log.old) }
    ensures value { IfOk result (λ o. Tells_bytes (D.view disk.new) → (h : List Change) (es : List Entry) → Knows held.now h → AreDecoded h es
        → Shows (L.holds log.old es) (D.view disk.old) → o ≡ chain_over (object_bytes claims.old.seed h peer) nonce.now objects.now) }
    ensures log { log.new ≡ log.old }
    ensures seed { claims.new.seed ≡ claims.old.seed }
    ensures issued { claims.new.issued ≡ claims.old.issued }
    ensures looked { Looked (result ≡ Err ReadFault.DiskFault) (D.view disk.old) (D.view disk.new) }
    ensures reads { (D.view disk.new).write_faults ≡ (D.view disk.old).write_faults }
    ensures only { OnErr result ((result ≡ Err ReadFault.DiskFault) ⊎ (result ≡ Err ReadFault.Memory)) }
{
    let mut chain = Chain::start(nonce);
    let mut bytes = Vec::new(alloc);
    for place in 0..objects.len() {
        let object = objects.at(place);
        if !read_object(alloc, log, disk, held, claims, peer, &object, &mut bytes)? {
            return Ok(None);
        }
        chain.add(&bytes);
    }
    Ok(Some(chain.value()))
}

/// The frame that answers a probe of the peer: it declines where objects are missing, and else has the proof. None
/// where the bytes of one are not this node's to read.
pub fn proof_for<L: Log, D: Disk>(
    alloc: Global,
    log: &mut L,
    disk: &mut D,
    held: &Holdings<'_>,
    claims: &mut ClaimSource,
    peer: PeerId,
    nonce: &Digest,
    objects: &ObjectsView<'_>,
) -> Result<Option<Frame>, ReadFault>
    requires whole { L.is_broken log.old ≡ false }
    requires there { AreThere held.now.names.now (L.size log.old) (L.keeps_body log.old) }
    requires below { AreBelow held.now.slots.now (L.size log.old) }
    requires few { length objects.now ≤ 32 }
    ensures exact { IfOk result (λ o. Tells_bytes (D.view disk.new) → (h : List Change) (es : List Entry) → Knows held.now h → AreDecoded h es
        → Shows (L.holds log.old es) (D.view disk.old) → IsProof o held.now claims.old.seed h peer nonce.now objects.now) }

    // Where objects are missing nothing is read.
    ensures unread { IfOk result (λ o. (h : List Change) → Lacks held.now.ledger.now.state peer objects.now → IsProof o held.now claims.old.seed h peer nonce.now objects.now) }
    ensures rests { Lacks held.now.ledger.now.state peer objects.now → disk.new ≡ disk.old }
    ensures fits { IfOk result (λ o. IfSome o (λ f. fits f ≡ true)) }
    ensures log { log.new ≡ log.old }
    ensures seed { claims.new.seed ≡ claims.old.seed }
    ensures issued { claims.new.issued ≡ claims.old.issued }
    ensures looked { Looked (result ≡ Err ReadFault.DiskFault) (D.view disk.old) (D.view disk.new) }
    ensures reads { (D.view disk.new).write_faults ≡ (D.view disk.old).write_faults }
    ensures only { OnErr result ((result ≡ Err ReadFault.DiskFault) ⊎ (result ≡ Err ReadFault.Memory)) }
{
    let places = missing_places(alloc, held.ledger, peer, objects)?;
    if !places.as_slice().is_empty() {
        return Ok(Some(declined_of(nonce, places)));
    }
    match chain_over(alloc, log, disk, held, claims, peer, nonce, objects)? {
        None => Ok(None),
        Some(value) => Ok(Some(proof_of(nonce, &value))),
    }
}
