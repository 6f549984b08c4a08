//! The value that a probe of the node's own is to come to: the chain over what the peer has, by what the node has itself.

ghost use Rattle.std.specs.Prelude.{◌≡◌, ◌⊎◌, List, true, false, is_some, IfOk, OnErr};
ghost use Rattle.std.specs.List.{list_all};
ghost use Rattle.psb_station.specs.Span.{Shows, Tells_bytes, Looked};
ghost use Rattle.node_journal.specs.Entry.{Entry};
ghost use Rattle.psb_model.specs.History.{state};
ghost use Rattle.psb_model.specs.declared.change.Change.{Change};
ghost use Rattle.psb_machine.specs.Probing.{chain_over};
ghost use Rattle.psb_machine.specs.OwnProbes.{own_bytes};
ghost use Rattle.node_history.specs.Stands.{AreDecoded};
ghost use Rattle.node_history.specs.Names.{KnowsNames, AreThere};
ghost use Rattle.node_facts.specs.Probed.{IsRead, Knows};
ghost use Rattle.node_facts.specs.OwnChain.{is_own, are_own, is_slot, has_no_chunk, ReadsNothing};

use crate::bytes::{put, read_chunk, walk_to};
use crate::claims_in_turn::ClaimsInTurn;
use crate::probing::Holdings;
use chunk_store::Store;
use claims::ClaimSource;
use node_history::ReadFault;
use node_journal::Log;
use probe::Chain;
use psb_bytes::{Digest, Object};
use psb_ledger::Ledger;
use psb_station::Disk;
use std::alloc::Global;

/// Whether the node has the object itself: a chunk of its own, or a slot, in which one of its claims stands.
fn is_own(ledger: &Ledger, object: &Object) -> bool
    ensures { result ≡ is_own ledger.now.state object.now }
{
    match object {
        Object::Chunk(name) => ledger.has_own(name),
        Object::Slot(_) => true,
    }
}

/// Whether each chunk among the objects is the node's own.
pub fn are_own(ledger: &Ledger, objects: &[Object]) -> bool
    ensures { result ≡ are_own ledger.now.state objects.now }
{
    objects.iter().all(|object| is_own(ledger, object))
}

/// Walks over the claims in front of each of these slots.
fn walk_to_slots(claims: &mut ClaimSource, objects: &[Object])
    ensures seed { claims.new.seed ≡ claims.old.seed }
    ensures issued { claims.new.issued ≡ claims.old.issued }
{
    for object in objects {
        if let Object::Slot(slot) = object {
            walk_to(claims, *slot);
        }
    }
}

/// Reads the bytes of an object that the node has itself into `into`, in place of what that held, and answers whether
/// there are any.
fn read_own<L: Log, D: Disk>(
    log: &mut L,
    disk: &mut D,
    names: &Store,
    claims: &mut ClaimsInTurn<'_>,
    object: &Object,
    into: &mut Vec<u8>,
) -> Result<bool, ReadFault>
    requires whole { L.is_broken log.old ≡ false }
    requires there { AreThere names.now (L.size log.old) (L.keeps_body log.old) }
    ensures bytes { IfOk result (λ there. Tells_bytes (D.view disk.new) → (h : List Change) (es : List Entry) → KnowsNames names.now h → AreDecoded h es
        → Shows (L.holds log.old es) (D.view disk.old) → is_own (state h) object.now ≡ true → IsRead there into.new.items (own_bytes claims.old.seed h object.now)) }

    // A claim is made, and nothing is read for it.
    ensures made { IfOk result (λ there. (h : List Change) → is_slot object.now ≡ true → IsRead there into.new.items (own_bytes claims.old.seed h object.now)) }
    ensures rests { is_slot object.now ≡ true → disk.new ≡ disk.old }

    // Whatever the disk tells, there are some.
    ensures some { IfOk result (λ there. (h : List Change) → KnowsNames names.now h → is_own (state h) object.now ≡ true → there ≡ true) }
    ensures seed { claims.new.seed ≡ claims.old.seed }
    ensures log { log.new ≡ log.old }
    ensures looked { Looked (result ≡ Err ReadFault.DiskFault) (D.view disk.old) (D.view disk.new) }
    ensures reads { (D.view disk.new).write_faults ≡ (D.view disk.old).write_faults }
    ensures only { OnErr result ((result ≡ Err ReadFault.DiskFault) ⊎ (result ≡ Err ReadFault.Memory)) }
{
    match object {
        Object::Chunk(name) => read_chunk(log, disk, names, name, into),
        Object::Slot(slot) => {
            put(&claims.claim(*slot), into)?;
            Ok(true)
        }
    }
}

/// The value of the chain over objects that the node has itself. One body is read at a time.
fn chain_of<L: Log, D: Disk>(
    alloc: Global,
    log: &mut L,
    disk: &mut D,
    names: &Store,
    claims: &mut ClaimsInTurn<'_>,
    nonce: &Digest,
    objects: &[Object],
) -> Result<Option<Digest>, ReadFault>
    requires whole { L.is_broken log.old ≡ false }
    requires there { AreThere names.now (L.size log.old) (L.keeps_body log.old) }
    ensures value { IfOk result (λ o. Tells_bytes (D.view disk.new) → (h : List Change) (es : List Entry) → KnowsNames names.now h → AreDecoded h es
        → Shows (L.holds log.old es) (D.view disk.old) → are_own (state h) objects.now ≡ true → o ≡ chain_over (own_bytes claims.old.seed h) nonce.now objects.now) }
    ensures made { IfOk result (λ o. (h : List Change) → has_no_chunk objects.now ≡ true → o ≡ chain_over (own_bytes claims.old.seed h) nonce.now objects.now) }
    ensures rests { has_no_chunk objects.now ≡ true → disk.new ≡ disk.old }
    ensures some { IfOk result (λ o. (h : List Change) → KnowsNames names.now h → are_own (state h) objects.now ≡ true → is_some o ≡ true) }
    ensures log { log.new ≡ log.old }
    ensures looked { Looked (result ≡ Err ReadFault.DiskFault) (D.view disk.old) (D.view disk.new) }
    ensures reads { (D.view disk.new).write_faults ≡ (D.view disk.old).write_faults }
    ensures only { OnErr result ((result ≡ Err ReadFault.DiskFault) ⊎ (result ≡ Err ReadFault.Memory)) }
{
    let mut chain = Chain::start(nonce);
    let mut bytes = Vec::new(alloc);
    for object in objects {
        if !read_own(log, disk, names, claims, object, &mut bytes)? {
            return Ok(None);
        }
        chain.add(&bytes);
    }
    Ok(Some(chain.value()))
}

/// The value that proves that a peer has these objects: that of the chain over them from a nonce on. None where a chunk
/// among them is not the node's own.
pub fn own_value<L: Log, D: Disk>(
    alloc: Global,
    log: &mut L,
    disk: &mut D,
    held: &Holdings<'_>,
    claims: &mut ClaimSource,
    nonce: &Digest,
    objects: &[Object],
) -> Result<Option<Digest>, ReadFault>
    requires whole { L.is_broken log.old ≡ false }
    requires there { AreThere held.now.names.now (L.size log.old) (L.keeps_body log.old) }
    ensures exact { IfOk result (λ o. Tells_bytes (D.view disk.new) → (h : List Change) (es : List Entry) → Knows held.now h → AreDecoded h es
        → Shows (L.holds log.old es) (D.view disk.old) → o ≡ chain_over (own_bytes claims.old.seed h) nonce.now objects.now) }

    // Where no chunk is the node's to read, nothing is read.
    ensures unread { IfOk result (λ o. (h : List Change) → Knows held.now h → ReadsNothing held.now.ledger.now.state objects.now → o ≡ chain_over (own_bytes claims.old.seed h) nonce.now objects.now) }
    ensures rests { ReadsNothing held.now.ledger.now.state objects.now → disk.new ≡ disk.old }

    // Whatever the disk tells, there is one where each chunk is the node's own.
    ensures some { IfOk result (λ o. (h : List Change) → Knows held.now h → is_some o ≡ are_own held.now.ledger.now.state objects.now) }
    ensures log { log.new ≡ log.old }
    ensures seed { claims.new.seed ≡ claims.old.seed }
    ensures issued { claims.new.issued ≡ claims.old.issued }
    ensures looked { Looked (result ≡ Err ReadFault.DiskFault) (D.view disk.old) (D.view disk.new) }
    ensures reads { (D.view disk.new).write_faults ≡ (D.view disk.old).write_faults }
    ensures only { OnErr result ((result ≡ Err ReadFault.DiskFault) ⊎ (result ≡ Err ReadFault.Memory)) }
{
    if !are_own(held.ledger, objects) {
        return Ok(None);
    }
    walk_to_slots(claims, objects);
    let mut turns = ClaimsInTurn::new(claims);
    chain_of(alloc, log, disk, held.names, &mut turns, nonce, objects)
}
