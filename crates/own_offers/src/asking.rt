//! The letter that asks a peer for a deal that is offered. A chunk that is placed comes with its bytes, which are read
//! here.

ghost use Rattle.std.specs.Prelude.{◌≡◌, ◌⊎◌, ◌≤◌, List, length, true, false, IfSome, IfOk, OnErr};
ghost use Rattle.std.specs.Option.{option_map};
ghost use Rattle.psb_bytes.specs.Units.{longest_chunk};
ghost use Rattle.psb_station.specs.Span.{Shows, Tells_bytes, Looked};
ghost use Rattle.node_journal.specs.Entry.{Entry};
ghost use Rattle.psb_model.specs.State.{is_held};
ghost use Rattle.psb_model.specs.declared.deals.DealWhat.TheVariants as what_of;
ghost use Rattle.psb_model.specs.History.{state};
ghost use Rattle.psb_model.specs.Needed.{last_brought, IsValid};
ghost use Rattle.psb_model.specs.declared.change.Change.{Change};
ghost use Rattle.wire_codec.specs.Fields.{are_slots};
ghost use Rattle.wire_codec.specs.Frames.{fits};
ghost use Rattle.wire_codec.specs.declared.frame.Frame.TheVariants.{Store as StoreFrame, PutBack};
ghost use Rattle.psb_machine.specs.Replies.{claims_from};
ghost use Rattle.psb_machine.specs.Proposals.{brings_bytes, is_askable, units_there};
ghost use Rattle.node_history.specs.Stands.{AreDecoded};
ghost use Rattle.node_history.specs.Names.{KnowsNames, AreThere};
ghost use Rattle.node_facts.specs.Probed.{Knows};
ghost use Rattle.own_offers.specs.Offers.{IsFrame, IsLetter};

use chunk_store::{Store, StoreError};
use claims::ClaimSource;
use node_facts::Holdings;
use node_history::ReadFault;
use node_journal::Log;
use node_letters::{Letter, Peers, cancel_of, letter_to, put_back_of, store_of};
use psb_bytes::{Digest, Memory, Object, PeerId};
use psb_ledger::Ledger;
use psb_model::{Deal, DealWhat};
use psb_station::Disk;
use std::alloc::Global;
use wire_codec::{Frame, MOST_BYTES};

/// The bytes that are held under a name. No chunk is empty or longer than the longest: such bytes stand on a disk that
/// was altered, and are not handed out.
fn chunk_bytes<L: Log, D: Disk>(
    alloc: Global,
    log: &mut L,
    disk: &mut D,
    names: &Store,
    name: &Digest,
) -> Result<Option<Vec<u8>>, ReadFault>
    requires whole { L.is_broken log.old ≡ false }
    requires there { AreThere names.now (L.size log.old) (L.keeps_body log.old) }
    ensures exact { IfOk result (λ o. Tells_bytes (D.view disk.new) → (h : List Change) (es : List Entry) → IsValid h → KnowsNames names.now h → AreDecoded h es
        → Shows (L.holds log.old es) (D.view disk.old) → is_held (state h) name.now ≡ true → option_map (λ b. b.items) o ≡ last_brought name.now h) }
    ensures some { IfOk result (λ o. IfSome o (λ b. 1 ≤ length b.items)) }
    ensures short { IfOk result (λ o. IfSome o (λ b. length b.items ≤ longest_chunk)) }
    ensures log { log.new ≡ log.old }
    ensures looked { Looked (result ≡ Err ReadFault.DiskFault) (D.view disk.old) (D.view disk.new) }
    ensures reads { (D.view disk.new).write_faults ≡ (D.view disk.old).write_faults }
    ensures only { OnErr result ((result ≡ Err ReadFault.DiskFault) ⊎ (result ≡ Err ReadFault.Memory)) }
{
    let mut bytes = Vec::new(alloc);
    let there = match names.read(log, disk, name, &mut bytes) {
        Ok(there) => there,
        Err(StoreError::DiskFault) => return Err(ReadFault::DiskFault),
        Err(StoreError::Memory) => return Err(ReadFault::Memory),
        Err(StoreError::Already | StoreError::Clash(_) | StoreError::Altered) => unreachable!(),
    };
    if !there || bytes.len() < 1 || bytes.len() > MOST_BYTES as usize {
        return Ok(None);
    }
    Ok(Some(bytes))
}

/// The frame that stores a chunk, with its bytes.
fn store_frame<L: Log, D: Disk>(
    alloc: Global,
    log: &mut L,
    disk: &mut D,
    names: &Store,
    name: &Digest,
    slots: &[u32],
) -> Result<Option<Frame>, ReadFault>
    requires whole { L.is_broken log.old ≡ false }
    requires there { AreThere names.now (L.size log.old) (L.keeps_body log.old) }
    requires slots { are_slots 0 slots.now ≡ true }
    ensures exact { IfOk result (λ o. Tells_bytes (D.view disk.new) → (h : List Change) (es : List Entry) → IsValid h → KnowsNames names.now h → AreDecoded h es
        → Shows (L.holds log.old es) (D.view disk.old) → is_held (state h) name.now ≡ true → o ≡ option_map (StoreFrame name.now slots.now) (last_brought name.now h)) }
    ensures fits { IfOk result (λ o. IfSome o (λ f. fits f ≡ true)) }
    ensures log { log.new ≡ log.old }
    ensures looked { Looked (result ≡ Err ReadFault.DiskFault) (D.view disk.old) (D.view disk.new) }
    ensures reads { (D.view disk.new).write_faults ≡ (D.view disk.old).write_faults }
    ensures only { OnErr result ((result ≡ Err ReadFault.DiskFault) ⊎ (result ≡ Err ReadFault.Memory)) }
{
    match chunk_bytes(alloc, log, disk, names, name)? {
        None => Ok(None),
        Some(bytes) => Ok(Some(store_of(alloc, *name, slots, bytes)?)),
    }
}

/// The frame that takes a chunk back from a peer, with an own claim in the place of each of its units.
fn put_back_frame(
    alloc: Global,
    ledger: &Ledger,
    claims: &mut ClaimSource,
    peer: PeerId,
    name: &Digest,
    first: u32,
) -> Result<Frame, Memory>
    requires askable { is_askable ledger.now.state peer (what_of.PutBack name.now first) ≡ true }
    ensures frame { IfOk result (λ f. f ≡ PutBack name.now (claims_from claims.old.seed first (units_there ledger.now.state peer name.now))) }
    ensures fits { IfOk result (λ f. fits f ≡ true) }
    ensures seed { claims.new.seed ≡ claims.old.seed }
    ensures issued { claims.old.issued ≤ claims.new.issued }
{
    let count = ledger.row(peer).units_out(&Object::Chunk(*name));
    put_back_of(alloc, claims, *name, first, count)
}

/// The frame that asks a peer for a deal. There is none for a deal that is never asked for.
fn frame_of<L: Log, D: Disk>(
    alloc: Global,
    log: &mut L,
    disk: &mut D,
    held: &Holdings<'_>,
    claims: &mut ClaimSource,
    peer: PeerId,
    what: &DealWhat,
) -> Result<Option<Frame>, ReadFault>
    requires whole { L.is_broken log.old ≡ false }
    requires there { AreThere held.now.names.now (L.size log.old) (L.keeps_body log.old) }
    requires askable { is_askable held.now.ledger.now.state peer what.now ≡ true }
    ensures exact { IfOk result (λ o. Tells_bytes (D.view disk.new) → (h : List Change) (es : List Entry) → Knows held.now h → AreDecoded h es
        → Shows (L.holds log.old es) (D.view disk.old) → IsFrame o claims.old.seed h peer what.now) }

    // Where no bytes come with it, nothing is read.
    ensures unread { IfOk result (λ o. brings_bytes what.now ≡ false → (h : List Change) → Knows held.now h → IsFrame o claims.old.seed h peer what.now) }
    ensures rests { brings_bytes what.now ≡ false → disk.new ≡ disk.old }
    ensures fits { IfOk result (λ o. IfSome o (λ f. fits f ≡ true)) }
    ensures log { log.new ≡ log.old }
    ensures seed { claims.new.seed ≡ claims.old.seed }
    ensures issued { claims.old.issued ≤ claims.new.issued }
    ensures looked { Looked (result ≡ Err ReadFault.DiskFault) (D.view disk.old) (D.view disk.new) }
    ensures reads { (D.view disk.new).write_faults ≡ (D.view disk.old).write_faults }
    ensures only { OnErr result ((result ≡ Err ReadFault.DiskFault) ⊎ (result ≡ Err ReadFault.Memory)) }
{
    match what {
        DealWhat::Fresh { name } => store_frame(alloc, log, disk, held.names, name, &[]),
        DealWhat::Swap { name, slots } => {
            store_frame(alloc, log, disk, held.names, name, slots.as_slice())
        }
        DealWhat::Cancel { name, slots } => Ok(Some(cancel_of(alloc, *name, slots.as_slice())?)),
        DealWhat::PutBack { name, first } => Ok(Some(put_back_frame(
            alloc,
            held.ledger,
            claims,
            peer,
            name,
            *first,
        )?)),
        DealWhat::Forward { .. } | DealWhat::Return { .. } => Ok(None),
    }
}

/// The letter that asks a peer for a deal. There is none for one that is no peer.
pub fn deal_letter<L: Log, D: Disk>(
    alloc: Global,
    log: &mut L,
    disk: &mut D,
    held: &Holdings<'_>,
    peers: &Peers,
    claims: &mut ClaimSource,
    peer: PeerId,
    deal: &Deal,
) -> Result<Option<Letter>, ReadFault>
    requires whole { L.is_broken log.old ≡ false }
    requires there { AreThere held.now.names.now (L.size log.old) (L.keeps_body log.old) }
    requires askable { is_askable held.now.ledger.now.state peer deal.now.what ≡ true }
    ensures exact { IfOk result (λ o. Tells_bytes (D.view disk.new) → (h : List Change) (es : List Entry) → Knows held.now h → AreDecoded h es
        → Shows (L.holds log.old es) (D.view disk.old) → IsLetter o peers.now claims.old.seed h peer deal.now) }

    // Where no bytes come with it, nothing is read.
    ensures unread { IfOk result (λ o. brings_bytes deal.now.what ≡ false → (h : List Change) → Knows held.now h → IsLetter o peers.now claims.old.seed h peer deal.now) }
    ensures rests { brings_bytes deal.now.what ≡ false → disk.new ≡ disk.old }
    ensures log { log.new ≡ log.old }
    ensures seed { claims.new.seed ≡ claims.old.seed }
    ensures issued { claims.old.issued ≤ claims.new.issued }
    ensures looked { Looked (result ≡ Err ReadFault.DiskFault) (D.view disk.old) (D.view disk.new) }
    ensures reads { (D.view disk.new).write_faults ≡ (D.view disk.old).write_faults }
    ensures only { OnErr result ((result ≡ Err ReadFault.DiskFault) ⊎ (result ≡ Err ReadFault.Memory)) }
{
    let key = match peers.keys().key_of(peer) {
        None => return Ok(None),
        Some(key) => *key,
    };
    let Some(frame) = frame_of(alloc, log, disk, held, claims, peer, &deal.what)? else {
        return Ok(None);
    };
    let own = peers.own().id;
    Ok(Some(letter_to(alloc, &frame, own, peer, deal.number, &key)?))
}
