//! The deal that the node proposes to a peer next.

ghost use Rattle.std.specs.Prelude.{◌≡◌, ◌==◌, ◌+◌, ◌<◌, ◌^◌, length, IfOk};
ghost use Rattle.std.specs.List.{list_any};
ghost use Rattle.psb_model.specs.State.{row};
ghost use Rattle.psb_model.specs.Proposing.{cancel, put_back, release_of, release, first_place, place, proposal, propose};
ghost use Rattle.deals.specs.Views.{propose_facts_in};
ghost use Rattle.deals.specs.Placing.{most_units, placed_with};

use next_deals::Planner;
use psb_bytes::{Digest, Memory, Object, ObjectList, PeerId, SlotList, units_of};
use psb_ledger::Ledger;
use psb_model::{Change, DealWhat, OutEntry, OwnEntry, Proposed, may_issue};
use std::alloc::Global;

/// What is looked up before a deal is proposed.
#[derive(Clone, Copy, PartialEq, Eq, Debug)]
pub struct ProposeFacts {
    /// The number of the next claim.
    pub issued: u32,
    /// How many units the node may use.
    pub capacity: u32,
    /// Whether it may forward claims. No proposal does so far.
    pub forward: bool,
}

/// How many units the longest chunk has.
const MOST_UNITS: u32 = 64;

/// A Cancel of the chunk against slots of the peer here, None where there are too few or the peer turned one
/// down before.
fn cancel(
    planner: &Planner,
    peer: PeerId,
    name: &Digest,
    units: u32,
) -> Result<Option<DealWhat>, Memory>
    ensures { IfOk result (λ o. o ≡ cancel planner.now.state peer name.now units) }
{
    if planner.ledger().row(peer).is_cancel_turned(name) {
        return Ok(None);
    }
    let slots = planner.slots_to_give(peer, units as usize)?;
    if slots.as_slice().len() < units as usize {
        return Ok(None);
    }
    Ok(Some(DealWhat::Cancel { name: *name, slots }))
}

/// A put back of the chunk against the next own claims, None where there are too few.
fn put_back(issued: u32, name: &Digest, units: u32) -> Option<DealWhat>
    ensures { result ≡ put_back issued name.now units }
{
    if !may_issue(issued, units) {
        return None;
    }
    Some(DealWhat::PutBack {
        name: *name,
        first: issued,
    })
}

fn release_of(
    planner: &Planner,
    peer: PeerId,
    issued: u32,
    entry: &OutEntry,
) -> Result<Option<DealWhat>, Memory>
    ensures { IfOk result (λ o. o ≡ release_of planner.now.state peer issued entry.now) }
{
    let Object::Chunk(name) = &entry.object else {
        return Ok(None);
    };
    match cancel(planner, peer, name, entry.units)? {
        Some(what) => Ok(Some(what)),
        None => Ok(put_back(issued, name, entry.units)),
    }
}

/// The release of the least marked chunk there, None where there is none, or it can't be released.
fn release(
    planner: &Planner,
    peer: PeerId,
    probed: &[Object],
    issued: u32,
) -> Result<Option<DealWhat>, Memory>
    ensures { IfOk result (λ o. o ≡ release planner.now.state peer probed.now issued) }
{
    match planner.to_release(peer, probed) {
        None => Ok(None),
        Some(entry) => release_of(planner, peer, issued, &entry),
    }
}

/// How many units a chunk may have at most that is placed with these slots.
fn most_units(ledger: &Ledger, slots: &[u32], capacity: u32) -> u32
    ensures { result ≡ most_units ledger.now.state (length slots.now) capacity }
{
    let room = capacity.saturating_sub(ledger.used());
    let slots = slots.len().min(MOST_UNITS as usize) as u32;
    room.max(slots).min(MOST_UNITS)
}

/// The chunk in the place of the first of these slots, where they are as many as it has units; else fresh.
fn placed_with(alloc: Global, slots: &[u32], chunk: &OwnEntry) -> Result<DealWhat, Memory>
    ensures { IfOk result (λ w. w ≡ placed_with slots.now chunk.now) }
{
    let units = units_of(chunk.len) as usize;
    if slots.len() < units {
        return Ok(DealWhat::Fresh { name: chunk.name });
    }
    Ok(DealWhat::Swap {
        name: chunk.name,
        slots: SlotList::copy(alloc, &slots[..units])?,
    })
}

/// Whether the peer was chosen as a buddy.
fn is_buddy(ledger: &Ledger, peer: PeerId) -> bool
    ensures { result ≡ list_any (λ q. q == peer) ledger.now.state.chosen }
{
    ledger.chosen().iter().any(|q| *q == peer)
}

/// The least missing chunk that can be placed there, None where there is none, or the peer is no buddy.
fn place(
    alloc: Global,
    planner: &Planner,
    peer: PeerId,
    probed: &[Object],
    capacity: u32,
) -> Result<Option<DealWhat>, Memory>
    ensures { IfOk result (λ o. o ≡ place planner.now.state peer probed.now capacity) }
{
    if !is_buddy(planner.ledger(), peer) {
        return Ok(None);
    }
    first_place(alloc, planner, peer, probed, capacity)
}

/// The least missing chunk that can be placed there.
fn first_place(
    alloc: Global,
    planner: &Planner,
    peer: PeerId,
    probed: &[Object],
    capacity: u32,
) -> Result<Option<DealWhat>, Memory>
    ensures { IfOk result (λ o. o ≡ first_place planner.now.state peer probed.now capacity planner.now.state.own) }
{
    planner.ledger().is_reached();
    let slots = planner.slots_to_fill(peer, probed, MOST_UNITS as usize)?;
    let most = most_units(planner.ledger(), slots.as_slice(), capacity);
    match planner.to_place(peer, most) {
        None => Ok(None),
        Some(chunk) => Ok(Some(placed_with(alloc, slots.as_slice(), &chunk)?)),
    }
}

/// What is proposed to the peer next.
fn proposal(
    alloc: Global,
    planner: &Planner,
    peer: PeerId,
    probed: &[Object],
    facts: &ProposeFacts,
) -> Result<Option<DealWhat>, Memory>
    ensures { IfOk result (λ o. o ≡ proposal planner.now.state peer probed.now (propose_facts_in facts.now)) }
{
    match release(planner, peer, probed, facts.issued)? {
        Some(what) => Ok(Some(what)),
        None => place(alloc, planner, peer, probed, facts.capacity),
    }
}

/// The change that proposes the next deal to the peer, where none is pending: the release of the least marked
/// chunk there, else the placing of the least missing one. None exactly where there is neither. `listed` are the
/// objects that a running probe of the peer lists.
pub fn propose(
    alloc: Global,
    planner: &Planner,
    peer: PeerId,
    listed: &ObjectList,
    facts: &ProposeFacts,
) -> Result<Option<Change>, Memory>
    requires { (row planner.now.state peer).mine + 1 < 2 ^ 64 }
    ensures { IfOk result (λ c. c ≡ propose planner.now.state peer listed.now (propose_facts_in facts.now)) }
{
    let Some(what) = proposal(alloc, planner, peer, listed.as_slice(), facts)? else {
        return Ok(None);
    };
    Ok(Some(Change::Proposed(Proposed {
        peer,
        deal: planner.ledger().row(peer).mine() + 1,
        what,
    })))
}

/// Looks ahead for the next deal with the peer, so that `propose` finds it in few steps. Nothing that the ledger
/// tells changes.
pub fn look_ahead(
    planner: &mut Planner,
    peer: PeerId,
    listed: &ObjectList,
    facts: &ProposeFacts,
) -> Result<(), Memory>
    ensures { planner.new ≡ planner.old }
{
    let slots = planner.slots_to_fill(peer, listed.as_slice(), MOST_UNITS as usize)?;
    let most = most_units(planner.ledger(), slots.as_slice(), facts.capacity);
    planner.seek(peer, most);
    Ok(())
}
