//! The search for the chunk that is released next and for the one that is placed next.

ghost use Rattle.std.specs.Prelude.{◌≡◌, ◌&&◌, nat_le, true, false, find, None, Some, IfSome};
ghost use Rattle.std.specs.Option.{option_map};
ghost use Rattle.psb_model.specs.Words.{units, listed};
ghost use Rattle.psb_model.specs.State.{row, out_key, own_marked};
ghost use Rattle.psb_model.specs.Proposing.{is_free, is_missing, may_release, none_marked, none_missing};
ghost use Rattle.peer_lists.specs.Entries.{in_order};
ghost use Rattle.peer_lists.specs.Walks.{chunk_after};
ghost use Rattle.own_chunks.specs.OwnList.{own_key, next_own};
ghost use Rattle.next_deals.specs.Searches.{is_past, is_past_own, settled_restarts, restarts_of, chunk_name, next_out};

use crate::search::Restarts;
use psb_bytes::{Digest, Object, PeerId, units_of};
use psb_ledger::Ledger;
use psb_model::{Change, DealWhat, OutEntry, OwnEntry};

fn settled_restarts(ledger: &Ledger, peer: PeerId) -> Restarts
    ensures { result ≡ settled_restarts ledger.now.state peer (row ledger.now.state peer).pending }
{
    let Some(deal) = ledger.row(peer).pending() else {
        return Restarts::Nothing;
    };
    match &deal.what {
        DealWhat::Fresh { name } | DealWhat::Swap { name, .. } => {
            if ledger.is_marked(name) {
                Restarts::Marked(peer)
            } else {
                Restarts::Nothing
            }
        }
        DealWhat::Cancel { .. } | DealWhat::PutBack { .. } => Restarts::Missing(peer),
        _ => Restarts::Nothing,
    }
}

/// Which searches the change starts anew.
pub fn restarts(ledger: &Ledger, c: &Change) -> Restarts
    ensures { result ≡ restarts_of ledger.now.state c.now }
{
    match c {
        Change::TookFresh(_)
        | Change::TookSwap(_)
        | Change::LetGo(_)
        | Change::LetGoBack(_)
        | Change::Replaced(_)
        | Change::Refused(_)
        | Change::Proposed(_)
        | Change::Turned(_)
        | Change::Asked(_)
        | Change::Failed(_)
        | Change::Declined(_)
        | Change::Chose(_) => Restarts::Nothing,
        Change::Passed(x) => Restarts::Marked(x.peer),
        Change::Discarded(x) => Restarts::Missing(x.peer),
        Change::Settled(x) => settled_restarts(ledger, x.peer),
        _ => Restarts::All,
    }
}

/// No deal with the peer ties the object there, and it is none of these.
pub fn is_free(ledger: &Ledger, peer: PeerId, probed: &[Object], object: &Object) -> bool
    ensures { result ≡ is_free ledger.now.state peer probed.now object.now }
{
    !ledger.row(peer).ties_out(object) && !is_listed_object(probed, object)
}

fn may_release(ledger: &Ledger, peer: PeerId, probed: &[Object], entry: &OutEntry) -> bool
    ensures { result ≡ may_release ledger.now.state peer probed.now entry.now }
{
    match &entry.object {
        Object::Chunk(name) => {
            ledger.is_marked(name) && is_free(ledger, peer, probed, &entry.object)
        }
        Object::Slot(_) => false,
    }
}

/// A kept snapshot lists the chunk besides.
pub fn is_missing(ledger: &Ledger, peer: PeerId, name: &Digest) -> bool
    ensures { result ≡ is_missing ledger.now.state peer name.now }
{
    ledger.is_wanted(name) && ledger.row(peer).is_absent(name)
}

/// The first marked chunk there that may be released, where none up to the place is marked.
pub fn to_release(
    ledger: &Ledger,
    peer: PeerId,
    probed: &[Object],
    place: &Option<Digest>,
) -> Option<OutEntry>
    requires { none_marked (is_past place.now) ledger.now.state.own (row ledger.now.state peer).outs ≡ true }
    ensures { result ≡ find (may_release ledger.now.state peer probed.now) (row ledger.now.state peer).outs }
{
    let mut passed = *place;
    while let Some(entry) = chunk_there(ledger, peer, &passed) {
        if may_release(ledger, peer, probed, &entry) {
            return Some(entry);
        }
        passed = chunk_name(&entry.object);
    }
    None
}

/// The first chunk there behind the place.
fn chunk_there(ledger: &Ledger, peer: PeerId, place: &Option<Digest>) -> Option<OutEntry>
    ensures chunk { result ≡ chunk_after out_key place.now (row ledger.now.state peer).outs }
    ensures ordered { in_order out_key (row ledger.now.state peer).outs ≡ true }
{
    ledger.row(peer).outs().chunk_after(place)
}

/// The first chunk there behind the place, if it is not marked.
fn next_unmarked(ledger: &Ledger, peer: PeerId, place: &Option<Digest>) -> Option<Digest>
    ensures next { IfSome result (λ n. next_out place.now (row ledger.now.state peer).outs ≡ Some n) }
    ensures unmarked { IfSome result (λ n. own_marked ledger.now.state.own n ≡ false) }
    ensures ordered { in_order out_key (row ledger.now.state peer).outs ≡ true }
{
    let name = next_out(ledger, peer, place)?;
    if ledger.is_marked(&name) {
        return None;
    }
    Some(name)
}

/// The first chunk there behind the place.
fn next_out(ledger: &Ledger, peer: PeerId, place: &Option<Digest>) -> Option<Digest>
    ensures next { result ≡ next_out place.now (row ledger.now.state peer).outs }
    ensures ordered { in_order out_key (row ledger.now.state peer).outs ≡ true }
{
    match chunk_there(ledger, peer, place) {
        None => None,
        Some(entry) => chunk_name(&entry.object),
    }
}

/// A place behind which the next chunk there is marked, if there is one.
pub fn seek_marked(ledger: &Ledger, peer: PeerId, place: &Option<Digest>) -> Option<Digest>
    requires { none_marked (is_past place.now) ledger.now.state.own (row ledger.now.state peer).outs ≡ true }
    ensures { none_marked (is_past result) ledger.now.state.own (row ledger.now.state peer).outs ≡ true }
{
    let mut reached = *place;
    while let Some(name) = next_unmarked(ledger, peer, &reached) {
        reached = Some(name);
    }
    reached
}

/// Whether the own chunk is missing there and has so many units at most.
fn may_be_placed(ledger: &Ledger, peer: PeerId, most: u32, chunk: &OwnEntry) -> bool
    ensures { result ≡ (is_missing ledger.now.state peer chunk.now.name && nat_le (units chunk.now.len) most) }
{
    is_missing(ledger, peer, &chunk.name) && units_of(chunk.len) <= most
}

/// The first own chunk behind the place, if it is no such one.
fn next_passed(ledger: &Ledger, peer: PeerId, most: u32, place: &Option<Digest>) -> Option<Digest>
    ensures next { IfSome result (λ n. option_map (λ e. e.name) (next_own place.now ledger.now.state.own) ≡ Some n) }
    ensures other { IfSome result (λ n. IfSome (next_own place.now ledger.now.state.own) (λ e. (is_missing ledger.now.state peer e.name && nat_le (units e.len) most) ≡ false)) }
    ensures ordered { in_order own_key ledger.now.state.own ≡ true }
    ensures end { result ≡ None → IfSome (next_own place.now ledger.now.state.own) (λ e. (is_missing ledger.now.state peer e.name && nat_le (units e.len) most) ≡ true) }
{
    let chunk = ledger.own_after(place.as_ref())?;
    if may_be_placed(ledger, peer, most, &chunk) {
        return None;
    }
    Some(chunk.name)
}

/// A place behind which the next own chunk is missing there and has so many units at most, if there
/// is one.
pub fn seek_missing(
    ledger: &Ledger,
    peer: PeerId,
    most: u32,
    place: &Option<Digest>,
) -> Option<Digest>
    requires { none_missing (is_past_own place.now most) ledger.now.state peer ≡ true }
    ensures past { none_missing (is_past_own result most) ledger.now.state peer ≡ true }
    ensures next { IfSome (next_own result ledger.now.state.own) (λ e. (is_missing ledger.now.state peer e.name && nat_le (units e.len) most) ≡ true) }
{
    let mut reached = *place;
    while let Some(name) = next_passed(ledger, peer, most, &reached) {
        reached = Some(name);
    }
    reached
}

/// The first own chunk that is missing there and has so many units at most.
pub fn to_place(
    ledger: &Ledger,
    peer: PeerId,
    most: u32,
    place: &Option<Digest>,
) -> Option<OwnEntry>
    requires { none_missing (is_past_own place.now most) ledger.now.state peer ≡ true }
    ensures { result ≡ find (λ e. is_missing ledger.now.state peer e.name && nat_le (units e.len) most) ledger.now.state.own }
{
    let place = seek_missing(ledger, peer, most, place);
    ledger.own_after(place.as_ref())
}

/// Whether the object is one of these.
fn is_listed_object(objects: &[Object], object: &Object) -> bool
    ensures { result ≡ listed objects.now object.now }
{
    objects.iter().any(|o| o == object)
}

/// The name of a chunk.
fn chunk_name(object: &Object) -> Option<Digest>
    ensures { result ≡ chunk_name object.now }
{
    match object {
        Object::Chunk(name) => Some(*name),
        Object::Slot(_) => None,
    }
}
