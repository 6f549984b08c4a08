//! Which changes are in the grammar of records.
ghost use Rattle.std.specs.Prelude.{◌≡◌, ◌*◌, ◌&&◌, length, IfOk};
ghost use Rattle.psb_model.specs.Grammar.{in_grammar, ascend, numbers_listed, objects_listed, body_fits, chunk_fits, what_in_grammar, is_ticket, is_count};
ghost use Rattle.psb_model.specs.Words.{objects_distinct};
ghost use Rattle.change_codec.specs.Records.{has_body};
ghost use Rattle.change_codec.specs.Reading.{goes_with};

use psb_bytes::{Bytes, LONGEST_CHUNK, MOST_LEVELS, Memory, Object, Ticket};
use psb_model::{Change, DealWhat};
use std::alloc::Global;
use std::collections::BTreeSet;

/// How many bytes the claim of a slot has.
const CLAIM: usize = 512;

/// A count is a field of four bytes.
fn is_count(n: usize) -> bool
    ensures { result ≡ is_count n }
{
    n <= u32::MAX as usize
}

/// Whether each slot is below the next.
fn slots_ascend(slots: &[u32]) -> bool
    ensures { result ≡ ascend slots.now }
{
    let mut rest = slots;
    while let [first, second, ..] = rest {
        if second <= first {
            return false;
        }
        rest = &rest[1..];
    }
    true
}

/// Whether each place is below the next.
fn places_ascend(places: &[u16]) -> bool
    ensures { result ≡ ascend places.now }
{
    let mut rest = places;
    while let [first, second, ..] = rest {
        if second <= first {
            return false;
        }
        rest = &rest[1..];
    }
    true
}

fn slots_listed(slots: &[u32]) -> bool
    ensures { result ≡ numbers_listed slots.now }
{
    slots_ascend(slots) && is_count(slots.len())
}

/// Whether no object is listed twice.
fn are_distinct(alloc: Global, objects: &[Object]) -> Result<bool, Memory>
    ensures { IfOk result (λ b. b ≡ objects_distinct objects.now) }
{
    let mut seen = BTreeSet::new(alloc);
    let mut rest = objects;
    while let Some((last, front)) = rest.split_last() {
        if !seen.insert(*last)? {
            return Ok(false);
        }
        rest = front;
    }
    Ok(true)
}

fn objects_listed(alloc: Global, objects: &[Object]) -> Result<bool, Memory>
    ensures { IfOk result (λ b. b ≡ objects_listed objects.now) }
{
    Ok(are_distinct(alloc, objects)? && is_count(objects.len()))
}

/// Whether a body that is there has so many bytes.
fn has_len(body: &Option<Bytes>, len: usize) -> bool
    ensures { result ≡ body_fits len body.now }
{
    match body {
        Some(bytes) => bytes.as_slice().len() == len,
        None => true,
    }
}

/// Whether slots are listed, and a body that is there has their claims.
fn are_claims(slots: &[u32], body: &Option<Bytes>) -> bool
    ensures { result ≡ (body_fits (512 * length slots.now) body.now && numbers_listed slots.now) }
{
    slots_listed(slots) && has_len(body, CLAIM * slots.len())
}

/// Whether this is a chunk's length, and its sealed bytes are there exactly where they are new.
fn is_chunk(len: u32, new: bool, body: &Option<Bytes>) -> bool
    ensures { result ≡ chunk_fits len new body.now }
{
    let stored = if new { len } else { 0 };
    1 <= len && len <= LONGEST_CHUNK && has_len(body, stored as usize)
}

fn is_ticket(ticket: &Ticket) -> bool
    ensures { result ≡ is_ticket ticket.now }
{
    let len = ticket.reference.len;
    1 <= len && len <= LONGEST_CHUNK && ticket.levels <= MOST_LEVELS
}

fn deal_in_grammar(what: &DealWhat) -> bool
    ensures { result ≡ what_in_grammar what.now }
{
    match what {
        DealWhat::Swap { slots, .. } | DealWhat::Cancel { slots, .. } => slots_listed(
            slots.as_slice(),
        ),
        _ => true,
    }
}

/// Whether the change is in the grammar of records. The steps and the memory that it takes grow with its
/// lists, those of a list of n objects as n log n and n.
fn in_grammar(alloc: Global, change: &Change) -> Result<bool, Memory>
    ensures { IfOk result (λ b. b ≡ in_grammar change.now) }
{
    Ok(match change {
        Change::Begun(x) => x.body.is_some(),
        Change::Kept(x) => is_chunk(x.len, x.new, &x.body),
        Change::Snapped(x) => is_ticket(&x.ticket) && is_count(x.names.as_slice().len()),
        Change::TookFresh(x) => is_chunk(x.len, x.new, &x.body),
        Change::TookSwap(x) => is_chunk(x.len, x.new, &x.body) && slots_listed(x.slots.as_slice()),
        Change::LetGo(x) => slots_listed(x.slots.as_slice()),
        Change::LetGoBack(x) => are_claims(x.slots.as_slice(), &x.body),
        Change::Settled(x) => are_claims(x.slots.as_slice(), &x.body),
        Change::Replaced(x) => has_len(&x.body, if x.place == 0 { CLAIM } else { 0 }),
        Change::Proposed(x) => deal_in_grammar(&x.what),
        Change::Asked(x) => objects_listed(alloc, x.objects.as_slice())?,
        Change::Passed(x) => objects_listed(alloc, x.objects.as_slice())?,
        Change::Failed(x) => objects_listed(alloc, x.objects.as_slice())?,
        Change::Discarded(x) => objects_listed(alloc, x.objects.as_slice())?,
        Change::Declined(x) => {
            let places = x.places.as_slice();
            places_ascend(places) && is_count(places.len())
        }
        Change::Chose(x) => is_count(x.candidates.as_slice().len()),
        Change::Forgot(_) | Change::Refused(_) | Change::Turned(_) => true,
    })
}

/// Whether changes of this kind have a body part.
fn has_body(change: &Change) -> bool
    ensures { result ≡ has_body change.now }
{
    matches!(
        change,
        Change::Begun(_)
            | Change::Kept(_)
            | Change::TookFresh(_)
            | Change::TookSwap(_)
            | Change::LetGoBack(_)
            | Change::Replaced(_)
            | Change::Settled(_)
    )
}

/// Whether the change is in the grammar, and has no body part but where its kind has one.
pub(crate) fn goes_with(alloc: Global, part: &[u8], change: &Change) -> Result<bool, Memory>
    ensures { IfOk result (λ b. b ≡ goes_with part.now change.now) }
{
    Ok(in_grammar(alloc, change)? && (has_body(change) || part.is_empty()))
}
