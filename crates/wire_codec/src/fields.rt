//! The fields of a body, read from the front of some bytes: a value and the bytes behind it.
ghost use Rattle.std.specs.Prelude.{◌≡◌, ◌≤◌, length, IfSome};
ghost use Rattle.wire_codec.specs.Fields.{Gives, within, count_at, text_at, slots_at, claims_at, places_at, names_at};

use crate::limits::{CLAIM_BYTES, DIGEST_BYTES, MOST_BYTES, MOST_OBJECTS, MOST_SLOTS};
use crate::views::{
    ClaimsView, NamesView, PlacesView, SlotsView, claims_ascend, places_ascend, places_fit,
    slots_ascend,
};
use byte_fields::{split_bytes, split_u16, split_u32};

#[tactic(auto, unfolding(crate::specs::Fields::count_at))]
pub(crate) fn take_count(bytes: &[u8], least: u16, most: u16) -> Option<(usize, &[u8])>
    ensures most { IfSome result (λ x. x.0 ≤ most) }
    ensures exact { Gives (λ x. (x.0, x.1.now)) result (count_at least most bytes.now) }
{
    let (count, rest) = split_u16(bytes)?;
    if least <= count && count <= most {
        Some((count as usize, rest))
    } else {
        None
    }
}

#[tactic(auto, unfolding(crate::specs::Fields::text_at))]
pub(crate) fn take_text(bytes: &[u8], least: u32) -> Option<(&[u8], &[u8])>
    ensures { Gives (λ x. (x.0.now, x.1.now)) result (text_at least bytes.now) }
{
    let (len, rest) = split_u32(bytes)?;
    if least <= len && len <= MOST_BYTES {
        split_bytes(rest, len as usize)
    } else {
        None
    }
}

#[tactic(auto, unfolding(crate::specs::Fields::slots_at))]
pub(crate) fn take_slots(bytes: &[u8], least: u16) -> Option<(SlotsView<'_>, &[u8])>
    ensures { Gives (λ x. (x.0, x.1.now)) result (slots_at least bytes.now) }
{
    let (count, rest) = take_count(bytes, least, MOST_SLOTS)?;
    let (span, rest) = split_bytes(rest, 4 * count)?;
    let slots = SlotsView::new(count, span);
    if slots_ascend(&slots) {
        Some((slots, rest))
    } else {
        None
    }
}

#[tactic(auto, unfolding(crate::specs::Fields::claims_at))]
pub(crate) fn take_claims(bytes: &[u8], least: u16) -> Option<(ClaimsView<'_>, &[u8])>
    ensures { Gives (λ x. (x.0, x.1.now)) result (claims_at least bytes.now) }
{
    let (count, rest) = take_count(bytes, least, MOST_SLOTS)?;
    let (span, rest) = split_bytes(rest, (4 + CLAIM_BYTES) * count)?;
    let claims = ClaimsView::new(count, span);
    if claims_ascend(&claims) {
        Some((claims, rest))
    } else {
        None
    }
}

#[tactic(auto, unfolding(crate::specs::Fields::places_at))]
pub(crate) fn take_places(bytes: &[u8]) -> Option<(PlacesView<'_>, &[u8])>
    ensures { Gives (λ x. (x.0, x.1.now)) result (places_at bytes.now) }
{
    let (count, rest) = take_count(bytes, 1, MOST_OBJECTS)?;
    let (span, rest) = split_bytes(rest, 2 * count)?;
    let places = PlacesView::new(count, span);
    if places_fit(&places) && places_ascend(&places) {
        Some((places, rest))
    } else {
        None
    }
}

#[tactic(auto, unfolding(crate::specs::Fields::names_at))]
pub(crate) fn take_names(bytes: &[u8]) -> Option<(NamesView<'_>, &[u8])>
    ensures { Gives (λ x. (x.0, x.1.now)) result (names_at bytes.now) }
{
    let (count, rest) = take_count(bytes, 1, MOST_OBJECTS)?;
    let (span, rest) = split_bytes(rest, DIGEST_BYTES * count)?;
    Some((NamesView::new(count, span), rest))
}
