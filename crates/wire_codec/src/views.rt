//! What a frame says, lent from the datagram that it came in.
ghost use Rattle.std.specs.Prelude.{◌≡◌, ◌*◌, ◌+◌, ◌<◌, length, map, nat_lt, slice_index, slice_get, Some, IfOk};
ghost use Rattle.wire_codec.specs.Fields.{slots_in, claims_in, places_in, names_in, ascends};
ghost use Rattle.std.specs.List.{list_all};
ghost use Rattle.wire_codec.specs.declared.limits.TheConstants.{CLAIM_BYTES, DIGEST_BYTES, MOST_OBJECTS};

use crate::cells::{cell, digest_in, u16_in, u32_in};
use crate::limits::{CLAIM_BYTES, DIGEST_BYTES, MOST_OBJECTS};
use psb_bytes::{ClaimList, Digest, DigestList, Memory, PlaceList, SlotClaim, SlotList};
use std::alloc::Global;
use std::marker::Model;

/// Slots, as they stand in the datagram. Contracts see them as a list of numbers.
#[derive(Drop)]
pub struct SlotsView<'a> {
    count: usize,
    bytes: &'a [u8],
}

impl<'a> Model for SlotsView<'a> {
    ghost use Rattle.std.specs.Prelude.{◌≡◌, ◌*◌, ℕ, List, length};
    ghost use Rattle.wire_codec.specs.Fields.{slots_in};

    ghost Value = { List ℕ };

    ghost view = { λ v. slots_in v.count v.bytes.now };

    ghost invariant = { λ v. length v.bytes.now ≡ 4 * v.count };
}

#[tactic(auto, using(crate::proofs::Spans::cells_read))]
impl<'a> SlotsView<'a> {
    pub(crate) fn new(count: usize, bytes: &'a [u8]) -> SlotsView<'a>
        requires { length bytes.now ≡ 4 * count }
        ensures { result ≡ slots_in count bytes.now }
    {
        SlotsView { count, bytes }
    }

    /// How many there are.
    pub fn len(&self) -> usize
        ensures { result ≡ length self.now }
    {
        self.count
    }

    /// Item `j`, counted from 0. Takes constant time.
    pub fn at(&self, j: usize) -> u32
        requires { j < length self.now }
        ensures { result ≡ slice_index self.now j }
    {
        u32_in(cell(self.bytes, 4, j), 0)
    }

    /// A copy of the items.
    pub fn to_list(&self, alloc: Global) -> Result<SlotList, Memory>
        ensures { IfOk result (λ l. l ≡ self.now) }
    {
        let mut items = Vec::with_capacity(alloc, self.len())?;
        for j in 0..self.len() {
            items.push(self.at(j))?;
        }
        Ok(SlotList::from_vec(items))
    }
}

/// Claims with their slots, as they stand in the datagram.
#[derive(Drop)]
pub struct ClaimsView<'a> {
    count: usize,
    bytes: &'a [u8],
}

impl<'a> Model for ClaimsView<'a> {
    ghost use Rattle.std.specs.Prelude.{◌≡◌, ◌+◌, ◌*◌, ℕ, List, length};
    ghost use Rattle.psb_bytes.specs.declared.lists.SlotClaim.{SlotClaim};
    ghost use Rattle.wire_codec.specs.declared.limits.TheConstants.{CLAIM_BYTES};
    ghost use Rattle.wire_codec.specs.Fields.{claims_in};

    ghost Value = { List SlotClaim };

    ghost view = { λ v. claims_in v.count v.bytes.now };

    ghost invariant = { λ v. length v.bytes.now ≡ (4 + CLAIM_BYTES) * v.count };
}

#[tactic(auto, using(crate::proofs::Spans::cells_read))]
impl<'a> ClaimsView<'a> {
    pub(crate) fn new(count: usize, bytes: &'a [u8]) -> ClaimsView<'a>
        requires { length bytes.now ≡ (4 + CLAIM_BYTES) * count }
        ensures { result ≡ claims_in count bytes.now }
    {
        ClaimsView { count, bytes }
    }

    /// How many there are.
    pub fn len(&self) -> usize
        ensures { result ≡ length self.now }
    {
        self.count
    }

    /// Slot `j`, counted from 0, and the 512 bytes of the claim that stands in it. Takes constant time.
    pub fn at(&self, j: usize) -> (u32, &'a [u8])
        requires { j < length self.now }
        ensures value { slice_get self.now j ≡ Some (record { slot = result.0; bytes = result.1.now }) }
        ensures len { length result.1.now ≡ CLAIM_BYTES }
    {
        let claim = cell(self.bytes, 4 + CLAIM_BYTES, j);
        (u32_in(claim, 0), &claim[4..])
    }

    fn claim_at(&self, j: usize) -> SlotClaim
        requires { j < length self.now }
        ensures { slice_get self.now j ≡ Some result }
    {
        let (slot, lent) = self.at(j);
        let mut bytes = [0; CLAIM_BYTES];
        bytes.copy_from_slice(lent);
        SlotClaim { slot, bytes }
    }

    fn slot_at(&self, j: usize) -> u32
        requires { j < length self.now }
        ensures { result ≡ slice_index (map (λ c. c.slot) self.now) j }
    {
        self.at(j).0
    }

    /// A copy of the items.
    pub fn to_list(&self, alloc: Global) -> Result<ClaimList, Memory>
        ensures { IfOk result (λ l. l ≡ self.now) }
    {
        let mut items = Vec::with_capacity(alloc, self.len())?;
        for j in 0..self.len() {
            items.push(self.claim_at(j))?;
        }
        Ok(ClaimList::from_vec(items))
    }
}

/// Places in a question, as they stand in the datagram.
#[derive(Drop)]
pub struct PlacesView<'a> {
    count: usize,
    bytes: &'a [u8],
}

impl<'a> Model for PlacesView<'a> {
    ghost use Rattle.std.specs.Prelude.{◌≡◌, ◌*◌, ℕ, List, length};
    ghost use Rattle.wire_codec.specs.Fields.{places_in};

    ghost Value = { List ℕ };

    ghost view = { λ v. places_in v.count v.bytes.now };

    ghost invariant = { λ v. length v.bytes.now ≡ 2 * v.count };
}

#[tactic(auto, using(crate::proofs::Spans::cells_read))]
impl<'a> PlacesView<'a> {
    pub(crate) fn new(count: usize, bytes: &'a [u8]) -> PlacesView<'a>
        requires { length bytes.now ≡ 2 * count }
        ensures { result ≡ places_in count bytes.now }
    {
        PlacesView { count, bytes }
    }

    /// How many there are.
    pub fn len(&self) -> usize
        ensures { result ≡ length self.now }
    {
        self.count
    }

    /// Item `j`, counted from 0. Takes constant time.
    pub fn at(&self, j: usize) -> u16
        requires { j < length self.now }
        ensures { result ≡ slice_index self.now j }
    {
        u16_in(cell(self.bytes, 2, j), 0)
    }

    /// A copy of the items.
    pub fn to_list(&self, alloc: Global) -> Result<PlaceList, Memory>
        ensures { IfOk result (λ l. l ≡ self.now) }
    {
        let mut items = Vec::with_capacity(alloc, self.len())?;
        for j in 0..self.len() {
            items.push(self.at(j))?;
        }
        Ok(PlaceList::from_vec(items))
    }
}

/// Names, as they stand in the datagram.
#[derive(Drop)]
pub struct NamesView<'a> {
    count: usize,
    bytes: &'a [u8],
}

impl<'a> Model for NamesView<'a> {
    ghost use Rattle.std.specs.Prelude.{◌≡◌, ◌*◌, ℕ, List, length};
    ghost use Rattle.wire_codec.specs.declared.limits.TheConstants.{DIGEST_BYTES};
    ghost use Rattle.wire_codec.specs.Fields.{names_in};

    ghost Value = { List (List ℕ) };

    ghost view = { λ v. names_in v.count v.bytes.now };

    ghost invariant = { λ v. length v.bytes.now ≡ DIGEST_BYTES * v.count };
}

#[tactic(auto, using(crate::proofs::Spans::cells_read))]
impl<'a> NamesView<'a> {
    pub(crate) fn new(count: usize, bytes: &'a [u8]) -> NamesView<'a>
        requires { length bytes.now ≡ DIGEST_BYTES * count }
        ensures { result ≡ names_in count bytes.now }
    {
        NamesView { count, bytes }
    }

    /// How many there are.
    pub fn len(&self) -> usize
        ensures { result ≡ length self.now }
    {
        self.count
    }

    /// Item `j`, counted from 0. Takes constant time.
    pub fn at(&self, j: usize) -> Digest
        requires { j < length self.now }
        ensures { slice_get self.now j ≡ Some result }
    {
        digest_in(cell(self.bytes, DIGEST_BYTES, j))
    }

    /// A copy of the items.
    pub fn to_list(&self, alloc: Global) -> Result<DigestList, Memory>
        ensures { IfOk result (λ l. l ≡ self.now) }
    {
        let mut items = Vec::with_capacity(alloc, self.len())?;
        for j in 0..self.len() {
            items.push(self.at(j))?;
        }
        Ok(DigestList::from_vec(items))
    }
}

/// Whether each slot is below the next.
pub(crate) fn slots_ascend(slots: &SlotsView<'_>) -> bool
    ensures { result ≡ ascends slots.now }
{
    for j in 1..slots.len() {
        if slots.at(j) <= slots.at(j - 1) {
            return false;
        }
    }
    true
}

/// Whether each slot is below the next.
pub(crate) fn claims_ascend(claims: &ClaimsView<'_>) -> bool
    ensures { result ≡ ascends (map (λ c. c.slot) claims.now) }
{
    for j in 1..claims.len() {
        if claims.slot_at(j) <= claims.slot_at(j - 1) {
            return false;
        }
    }
    true
}

/// Whether each place is below the next.
pub(crate) fn places_ascend(places: &PlacesView<'_>) -> bool
    ensures { result ≡ ascends places.now }
{
    for j in 1..places.len() {
        if places.at(j) <= places.at(j - 1) {
            return false;
        }
    }
    true
}

/// Whether each place can be one of a question.
pub(crate) fn places_fit(places: &PlacesView<'_>) -> bool
    ensures { result ≡ list_all (λ place. nat_lt place MOST_OBJECTS) places.now }
{
    for j in 0..places.len() {
        if places.at(j) >= MOST_OBJECTS {
            return false;
        }
    }
    true
}
