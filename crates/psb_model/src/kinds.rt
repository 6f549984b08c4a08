//! The kinds of change: for each a struct with its fields, in the order in which its record has them. A
//! body is None exactly where it was given up.

use crate::{CandidateList, DealWhat};
use psb_bytes::{Bytes, Digest, DigestList, ObjectList, PeerId, PlaceList, SlotList, Ticket};

/// The first change: the body is the text of the settings.
#[derive(Drop)]
pub struct Begun {
    pub body: Option<Bytes>,
}

/// The node keeps a chunk for itself. The body is empty where the node held it already.
#[derive(Drop)]
pub struct Kept {
    pub name: Digest,
    pub len: u32,
    pub new: bool,
    pub body: Option<Bytes>,
}

/// A snapshot was made: it needs the own chunks of these names.
#[derive(Drop)]
pub struct Snapped {
    pub number: u32,
    pub ticket: Ticket,
    pub files: u32,
    pub folders: u32,
    pub bytes: u64,
    pub left: u32,
    pub names: DigestList,
}

/// A kept snapshot was given up.
#[derive(Drop)]
pub struct Forgot {
    pub number: u32,
}

/// A chunk of the peer was taken against as many new slots there as it has units, from the claim of
/// number `first` on.
#[derive(Drop)]
pub struct TookFresh {
    pub peer: PeerId,
    pub deal: u64,
    pub name: Digest,
    pub first: u32,
    pub len: u32,
    pub new: bool,
    pub body: Option<Bytes>,
}

/// A chunk of the peer was taken in the place of these slots here.
#[derive(Drop)]
pub struct TookSwap {
    pub peer: PeerId,
    pub deal: u64,
    pub name: Digest,
    pub slots: SlotList,
    pub len: u32,
    pub new: bool,
    pub body: Option<Bytes>,
}

/// The peer took its chunk back, and gave up these slots there.
#[derive(Drop)]
pub struct LetGo {
    pub peer: PeerId,
    pub deal: u64,
    pub name: Digest,
    pub slots: SlotList,
}

/// The peer put claims into these slots here in the place of its chunk. The body is the claims.
#[derive(Drop)]
pub struct LetGoBack {
    pub peer: PeerId,
    pub deal: u64,
    pub name: Digest,
    pub slots: SlotList,
    pub body: Option<Bytes>,
}

/// The peer gave a slot other bytes: those of the body where `place` is 0, the own claim of number
/// `home` where it is 1.
#[derive(Drop)]
pub struct Replaced {
    pub peer: PeerId,
    pub deal: u64,
    pub slot: u32,
    pub place: u8,
    pub home: u32,
    pub body: Option<Bytes>,
}

/// A deal of the peer was refused.
#[derive(Drop)]
pub struct Refused {
    pub peer: PeerId,
    pub deal: u64,
    pub why: u8,
    pub detail: u64,
}

/// An own deal was proposed to the peer.
#[derive(Drop)]
pub struct Proposed {
    pub peer: PeerId,
    pub deal: u64,
    pub what: DealWhat,
}

/// The peer took the pending deal: a Fresh with claims in these slots here, which are the body.
#[derive(Drop)]
pub struct Settled {
    pub peer: PeerId,
    pub deal: u64,
    pub slots: SlotList,
    pub body: Option<Bytes>,
}

/// The peer turned the pending deal down.
#[derive(Drop)]
pub struct Turned {
    pub peer: PeerId,
    pub deal: u64,
    pub why: u8,
    pub detail: u64,
}

/// The peer was asked to prove that it has these objects.
#[derive(Drop)]
pub struct Asked {
    pub peer: PeerId,
    pub objects: ObjectList,
}

/// It proved that. `asked` is the number of the change that asked, or 0 for a relay's.
#[derive(Drop)]
pub struct Passed {
    pub peer: PeerId,
    pub asked: u64,
    pub objects: ObjectList,
}

/// It failed: with a late answer (`how` 0), a wrong one (1, which is `got`) or a relay's (2).
#[derive(Drop)]
pub struct Failed {
    pub peer: PeerId,
    pub asked: u64,
    pub how: u8,
    pub got: Digest,
    pub objects: ObjectList,
}

/// It declined: what was asked for at these places it no longer has.
#[derive(Drop)]
pub struct Declined {
    pub peer: PeerId,
    pub asked: u64,
    pub places: PlaceList,
}

/// These objects of the peer were discarded.
#[derive(Drop)]
pub struct Discarded {
    pub peer: PeerId,
    pub objects: ObjectList,
}

/// Buddies were chosen among these candidates, the first of them.
#[derive(Drop)]
pub struct Chose {
    pub candidates: CandidateList,
}
