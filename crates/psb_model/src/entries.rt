//! What the state has of the peers, of the node's own chunks and of candidates.

use psb_bytes::{Digest, Items, Object, PeerId, Seat};

/// Where an entry of what the node answers for stands: its bytes here (a chunk's body, or a slot's
/// 512 bytes), forwarded to a slot on a peer, or come home as an own claim.
#[derive(Clone, Copy, PartialEq, Eq, Debug)]
pub enum InState {
    Body,
    Direct,
    Forwarded(Seat),
    Home(u32),
}

/// Where an entry of what the node has on a peer stands: a chunk's body, an own claim, a
/// peer's claim that was forwarded, or a slot whose forwarded claim is gone.
#[derive(Clone, Copy, PartialEq, Eq, Debug)]
pub enum OutState {
    Body,
    Own,
    Carries(Seat),
    Loose,
}

/// What the node answers for to a peer. Units are of 512 bytes.
#[derive(Clone, Copy, PartialEq, Eq, Debug)]
pub struct InEntry {
    pub object: Object,
    pub units: u32,
    pub state: InState,
}

/// What the node has on a peer.
#[derive(Clone, Copy, PartialEq, Eq, Debug)]
pub struct OutEntry {
    pub object: Object,
    pub units: u32,
    pub state: OutState,
}

/// What a peer lost: the units that are left, and the number of the change that booked it.
#[derive(Clone, Copy, PartialEq, Eq, Debug)]
pub struct DebtEntry {
    pub object: Object,
    pub units: u32,
    pub left: u32,
    pub cause: u64,
    pub declined: bool,
    pub state: OutState,
}

/// A peer that may become a buddy: it holds `got` of `of` sampled names, at `hops` hops.
#[derive(Clone, Copy, PartialEq, Eq, Debug)]
pub struct Candidate {
    pub peer: PeerId,
    pub got: u32,
    pub of: u32,
    pub hops: u32,
}

pub type CandidateList = Items<Candidate>;

/// An own chunk. A marked one leaves as soon as no peer needs it.
#[derive(Clone, Copy, PartialEq, Eq, Debug)]
pub struct OwnEntry {
    pub name: Digest,
    pub len: u32,
    pub marked: bool,
}

/// The latest snapshot that was made: its number, and that of its change.
#[derive(Clone, Copy, PartialEq, Eq, Debug)]
pub struct SnapMark {
    pub number: u32,
    pub change: u64,
}
