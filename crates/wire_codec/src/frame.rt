use psb_bytes::{Bytes, ClaimList, Digest, DigestList, ObjectList, PlaceList, SlotList};
use thiserror::Error;

/// What one node tells another. A Store, a Release (to cancel or to put back) and a Replace are
/// deals, and a frame's number is the deal's. Every other frame is a reply and repeats the number
/// of what it answers.
#[derive(Drop)]
pub enum Frame {
    /// Keep these sealed bytes, in place of these slots where there are some.
    Store {
        name: Digest,
        slots: SlotList,
        bytes: Bytes,
    },
    /// A chunk is let go, and so are these slots.
    Cancel {
        name: Digest,
        slots: SlotList,
    },
    /// A chunk is let go, and these claims stand in its place.
    PutBack {
        name: Digest,
        claims: ClaimList,
    },
    /// Other bytes for a slot.
    Replace {
        slot: u32,
        bytes: Bytes,
    },
    /// The deal is made; the claims are those that back a fresh chunk.
    Accepted {
        claims: ClaimList,
    },
    /// The deal is refused for the reason `why`.
    Refused {
        why: u8,
        detail: u64,
    },
    /// The places of a question whose objects are not held.
    Declined {
        nonce: Digest,
        places: PlaceList,
    },
    /// Asks for a chunk.
    Get {
        name: Digest,
    },
    /// A chunk's sealed bytes.
    Here {
        name: Digest,
        bytes: Bytes,
    },
    /// Asks for proof that these objects are held.
    Probe {
        nonce: Digest,
        objects: ObjectList,
    },
    /// The proof.
    Proof {
        nonce: Digest,
        value: Digest,
    },
    /// Asks which of these names are held.
    Ask {
        salt: Digest,
        names: DigestList,
    },
    /// Bit j, counted from the least, is 1 where name j is held.
    Sample {
        salt: Digest,
        bits: u32,
    },
}

/// Why a datagram is no frame for this node: the first test that it fails, in the order in which they
/// stand here.
#[derive(Clone, Copy, PartialEq, Eq, Debug, Error)]
pub enum Dropped {
    /// Fewer bytes than a header and a tag have.
    #[error("the datagram is too short")]
    Short,
    /// It does not begin with the magic, or the padding is not zero.
    #[error("the datagram begins with another mark")]
    BadMagic,
    /// There is no such kind.
    #[error("there is no such kind of frame")]
    BadKind,
    /// It is for another node.
    #[error("the frame is for another node")]
    NotForMe,
    /// The sender is no peer.
    #[error("the sender is no peer")]
    Stranger,
    /// The last bytes are not the tag under the pair's key.
    #[error("the tag is wrong")]
    BadTag,
    /// The length field is not the body's length, or the body is not in the grammar of its kind.
    #[error("the body is not in its grammar")]
    BadBody,
}
