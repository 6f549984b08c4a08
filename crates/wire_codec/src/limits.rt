//! The limits of the frame grammar.

use psb_bytes::LONGEST_CHUNK;

/// What a frame begins with.
pub const MAGIC: [u8; 4] = *b"PSB1";

/// The bytes of the header: magic, kind, padding, sender, receiver, number and length of the body.
pub const HEADER_BYTES: usize = 28;

/// The bytes of the tag at a frame's end, an HMAC-SHA-256 (RFC 2104, FIPS 180-4).
pub const TAG_BYTES: usize = 32;

/// The kinds of frame are 1 to this.
pub const LAST_KIND: u8 = 12;

/// The bytes of a name, a nonce, a salt and a value.
pub const DIGEST_BYTES: usize = 32;

/// The bytes of a claim.
pub const CLAIM_BYTES: usize = 512;

/// The most slots of a frame, and the most claims.
pub const MOST_SLOTS: u16 = 64;

/// The most objects of a question, and the most names of a request. Places in a question are below it.
pub const MOST_OBJECTS: u16 = 32;

/// The most sealed bytes of a chunk.
pub const MOST_BYTES: u32 = LONGEST_CHUNK;

/// The most bytes of a frame: a Store with the most slots and the most bytes has as many.
pub const MOST_FRAME_BYTES: usize = HEADER_BYTES
    + DIGEST_BYTES
    + 2
    + 4 * MOST_SLOTS as usize
    + 4
    + MOST_BYTES as usize
    + TAG_BYTES;
