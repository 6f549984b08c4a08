ghost use Rattle.std.specs.Prelude.{◌≡◌, ◌↔◌, ◌+◌, ◌≤◌, length, take, drop, IsSome, IsTrue, IfSome};

use crate::LONGEST_CHUNK;
use std::marker::Model;

/// How many levels of refs a ticket has at most.
pub const MOST_LEVELS: u8 = 4;

/// The id of a node, from 1 on. Contracts see it as a number.
#[derive(Clone, Copy, PartialEq, Eq, PartialOrd, Ord, Debug)]
pub struct PeerId(pub u32);

impl Model for PeerId {
    ghost use Rattle.std.specs.Prelude.{ℕ};

    ghost Value = { ℕ };

    ghost view = { λ p. p.0 };

    ghost inverse = { λ n. record { 0 = n } };
}

/// The 32 bytes of a SHA-256 (FIPS 180-4), a key or a nonce. Contracts see it as a list of bytes.
#[derive(Clone, Copy, PartialEq, Eq, PartialOrd, Ord, Debug)]
pub struct Digest(pub [u8; 32]);

impl Model for Digest {
    ghost use Rattle.std.specs.Prelude.{List, ℕ};

    ghost Value = { List ℕ };

    ghost view = { λ d. d.0 };

    ghost inverse = { λ bytes. record { 0 = bytes } };
}

/// A chunk by its name, or a slot by its number. Chunks come first, by the bytes of their names,
/// and then slots by number.
#[derive(Clone, Copy, PartialEq, Eq, PartialOrd, Ord, Debug)]
pub enum Object {
    Chunk(Digest),
    Slot(u32),
}

/// A slot at a peer.
#[derive(Clone, Copy, PartialEq, Eq, Debug)]
pub struct Seat {
    pub peer: PeerId,
    pub slot: u32,
}

/// What opens a chunk: the SHA-256 of its sealed bytes, that of its plain bytes, and its length.
#[derive(Clone, Copy, PartialEq, Eq, Debug)]
pub struct Ref {
    pub name: Digest,
    pub handle: Digest,
    pub len: u32,
}

impl Ref {
    ghost use Rattle.psb_bytes.specs.Tickets.{ref_bytes, ref_of};

    /// Its name, its handle and its length, high byte first. Takes no memory.
    pub fn bytes(&self) -> [u8; 68]
        ensures spelling { result ≡ ref_bytes self.now }
        ensures reads_back { ref_of result ≡ self.now }
    {
        let Ref { name, handle, len } = *self;
        let mut bytes = [0; 68];
        bytes[..32].copy_from_slice(&name.0);
        bytes[32..64].copy_from_slice(&handle.0);
        bytes[64..].copy_from_slice(&len.to_be_bytes());
        bytes
    }
}

/// A snapshot's last ref, and how many levels of refs stand between it and the skeleton.
#[derive(Clone, Copy, PartialEq, Eq, Debug)]
pub struct Ticket {
    pub reference: Ref,
    pub levels: u8,
}

impl Ticket {
    ghost use Rattle.psb_bytes.specs.Tickets.{ticket_bytes, ticket_of, is_ticket};

    /// Its ref, and the byte of its levels. Takes no memory.
    pub fn bytes(&self) -> [u8; 69]
        ensures spelling { result ≡ ticket_bytes self.now }
        ensures reads_back { ticket_of result ≡ self.now }
    {
        let mut bytes = [0; 69];
        bytes[..68].copy_from_slice(&self.reference.bytes());
        bytes[68] = self.levels;
        bytes
    }

    /// The ticket that the bytes spell, where its ref is that of a chunk and its levels are at
    /// most `MOST_LEVELS`. Takes no memory.
    pub fn read(bytes: &[u8; 69]) -> Option<Ticket>
        ensures exact { IsSome result ↔ IsTrue (is_ticket (ticket_of bytes.now)) }
        ensures value { IfSome result (λ t. t ≡ ticket_of bytes.now) }
        ensures spelled_again { IfSome result (λ t. ticket_bytes t ≡ bytes.now) }
    {
        let len = u32::from_be_bytes(part(bytes, 64));
        let levels = bytes[68];
        if len == 0 || len > LONGEST_CHUNK || levels > MOST_LEVELS {
            return None;
        }
        let name = Digest(part(bytes, 0));
        let handle = Digest(part(bytes, 32));
        let reference = Ref { name, handle, len };
        Some(Ticket { reference, levels })
    }
}

// The `N` bytes from a place on.
fn part<const N: usize>(bytes: &[u8], start: usize) -> [u8; N]
    requires { start + N ≤ length bytes.now }
    ensures { result ≡ take N (drop start bytes.now) }
{
    let mut part = [0; N];
    part.copy_from_slice(&bytes[start..start + N]);
    part
}
