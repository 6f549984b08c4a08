//! A probe that runs, and when it is late.

ghost use Rattle.std.specs.Prelude.{◌≡◌};
ghost use Rattle.probe.specs.Deadlines.{is_late};

use psb_bytes::{Digest, ObjectList};

/// Ticks of the peer's clock that an answer may take.
pub const DEADLINE: u64 = 8;

/// A probe that was sent to a peer and has no outcome yet.
#[derive(Drop)]
pub struct ProbeRun {
    /// The number of the change that begins it, and of its frame.
    pub asked: u64,
    pub nonce: Digest,
    /// What the peer has to hash, in this order: 1 to 32.
    pub objects: ObjectList,
    /// The peer's clock at that change.
    pub began: u64,
}

/// Is the answer late to what was asked at one count of ticks, at another one? At an earlier one it is not.
pub fn late(began: u64, clock: u64) -> bool
    ensures { result ≡ is_late began clock }
{
    clock.saturating_sub(began) >= DEADLINE
}
