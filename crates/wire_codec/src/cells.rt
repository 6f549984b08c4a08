//! The cells of a span of bytes, each of so many bytes, and the numbers in them.
ghost use Rattle.std.specs.Prelude.{◌≡◌, ◌+◌, ◌*◌, ◌<◌, ◌≤◌, length, take, drop};
ghost use Rattle.psb_bytes.specs.Numbers.{u16_of, u32_of, u64_of};
ghost use Rattle.wire_codec.specs.Frames.{part};
ghost use Rattle.wire_codec.specs.declared.limits.TheConstants.{DIGEST_BYTES};

use crate::limits::DIGEST_BYTES;
use psb_bytes::Digest;

/// The number in the two bytes from a place on.
pub(crate) fn u16_in(bytes: &[u8], place: usize) -> u16
    requires { place + 2 ≤ length bytes.now }
    ensures { result ≡ u16_of (part place 2 bytes.now) }
{
    let cell = &bytes[place..place + 2];
    u16::from_be_bytes([cell[0], cell[1]])
}

/// The number in the four bytes from a place on.
pub(crate) fn u32_in(bytes: &[u8], place: usize) -> u32
    requires { place + 4 ≤ length bytes.now }
    ensures { result ≡ u32_of (part place 4 bytes.now) }
{
    let cell = &bytes[place..place + 4];
    u32::from_be_bytes([cell[0], cell[1], cell[2], cell[3]])
}

/// The number in the eight bytes from a place on.
pub(crate) fn u64_in(bytes: &[u8], place: usize) -> u64
    requires { place + 8 ≤ length bytes.now }
    ensures { result ≡ u64_of (part place 8 bytes.now) }
{
    let cell = &bytes[place..place + 8];
    u64::from_be_bytes([
        cell[0], cell[1], cell[2], cell[3], cell[4], cell[5], cell[6], cell[7],
    ])
}

/// Cell j, counted from 0, of cells that have `width` bytes each.
pub(crate) fn cell(bytes: &[u8], width: usize, j: usize) -> &[u8]
    requires { width * j + width ≤ length bytes.now }
    ensures value { result.now ≡ take width (drop (width * j) bytes.now) }
    ensures len { length result.now ≡ width }
{
    let place = width * j;
    &bytes[place..place + width]
}

/// A digest of all the bytes.
pub(crate) fn digest_in(bytes: &[u8]) -> Digest
    requires { length bytes.now ≡ DIGEST_BYTES }
    ensures { result ≡ bytes.now }
{
    let mut digest = [0; DIGEST_BYTES];
    digest.copy_from_slice(bytes);
    Digest(digest)
}
