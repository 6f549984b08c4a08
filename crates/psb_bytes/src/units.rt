ghost use Rattle.std.specs.Prelude.{◌≡◌};
ghost use Rattle.psb_bytes.specs.Units.{units};

/// The bytes of a unit, and of a claim.
pub const UNIT: u32 = 512;

/// The most bytes that a chunk has. It has at least one.
pub const LONGEST_CHUNK: u32 = 32_768;

/// The units of a chunk of `len` bytes.
pub fn units_of(len: u32) -> u32
    ensures { result ≡ units len }
{
    len.div_ceil(UNIT).max(1)
}
