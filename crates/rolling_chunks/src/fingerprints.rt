ghost use Rattle.std.specs.Prelude.{◌≡◌, ℕ, ◌+◌, ◌-◌, ◌*◌, ◌%◌, ◌^◌, ◌<◌, List, [], ◌∷◌, ◌++◌, IfOk};
ghost use Rattle.std.specs.Option.{option_map_or};
ghost use Rattle.circular_buffer.specs.Buffer.{keep_last};
ghost use Rattle.rolling_chunks.specs.Fingerprints.{modulus, fingerprint};

use circular_buffer::HeapCircularBuffer;
use psb_bytes::Memory;
use std::alloc::Global;
use std::marker::Model;

/// How many bytes a fingerprint is taken of.
pub const WINDOW: usize = 48;

/// Fingerprints are taken modulo a Mersenne prime: its digits in base 2 are so many ones.
const MODULUS_BITS: u32 = 61;

pub const MODULUS: u64 = (1 << MODULUS_BITS) - 1;

/// What a byte's weight is multiplied by for each byte that follows it: the FNV prime of 64 bits.
pub const BASE: u64 = 1_099_511_628_211;

/// `BASE` to the power `WINDOW`, modulo `MODULUS`: the weight of the byte that falls out.
pub const OLDEST_WEIGHT: u64 = 1_113_966_321_923_690_073;

/// The last bytes of a text, at most 48 of them, and their fingerprint. Contracts see it as the
/// list of these bytes.
#[derive(Drop)]
pub struct Window {
    bytes: HeapCircularBuffer<u8>,
    value: u64,
}

impl Model for Window {
    ghost use Rattle.std.specs.Prelude.{List, ℕ};
    ghost use Rattle.rolling_chunks.specs.Fingerprints.{IsRolling};

    ghost Value = { List ℕ };

    ghost view = { λ w. w.bytes.items };

    ghost invariant = { λ w. IsRolling w.bytes.items w.bytes.capacity w.value };
}

impl Window {
    pub fn new(alloc: Global) -> Result<Window, Memory>
        ensures { IfOk result (λ w. w ≡ []) }
    {
        let bytes = HeapCircularBuffer::with_capacity(alloc, WINDOW)?;
        Ok(Window { bytes, value: 0 })
    }

    /// Takes a byte in, in place of the oldest where 48 are there. Answers the fingerprint.
    pub fn push(&mut self, byte: u8) -> u64
        ensures bytes { self.new ≡ keep_last 48 (self.old ++ byte ∷ []) }
        ensures value { result ≡ fingerprint self.new }
    {
        let oldest = self.bytes.push_back(byte);
        self.value = rolled(self.value, oldest, byte);
        self.value
    }

    /// Takes bytes in, one after another.
    pub fn push_all(&mut self, bytes: &[u8])
        ensures { (text : List ℕ) → self.old ≡ keep_last 48 text → self.new ≡ keep_last 48 (text ++ bytes.now) }
    {
        // Of more than 48 bytes the last alone stay.
        for byte in &bytes[bytes.len().saturating_sub(WINDOW)..] {
            let _ = self.push(*byte);
        }
    }

    pub fn clear(&mut self)
        ensures { self.new ≡ [] }
    {
        self.bytes.clear();
        self.value = 0;
    }
}

// The sum of powers with the oldest byte out, if there is one, and the new one in.
fn rolled(value: u64, oldest: Option<u8>, byte: u8) -> u64
    requires { value < modulus }
    ensures { result ≡ (value * BASE + option_map_or (λ b. (b + 1) * (modulus - OLDEST_WEIGHT)) oldest 0 + (byte + 1)) % modulus }
{
    // To subtract a weight is to add what it lacks to the modulus.
    let out = match oldest {
        Some(oldest) => { u128::from(u64::from(oldest) + 1) * u128::from(MODULUS - OLDEST_WEIGHT) }
        None => 0,
    };
    reduced(u128::from(value) * u128::from(BASE) + out + u128::from(u64::from(byte) + 1))
}

/// The remainder of a division by 2^61 - 1: a multiple of 2^61 counts as much as the factor alone.
pub fn reduced(sum: u128) -> u64
    requires { sum < 2 ^ 121 }
    ensures { result ≡ sum % modulus }
{
    let folded = (sum & u128::from(MODULUS)) as u64 + (sum >> MODULUS_BITS) as u64;
    if folded < MODULUS {
        folded
    } else {
        folded - MODULUS
    }
}
