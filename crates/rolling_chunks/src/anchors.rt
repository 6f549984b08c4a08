//! Anchors among many bytes: the value of a window is kept below 2^63, and its remainder is taken
//! only where the place may be one.
ghost use Rattle.std.specs.Prelude.{◌≡◌, ℕ, ◌+◌, ◌-◌, ◌*◌, ◌/◌, ◌%◌, ◌^◌, ◌<◌, ◌≤◌, true, false, ◌==◌, None, length, IfSome};
ghost use Rattle.rolling_chunks.specs.Cuts.{is_anchor};
ghost use Rattle.rolling_chunks.specs.Fingerprints.{modulus};
ghost use Rattle.rolling_chunks.specs.Laws.{IsNextCut};
ghost use Rattle.rolling_chunks.specs.Steps.{StandsFor};

use crate::fingerprints::{BASE, MODULUS, OLDEST_WEIGHT, WINDOW, reduced};

/// A place is an anchor where the fingerprint leaves this residue of this divisor.
pub const ANCHOR_DIVISOR: u64 = 8_192;

pub const ANCHOR_RESIDUE: u64 = 4_095;

/// The least place after one and up to another that is an anchor.
pub fn anchor_after(bytes: &[u8], from: usize, to: usize) -> Option<usize>
    requires front { 48 ≤ from }
    requires within { to ≤ length bytes.now }
    ensures some { IfSome result (IsNextCut (λ _. is_anchor bytes.now) to from) }
    ensures none { result ≡ None → (k : ℕ) → from < k → k ≤ to → is_anchor bytes.now k ≡ false }
{
    if from >= to {
        return None;
    }
    // The value is the sum of the two: what the bytes change need not wait for the product.
    let mut moved = value_of(&bytes[from - WINDOW..from]);
    let mut change = 0;
    for i in from..to {
        moved = folded(moved + change, BASE);
        change = change_by(bytes[i - WINDOW], bytes[i]);
        if is_at_anchor(moved + change) {
            return Some(i + 1);
        }
    }
    None
}

// A value of the window of these bytes.
fn value_of(window: &[u8]) -> u64
    ensures { StandsFor result window.now }
{
    let mut value = 0;
    for byte in window {
        value = folded(value, BASE) + u64::from(*byte) + 1;
    }
    value
}

// What it adds to a value that the oldest byte goes and a new one comes.
fn change_by(oldest: u8, byte: u8) -> u64
    ensures below { result < 2 ^ 62 }
    ensures leaves { result % modulus ≡ ((oldest + 1) * (modulus - OLDEST_WEIGHT) + (byte + 1)) % modulus }
{
    folded(u64::from(oldest) + 1, MODULUS - OLDEST_WEIGHT) + u64::from(byte) + 1
}

// What a product has above and below 2^61, added: it leaves the same remainder.
fn folded(value: u64, factor: u64) -> u64
    requires value { value < 2 ^ 63 }
    requires factor { factor < 2 ^ 61 }
    ensures { result ≡ value * factor / 2 ^ 61 + value * factor % 2 ^ 61 }
{
    // Of eight times the product the one is the upper half, and the other the lower without 3 bits.
    let product = u128::from(value) * u128::from(factor << 3);
    let above = (product >> 64) as u64;
    let below = (product & u128::from(u64::MAX)) as u64 >> 3;
    above + below
}

// Whether the place behind a window with this value is an anchor.
fn is_at_anchor(value: u64) -> bool
    requires { value < 2 ^ 63 }
    ensures { result ≡ (value % modulus % ANCHOR_DIVISOR == ANCHOR_RESIDUE) }
{
    // Each multiple of the modulus takes 1 from the residue, and there are 3 at most.
    value % ANCHOR_DIVISOR / 4 == ANCHOR_RESIDUE / 4 && leaves_residue(value)
}

// The same by the remainder, which is seldom needed.
#[cold]
#[inline(never)]
fn leaves_residue(value: u64) -> bool
    ensures { result ≡ (value % modulus % ANCHOR_DIVISOR == ANCHOR_RESIDUE) }
{
    reduced(u128::from(value)) % ANCHOR_DIVISOR == ANCHOR_RESIDUE
}
