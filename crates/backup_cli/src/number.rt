//! Numbers in words.
ghost use Rattle.std.specs.Prelude.{◌≡◌, ◌≢◌, ℕ, ◌<◌, ◌≤◌, ◌^◌, ◌↔◌, ◌⊎◌, IsTrue, IfSome, IfNone, length, slice_index, decimal};

/// The number that a text spells: decimal digits without sign or leading zero.
pub fn read_number(text: &str) -> Option<u64>
    ensures some { IfSome result (λ number. text.now ≡ decimal number) }
    ensures none { IfNone result ((number : ℕ) → number < 2 ^ 64 → text.now ≢ decimal number) }
{
    if is_padded(text) {
        return None;
    }
    text.parse().ok()
}

/// Whether a plus sign, or a zero before a digit, is in front: `parse` passes over both.
fn is_padded(text: &str) -> bool
    ensures { IsTrue result ↔ ((slice_index text.now 0 ≡ 43) ⊎ ((slice_index text.now 0 ≡ 48) × (2 ≤ length text.now))) }
{
    matches!(text.as_bytes(), [b'+', ..] | [b'0', _, ..])
}
