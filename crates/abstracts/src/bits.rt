//! What a sample's bits say.

ghost use Rattle.std.specs.Prelude.{◌≡◌, ◌≤◌};
ghost use Rattle.abstracts.specs.Bits.{coverage};

/// How many of the lowest `of` bits are ones.
pub fn coverage(bits: u32, of: u32) -> u32
    requires { of ≤ 32 }
    ensures { result ≡ coverage bits of }
{
    let mut rest = bits;
    let mut count = 0;
    for _bit in 0..of {
        count += rest % 2;
        rest /= 2;
    }
    count
}
