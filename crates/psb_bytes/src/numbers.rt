ghost use Rattle.std.specs.Prelude.{◌^◌};
ghost use Rattle.psb_bytes.specs.Numbers.{u8_bytes, u16_bytes, u32_bytes, u64_bytes, u8_of, u16_of, u32_of, u64_of, IsSpelling};

/// The law that a number has one spelling in one, two, four and eight bytes, high byte first.
pub fn numbers_have_one_spelling()
    ensures one { IsSpelling u8_bytes u8_of 1 (2 ^ 8) }
    ensures two { IsSpelling u16_bytes u16_of 2 (2 ^ 16) }
    ensures four { IsSpelling u32_bytes u32_of 4 (2 ^ 32) }
    ensures eight { IsSpelling u64_bytes u64_of 8 (2 ^ 64) }
{}
