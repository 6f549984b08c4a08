//! The same fields, split off the front of some bytes: a value, and the bytes behind it. None where no
//! such field stands there.
ghost use Rattle.std.specs.Prelude.{◌≡◌, length, IfSome};
ghost use Rattle.byte_fields.specs.Fields.{Gives, bytes_at, u8_at, u16_at, u32_at, u64_at};

use psb_bytes::Cursor;

/// So many bytes.
#[tactic(auto, unfolding(crate::specs::Fields::bytes_at))]
pub fn split_bytes(bytes: &[u8], n: usize) -> Option<(&[u8], &[u8])>
    ensures len { IfSome result (λ x. length x.0.now ≡ n) }
    ensures exact { Gives (λ x. (x.0.now, x.1.now)) result (bytes_at n bytes.now) }
{
    let mut fields = Cursor::new(bytes);
    match fields.take_slice(n) {
        Ok(front) => Some((front, fields.rest())),
        Err(_) => None,
    }
}

/// A number of one byte.
#[tactic(auto, unfolding(crate::specs::Fields::u8_at))]
pub fn split_u8(bytes: &[u8]) -> Option<(u8, &[u8])>
    ensures { Gives (λ x. (x.0, x.1.now)) result (u8_at bytes.now) }
{
    let mut fields = Cursor::new(bytes);
    match fields.take_u8() {
        Ok(number) => Some((number, fields.rest())),
        Err(_) => None,
    }
}

/// A number of two bytes.
#[tactic(auto, unfolding(crate::specs::Fields::u16_at, crate::specs::Fields::bytes_at))]
pub fn split_u16(bytes: &[u8]) -> Option<(u16, &[u8])>
    ensures { Gives (λ x. (x.0, x.1.now)) result (u16_at bytes.now) }
{
    let mut fields = Cursor::new(bytes);
    match fields.take_u16() {
        Ok(number) => Some((number, fields.rest())),
        Err(_) => None,
    }
}

/// A number of four bytes.
#[tactic(auto, unfolding(crate::specs::Fields::u32_at, crate::specs::Fields::bytes_at))]
pub fn split_u32(bytes: &[u8]) -> Option<(u32, &[u8])>
    ensures { Gives (λ x. (x.0, x.1.now)) result (u32_at bytes.now) }
{
    let mut fields = Cursor::new(bytes);
    match fields.take_u32() {
        Ok(number) => Some((number, fields.rest())),
        Err(_) => None,
    }
}

/// A number of eight bytes.
#[tactic(auto, unfolding(crate::specs::Fields::u64_at, crate::specs::Fields::bytes_at))]
pub fn split_u64(bytes: &[u8]) -> Option<(u64, &[u8])>
    ensures { Gives (λ x. (x.0, x.1.now)) result (u64_at bytes.now) }
{
    let mut fields = Cursor::new(bytes);
    match fields.take_u64() {
        Ok(number) => Some((number, fields.rest())),
        Err(_) => None,
    }
}
