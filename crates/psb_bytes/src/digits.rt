ghost use Rattle.std.specs.Prelude.{◌≡◌, ◌↔◌, length, string_bytes, IfOk, IsSome, Ok, Some};
ghost use Rattle.std.specs.List.{AllPass};
ghost use Rattle.hex.specs.Hex.{encode_lower, decode_of, is_hex_digit};
ghost use Rattle.psb_bytes.specs.Hex.{digest_of_text};

use crate::{Digest, Memory};
use hex::FromHex;
use std::alloc::Global;

/// Two hexadecimal digits for each byte, letters in lower case.
pub fn hex_text(alloc: Global, bytes: &[u8]) -> Result<String, Memory>
    ensures text { IfOk result (λ t. string_bytes t ≡ encode_lower bytes.now) }
    ensures reads_back { IfOk result (λ t. decode_of (string_bytes t) ≡ Ok bytes.now) }
{
    Ok(hex::encode(alloc, bytes)?)
}

/// The 64 hexadecimal digits of a digest, letters in lower case.
pub fn digest_text(alloc: Global, digest: &Digest) -> Result<String, Memory>
    ensures text { IfOk result (λ t. string_bytes t ≡ encode_lower digest.now) }
    ensures reads_back { IfOk result (λ t. digest_of_text (string_bytes t) ≡ Some digest.now) }
{
    hex_text(alloc, &digest.0)
}

/// The digest of a text of exactly 64 hexadecimal digits, in either case.
pub fn read_digest(text: &str) -> Option<Digest>
    ensures value { result ≡ digest_of_text text.now }
    ensures digits { IsSome result ↔ ((length text.now ≡ 64) × AllPass is_hex_digit text.now) }
{
    match <[u8; 32] as FromHex>::from_hex(text) {
        Ok(bytes) => Some(Digest(bytes)),
        Err(_) => None,
    }
}
