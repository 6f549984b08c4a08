ghost use Rattle.std.specs.Prelude.{◌≡◌, ◌++◌};
ghost use Rattle.psb_digest.specs.Hashes.{sha, key_block, padded, hmac};

use psb_bytes::Digest;
use sha2::{Digest as Hasher, Sha256};

const INNER_PAD: u8 = 0x36;

const OUTER_PAD: u8 = 0x5c;

/// The SHA-256 of the bytes (FIPS 180-4).
pub fn sha(bytes: &[u8]) -> Digest
    ensures { result ≡ sha bytes.now }
{
    Digest(<Sha256 as Hasher>::digest(bytes))
}

/// The SHA-256 of the two joined.
pub fn sha_two(first: &[u8], second: &[u8]) -> Digest
    ensures { result ≡ sha (first.now ++ second.now) }
{
    let mut hasher = <Sha256 as Hasher>::new();
    hasher.update(first);
    hasher.update(second);
    Digest(hasher.finalize())
}

/// HMAC-SHA-256 of the message under the key (RFC 2104).
pub fn hmac(key: &[u8], message: &[u8]) -> Digest
    ensures { result ≡ hmac key.now message.now }
{
    let block = key_block(key);
    let inner = sha_two(&padded(INNER_PAD, block), message);
    sha_two(&padded(OUTER_PAD, block), &inner.0)
}

// The key as one block of SHA-256.
fn key_block(key: &[u8]) -> [u8; 64]
    ensures { result ≡ key_block key.now }
{
    let mut block = [0; 64];
    if key.len() <= 64 {
        block[..key.len()].copy_from_slice(key);
    } else {
        block[..32].copy_from_slice(&sha(key).0);
    }
    block
}

fn padded(pad: u8, mut block: [u8; 64]) -> [u8; 64]
    ensures { result ≡ padded pad block }
{
    for byte in &mut block {
        *byte ^= pad;
    }
    block
}
