ghost use Rattle.std.specs.Prelude.{◌≡◌, ◌+◌, ◌<◌, ◌^◌, ◌++◌};
ghost use Rattle.psb_digest.specs.Hashes.{sha};
ghost use Rattle.psb_digest.specs.Claims.{claim_secret, claim_mask, link, links, claim};

use crate::{mask, sha, sha_two};
use psb_bytes::Digest;

/// The 512 bytes of claim `i` of the node with this seed, by the chain from its first link on: 16
/// hashes for each claim up to this one.
pub fn claim_of(seed: &Digest, i: u32) -> [u8; 512]
    ensures { result ≡ claim seed.now i }
{
    let secret = sha_two(b"psb claim secret", &seed.0);
    let mut bytes = links(&secret, 16 * u64::from(i));
    mask(
        &sha_two(b"psb claim mask", &seed.0),
        u64::from(i),
        &mut bytes,
    );
    bytes
}

// Sixteen links from link k on.
fn links(secret: &Digest, k: u64) -> [u8; 512]
    requires { k < 2 ^ 40 }
    ensures { result ≡ links secret.now k 16 }
{
    let mut next = link(secret, k);
    let mut bytes = [0; 512];
    for j in 0..16 {
        if j > 0 {
            next = link_after(secret, &next);
        }
        bytes[32 * j..32 * j + 32].copy_from_slice(&next.0);
    }
    bytes
}

// Link k, from link 0 on.
fn link(secret: &Digest, k: u64) -> Digest
    ensures { result ≡ link secret.now k }
{
    let mut last = sha(&secret.0);
    for _step in 0..k {
        last = link_after(secret, &last);
    }
    last
}

fn link_after(secret: &Digest, last: &Digest) -> Digest
    ensures { result ≡ sha (secret.now ++ last.now) }
{
    sha_two(&secret.0, &last.0)
}
