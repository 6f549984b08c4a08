//! The chain of hashes that a seed's claims are made of.

ghost use Rattle.std.specs.Prelude.{◌≡◌, ℕ, ◌+◌, ◌++◌};
ghost use Rattle.psb_digest.specs.Hashes.{sha};
ghost use Rattle.psb_digest.specs.Claims.{claim, link, links};
ghost use Rattle.claims.specs.Chain.{first_link};

use psb_bytes::Digest;
use psb_digest::{mask, sha, sha_two};
use std::marker::Model;

/// How many links make a claim.
const LINKS: u64 = 16;

/// What a seed's claims are made of. Contracts see it as the seed.
#[derive(Drop)]
pub(crate) struct Chain {
    seed: Digest,
    secret: Digest,
    mask_key: Digest,
}

impl Model for Chain {
    ghost use Rattle.std.specs.Prelude.{List, ℕ, ◌≡◌};
    ghost use Rattle.psb_digest.specs.Claims.{claim_secret, claim_mask};

    ghost Value = { List ℕ };

    ghost view = { λ c. c.seed };

    ghost invariant = { λ c. (c.secret ≡ claim_secret c.seed) × (c.mask_key ≡ claim_mask c.seed) };
}

impl Chain {
    pub(crate) fn new(seed: &Digest) -> Chain
        ensures { result ≡ seed.now }
    {
        Chain {
            seed: *seed,
            secret: sha_two(b"psb claim secret", &seed.0),
            mask_key: sha_two(b"psb claim mask", &seed.0),
        }
    }

    /// The link with which claim 0 begins.
    pub(crate) fn start(&self) -> Digest
        ensures { result ≡ first_link self.now 0 }
    {
        sha(&self.secret.0)
    }

    /// From the first link of a claim on to that of the claim so many numbers further: 16 hashes a
    /// claim.
    pub(crate) fn skip(&self, begins: Digest, claims: u32) -> Digest
        ensures { (i : ℕ) → begins ≡ first_link self.now i → result ≡ first_link self.now (i + claims) }
    {
        link_further(&self.secret, begins, LINKS * u64::from(claims))
    }

    /// The bytes of claim i, by its first link, which becomes that of the next claim: 16 hashes.
    pub(crate) fn pass(&self, i: u32, begins: &mut Digest) -> [u8; 512]
        requires { begins.old ≡ first_link self.now i }
        ensures claim { result ≡ claim self.now i }
        ensures moved { begins.new ≡ first_link self.now (i + 1) }
    {
        let mut bytes = pass_links(&self.secret, begins);
        mask(&self.mask_key, u64::from(i), &mut bytes);
        bytes
    }
}

// The link that stands so many links further.
fn link_further(secret: &Digest, begins: Digest, links: u64) -> Digest
    ensures { (k : ℕ) → begins ≡ link secret.now k → result ≡ link secret.now (k + links) }
{
    let mut last = begins;
    for _step in 0..links {
        last = link_after(secret, &last);
    }
    last
}

// Sixteen links from the given one on, which becomes the one behind them.
fn pass_links(secret: &Digest, next: &mut Digest) -> [u8; 512]
    ensures links { (k : ℕ) → next.old ≡ link secret.now k → result ≡ links secret.now k 16 }
    ensures moved { (k : ℕ) → next.old ≡ link secret.now k → next.new ≡ link secret.now (k + 16) }
{
    let mut bytes = [0; 512];
    for j in 0..16 {
        bytes[32 * j..32 * j + 32].copy_from_slice(&next.0);
        *next = link_after(secret, next);
    }
    bytes
}

fn link_after(secret: &Digest, last: &Digest) -> Digest
    ensures { result ≡ sha (secret.now ++ last.now) }
{
    sha_two(&secret.0, &last.0)
}
