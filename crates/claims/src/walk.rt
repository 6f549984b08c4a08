//! The claims that were walked, and what makes them fast to make and to find.

ghost use Rattle.std.specs.Prelude.{◌≡◌, ◌↔◌, ◌+◌, ◌*◌, ◌<◌, ◌≤◌, ◌^◌, ℕ, true, List, IfSome, IfNone, IfOk, OnOk, OnErr, vec_len, vec_capacity};
ghost use Rattle.psb_digest.specs.Claims.{claim};
ghost use Rattle.claims.specs.Chain.{first_link, AreCheckpoints};
ghost use Rattle.claims.specs.Growth.{IsTight};
ghost use Rattle.claims.specs.Source.{HasNone, IsHome};

use crate::chain::Chain;
use crate::fingerprints::{fingerprint, keep_fingerprint};
use crate::growth::push_tight;
use crate::run::ClaimRun;
use psb_bytes::{Digest, Memory};
use std::alloc::Global;
use std::marker::Model;

/// How many claims lie between two checkpoints.
const SPACING: u32 = 16;

/// The walked claims are those below `count`. Contracts see the seed and the count.
#[derive(Drop)]
pub(crate) struct Walk {
    chain: Chain,
    count: u32,
    // The first link of claim `count`.
    next: Digest,
    // The first links of claims 0, 16, 32 and so on.
    checkpoints: Vec<Digest>,
    // The first four bytes of claims 0, 1, 2 and so on.
    fingerprints: Vec<u32>,
}

impl Model for Walk {
    ghost use Rattle.std.specs.Prelude.{◌≡◌, vec_len, vec_capacity};
    ghost use Rattle.claims.specs.Walks.{Walking};
    ghost use Rattle.claims.specs.Chain.{first_link, AreCheckpoints};
    ghost use Rattle.claims.specs.Fingerprints.{AreFingerprints};
    ghost use Rattle.claims.specs.Growth.{IsTight};

    ghost Value = { Walking };

    ghost view = { λ w. record { seed = w.chain; count = w.count } };

    ghost invariant = { λ w. (w.next ≡ first_link w.chain w.count)
        × AreCheckpoints w.chain w.checkpoints.items w.count
        × AreFingerprints w.chain w.fingerprints.items w.count
        × IsTight (vec_capacity w.checkpoints) (vec_len w.checkpoints)
        × IsTight (vec_capacity w.fingerprints) (vec_len w.fingerprints) };
}

impl Walk {
    /// At claim 0. Takes no memory.
    pub(crate) fn new(alloc: Global, seed: &Digest) -> Walk
        ensures { result ≡ record { seed = seed.now; count = 0 } }
    {
        let chain = Chain::new(seed);
        let next = chain.start();
        Walk {
            chain,
            count: 0,
            next,
            checkpoints: Vec::new(alloc),
            fingerprints: Vec::new(alloc),
        }
    }

    pub(crate) fn count(&self) -> u32
        ensures { result ≡ self.now.count }
    {
        self.count
    }

    /// The claims from number i on, by the last known link in front of it.
    pub(crate) fn run_from(&self, i: u32, end: u32) -> ClaimRun<'_>
        ensures { result ≡ record { seed = self.now.seed; number = i; end = end } }
    {
        let (from, link) = self.known_before(i);
        ClaimRun::new(&self.chain, i, end, self.chain.skip(link, i - from))
    }

    /// Claim i, from the last known link in front of it on.
    pub(crate) fn claim(&self, i: u32) -> [u8; 512]
        ensures { result ≡ claim self.now.seed i }
    {
        let (from, link) = self.known_before(i);
        let mut begins = self.chain.skip(link, i - from);
        self.chain.pass(i, &mut begins)
    }

    // The last number up to i whose first link is known, and that link.
    fn known_before(&self, i: u32) -> (u32, Digest)
        ensures before { result.0 ≤ i }
        ensures link { result.1 ≡ first_link self.now.seed result.0 }
    {
        match self.checkpoints.get((i / SPACING) as usize) {
            Some(link) => (i - i % SPACING, *link),
            None => (self.count, self.next),
        }
    }

    fn is_claim(&self, i: u32, body: &[u8; 512]) -> bool
        ensures { result ≡ true ↔ (claim self.now.seed i ≡ body.now) }
    {
        self.claim(i) == *body
    }

    /// The least walked number whose claim is the body: one pass over the fingerprints. Where one is
    /// the body's the claim is made, since two claims may have the same.
    pub(crate) fn home_of(&self, body: &[u8; 512]) -> Option<u32>
        ensures some { IfSome result (λ i. IsHome self.now.seed body.now 0 self.now.count i) }
        ensures none { IfNone result (HasNone self.now.seed body.now 0 self.now.count) }
    {
        let sought = fingerprint(body);
        for i in 0..self.count {
            if self.fingerprints[i as usize] == sought && self.is_claim(i, body) {
                return Some(i);
            }
        }
        None
    }

    /// The least number from `count` on and below `end` whose claim is the body, by one pass along
    /// the chain.
    pub(crate) fn home_ahead(&self, body: &[u8; 512], end: u32) -> Option<u32>
        ensures some { IfSome result (λ i. IsHome self.now.seed body.now self.now.count end i) }
        ensures none { IfNone result (HasNone self.now.seed body.now self.now.count end) }
    {
        let mut begins = self.next;
        for i in self.count..end {
            if self.chain.pass(i, &mut begins) == *body {
                return Some(i);
            }
        }
        None
    }

    /// Walks over so many claims. What was walked before the memory ran out stays.
    pub(crate) fn advance(&mut self, claims: u32) -> Result<(), Memory>
        requires { self.old.count + claims < 2 ^ 32 }
        ensures seed { self.new.seed ≡ self.old.seed }
        ensures kept { self.old.count ≤ self.new.count }
        ensures at_most { self.new.count ≤ self.old.count + claims }
        ensures walked { OnOk result (self.new.count ≡ self.old.count + claims) }
    {
        for _step in 0..claims {
            self.step()?;
        }
        Ok(())
    }

    /// Walks over one claim, and answers its bytes.
    pub(crate) fn step(&mut self) -> Result<[u8; 512], Memory>
        requires { self.old.count + 1 < 2 ^ 32 }
        ensures claim { IfOk result (λ bytes. bytes ≡ claim self.old.seed self.old.count) }
        ensures walked { OnOk result (self.new ≡ record self.old { count = self.old.count + 1 }) }
        ensures same { OnErr result (self.new ≡ self.old) }
    {
        keep_checkpoint(&mut self.checkpoints, self.count, self.next)?;
        let mut next = self.next;
        let bytes = self.chain.pass(self.count, &mut next);
        keep_fingerprint(&mut self.fingerprints, fingerprint(&bytes))?;
        self.count += 1;
        self.next = next;
        Ok(bytes)
    }
}

// Keeps the first link of claim `count` where a checkpoint is due.
fn keep_checkpoint(checkpoints: &mut Vec<Digest>, count: u32, link: Digest) -> Result<(), Memory>
    ensures kept { (seed : List ℕ) → link ≡ first_link seed count → AreCheckpoints seed checkpoints.old.items count → AreCheckpoints seed checkpoints.new.items count }
    ensures more { OnOk result ((seed : List ℕ) → link ≡ first_link seed count → AreCheckpoints seed checkpoints.old.items count → AreCheckpoints seed checkpoints.new.items (count + 1)) }
    ensures tight { IsTight (vec_capacity checkpoints.old) (vec_len checkpoints.old) → IsTight (vec_capacity checkpoints.new) (vec_len checkpoints.new) }
{
    if checkpoints.len() == (count / SPACING) as usize {
        push_tight(checkpoints, link)?;
    }
    Ok(())
}
