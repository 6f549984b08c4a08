ghost use Rattle.std.specs.Prelude.{◌≡◌, ◌↔◌, ◌+◌, ◌-◌, ◌<◌, ◌≤◌, min, IfSome, IfNone, IfOk, OnOk, OnErr, IsErrOf};
ghost use Rattle.psb_digest.specs.Claims.{claim};
ghost use Rattle.claims.specs.Source.{HasNone, IsHome};

use crate::run::ClaimRun;
use crate::walk::Walk;
use psb_bytes::{Digest, Memory};
use std::alloc::Global;
use std::marker::Model;
use thiserror::Error;

/// Why numbers were not issued.
#[derive(Clone, Copy, PartialEq, Eq, Debug, Error)]
pub enum IssueError {
    /// More than 4,294,967,295 numbers would be issued.
    #[error("the numbers of claims are spent")]
    Spent,
}

/// Where a node takes its claims from. Contracts see the seed, and how many numbers were issued.
///
/// Issuing computes nothing. A claim that was walked is made by at most 256 hashes, wherever it
/// stands, and takes six bytes of memory: 2 for its part of a checkpoint, 4 for its fingerprint.
/// Beside that at most an eighth of these, or 1,024 places in each list, stands empty. A claim that
/// was not walked is made by 16 hashes for each one from the last walked on.
#[derive(Drop)]
pub struct ClaimSource {
    issued: u32,
    walk: Walk,
}

impl Model for ClaimSource {
    ghost use Rattle.std.specs.Prelude.{◌≤◌};
    ghost use Rattle.claims.specs.Source.{Source};

    ghost Value = { Source };

    ghost view = { λ s. record { seed = s.walk.seed; issued = s.issued; walked = s.walk.count } };

    ghost invariant = { λ s. s.walk.count ≤ s.issued };
}

impl ClaimSource {
    /// A source that has issued no number. Takes no memory.
    pub fn new(alloc: Global, seed: &Digest) -> ClaimSource
        ensures { result ≡ record { seed = seed.now; issued = 0; walked = 0 } }
    {
        ClaimSource {
            issued: 0,
            walk: Walk::new(alloc, seed),
        }
    }

    /// How many numbers were issued.
    pub fn issued(&self) -> u32
        ensures { result ≡ self.now.issued }
    {
        self.issued
    }

    /// Issues so many numbers, and answers the first. Takes no memory and computes no claim, so it
    /// may run ahead of the walk.
    pub fn issue(&mut self, n: u32) -> Result<u32, IssueError>
        ensures first { IfOk result (λ i. i ≡ self.old.issued) }
        ensures issued { OnOk result (self.new ≡ record self.old { issued = self.old.issued + n }) }
        ensures spent { IsErrOf result IssueError.Spent ↔ (4294967295 < self.old.issued + n) }
        ensures same { OnErr result (self.new ≡ self.old) }
    {
        let first = self.issued;
        self.issued = first.checked_add(n).ok_or(IssueError::Spent)?;
        Ok(first)
    }

    /// The bytes of a claim, whether or not its number was issued. Takes no memory.
    pub fn claim(&self, i: u32) -> [u8; 512]
        ensures { result ≡ claim self.now.seed i }
    {
        self.walk.claim(i)
    }

    /// The claims from the one of this number on, in turn. The first costs what one claim does, each
    /// further one 16 hashes. Takes no memory.
    pub fn run_from(&self, i: u32) -> ClaimRun<'_>
        requires { i ≤ self.now.issued }
        ensures { result ≡ record { seed = self.now.seed; number = i; end = self.now.issued } }
    {
        self.walk.run_from(i, self.issued)
    }

    /// The least number that was issued whose claim is the body. Takes no memory. Goes over the
    /// fingerprints of the walked claims, some milliseconds for two million, and makes each claim
    /// whose first four bytes are the body's, by at most 256 hashes. Then it makes those that were
    /// not walked, one after another, by 16 hashes each.
    pub fn home_of(&self, body: &[u8; 512]) -> Option<u32>
        ensures some { IfSome result (λ i. IsHome self.now.seed body.now 0 self.now.issued i) }
        ensures none { IfNone result (HasNone self.now.seed body.now 0 self.now.issued) }
    {
        match self.walk.home_of(body) {
            Some(home) => Some(home),
            None => self.walk.home_ahead(body, self.issued),
        }
    }

    /// How many claims were walked.
    pub fn walked(&self) -> u32
        ensures { result ≡ self.now.walked }
    {
        self.walk.count()
    }

    /// Walks on over the next claim, and answers its bytes: 16 hashes. Where memory runs out, nothing
    /// changes.
    pub fn walk_next(&mut self) -> Result<[u8; 512], Memory>
        requires { self.old.walked < self.old.issued }
        ensures claim { IfOk result (λ bytes. bytes ≡ claim self.old.seed self.old.walked) }
        ensures walked { OnOk result (self.new ≡ record self.old { walked = self.old.walked + 1 }) }
        ensures memory { OnErr result (self.new ≡ self.old) }
    {
        self.walk.step()
    }

    /// Walks on over at most so many claims that were issued, by 16 hashes each, and answers how
    /// many. Takes memory for what makes them fast to make and to find; where it runs out, what was
    /// walked stays.
    pub fn walk(&mut self, budget: u32) -> Result<u32, Memory>
        ensures walked { OnOk result (self.new ≡ record self.old { walked = min (self.old.walked + budget) self.old.issued }) }
        ensures answer { IfOk result (λ n. n ≡ self.new.walked - self.old.walked) }
        ensures memory { OnErr result ((self.new ≡ record self.old { walked = self.new.walked }) × (self.old.walked ≤ self.new.walked)) }
    {
        let claims = budget.min(self.issued - self.walk.count());
        self.walk.advance(claims)?;
        Ok(claims)
    }
}
