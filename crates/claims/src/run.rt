//! Claims that follow one another.

ghost use Rattle.std.specs.Prelude.{◌≡◌, ◌<◌, ◌+◌};
ghost use Rattle.psb_digest.specs.Claims.{claim};
ghost use Rattle.claims.specs.Chain.{first_link};

use crate::chain::Chain;
use psb_bytes::Digest;
use std::marker::Model;

/// Claims of a source from some number on, in turn: each is made by 16 hashes, wherever it stands.
/// Contracts see the seed, the number of the next one, and the first number that was not issued.
#[derive(Drop)]
pub struct ClaimRun<'a> {
    chain: &'a Chain,
    number: u32,
    end: u32,
    begins: Digest,
}

impl<'a> Model for ClaimRun<'a> {
    ghost use Rattle.claims.specs.Source.{Run};
    ghost use Rattle.claims.specs.Chain.{first_link};
    ghost use Rattle.std.specs.Prelude.{◌≡◌};

    ghost Value = { Run };

    ghost view = { λ r. record { seed = r.chain.now; number = r.number; end = r.end } };

    ghost invariant = { λ r. r.begins ≡ first_link r.chain.now r.number };
}

impl<'a> ClaimRun<'a> {
    /// The claims from the one of this number on, whose first link is `begins`.
    pub(crate) fn new(chain: &'a Chain, number: u32, end: u32, begins: Digest) -> ClaimRun<'a>
        requires { begins ≡ first_link chain.now number }
        ensures { result ≡ record { seed = chain.now; number = number; end = end } }
    {
        ClaimRun {
            chain,
            number,
            end,
            begins,
        }
    }

    /// The bytes of the next claim.
    pub fn next_claim(&mut self) -> [u8; 512]
        requires { self.old.number < self.old.end }
        ensures claim { result ≡ claim self.old.seed self.old.number }
        ensures moved { self.new ≡ record self.old { number = self.old.number + 1 } }
    {
        let bytes = self.chain.pass(self.number, &mut self.begins);
        self.number += 1;
        bytes
    }
}
