//! The node's claims, one after another.

ghost use Rattle.std.specs.Prelude.{◌≡◌, ◌<◌};
ghost use Rattle.psb_digest.specs.Claims.{claim};

use claims::{ClaimRun, ClaimSource};
use std::marker::Model;

/// The claims of a source, each made by 16 hashes where it follows the one before, and else as the source makes it.
/// Contracts see the seed, the number of the next one, and the first number that was not issued.
#[derive(Drop)]
pub(crate) struct ClaimsInTurn<'a> {
    source: &'a ClaimSource,
    run: ClaimRun<'a>,
    next: u32,
}

impl<'a> Model for ClaimsInTurn<'a> {
    ghost use Rattle.claims.specs.Source.{Run};
    ghost use Rattle.std.specs.Prelude.{◌≡◌};

    ghost Value = { Run };

    ghost view = { λ c. record { seed = c.source.now.seed; number = c.next; end = c.source.now.issued } };

    ghost invariant = { λ c. c.run ≡ record { seed = c.source.now.seed; number = c.next; end = c.source.now.issued } };
}

impl<'a> ClaimsInTurn<'a> {
    /// From the first one on.
    pub(crate) fn new(source: &'a ClaimSource) -> ClaimsInTurn<'a>
        ensures { result ≡ record { seed = source.now.seed; number = 0; end = source.now.issued } }
    {
        ClaimsInTurn {
            source,
            run: source.run_from(0),
            next: 0,
        }
    }

    /// Goes to the claim of this number.
    fn go_to(&mut self, number: u32)
        requires { number < self.old.end }
        ensures { self.new ≡ record self.old { number = number } }
    {
        if number != self.next {
            self.run = self.source.run_from(number);
            self.next = number;
        }
    }

    /// The bytes of a claim, whether or not its number was issued.
    pub(crate) fn claim(&mut self, number: u32) -> [u8; 512]
        ensures claim { result ≡ claim self.old.seed number }
        ensures seed { self.new.seed ≡ self.old.seed }
    {
        if number >= self.source.issued() {
            return self.source.claim(number);
        }
        self.go_to(number);
        self.next += 1;
        self.run.next_claim()
    }
}
