ghost use Rattle.std.specs.Prelude.{◌≡◌, ◌↔◌, IsSome, IfSome};
ghost use Rattle.psb_digest.specs.Clashes.{Clashes};

use crate::sha;
use std::marker::Model;

/// Two texts that differ and have one SHA-256.
#[derive(Drop)]
pub struct Clash {
    first: Vec<u8>,
    second: Vec<u8>,
}

impl Model for Clash {
    ghost use Rattle.psb_digest.specs.Clashes.{Pair, Clashes};

    ghost Value = { Pair };

    ghost view = { λ c. record { first = c.first.items; second = c.second.items } };

    ghost invariant = { λ c. Clashes c.first.items c.second.items };
}

impl Clash {
    /// The two as a clash, exactly where they differ and hash alike.
    pub fn of(first: Vec<u8>, second: Vec<u8>) -> Option<Clash>
        ensures value { IfSome result (λ c. c ≡ record { first = first.items; second = second.items }) }
        ensures exact { IsSome result ↔ Clashes first.items second.items }
    {
        if first != second && sha(&first) == sha(&second) {
            Some(Clash { first, second })
        } else {
            None
        }
    }

    pub fn first(&self) -> &[u8]
        ensures value { result.now ≡ self.now.first }
        ensures clash { Clashes self.now.first self.now.second }
    {
        self.first.as_slice()
    }

    pub fn second(&self) -> &[u8]
        ensures value { result.now ≡ self.now.second }
        ensures clash { Clashes self.now.first self.now.second }
    {
        self.second.as_slice()
    }
}
