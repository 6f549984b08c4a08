//! The chained hash.

ghost use Rattle.std.specs.Prelude.{◌≡◌, ℕ, List, [], ◌∷◌, ◌++◌};
ghost use Rattle.probe.specs.Chains.{link_on, chain};

use psb_bytes::Digest;
use psb_digest::sha_two;
use std::marker::Model;

/// The chain over the objects that were added, from a nonce on. Contracts see it as its value, a list of
/// 32 bytes.
#[derive(Clone, Copy)]
pub struct Chain {
    value: Digest,
}

impl Model for Chain {
    ghost use Rattle.std.specs.Prelude.{List, ℕ};

    ghost Value = { List ℕ };

    ghost view = { λ c. c.value };

    ghost inverse = { λ bytes. record { value = bytes } };
}

impl Chain {
    /// The chain over no object. A relay that goes on with the chain of another node starts with its value.
    pub fn start(nonce: &Digest) -> Chain
        ensures { result ≡ nonce.now }
    {
        Chain { value: *nonce }
    }

    /// Hashes the bytes of one more object onto the value.
    pub fn add(&mut self, object: &[u8])
        ensures value { self.new ≡ link_on self.old object.now }
        ensures chain { (nonce : List ℕ) (os : List (List ℕ)) → self.old ≡ chain nonce os → self.new ≡ chain nonce (os ++ object.now ∷ []) }
    {
        self.value = link_on(self.value, object);
    }

    pub fn value(&self) -> Digest
        ensures { result ≡ self.now }
    {
        self.value
    }
}

// The value with the hash of one object more.
fn link_on(value: Digest, object: &[u8]) -> Digest
    ensures { result ≡ link_on value object.now }
{
    sha_two(&value.0, object)
}
