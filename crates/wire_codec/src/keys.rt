ghost use Rattle.std.specs.Prelude.{◌≡◌, ◌↔◌, [], ◌∷◌, ◌++◌, Some, option_copied, IsSome, OnOk, OnErr, IsErrOf};
ghost use Rattle.wire_codec.specs.Frames.{key_in};
ghost use Rattle.wire_codec.specs.declared.keys.KeyError.TheVariants.{Memory};

use indexmap::IndexMap;
use psb_bytes::{Digest, PeerId};
use std::alloc::{AllocFailed, Global};
use std::marker::Model;
use thiserror::Error;

/// The peers of a node, each with the key of the pair, in the order in which they were put there.
#[derive(Drop)]
pub struct Keys {
    rows: IndexMap<u32, Digest>,
}

impl Model for Keys {
    ghost use Rattle.std.specs.Prelude.{ℕ, List};

    ghost Value = { List (ℕ × List ℕ) };

    ghost view = { λ k. k.rows.entries };
}

/// Why a key was not put into the table.
#[derive(Clone, Copy, PartialEq, Eq, Debug, Error)]
pub enum KeyError {
    /// The peer has a key already.
    #[error("the peer has a key already")]
    Twice,
    #[error("no memory")]
    Memory,
}

impl<T: Drop> From<AllocFailed<T>> for KeyError {
    ghost from_gives = { λ _ e. e ≡ Memory };

    fn from(_failed: AllocFailed<T>) -> KeyError {
        KeyError::Memory
    }
}

impl Keys {
    /// A table of no peers.
    pub fn new(alloc: Global) -> Keys
        ensures { result ≡ [] }
    {
        Keys {
            rows: IndexMap::new(alloc),
        }
    }

    /// Adds a peer and the key that the two nodes share.
    pub fn put(&mut self, peer: PeerId, key: Digest) -> Result<(), KeyError>
        ensures ok { OnOk result (self.new ≡ self.old ++ (peer, key) ∷ []) }
        ensures twice { IsErrOf result KeyError.Twice ↔ IsSome (key_in self.old peer) }
        ensures err { OnErr result (self.new ≡ self.old) }
    {
        if self.key_of(peer).is_some() {
            return Err(KeyError::Twice);
        }
        self.rows.insert(peer.0, key)?;
        Ok(())
    }

    /// The key of a peer.
    pub fn key_of(&self, peer: PeerId) -> Option<&Digest>
        ensures { option_copied result ≡ key_in self.now peer }
    {
        self.rows.get(&peer.0)
    }
}
