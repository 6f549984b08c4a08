//! Pieces of bytes, each with what it belongs to.
ghost use Rattle.std.specs.Prelude.{◌≡◌, ◌<◌, ◌++◌, [], ◌∷◌, length, slice_get, All, IfSome, OnOk, OnErr};
ghost use Rattle.std.proofs.Props.{props};
ghost use Rattle.psb_station.specs.Piece.{IsIn};

use crate::piece::{Piece, put};
use std::alloc::{AllocError, Global};

/// A piece, and what it belongs to.
#[derive(Clone, Copy)]
pub struct Labelled<K> {
    pub label: K,
    pub piece: Piece,
}

/// Pieces in their order. Their bytes stand in one list, so that each growth that is refused shows as
/// a list that is full.
#[derive(Drop)]
pub struct Pieces<K> {
    pub bytes: Vec<u8>,
    pub list: Vec<Labelled<K>>,
    ghost within: { All (λ p. IsIn (length bytes.items) p.piece) list.items } by { Prim.hlevel props },
}

impl<K: Copy> Pieces<K> {
    ghost use Rattle.psb_station.specs.Pieces.{pieces_of, HasRoom, IsTooFull};

    /// None. Takes no memory.
    pub fn new(alloc: Global) -> Pieces<K>
        ensures { pieces_of result ≡ [] }
    {
        Pieces {
            bytes: Vec::new(alloc),
            list: Vec::new(alloc),
        }
    }

    pub fn len(&self) -> usize
        ensures { result ≡ length (pieces_of self.now) }
    {
        self.list.len()
    }

    /// What one belongs to.
    pub fn label(&self, j: usize) -> K
        requires { j < length (pieces_of self.now) }
        ensures { IfSome (slice_get (pieces_of self.now) j) (λ p. result ≡ p.0) }
    {
        self.list[j].label
    }

    /// The bytes of one.
    pub fn content(&self, j: usize) -> &[u8]
        requires { j < length (pieces_of self.now) }
        ensures { IfSome (slice_get (pieces_of self.now) j) (λ p. result.now ≡ p.1) }
    {
        self.list[j].piece.of(&self.bytes)
    }

    /// Makes room for one more, of so many bytes.
    pub fn make_room(&mut self, more: usize) -> Result<(), AllocError>
        ensures room { OnOk result (HasRoom more self.new) }
        ensures same { pieces_of self.new ≡ pieces_of self.old }
        ensures full { OnErr result (IsTooFull more self.old) }
    {
        self.list.reserve(1)?;
        self.bytes.reserve(more)
    }

    /// Adds one, for which there is room.
    pub fn push(&mut self, label: K, content: &[u8])
        requires { HasRoom (length content.now) self.old }
        ensures { pieces_of self.new ≡ pieces_of self.old ++ (label, content.now) ∷ [] }
    {
        let piece = put(&mut self.bytes, content);
        self.list.push_reserved(Labelled { label, piece });
    }
}
