ghost use Rattle.std.specs.Prelude.{◌≡◌, ◌≤◌, length, IfOk};
ghost use Rattle.convergent_seal.specs.Sealing.{seal_key, sealed, sealed_ref, Opens};

use psb_bytes::{Digest, LONGEST_CHUNK, Memory, Ref};
use psb_digest::{mask, sha, sha_two};
use std::alloc::Global;
use std::marker::Model;

const KEY_LABEL: [u8; 7] = *b"psb key";

/// The sealed bytes of a piece, with the ref that opens them. The ref's name is the SHA-256 of the
/// bytes, and its length theirs.
#[derive(Drop)]
pub struct Sealed {
    reference: Ref,
    body: Vec<u8>,
}

impl Model for Sealed {
    ghost use Rattle.convergent_seal.specs.Sealing.{Piece, Opens};

    ghost Value = { Piece };

    ghost view = { λ s. record { reference = s.reference; body = s.body.items } };

    ghost invariant = { λ s. Opens s.reference s.body.items };
}

impl Sealed {
    pub fn reference(&self) -> &Ref
        ensures value { result.now ≡ self.now.reference }
        ensures opens { Opens result.now self.now.body }
    {
        &self.reference
    }

    pub fn body(&self) -> &[u8]
        ensures value { result.now ≡ self.now.body }
        ensures opens { Opens self.now.reference result.now }
    {
        self.body.as_slice()
    }
}

/// Seals a piece of 1 to `LONGEST_CHUNK` bytes: xors them with the keystream of ChaCha20 (RFC
/// 8439's block function) under a key that is made of their SHA-256.
pub fn seal(alloc: Global, plain: &[u8]) -> Result<Sealed, Memory>
    requires some { 1 ≤ length plain.now }
    requires fits { length plain.now ≤ LONGEST_CHUNK }
    ensures reference { IfOk result (λ s. s.reference ≡ sealed_ref plain.now) }
    ensures body { IfOk result (λ s. s.body ≡ sealed plain.now) }
{
    let handle = sha(plain);
    let mut body = Vec::from_slice(alloc, plain)?;
    mask(&seal_key(&handle), 0, &mut body);
    let name = sha(&body);
    let len = plain.len() as u32;
    let reference = Ref { name, handle, len };
    Ok(Sealed { reference, body })
}

// The key that a piece with this handle is sealed with.
pub(crate) fn seal_key(handle: &Digest) -> Digest
    ensures { result ≡ seal_key handle.now }
{
    sha_two(&KEY_LABEL, &handle.0)
}
