ghost use Rattle.std.specs.Prelude.{◌≡◌, ◌↔◌, IfOk, OnOk, IsErrOf};
ghost use Rattle.convergent_seal.specs.Sealing.{Opens, opened};
ghost use Rattle.convergent_seal.specs.declared.opening.OpenError.TheVariants.{Memory};

use crate::sealing::seal_key;
use psb_bytes::Ref;
use psb_digest::{mask, sha};
use std::alloc::{AllocError, Global};
use thiserror::Error;

/// Why a body was not opened.
#[derive(Clone, Copy, PartialEq, Eq, Debug, Error)]
pub enum OpenError {
    /// The body is not the one that the ref names: its SHA-256 or its length is another.
    #[error("the body is not the one that the ref names")]
    Altered,
    #[error("no memory")]
    Memory,
}

impl From<AllocError> for OpenError {
    ghost from_gives = { λ _ e. e ≡ Memory };

    fn from(_error: AllocError) -> OpenError {
        OpenError::Memory
    }
}

/// The bytes that the body opens to under the ref: the plain ones where the ref is that of what was
/// sealed. Whether the ref's handle is their SHA-256 is not tested.
pub fn open(alloc: Global, reference: &Ref, body: &[u8]) -> Result<Vec<u8>, OpenError>
    ensures value { IfOk result (λ plain. plain.items ≡ opened reference.now body.now) }
    ensures opens { OnOk result (Opens reference.now body.now) }
    ensures altered { IsErrOf result OpenError.Altered ↔ (¬ Opens reference.now body.now) }
    ensures memory { IsErrOf result OpenError.Memory → Opens reference.now body.now }
{
    if body.len() != reference.len as usize || sha(body) != reference.name {
        return Err(OpenError::Altered);
    }
    let mut plain = Vec::from_slice(alloc, body)?;
    mask(&seal_key(&reference.handle), 0, &mut plain);
    Ok(plain)
}
