ghost use Rattle.std.specs.Prelude.{◌≡◌};
ghost use Rattle.chunk_store.specs.declared.error.StoreError.TheVariants.{Memory as OutOfMemory};

use psb_digest::Clash;
use std::alloc::{AllocError, AllocFailed};
use std::fmt::{self, Debug, Formatter, Write};
use thiserror::Error;

/// Why a body can't be taken, or can't be read.
#[derive(Drop, Error)]
pub enum StoreError {
    /// The owner holds the name already.
    #[error("the name is held already")]
    Already,
    /// The name is held with other bytes.
    #[error("the name is held with other bytes")]
    Clash(Clash),
    /// What the disk reads is not the body that was stored under the name.
    #[error("the body on the disk was altered")]
    Altered,
    /// The disk failed.
    #[error("the disk failed")]
    DiskFault,
    /// There was no memory.
    #[error("no memory")]
    Memory,
}

// The bytes of a clash are not printed.
impl Debug for StoreError {
    fn fmt<W: Write>(&self, f: &mut Formatter<W>) -> fmt::Result {
        write!(f, "{self}")
    }
}

impl From<AllocError> for StoreError {
    ghost from_gives = { λ _ e. e ≡ OutOfMemory };

    fn from(_: AllocError) -> Self {
        StoreError::Memory
    }
}

/// The owner is not listed for the name.
#[derive(Clone, Copy, PartialEq, Eq, Debug, Error)]
#[error("the owner does not hold the name")]
pub struct NotThere;
