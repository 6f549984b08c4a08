//! Why a history is not read.

ghost use Rattle.std.specs.Prelude.{◌≡◌};
ghost use Rattle.node_history.specs.Faults.{fault_of};
ghost use Rattle.node_history.specs.declared.fault.ReadFault.TheVariants as fault;

use node_journal::LogError;
use psb_bytes::Memory;
use std::alloc::{AllocError, AllocFailed};
use thiserror::Error;

/// Why the records of a log are not read as a history.
#[derive(Clone, Copy, Debug, PartialEq, Eq, Error)]
pub enum ReadFault {
    /// The records are those of no valid history.
    #[error("the log holds no history")]
    NotNode,
    /// The disk failed.
    #[error("the disk failed")]
    DiskFault,
    /// There was no memory.
    #[error("no memory")]
    Memory,
}

impl From<LogError> for ReadFault {
    ghost from_gives = { λ e f. f ≡ fault_of e };

    fn from(error: LogError) -> Self {
        match error {
            LogError::NotLog => ReadFault::NotNode,
            LogError::DiskFault | LogError::Broken => ReadFault::DiskFault,
            LogError::Memory => ReadFault::Memory,
        }
    }
}

impl From<Memory> for ReadFault {
    ghost from_gives = { λ _ f. f ≡ fault.Memory };

    fn from(_: Memory) -> Self {
        ReadFault::Memory
    }
}

impl From<AllocError> for ReadFault {
    ghost from_gives = { λ _ f. f ≡ fault.Memory };

    fn from(_: AllocError) -> Self {
        ReadFault::Memory
    }
}

impl<T: Drop> From<AllocFailed<T>> for ReadFault {
    ghost from_gives = { λ _ f. f ≡ fault.Memory };

    fn from(_: AllocFailed<T>) -> Self {
        ReadFault::Memory
    }
}
