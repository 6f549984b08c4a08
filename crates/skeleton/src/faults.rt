ghost use Rattle.std.specs.Prelude.{◌≡◌};
ghost use Rattle.skeleton.specs.Faults.{fault_code};
ghost use Rattle.skeleton.specs.declared.faults.SkelError.TheVariants as skel;
ghost use Rattle.skeleton.specs.declared.faults.PushError.TheVariants as push;
ghost use Rattle.skeleton.specs.declared.faults.WriteError.TheVariants as write;

use psb_bytes::Memory;
use std::alloc::{AllocError, AllocFailed};
use thiserror::Error;

/// What is wrong with a text.
#[derive(Clone, Copy, PartialEq, Eq, Debug, Error)]
pub enum SkelFault {
    /// It does not begin with its mark.
    #[error("the text begins with another mark")]
    BadMark = 1,
    /// A path does not ascend, or a parent of it is no folder before it.
    #[error("a path is out of its order")]
    BadOrder,
    /// A path is not 1 to 4,096 bytes of UTF-8, or a part of it is no name.
    #[error("a path is none")]
    BadPath,
    /// A size is not the sum of the lengths of its refs, a kind is unknown, or the length of a ref
    /// is out of range.
    #[error("a size or a kind is wrong")]
    BadCount,
    /// It ends within a field.
    #[error("the text ends within a field")]
    Short,
    /// Something stands behind its end.
    #[error("something stands behind the end")]
    Trailing,
    /// It has more bytes than a text may have.
    #[error("the text is too long")]
    TooLong,
}

impl SkelFault {
    /// The fault's number, 1 to 7.
    pub fn code(&self) -> u8
        ensures { result ≡ fault_code self.now }
    {
        *self as u8
    }

    /// This fault, of the field that begins at a place.
    pub(crate) fn at(self, place: u32) -> FaultAt
        ensures { result ≡ record { fault = self; place = place } }
    {
        FaultAt { fault: self, place }
    }
}

/// Why a text was not read.
#[derive(Clone, Copy, PartialEq, Eq, Debug, Error)]
pub enum SkelError {
    /// It is not in the grammar: the first fault in reading order, and where the field that has it
    /// begins.
    #[error("{fault} at byte {place}")]
    Bad { fault: SkelFault, place: u32 },
    /// Memory ran out.
    #[error("no memory")]
    Memory,
}

/// A field that is not in the grammar: its fault, and where it begins.
#[derive(Clone, Copy, PartialEq, Eq, Debug)]
pub struct FaultAt {
    pub fault: SkelFault,
    pub place: u32,
}

impl From<FaultAt> for SkelError {
    ghost from_gives = { λ r e. e ≡ skel.Bad r.fault r.place };

    fn from(refusal: FaultAt) -> SkelError {
        SkelError::Bad {
            fault: refusal.fault,
            place: refusal.place,
        }
    }
}

impl From<Memory> for SkelError {
    ghost from_gives = { λ _ e. e ≡ skel.Memory };

    fn from(_error: Memory) -> SkelError {
        SkelError::Memory
    }
}

impl<T: Drop> From<AllocFailed<T>> for SkelError {
    ghost from_gives = { λ _ e. e ≡ skel.Memory };

    fn from(_error: AllocFailed<T>) -> SkelError {
        SkelError::Memory
    }
}

/// Why an entry was not added: the first of its rules that fails.
#[derive(Clone, Copy, PartialEq, Eq, Debug, Error)]
pub enum PushError {
    /// The path is not 1 to 4,096 bytes, or a part of it is no name.
    #[error("the path is none")]
    BadPath,
    /// The path does not ascend, or a parent of it is no folder before it.
    #[error("the path is out of its order")]
    BadOrder,
    /// The size is not the sum of the lengths of the refs, a folder has some, or the length of a
    /// ref is out of range.
    #[error("the size is wrong")]
    BadCount,
    /// Memory ran out.
    #[error("no memory")]
    Memory,
}

impl<T: Drop> From<AllocFailed<T>> for PushError {
    ghost from_gives = { λ _ e. e ≡ push.Memory };

    fn from(_error: AllocFailed<T>) -> PushError {
        PushError::Memory
    }
}

/// Why a text was not written.
#[derive(Clone, Copy, PartialEq, Eq, Debug, Error)]
pub enum WriteError {
    /// It would have more bytes than a text may have.
    #[error("the text is too large")]
    TooLarge,
    /// Memory ran out.
    #[error("no memory")]
    Memory,
}

impl From<AllocError> for WriteError {
    ghost from_gives = { λ _ e. e ≡ write.Memory };

    fn from(_error: AllocError) -> WriteError {
        WriteError::Memory
    }
}

impl From<Memory> for WriteError {
    ghost from_gives = { λ _ e. e ≡ write.Memory };

    fn from(_error: Memory) -> WriteError {
        WriteError::Memory
    }
}
