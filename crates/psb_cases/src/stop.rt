use psb_bytes::Memory;
use std::alloc::{AllocError, AllocFailed};
use std::io;

/// Why a text of cases is read no further.
#[derive(Debug, Drop)]
pub enum Stop {
    /// The line is none of the language, or asks for what can't be.
    Outside,
    Memory,
    /// The input could not be read, or the output not be written.
    Io(io::Error),
}

impl From<AllocError> for Stop {
    fn from(_: AllocError) -> Stop {
        Stop::Memory
    }
}

impl<T: Drop> From<AllocFailed<T>> for Stop {
    fn from(_: AllocFailed<T>) -> Stop {
        Stop::Memory
    }
}

impl From<Memory> for Stop {
    fn from(_: Memory) -> Stop {
        Stop::Memory
    }
}

impl From<io::Error> for Stop {
    fn from(error: io::Error) -> Stop {
        Stop::Io(error)
    }
}
