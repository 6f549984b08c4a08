use node_core::Fault;
use node_serve::ServeFault;
use psb_bytes::{Bytes, Digest, Memory};
use skeleton::SkelFault;
use snapshots::WriteFault;
use std::fmt::{self, Debug, Formatter, Write};
use thiserror::Error;

/// Why a snapshot was not restored.
#[derive(Drop, Error)]
pub enum RestoreFault {
    /// The node gave up: the disk failed.
    #[error("the node gave up: {0}")]
    Node(Fault),
    /// The link failed to receive.
    #[error("the link failed")]
    Link,
    /// The target could not be looked at, or not be written.
    #[error("the folder failed")]
    Folder,
    /// Something stands in the target.
    #[error("the target is not empty")]
    NotEmpty,
    /// The node has no body that opens, and no peer answered with one.
    #[error("a chunk is missing")]
    Missing { name: Digest },
    /// The node has no body that opens, and none that peers answered with opens. The last of them is told.
    #[error("a chunk was altered")]
    Altered { name: Digest, got: Bytes },
    /// A text of the snapshot is outside the grammar: its first fault, and the place of that.
    #[error("{fault} at byte {place}")]
    BadSkeleton { fault: SkelFault, place: u32 },
    #[error("no memory")]
    Memory,
}

// The bytes of a body are not printed.
impl Debug for RestoreFault {
    fn fmt<W: Write>(&self, f: &mut Formatter<W>) -> fmt::Result {
        write!(f, "{self}")
    }
}

impl From<Fault> for RestoreFault {
    ghost use Rattle.std.specs.Prelude.{◌≡◌};
    ghost use Rattle.snapshot_restore.specs.Faults.{of_node};

    ghost from_gives = { λ f e. e ≡ of_node f };

    fn from(fault: Fault) -> Self {
        match fault {
            Fault::Memory => RestoreFault::Memory,
            fault => RestoreFault::Node(fault),
        }
    }
}

impl From<ServeFault> for RestoreFault {
    ghost use Rattle.std.specs.Prelude.{◌≡◌};
    ghost use Rattle.snapshot_restore.specs.Faults.{of_serving};

    ghost from_gives = { λ f e. e ≡ of_serving f };

    fn from(fault: ServeFault) -> Self {
        match fault {
            ServeFault::Node(fault) => RestoreFault::Node(fault),
            ServeFault::Link => RestoreFault::Link,
            ServeFault::Memory => RestoreFault::Memory,
        }
    }
}

impl From<WriteFault> for RestoreFault {
    ghost use Rattle.std.specs.Prelude.{◌≡◌};
    ghost use Rattle.snapshot_restore.specs.Faults.{of_writing};

    ghost from_gives = { λ f e. e ≡ of_writing f };

    fn from(fault: WriteFault) -> Self {
        match fault {
            WriteFault::Folder => RestoreFault::Folder,
            WriteFault::Memory => RestoreFault::Memory,
        }
    }
}

impl From<Memory> for RestoreFault {
    ghost use Rattle.std.specs.Prelude.{◌≡◌};
    ghost use Rattle.snapshot_restore.specs.declared.fault.RestoreFault.TheVariants as restore_fault;

    ghost from_gives = { λ _ f. f ≡ restore_fault.Memory };

    fn from(_: Memory) -> Self {
        RestoreFault::Memory
    }
}
