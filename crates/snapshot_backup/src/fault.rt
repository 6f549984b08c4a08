use node_core::Fault;
use psb_bytes::Memory;
use snapshots::WalkFault;
use std::alloc::{AllocError, AllocFailed};
use thiserror::Error;

/// Why no snapshot was made.
#[derive(Drop, Debug, Error)]
pub enum BackupFault {
    /// The node gave up: the disk failed, or it is refused to keep a piece.
    #[error("the node gave up: {0}")]
    Node(Fault),
    /// The folder could not be listed, or a file not read.
    #[error("the folder failed")]
    Folder,
    /// A path has more than 4,096 bytes, the skeleton's text more than 67,108,864, or 4,294,967,295
    /// snapshots were made before.
    #[error("too large")]
    TooLarge,
    #[error("no memory")]
    Memory,
}

impl From<Fault> for BackupFault {
    ghost use Rattle.std.specs.Prelude.{◌≡◌};
    ghost use Rattle.snapshot_backup.specs.Endings.{backup_fault_of};

    ghost from_gives = { λ f e. e ≡ backup_fault_of f };

    fn from(fault: Fault) -> Self {
        match fault {
            Fault::Memory => BackupFault::Memory,
            fault => BackupFault::Node(fault),
        }
    }
}

impl From<WalkFault> for BackupFault {
    ghost use Rattle.std.specs.Prelude.{◌≡◌};
    ghost use Rattle.snapshot_backup.specs.Faults.{walked_as};

    ghost from_gives = { λ f e. e ≡ walked_as f };

    fn from(fault: WalkFault) -> Self {
        match fault {
            WalkFault::Folder => BackupFault::Folder,
            WalkFault::TooLarge => BackupFault::TooLarge,
            WalkFault::Memory => BackupFault::Memory,
        }
    }
}

impl From<Memory> for BackupFault {
    ghost use Rattle.std.specs.Prelude.{◌≡◌};
    ghost use Rattle.snapshot_backup.specs.declared.fault.BackupFault.TheVariants as backup_fault;

    ghost from_gives = { λ _ f. f ≡ backup_fault.Memory };

    fn from(_: Memory) -> Self {
        BackupFault::Memory
    }
}

impl From<AllocError> for BackupFault {
    ghost use Rattle.std.specs.Prelude.{◌≡◌};
    ghost use Rattle.snapshot_backup.specs.declared.fault.BackupFault.TheVariants as backup_fault;

    ghost from_gives = { λ _ f. f ≡ backup_fault.Memory };

    fn from(_: AllocError) -> Self {
        BackupFault::Memory
    }
}

impl<T: Drop> From<AllocFailed<T>> for BackupFault {
    ghost use Rattle.std.specs.Prelude.{◌≡◌};
    ghost use Rattle.snapshot_backup.specs.declared.fault.BackupFault.TheVariants as backup_fault;

    ghost from_gives = { λ _ f. f ≡ backup_fault.Memory };

    fn from(_: AllocFailed<T>) -> Self {
        BackupFault::Memory
    }
}
