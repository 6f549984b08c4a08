//! A tree that is written below a folder.
ghost use Rattle.std.specs.Prelude.{◌≡◌, ◌⊎◌, ℕ, ◌∷◌, [], take, true, false, Ok, IfOk, IfSome, OnOk, OnErr};
ghost use Rattle.psb_station.specs.Calls.{Grows, Rose};
ghost use Rattle.psb_station.specs.Folder.{Appending, Appends, Listing, Lists, Tells_content, Tries, child};
ghost use Rattle.snapshots.specs.Writing.{Adds, IsNotEmpty, Writes, made_at, making};

use crate::paths::child_path;
use psb_bytes::{Memory, Text};
use psb_station::{Folder, FolderError};
use skeleton::EntryKind;
use std::alloc::Global;
use thiserror::Error;

/// Why a folder was not looked at, or a place not made.
#[derive(Clone, Copy, Debug, PartialEq, Eq, Error)]
pub enum WriteFault {
    #[error("the folder failed")]
    Folder,
    #[error("no memory")]
    Memory,
}

impl From<Memory> for WriteFault {
    ghost use Rattle.std.specs.Prelude.{◌≡◌};
    ghost use Rattle.snapshots.specs.declared.writing.WriteFault.TheVariants as write_fault;

    ghost from_gives = { λ _ f. f ≡ write_fault.Memory };

    fn from(_: Memory) -> Self {
        WriteFault::Memory
    }
}

/// Whether nothing stands in the folder at a path.
pub fn is_empty<F: Folder>(folder: &mut F, path: &str) -> Result<bool, WriteFault>
    ensures empty { result ≡ Ok true → IfSome (F.view folder.new).content (λ c. Lists c path.now []) }
    ensures some { result ≡ Ok false → IfSome (F.view folder.new).content (λ c. IsNotEmpty c path.now) }
    ensures content { Tells_content (F.view folder.new) → (F.view folder.new).content ≡ (F.view folder.old).content }
    ensures tries { Tries (Listing path.now) (F.view folder.old) (F.view folder.new) }
    ensures cause { result ≡ Err WriteFault.Folder → Rose (F.view folder.old).folder_faults (F.view folder.new).folder_faults }
    ensures steady { (result ≡ Err WriteFault.Folder) ⊎ ((F.view folder.new).folder_faults ≡ (F.view folder.old).folder_faults) }
{
    match folder.list(path) {
        Ok(items) => Ok(items.is_empty()),
        Err(FolderError::Failed) => Err(WriteFault::Folder),
        Err(FolderError::Memory) => Err(WriteFault::Memory),
    }
}

/// Makes a folder, or a file of no bytes, at a path below the root, and answers where it stands: the two
/// joined by `/`.
pub fn make_place<F: Folder>(
    alloc: Global,
    folder: &mut F,
    root: &str,
    path: &str,
    kind: EntryKind,
) -> Result<Text, WriteFault>
    ensures at { IfOk result (λ at. at ≡ child root.now path.now) }
    ensures made { OnOk result (Writes root.now (F.view folder.old) (F.view folder.new) (made_at path.now kind ∷ [])) }
    ensures called { OnOk result (Tries (making kind (child root.now path.now)) (F.view folder.old) (F.view folder.new)) }
    ensures refused { OnErr result (Writes root.now (F.view folder.old) (F.view folder.new) []) }
    ensures failed { result ≡ Err WriteFault.Folder → Tries (making kind (child root.now path.now)) (F.view folder.old) (F.view folder.new) }
    ensures idle { result ≡ Err WriteFault.Memory → folder.new ≡ folder.old }
    ensures cause { result ≡ Err WriteFault.Folder → Rose (F.view folder.old).folder_faults (F.view folder.new).folder_faults }
    ensures steady { (result ≡ Err WriteFault.Folder) ⊎ ((F.view folder.new).folder_faults ≡ (F.view folder.old).folder_faults) }
{
    let at = child_path(alloc, root, path)?;
    let made = match kind {
        EntryKind::Folder => folder.make_folder(at.as_str()),
        EntryKind::File => folder.make_file(at.as_str()),
    };
    match made {
        Ok(()) => Ok(at),
        Err(_) => Err(WriteFault::Folder),
    }
}

/// Adds bytes at the end of the file at a path. Where it fails, some first bytes of them may have been added.
pub fn add_piece<F: Folder>(folder: &mut F, at: &str, piece: &[u8]) -> Result<(), WriteFault>
    ensures appends { OnOk result (Tells_content (F.view folder.new) → IfSome (F.view folder.old).content (λ c. Appends c (F.view folder.new).content at.now piece.now)) }

    // So the file that was written last has these bytes more.
    ensures added { OnOk result (Adds (F.view folder.old) (F.view folder.new) at.now piece.now) }
    ensures part { OnErr result (Tells_content (F.view folder.new) → (n : ℕ) × Adds (F.view folder.old) (F.view folder.new) at.now (take n piece.now)) }
    ensures tries { Tries (Appending at.now) (F.view folder.old) (F.view folder.new) }
    ensures cause { OnErr result (Rose (F.view folder.old).folder_faults (F.view folder.new).folder_faults) }
    ensures steady { OnOk result ((F.view folder.new).folder_faults ≡ (F.view folder.old).folder_faults) }
    ensures only { OnErr result (result ≡ Err WriteFault.Folder) }
{
    match folder.append(at, piece) {
        Ok(()) => Ok(()),
        Err(_) => Err(WriteFault::Folder),
    }
}
