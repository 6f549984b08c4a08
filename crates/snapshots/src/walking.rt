//! What stands below a folder.
ghost use Rattle.std.specs.Prelude.{◌≡◌, ◌≢◌, ◌⊎◌, ℕ, ◌+◌, ◌<◌, ◌≤◌, List, ◌∷◌, [], length, IfOk, OnOk, IfSome};
ghost use Rattle.std.specs.List.Sorted.{IsPermutation, IsSortedBy};
ghost use Rattle.psb_station.specs.Calls.{Rose};
ghost use Rattle.psb_station.specs.Folder.{Listing, Tells_content, Tries};
ghost use Rattle.psb_station.specs.MemTree.{under};
ghost use Rattle.skeleton.specs.declared.limits.TheConstants.{MOST_PATH_BYTES, MOST_TEXT_BYTES};
ghost use Rattle.skeleton.specs.Paths.{is_below};
ghost use Rattle.snapshots.specs.Walks.{entry_len, bare_len, AreFound, IsWalk, IsTooLarge, OnlyLists, AreFoldersOf};
ghost use Rattle.snapshots.specs.WalkSteps.{fault_of, entry_kind, IsOver, Pushes, Adds, IsOverAt, IsFull, Enters, Exceeds, IsOn, ListsNext};
ghost use Rattle.snapshots.specs.declared.walking.Found.{Found};
ghost use Rattle.snapshots.specs.declared.walking.WalkFault.TheVariants as walk_fault;

use crate::paths::child_path;
use psb_bytes::{Memory, Text};
use psb_station::{Folder, FolderError, Item, Kind};
use skeleton::{EntryKind, MOST_PATH_BYTES, MOST_TEXT_BYTES};
use std::alloc::{AllocError, AllocFailed, Global};
use thiserror::Error;

/// The bytes of a skeleton's text in front of its entries: its mark and how many they are.
const HEAD_BYTES: usize = 12;

/// The bytes of an entry beside its path: its kind and the path's length.
const ENTRY_BYTES: usize = 3;

/// The bytes of a file's entry beside those of a folder's: its size and how many refs it has.
const FILE_BYTES: usize = 12;

/// A folder or a file below a folder.
#[derive(Drop)]
pub struct Found {
    /// Relative to the folder that was walked: parts joined by `/`.
    pub path: Text,
    pub kind: EntryKind,
}

/// What a walk found.
#[derive(Drop)]
pub struct Walked {
    /// In the order of their paths, by their bytes.
    pub found: Vec<Found>,
    /// How many names are neither a folder nor a file; it stays at 4,294,967,295 once it is there.
    pub left: u32,
    /// How many bytes the skeleton's text has without refs.
    pub text_len: usize,
}

/// Why a folder was not walked.
#[derive(Clone, Copy, Debug, PartialEq, Eq, Error)]
pub enum WalkFault {
    /// A folder could not be listed.
    #[error("the folder failed")]
    Folder,
    /// A path has more than 4,096 bytes, or the skeleton's text more than 67,108,864 without refs.
    #[error("the tree is too large")]
    TooLarge,
    #[error("no memory")]
    Memory,
}

impl From<FolderError> for WalkFault {
    ghost from_gives = { λ error fault. fault ≡ fault_of error };

    fn from(error: FolderError) -> Self {
        match error {
            FolderError::Failed => WalkFault::Folder,
            FolderError::Memory => WalkFault::Memory,
        }
    }
}

impl From<Memory> for WalkFault {
    ghost from_gives = { λ _ fault. fault ≡ walk_fault.Memory };

    fn from(_: Memory) -> Self {
        WalkFault::Memory
    }
}

impl From<AllocError> for WalkFault {
    ghost from_gives = { λ _ fault. fault ≡ walk_fault.Memory };

    fn from(_: AllocError) -> Self {
        WalkFault::Memory
    }
}

impl<T: Drop> From<AllocFailed<T>> for WalkFault {
    ghost from_gives = { λ _ fault. fault ≡ walk_fault.Memory };

    fn from(_: AllocFailed<T>) -> Self {
        WalkFault::Memory
    }
}

/// The path of a name in a folder that the walk came to. That of the folder where it began is empty.
fn below(alloc: Global, base: &str, name: &str) -> Result<Text, Memory>
    ensures { IfOk result (λ text. text ≡ under base.now name.now) }
{
    if base.is_empty() {
        Text::copy(alloc, name)
    } else {
        child_path(alloc, base, name)
    }
}

/// What a skeleton says of a kind, where it has such entries.
fn entry_kind(kind: Kind) -> Option<EntryKind>
    ensures { result ≡ entry_kind kind }
{
    match kind {
        Kind::Folder => Some(EntryKind::Folder),
        Kind::File => Some(EntryKind::File),
        Kind::Other => None,
    }
}

/// The bytes of an entry without its refs, by those of its path.
fn entry_len(path_len: usize, kind: EntryKind) -> usize
    requires { path_len ≤ MOST_PATH_BYTES }
    ensures { result ≡ entry_len path_len kind }
{
    match kind {
        EntryKind::Folder => ENTRY_BYTES + path_len,
        EntryKind::File => ENTRY_BYTES + path_len + FILE_BYTES,
    }
}

/// Takes in a folder or a file.
fn push(walked: &mut Walked, path: Text, kind: EntryKind) -> Result<(), WalkFault>
    requires { walked.old.text_len ≤ MOST_TEXT_BYTES }
    ensures pushed { OnOk result (Pushes (record { path = path; kind = kind }) walked.old walked.new) }
    ensures too_large { result ≡ Err WalkFault.TooLarge → IsOver walked.old.text_len path kind }
    ensures only { result ≢ Err WalkFault.Folder }
{
    let path_len = path.as_str().len();
    if path_len > usize::from(MOST_PATH_BYTES) {
        return Err(WalkFault::TooLarge);
    }
    let text_len = walked.text_len + entry_len(path_len, kind);
    if text_len > MOST_TEXT_BYTES {
        return Err(WalkFault::TooLarge);
    }
    walked.found.push(Found { path, kind })?;
    walked.text_len = text_len;
    Ok(())
}

/// Takes in what stands under a name of a folder.
fn add(alloc: Global, base: &str, item: &Item, walked: &mut Walked) -> Result<(), WalkFault>
    requires { walked.old.text_len ≤ MOST_TEXT_BYTES }
    ensures added { OnOk result (Adds base.now (item.now ∷ []) walked.old walked.new) }
    ensures too_large { result ≡ Err WalkFault.TooLarge → IsOverAt base.now item.now walked.old.text_len }
    ensures only { result ≢ Err WalkFault.Folder }
{
    let name = item.name.as_str();
    match entry_kind(item.kind) {
        Some(kind) => push(walked, below(alloc, base, name)?, kind),
        None => {
            walked.left = walked.left.saturating_add(1);
            Ok(())
        }
    }
}

/// Takes in what stands under the names of a folder.
fn add_all(alloc: Global, base: &str, items: &[Item], walked: &mut Walked) -> Result<(), WalkFault>
    requires { walked.old.text_len ≤ MOST_TEXT_BYTES }
    ensures added { OnOk result (Adds base.now items.now walked.old walked.new) }
    ensures too_large { result ≡ Err WalkFault.TooLarge → IsFull base.now items.now walked.old }
    ensures only { result ≢ Err WalkFault.Folder }
{
    for item in items {
        add(alloc, base, item, walked)?;
    }
    Ok(())
}

/// Lists the folder at a path and takes in its names. `base` is its path below the one where the walk
/// began.
fn enter<F: Folder>(
    alloc: Global,
    folder: &mut F,
    path: &str,
    base: &str,
    walked: &mut Walked,
) -> Result<(), WalkFault>
    requires { walked.old.text_len ≤ MOST_TEXT_BYTES }
    ensures entered { OnOk result (Enters (F.view folder.new).content path.now base.now walked.old walked.new) }
    ensures too_large { result ≡ Err WalkFault.TooLarge → Exceeds (F.view folder.new).content path.now base.now walked.old }
    ensures content { Tells_content (F.view folder.new) → (F.view folder.new).content ≡ (F.view folder.old).content }
    ensures tries { Tries (Listing path.now) (F.view folder.old) (F.view folder.new) }
    ensures cause { result ≡ Err WalkFault.Folder → Rose (F.view folder.old).folder_faults (F.view folder.new).folder_faults }
    ensures steady { (result ≡ Err WalkFault.Folder) ⊎ ((F.view folder.new).folder_faults ≡ (F.view folder.old).folder_faults) }
{
    let items = folder.list(path)?;
    add_all(alloc, base, &items, walked)
}

/// Lists what was found at an index, where it is a folder.
fn go_on<F: Folder>(
    alloc: Global,
    folder: &mut F,
    root: &str,
    index: usize,
    walked: &mut Walked,
) -> Result<(), WalkFault>
    requires index { index < length walked.old.found.items }
    requires on { IsOn (F.view folder.old).content root.now index walked.old }
    ensures on { OnOk result (IsOn (F.view folder.new).content root.now (index + 1) walked.new) }
    ensures too_large { result ≡ Err WalkFault.TooLarge → IfSome (F.view folder.new).content (λ c. IsTooLarge c root.now) }
    ensures lists { ListsNext root.now index walked.old.found.items walked.new.found.items (F.view folder.old) (F.view folder.new) result }
    ensures cause { result ≡ Err WalkFault.Folder → Rose (F.view folder.old).folder_faults (F.view folder.new).folder_faults }
    ensures steady { (result ≡ Err WalkFault.Folder) ⊎ ((F.view folder.new).folder_faults ≡ (F.view folder.old).folder_faults) }
{
    let found = &walked.found[index];
    match found.kind {
        EntryKind::File => Ok(()),
        EntryKind::Folder => {
            let base = Text::copy(alloc, found.path.as_str())?;
            let path = child_path(alloc, root, base.as_str())?;
            enter(alloc, folder, path.as_str(), base.as_str(), walked)
        }
    }
}

/// Puts what was found in the order of the paths.
fn sort(found: &mut Vec<Found>)
    ensures same { IsPermutation found.old.items found.new.items }
    ensures sorted { IsSortedBy (λ (f g : Found). is_below f.path g.path) found.new.items }
{
    found.sort_unstable_by(|one, other| one.path.as_str().cmp(other.path.as_str()));
}

/// Lists a folder and all folders below it. A name that is neither a folder nor a file is counted and
/// passed over. Nothing but the folder's `list` is called, once for each folder.
pub fn walk<F: Folder>(alloc: Global, folder: &mut F, root: &str) -> Result<Walked, WalkFault>
    ensures found { IfOk result (λ w. AreFound w.found.items) }
    ensures text { IfOk result (λ w. (w.text_len ≡ bare_len w.found.items) × (w.text_len ≤ MOST_TEXT_BYTES)) }
    ensures walk { IfOk result (λ w. IfSome (F.view folder.new).content (λ c. IsWalk c root.now w.found.items w.left)) }
    ensures too_large { result ≡ Err WalkFault.TooLarge → IfSome (F.view folder.new).content (λ c. IsTooLarge c root.now) }
    ensures content { Tells_content (F.view folder.new) → (F.view folder.new).content ≡ (F.view folder.old).content }
    ensures tells { Tells_content (F.view folder.new) → Tells_content (F.view folder.old) }

    // The folder at the root is listed, and then those below it that were found, each once and each behind those that
    // it lies in: all of them where the walk comes to its end.
    ensures lists { (below : List (List ℕ)) × OnlyLists root.now below (F.view folder.old) (F.view folder.new) × IfOk result (λ w. AreFoldersOf w.found.items below) }
    ensures cause { result ≡ Err WalkFault.Folder → Rose (F.view folder.old).folder_faults (F.view folder.new).folder_faults }
    ensures steady { (result ≡ Err WalkFault.Folder) ⊎ ((F.view folder.new).folder_faults ≡ (F.view folder.old).folder_faults) }
{
    let mut walked = Walked {
        found: Vec::new(alloc),
        left: 0,
        text_len: HEAD_BYTES,
    };
    enter(alloc, folder, root, "", &mut walked)?;
    let mut index = 0;
    while index < walked.found.len() {
        go_on(alloc, folder, root, index, &mut walked)?;
        index += 1;
    }
    sort(&mut walked.found);
    Ok(walked)
}
