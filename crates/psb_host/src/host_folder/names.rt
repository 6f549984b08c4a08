//! The names in a folder of the machine.
ghost use Rattle.std.specs.Prelude.{◌≡◌, ◌<◌, ◌-◌, [], length, get_or, All, IfOk, IsTrue, map};
ghost use Rattle.std.specs.List.{IsDistinct};
ghost use Rattle.std.specs.Str.{bytes_eq};
ghost use Rattle.std.specs.Ordering.{nat_cmp};
ghost use Rattle.std.specs.declared.cmp.Ordering.TheVariants.{Less};
ghost use Rattle.std.specs.Cmp.Lexicographic.{slice_cmp};
ghost use Rattle.psb_station.specs.Folder.{IsName};
ghost use Rattle.psb_station.specs.declared.item.Item.{Item};

use crate::file_id::{FileId, OwnFile};
use psb_bytes::Text;
use psb_station::{FolderError, Item, Kind, is_name};
use std::alloc::Global;
use std::fs::{Files, Metadata, read_dir, symlink_metadata};

/// A link is no folder and no file here, whatever it leads to, and the node's own file is none.
fn kind_of(seen: &Metadata, own: Option<FileId>) -> Kind {
    if seen.is_dir() {
        return Kind::Folder;
    }
    if seen.is_file() && own != Some(FileId::of(seen)) {
        return Kind::File;
    }
    Kind::Other
}

/// A path without the `/` at its end, at which the system would follow a link.
fn without_slash(path: &str) -> &str {
    let front = path.trim_end_matches('/');
    if front.is_empty() { path } else { front }
}

/// Whether a folder stands at a path, and no link to one.
fn is_folder(files: &impl Files, path: &str) -> bool {
    match symlink_metadata(files, without_slash(path)) {
        Ok(seen) => seen.is_dir(),
        Err(_) => false,
    }
}

/// Whether an item has a valid name, which is above the one in front of it.
fn is_next(items: &[Item], i: usize) -> bool
    requires { i < length items.now }
    ensures valid { IsTrue result → IsName (get_or (map (λ (i : Item). i.name) items.now) i []) }
    ensures above { IsTrue result → 0 < i → slice_cmp nat_cmp (get_or (map (λ (i : Item). i.name) items.now) (i - 1) []) (get_or (map (λ (i : Item). i.name) items.now) i []) ≡ Less }
{
    let name = items[i].name.as_str();
    if !is_name(name) {
        return false;
    }
    i == 0 || items[i - 1].name.as_str() < name
}

/// Whether the names are valid, and each is above the one in front of it.
fn are_names(items: &[Item]) -> bool
    ensures names { IsTrue result → All (λ (i : Item). IsName i.name) items.now }
    ensures distinct { IsTrue result → IsDistinct bytes_eq (map (λ (i : Item). i.name) items.now) }
{
    for i in 0..items.len() {
        if !is_next(items, i) {
            return false;
        }
    }
    true
}

/// All entries of a folder, as the system gives them.
fn entries_in<R: Files + Alloc + Clone + Drop>(
    host: &R,
    alloc: Global,
    path: &str,
    own: Option<FileId>,
) -> Result<Vec<Item>, FolderError> {
    let mut items = Vec::new(alloc);
    let Ok(entries) = read_dir(host, path) else {
        return Err(FolderError::Failed);
    };
    for entry in entries {
        let Ok(entry) = entry else {
            return Err(FolderError::Failed);
        };
        let Ok(seen) = entry.metadata() else {
            return Err(FolderError::Failed);
        };
        let Ok(name) = Text::copy(alloc, entry.file_name()) else {
            return Err(FolderError::Memory);
        };
        let kind = kind_of(&seen, own);
        if let Err(_) = items.push(Item { name, kind }) {
            return Err(FolderError::Memory);
        }
    }
    Ok(items)
}

/// The names in a folder and their kinds, in the order of their bytes. The node's own file is of no kind that is
/// kept.
pub(crate) fn names_in<R: Files + Alloc + Clone + Drop>(
    host: &R,
    alloc: Global,
    path: &str,
    own: &mut OwnFile,
) -> Result<Vec<Item>, FolderError>
    ensures names { IfOk result (λ items. All (λ (i : Item). IsName i.name) items.items) }
    ensures distinct { IfOk result (λ items. IsDistinct bytes_eq (map (λ (i : Item). i.name) items.items)) }
{
    if !is_folder(host, path) {
        return Err(FolderError::Failed);
    }
    let Ok(own) = own.id(host) else {
        return Err(FolderError::Failed);
    };
    let mut items = match entries_in(host, alloc, path, own) {
        Ok(items) => items,
        Err(error) => return Err(error),
    };
    items.sort_unstable_by(|one, other| one.name.as_str().cmp(other.name.as_str()));
    if !are_names(&items) {
        return Err(FolderError::Failed);
    }
    Ok(items)
}

#[cfg(test)]
mod tests;
