ghost use Rattle.std.specs.Prelude.{◌≡◌, ◌↔◌, ◌++◌, ◌∷◌, [], ◌&&◌, ◌==◌, not, IsTrue, OnOk, OnErr, Err, length};
ghost use Rattle.std.specs.List.{list_all};
ghost use Rattle.std.specs.Ordering.{nat_cmp};
ghost use Rattle.std.specs.Cmp.Lexicographic.{slice_cmp};
ghost use Rattle.skeleton.specs.Paths.{is_path, is_below, parents};
ghost use Rattle.skeleton.specs.Entries.{IsSkeleton, has_folder, in_order, fits_behind, counts_agree, is_ref, total};

use crate::entry::{Entry, EntryKind};
use crate::faults::PushError;
use crate::limits::{DIGEST_BYTES, MOST_CHUNK_BYTES};
use crate::paths::{comes_before, is_valid_path};
use crate::writing::digest_bytes;
use psb_bytes::{Ref, folder_of};
use std::alloc::{AllocFailed, Global};
use std::cmp::Ordering;
use std::marker::Model;

/// A tree of folders and files. Contracts see it as the list of its entries, which ascend by path,
/// each behind the folders that it lies in.
#[derive(Drop)]
pub struct Skeleton {
    entries: Vec<Entry>,
}

impl Model for Skeleton {
    ghost use Rattle.std.specs.Prelude.{List};
    ghost use Rattle.skeleton.specs.declared.entry.Entry.{Entry};
    ghost use Rattle.skeleton.specs.Entries.{IsSkeleton};

    ghost Value = { List Entry };

    ghost view = { λ s. s.entries.items };

    ghost invariant = { λ s. IsSkeleton s.entries.items };
}

impl Skeleton {
    /// A skeleton of no entries.
    pub fn new(alloc: Global) -> Skeleton
        ensures { result ≡ [] }
    {
        Skeleton {
            entries: Vec::new(alloc),
        }
    }

    /// The entries, ascending by path.
    pub fn entries(&self) -> &[Entry]
        ensures all { result.now ≡ self.now }
        ensures skeleton { IsSkeleton self.now }
    {
        &self.entries
    }

    /// Adds an entry behind the others, or says which of its rules fails first.
    pub fn push(&mut self, entry: Entry) -> Result<(), PushError>
        ensures ok { OnOk result (self.new ≡ self.old ++ entry ∷ []) }
        ensures fits { OnOk result (IsTrue (fits_behind self.old entry)) }
        ensures bad_path { (result ≡ Err PushError.BadPath) ↔ IsTrue (not (is_path entry.path)) }
        ensures bad_order { (result ≡ Err PushError.BadOrder) ↔ IsTrue (is_path entry.path && not (in_order self.old entry.path)) }
        ensures bad_count { (result ≡ Err PushError.BadCount) ↔ IsTrue (is_path entry.path && (in_order self.old entry.path && not (counts_agree entry.kind entry.size entry.refs))) }
        ensures err { OnErr result (self.new ≡ self.old) }
    {
        if !is_valid_path(entry.path.as_str()) {
            return Err(PushError::BadPath);
        }
        if !self.is_next(entry.path.as_str()) {
            return Err(PushError::BadOrder);
        }
        if !is_counted(&entry) {
            return Err(PushError::BadCount);
        }
        self.keep(entry)?;
        Ok(())
    }

    /// Whether a path may stand behind the others.
    #[tactic(auto, unfolding(crate::specs::Entries::in_order))]
    pub(crate) fn is_next(&self, path: &str) -> bool
        ensures { result ≡ in_order self.now path.now }
    {
        ascends(&self.entries, path.as_bytes()) && lies_in_folders(&self.entries, path)
    }

    /// Adds an entry that may stand behind the others.
    pub(crate) fn keep(&mut self, entry: Entry) -> Result<(), AllocFailed<Entry>>
        requires { IsTrue (fits_behind self.old entry) }
        ensures ok { OnOk result (self.new ≡ self.old ++ entry ∷ []) }
        ensures err { OnErr result (self.new ≡ self.old) }
    {
        self.entries.push(entry)
    }
}

/// Whether a path is above each path of the entries: above the last is enough.
fn ascends(entries: &[Entry], path: &[u8]) -> bool
    requires { IsSkeleton entries.now }
    ensures { result ≡ list_all (λ e. is_below e.path path.now) entries.now }
{
    match entries.last() {
        None => true,
        Some(last) => comes_before(last.path.as_str().as_bytes(), path),
    }
}

/// How the path of an entry compares with another, by their bytes.
fn compare(entry: &Entry, path: &[u8]) -> Ordering
    ensures { result ≡ slice_cmp nat_cmp entry.now.path path.now }
{
    entry.path.as_str().as_bytes().cmp(path)
}

/// Whether a path is that of a folder among the entries.
fn is_folder_among(entries: &[Entry], path: &[u8]) -> bool
    requires { IsSkeleton entries.now }
    ensures { result ≡ has_folder entries.now path.now }
{
    match entries.binary_search_by(|e| compare(e, path)) {
        Ok(i) => entries[i].kind.is_folder(),
        Err(_) => false,
    }
}

/// Whether each proper parent of a path is a folder among the entries: for the nearest, those
/// above it were found when it was added.
fn lies_in_folders(entries: &[Entry], path: &str) -> bool
    requires { IsSkeleton entries.now }
    ensures { result ≡ list_all (λ parent. has_folder entries.now parent) (parents path.now) }
{
    match folder_of(path) {
        None => true,
        Some(folder) => is_folder_among(entries, folder.as_bytes()),
    }
}

/// Whether the length of a ref is that of a chunk. Its digests have their widths by their type.
fn is_valid_ref(r: &Ref) -> bool
    ensures { result ≡ is_ref r.now }
{
    digest_bytes(&r.name).len() == DIGEST_BYTES
        && digest_bytes(&r.handle).len() == DIGEST_BYTES
        && 1 <= r.len
        && r.len <= MOST_CHUNK_BYTES
}

fn are_valid_refs(refs: &[Ref]) -> bool
    ensures { result ≡ list_all is_ref refs.now }
{
    refs.iter().all(|r| is_valid_ref(r))
}

/// Whether the lengths of some refs have this sum.
pub(crate) fn sums_to(refs: &[Ref], size: u64) -> bool
    ensures { result ≡ (size == total refs.now) }
{
    u128::from(size) == refs.iter().map(|r| u128::from(r.len)).sum::<u128>()
}

/// Whether the size and the refs of an entry agree.
fn is_counted(entry: &Entry) -> bool
    ensures { result ≡ counts_agree entry.now.kind entry.now.size entry.now.refs }
{
    let refs = entry.refs.as_slice();
    match entry.kind {
        EntryKind::Folder => entry.size == 0 && refs.is_empty(),
        EntryKind::File => are_valid_refs(refs) && sums_to(refs, entry.size),
    }
}
