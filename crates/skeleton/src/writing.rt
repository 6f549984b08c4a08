//! The writers of the two texts.
ghost use Rattle.std.specs.Prelude.{◌≡◌, ◌↔◌, ◌≤◌, ◌<◌, ◌+◌, ◌*◌, ◌^◌, ◌++◌, ◌∷◌, [], length, flat_map, IsTrue, OnOk, IfOk, MatchOption, Ok, Err};
ghost use Rattle.std.specs.List.{list_all};
ghost use Rattle.psb_bytes.specs.Numbers.{u32_bytes};
ghost use Rattle.skeleton.specs.Entries.{IsSkeleton, has_digests, has_chunk_len};
ghost use Rattle.skeleton.specs.Texts.{ref_bytes, refs_bytes, path_bytes, content_bytes, entry_bytes, entries_bytes, skeleton_text, refs_text};
ghost use Rattle.skeleton.specs.Reading.{skeleton_of, refs_of};
ghost use Rattle.skeleton.specs.declared.limits.TheConstants.{MOST_TEXT_BYTES, DIGEST_BYTES};

use crate::entry::{Entry, EntryKind};
use crate::faults::WriteError;
use crate::limits::{MOST_TEXT_BYTES, REFS_MARK, SKELETON_MARK};
use crate::tree::Skeleton;
use psb_bytes::{Digest, Memory, Ref, RefList};
use std::alloc::Global;

/// The bytes of a mark and a count.
const HEAD_BYTES: u128 = 12;

/// The bytes of an entry's kind and of its path's length.
const ENTRY_HEAD_BYTES: u128 = 3;

/// The bytes of a file's size and of its number of refs.
const FILE_HEAD_BYTES: u128 = 12;

/// The bytes of a length.
const LENGTH_BYTES: usize = 4;

/// The bytes of a digest.
pub(crate) fn digest_bytes(digest: &Digest) -> &[u8]
    ensures value { result.now ≡ digest.now }
    ensures len { length result.now ≡ DIGEST_BYTES }
{
    &digest.0
}

/// How many bytes a ref has.
fn ref_len(r: &Ref) -> u32
    ensures { result ≡ length (ref_bytes r.now) }
{
    let len = digest_bytes(&r.name).len() + digest_bytes(&r.handle).len() + LENGTH_BYTES;
    len as u32
}

/// How many bytes some refs have. In 128 bits such a sum does not wrap.
fn refs_len(refs: &[Ref]) -> u128
    ensures exact { result ≡ length (flat_map ref_bytes refs.now) }
    ensures bound { result < 2 ^ 96 }
{
    let mut len = 0;
    for r in refs {
        len += u128::from(ref_len(r));
    }
    len
}

/// How many bytes an entry has.
fn entry_len(entry: &Entry) -> u128
    ensures exact { result ≡ length (entry_bytes entry.now) }
    ensures bound { result < 2 ^ 100 }
{
    let content = match entry.kind {
        EntryKind::Folder => 0,
        EntryKind::File => FILE_HEAD_BYTES + refs_len(entry.refs.as_slice()),
    };
    ENTRY_HEAD_BYTES + entry.path.as_str().len() as u128 + content
}

/// The bytes of a skeleton's text, where they are not too many.
fn text_len(entries: &[Entry]) -> Option<usize>
    ensures { MatchOption result (MOST_TEXT_BYTES < length (skeleton_text entries.now)) (λ n. (n ≡ length (skeleton_text entries.now)) × (n ≤ MOST_TEXT_BYTES)) }
{
    let mut len = HEAD_BYTES;
    for entry in entries {
        len += entry_len(entry);
        if len > MOST_TEXT_BYTES as u128 {
            return None;
        }
    }
    Some(len as usize)
}

fn put_ref(out: &mut Vec<u8>, r: &Ref) -> Result<(), Memory>
    ensures digests { OnOk result (IsTrue (has_digests r.now)) }
    ensures exact { OnOk result (out.new.items ≡ out.old.items ++ ref_bytes r.now) }
{
    out.extend_from_slice(digest_bytes(&r.name))?;
    out.extend_from_slice(digest_bytes(&r.handle))?;
    out.extend_from_slice(&r.len.to_be_bytes())?;
    Ok(())
}

fn put_refs(out: &mut Vec<u8>, refs: &[Ref]) -> Result<(), Memory>
    requires { length refs.now < 2 ^ 32 }
    ensures exact { OnOk result (out.new.items ≡ out.old.items ++ refs_bytes refs.now) }
    ensures digests { OnOk result (IsTrue (list_all has_digests refs.now)) }
{
    out.extend_from_slice(&(refs.len() as u32).to_be_bytes())?;
    for r in refs {
        put_ref(out, r)?;
    }
    Ok(())
}

fn put_path(out: &mut Vec<u8>, path: &str) -> Result<(), Memory>
    requires { length path.now < 2 ^ 16 }
    ensures { OnOk result (out.new.items ≡ out.old.items ++ path_bytes path.now) }
{
    out.extend_from_slice(&(path.len() as u16).to_be_bytes())?;
    out.extend_from_slice(path.as_bytes())?;
    Ok(())
}

/// What follows the path.
fn put_content(out: &mut Vec<u8>, entry: &Entry) -> Result<(), Memory>
    requires { length entry.now.refs < 2 ^ 32 }
    ensures { OnOk result (out.new.items ≡ out.old.items ++ content_bytes entry.now.kind entry.now.size entry.now.refs) }
{
    match entry.kind {
        EntryKind::Folder => Ok(()),
        EntryKind::File => {
            out.extend_from_slice(&entry.size.to_be_bytes())?;
            put_refs(out, entry.refs.as_slice())?;
            Ok(())
        }
    }
}

fn put_entry(out: &mut Vec<u8>, entry: &Entry) -> Result<(), Memory>
    requires path { length entry.now.path < 2 ^ 16 }
    requires refs { length entry.now.refs < 2 ^ 32 }
    ensures { OnOk result (out.new.items ≡ out.old.items ++ entry_bytes entry.now) }
{
    out.push(entry.kind.byte())?;
    put_path(out, entry.path.as_str())?;
    put_content(out, entry)?;
    Ok(())
}

fn put_entries(out: &mut Vec<u8>, entries: &[Entry]) -> Result<(), Memory>
    requires skeleton { IsSkeleton entries.now }
    requires room { length (skeleton_text entries.now) ≤ MOST_TEXT_BYTES }
    ensures { OnOk result (out.new.items ≡ out.old.items ++ entries_bytes entries.now) }
{
    out.extend_from_slice(&(entries.len() as u32).to_be_bytes())?;
    for entry in entries {
        put_entry(out, entry)?;
    }
    Ok(())
}

/// The one text of a skeleton.
pub fn write_skeleton(alloc: Global, skeleton: &Skeleton) -> Result<Vec<u8>, WriteError>
    ensures exact { IfOk result (λ v. v.items ≡ skeleton_text skeleton.now) }
    ensures room { OnOk result (length (skeleton_text skeleton.now) ≤ MOST_TEXT_BYTES) }
    ensures too_large { (result ≡ Err WriteError.TooLarge) ↔ (MOST_TEXT_BYTES < length (skeleton_text skeleton.now)) }
    ensures read { IfOk result (λ v. skeleton_of v.items ≡ Ok skeleton.now) }
{
    let entries = skeleton.entries();
    let Some(len) = text_len(entries) else {
        return Err(WriteError::TooLarge);
    };
    let mut out = Vec::with_capacity(alloc, len)?;
    out.extend_from_slice(&SKELETON_MARK)?;
    put_entries(&mut out, entries)?;
    Ok(out)
}

/// The one text of a list of refs.
pub fn write_refs(alloc: Global, refs: &RefList) -> Result<Vec<u8>, WriteError>
    requires { IsTrue (list_all has_chunk_len refs.now) }
    ensures exact { IfOk result (λ v. v.items ≡ refs_text refs.now) }
    ensures room { OnOk result (length (refs_text refs.now) ≤ MOST_TEXT_BYTES) }
    ensures too_large { (result ≡ Err WriteError.TooLarge) ↔ (MOST_TEXT_BYTES < length (refs_text refs.now)) }
    ensures read { IfOk result (λ v. refs_of v.items ≡ Ok refs.now) }
{
    let refs = refs.as_slice();
    let len = HEAD_BYTES + refs_len(refs);
    if len > MOST_TEXT_BYTES as u128 {
        return Err(WriteError::TooLarge);
    }
    let mut out = Vec::with_capacity(alloc, len as usize)?;
    out.extend_from_slice(&REFS_MARK)?;
    put_refs(&mut out, refs)?;
    Ok(out)
}
