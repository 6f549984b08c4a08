//! The readers of the two texts.
ghost use Rattle.std.specs.Prelude.{◌≡◌, ◌≢◌, [], length, MatchResult, IsTrue, IsOk, IfOk, IfErr, Ok, Err};
ghost use Rattle.std.specs.List.{list_all};
ghost use Rattle.skeleton.specs.Entries.{is_ref};
ghost use Rattle.skeleton.specs.Texts.{skeleton_text, refs_text};
ghost use Rattle.skeleton.specs.Reading.{run_from, ref_behind, refs_at, content_at, entry_at, entries_at, marked, skeleton_of, refs_of};
ghost use Rattle.skeleton.specs.Answers.{ReadsOrLacks, IsRefusalOf};
ghost use Rattle.skeleton.specs.declared.faults.SkelFault.TheVariants.{Trailing};

use crate::entry::{Entry, EntryKind};
use crate::faults::{FaultAt, SkelError, SkelFault};
use crate::limits::{MARK_BYTES, MOST_TEXT_BYTES, REFS_MARK, SKELETON_MARK};
use crate::reader::Reader;
use crate::tree::{Skeleton, sums_to};
use psb_bytes::{RefList, Text};
use std::alloc::Global;

/// A reader that stands behind the mark of a text.
#[tactic(auto, unfolding(crate::specs::Reading::marked))]
fn behind_mark<'a>(text: &'a [u8], mark: [u8; MARK_BYTES]) -> Result<Reader<'a>, FaultAt>
    ensures { MatchResult result (λ r. marked mark text.now ≡ Ok r) (λ e. marked mark text.now ≡ Err e) }
{
    if text.len() > MOST_TEXT_BYTES {
        return Err(SkelFault::TooLong.at(0));
    }
    let mut reader = Reader::new(text);
    if reader.take(MARK_BYTES)? == mark.as_slice() {
        Ok(reader)
    } else {
        Err(SkelFault::BadMark.at(0))
    }
}

/// Refuses what is left, if anything is.
fn end(reader: &Reader<'_>) -> Result<(), FaultAt>
    ensures { MatchResult result (λ _. length reader.now.bytes ≡ 0) (λ e. (length reader.now.bytes ≢ 0) × (e ≡ record { fault = Trailing; place = reader.now.place })) }
{
    if reader.left() == 0 {
        Ok(())
    } else {
        Err(SkelFault::Trailing.at(reader.place()))
    }
}

/// So many refs.
fn take_counted_refs(
    alloc: Global,
    reader: &mut Reader<'_>,
    count: u32,
) -> Result<RefList, SkelError>
    ensures { ReadsOrLacks (λ refs. refs) result reader.new (run_from ref_behind count [] reader.old) }
{
    let mut refs = Vec::new(alloc);
    for _ in 0..count {
        refs.push(reader.take_ref()?)?;
    }
    Ok(RefList::from_vec(refs))
}

/// Refs behind their number.
#[tactic(auto, unfolding(crate::specs::Reading::list_at))]
fn take_refs(alloc: Global, reader: &mut Reader<'_>) -> Result<RefList, SkelError>
    ensures { ReadsOrLacks (λ refs. refs) result reader.new (refs_at reader.old) }
{
    let count = reader.take_u32()?;
    take_counted_refs(alloc, reader, count)
}

/// The size and the refs of an entry of this kind.
#[tactic(auto, unfolding(crate::specs::Reading::content_at))]
fn take_content(
    alloc: Global,
    reader: &mut Reader<'_>,
    kind: EntryKind,
) -> Result<(u64, RefList), SkelError>
    ensures { ReadsOrLacks (λ c. c) result reader.new (content_at kind reader.old) }
{
    match kind {
        EntryKind::Folder => Ok((0, RefList::from_vec(Vec::new(alloc)))),
        EntryKind::File => {
            let place = reader.place();
            let size = reader.take_u64()?;
            let refs = take_refs(alloc, reader)?;
            if sums_to(refs.as_slice(), size) {
                Ok((size, refs))
            } else {
                Err(SkelFault::BadCount.at(place).into())
            }
        }
    }
}

/// An entry that may stand behind those of a skeleton.
#[tactic(auto, unfolding(crate::specs::Reading::entry_at))]
fn take_entry(alloc: Global, reader: &mut Reader<'_>, before: &Skeleton) -> Result<Entry, SkelError>
    ensures { ReadsOrLacks (λ e. e) result reader.new (entry_at before.now reader.old) }
{
    let kind = reader.take_kind()?;
    let path = reader.take_path(before)?;
    let (size, refs) = take_content(alloc, reader, kind)?;
    Ok(Entry {
        path: Text::copy(alloc, path)?,
        kind,
        size,
        refs,
    })
}

/// So many entries.
fn take_counted_entries(
    alloc: Global,
    reader: &mut Reader<'_>,
    count: u32,
) -> Result<Skeleton, SkelError>
    ensures { ReadsOrLacks (λ s. s) result reader.new (run_from entry_at count [] reader.old) }
{
    let mut skeleton = Skeleton::new(alloc);
    for _ in 0..count {
        let entry = take_entry(alloc, reader, &skeleton)?;
        skeleton.keep(entry)?;
    }
    Ok(skeleton)
}

/// Entries behind their number.
#[tactic(auto, unfolding(crate::specs::Reading::list_at))]
fn take_entries(alloc: Global, reader: &mut Reader<'_>) -> Result<Skeleton, SkelError>
    ensures { ReadsOrLacks (λ s. s) result reader.new (entries_at reader.old) }
{
    let count = reader.take_u32()?;
    take_counted_entries(alloc, reader, count)
}

/// The skeleton that a text spells, or the first fault of the text.
#[tactic(auto, unfolding(crate::specs::Reading::skeleton_of))]
pub fn read_skeleton(alloc: Global, text: &[u8]) -> Result<Skeleton, SkelError>
    ensures ok { IfOk result (λ s. skeleton_of text.now ≡ Ok s) }
    ensures spelled { IfOk result (λ s. text.now ≡ skeleton_text s) }
    ensures bad { IfErr result (λ e. IsRefusalOf e (skeleton_of text.now)) }
    ensures memory { result ≡ Err SkelError.Memory → IsOk (marked SKELETON_MARK text.now) }
{
    let mut reader = behind_mark(text, SKELETON_MARK)?;
    let skeleton = take_entries(alloc, &mut reader)?;
    end(&reader)?;
    Ok(skeleton)
}

/// The refs that a text spells, or the first fault of the text.
#[tactic(auto, unfolding(crate::specs::Reading::refs_of))]
pub fn read_refs(alloc: Global, text: &[u8]) -> Result<RefList, SkelError>
    ensures ok { IfOk result (λ refs. refs_of text.now ≡ Ok refs) }
    ensures spelled { IfOk result (λ refs. text.now ≡ refs_text refs) }
    ensures valid { IfOk result (λ refs. IsTrue (list_all is_ref refs)) }
    ensures bad { IfErr result (λ e. IsRefusalOf e (refs_of text.now)) }
    ensures memory { result ≡ Err SkelError.Memory → IsOk (marked REFS_MARK text.now) }
{
    let mut reader = behind_mark(text, REFS_MARK)?;
    let refs = take_refs(alloc, &mut reader)?;
    end(&reader)?;
    Ok(refs)
}
