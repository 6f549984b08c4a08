//! Trees and refs that are built and written: what a push refuses, what is written, and how much at most.
ghost use Rattle.std.specs.Prelude.{◌≡◌};

use super::bad;
use crate::{
    Entry, EntryKind, MOST_TEXT_BYTES, PushError, SkelFault, Skeleton, WriteError, read_refs,
    read_skeleton, write_refs, write_skeleton,
};
use psb_bytes::{Digest, Ref, RefList, Text};
use std::alloc::Global;
use std::test::Fail;

/// A ref of this length.
fn ref_of(len: u32) -> Ref
    ensures { result.len ≡ len }
{
    Ref {
        name: Digest([b'N'; 32]),
        handle: Digest([b'H'; 32]),
        len,
    }
}

/// An entry with refs of these lengths.
fn entry(
    alloc: Global,
    path: &str,
    kind: EntryKind,
    size: u64,
    lens: &[u32],
) -> Result<Entry, Fail> {
    let mut refs = Vec::new(alloc);
    for len in lens {
        refs.push(ref_of(*len))?;
    }
    Ok(Entry {
        path: Text::copy(alloc, path)?,
        kind,
        size,
        refs: RefList::from_vec(refs),
    })
}

/// Entries that are pushed in turn, with the answers and how many entries stand then.
const PUSHED: [(&str, EntryKind, u64, &[u32], Option<PushError>, usize); 18] = [
    ("a", EntryKind::Folder, 0, &[], None, 1),
    ("a", EntryKind::Folder, 0, &[], Some(PushError::BadOrder), 1),
    ("..", EntryKind::Folder, 0, &[], Some(PushError::BadPath), 1),
    ("", EntryKind::Folder, 0, &[], Some(PushError::BadPath), 1),
    ("a/b", EntryKind::File, 600, &[600], None, 2),
    (
        "a/b/c",
        EntryKind::File,
        0,
        &[],
        Some(PushError::BadOrder),
        2,
    ),
    (
        "a-b",
        EntryKind::Folder,
        0,
        &[],
        Some(PushError::BadOrder),
        2,
    ),
    (
        "b/c",
        EntryKind::Folder,
        0,
        &[],
        Some(PushError::BadOrder),
        2,
    ),
    ("a/c", EntryKind::File, 1, &[], Some(PushError::BadCount), 2),
    (
        "a/c",
        EntryKind::Folder,
        1,
        &[],
        Some(PushError::BadCount),
        2,
    ),
    (
        "a/c",
        EntryKind::Folder,
        0,
        &[1],
        Some(PushError::BadCount),
        2,
    ),
    (
        "a/c",
        EntryKind::File,
        0,
        &[0],
        Some(PushError::BadCount),
        2,
    ),
    (
        "a/c",
        EntryKind::File,
        32_769,
        &[32_769],
        Some(PushError::BadCount),
        2,
    ),
    (
        "a/c",
        EntryKind::File,
        u64::MAX,
        &[1],
        Some(PushError::BadCount),
        2,
    ),
    ("a//c", EntryKind::File, 1, &[], Some(PushError::BadPath), 2),
    ("a/b", EntryKind::File, 1, &[], Some(PushError::BadOrder), 2),
    ("a/c", EntryKind::File, 32_769, &[1, 32_768], None, 3),
    ("b", EntryKind::Folder, 0, &[], None, 4),
];

#[test]
fn a_push_tests_the_path_then_the_order_then_the_counts(rt: HostRuntime) -> Result<(), Fail> {
    let mut skeleton = Skeleton::new(rt.alloc());
    for (path, kind, size, lens, refusal, count) in PUSHED {
        let answer = skeleton.push(entry(rt.alloc(), path, kind, size, lens)?);
        assert_eq!(rt; answer.err(), refusal, "{path}");
        assert_eq!(rt; skeleton.entries().len(), count, "behind {path}");
    }
    let text = write_skeleton(rt.alloc(), &skeleton)?;
    let want: &[u8] =
        b"PSBSKEL1\0\0\0\x04\0\0\x01a\x01\0\x03a/b\0\0\0\0\0\0\x02X\0\0\0\x01NNNNNNNNNNNNNNNNNNNNNNNNNNNNNNNNHHHHHHHHHHHHHHHHHHHHHHHHHHHHHHHH\0\0\x02X\x01\0\x03a/c\0\0\0\0\0\0\x80\x01\0\0\0\x02NNNNNNNNNNNNNNNNNNNNNNNNNNNNNNNNHHHHHHHHHHHHHHHHHHHHHHHHHHHHHHHH\0\0\0\x01NNNNNNNNNNNNNNNNNNNNNNNNNNNNNNNNHHHHHHHHHHHHHHHHHHHHHHHHHHHHHHHH\0\0\x80\0\0\0\x01b";
    assert_eq!(rt; text.as_slice(), want);
    Ok(())
}

#[test]
fn refs_are_written_and_read_again(rt: HostRuntime) -> Result<(), Fail> {
    let refs = RefList::copy(rt.alloc(), &[ref_of(3)])?;
    let text = write_refs(rt.alloc(), &refs)?;
    assert_eq!(rt; text.len(), 80);
    let again = read_refs(rt.alloc(), &text)?;
    assert_eq!(rt; again.as_slice(), refs.as_slice());
    Ok(())
}

#[test]
fn a_text_has_67108864_bytes_at_most(rt: HostRuntime) -> Result<(), Fail> {
    let mut zeros = vec![in rt.alloc(); 0u8; MOST_TEXT_BYTES]?;
    assert_eq!(rt;
        read_skeleton(rt.alloc(), &zeros).err(),
        bad(SkelFault::BadMark, 0)
    );
    assert_eq!(rt;
        read_refs(rt.alloc(), &zeros).err(),
        bad(SkelFault::BadMark, 0)
    );
    zeros.push(0)?;
    assert_eq!(rt;
        read_skeleton(rt.alloc(), &zeros).err(),
        bad(SkelFault::TooLong, 0)
    );
    assert_eq!(rt;
        read_refs(rt.alloc(), &zeros).err(),
        bad(SkelFault::TooLong, 0)
    );
    for (count, len, refusal) in [
        (986_894, Some(67_108_820), None),
        (986_895, None, Some(WriteError::TooLarge)),
    ] {
        let refs = vec![in rt.alloc(); ref_of(1); count]?;
        let mut skeleton = Skeleton::new(rt.alloc());
        skeleton.push(Entry {
            path: Text::copy(rt.alloc(), "f")?,
            kind: EntryKind::File,
            size: count as u64,
            refs: RefList::from_vec(refs),
        })?;
        match write_skeleton(rt.alloc(), &skeleton) {
            Ok(text) => assert_eq!(rt; Some(text.len()), len),
            Err(error) => assert_eq!(rt; Some(error), refusal),
        }
    }
    Ok(())
}

#[test]
fn a_hundred_thousand_entries_are_written_and_read(rt: HostRuntime) -> Result<(), Fail> {
    let alloc = rt.alloc();
    let mut skeleton = Skeleton::new(alloc);
    for folder in 100..200u32 {
        let path = Text::from_string(format!(in alloc; "{folder}")?);
        skeleton.push(Entry {
            path,
            kind: EntryKind::Folder,
            size: 0,
            refs: RefList::from_vec(Vec::new(alloc)),
        })?;
        for file in 1_000..2_000u32 {
            let path = Text::from_string(format!(in alloc; "{folder}/{file}")?);
            skeleton.push(Entry {
                path,
                kind: EntryKind::File,
                size: 1,
                refs: RefList::copy(alloc, &[ref_of(1)])?,
            })?;
        }
    }
    let text = write_skeleton(alloc, &skeleton)?;
    let again = read_skeleton(alloc, &text)?;
    assert_eq!(rt; again.entries().len(), 100_100);
    Ok(())
}
