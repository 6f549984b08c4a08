//! Texts that are read: the first fault of a bad one and its place, and what sound ones say.
use super::bad;
use crate::{EntryKind, SkelFault, read_refs, read_skeleton, write_skeleton};
use std::test::Fail;

/// The folder `a` and the empty file `b`.
const SMALL: &[u8] = b"PSBSKEL1\0\0\0\x02\0\0\x01a\x01\0\x01b\0\0\0\0\0\0\0\0\0\0\0\0";

/// Texts that are no skeleton's, with the first fault and its place.
const FAULTY: [(&str, &[u8], SkelFault, u32); 43] = [
    (
        "a mark of another kind",
        b"PSBSKEL2\0\0\0\0",
        SkelFault::BadMark,
        0,
    ),
    (
        "the mark of refs",
        b"PSBREFS1\0\0\0\0",
        SkelFault::BadMark,
        0,
    ),
    (
        "a mark in small letters",
        b"psbskel1\0\0\0\0",
        SkelFault::BadMark,
        0,
    ),
    (
        "`b` before `a`",
        b"PSBSKEL1\0\0\0\x02\0\0\x01b\x01\0\x01a\0\0\0\0\0\0\0\0\0\0\0\0",
        SkelFault::BadOrder,
        19,
    ),
    (
        "`a` twice",
        b"PSBSKEL1\0\0\0\x02\0\0\x01a\0\0\x01a",
        SkelFault::BadOrder,
        19,
    ),
    (
        "no parent",
        b"PSBSKEL1\0\0\0\x01\x01\0\x03a/b\0\0\0\0\0\0\0\0\0\0\0\0",
        SkelFault::BadOrder,
        15,
    ),
    (
        "a parent that is a file",
        b"PSBSKEL1\0\0\0\x02\x01\0\x01a\0\0\0\0\0\0\0\0\0\0\0\0\x01\0\x03a/b\0\0\0\0\0\0\0\0\0\0\0\0",
        SkelFault::BadOrder,
        31,
    ),
    (
        "a parent that is missing below a folder",
        b"PSBSKEL1\0\0\0\x02\0\0\x01a\x01\0\x05a/b/c\0\0\0\0\0\0\0\0\0\0\0\0",
        SkelFault::BadOrder,
        19,
    ),
    (
        "a parent that is only alike",
        b"PSBSKEL1\0\0\0\x03\0\0\x01a\0\0\x03a-b\x01\0\x04ab/c\0\0\0\0\0\0\0\0\0\0\0\0",
        SkelFault::BadOrder,
        25,
    ),
    (
        "siblings in the order of trees",
        b"PSBSKEL1\0\0\0\x03\0\0\x01a\x01\0\x03a/b\0\0\0\0\0\0\0\0\0\0\0\0\0\0\x03a-b",
        SkelFault::BadOrder,
        37,
    ),
    (
        "a path that the last begins with",
        b"PSBSKEL1\0\0\0\x02\0\0\x02ab\0\0\x01a",
        SkelFault::BadOrder,
        20,
    ),
    (
        "the part `..`",
        b"PSBSKEL1\0\0\0\x01\0\0\x02..",
        SkelFault::BadPath,
        15,
    ),
    (
        "the part `.`",
        b"PSBSKEL1\0\0\0\x02\0\0\x01a\0\0\x05a/./b",
        SkelFault::BadPath,
        19,
    ),
    (
        "an empty part",
        b"PSBSKEL1\0\0\0\x02\0\0\x01a\0\0\x04a//b",
        SkelFault::BadPath,
        19,
    ),
    (
        "a slash in front",
        b"PSBSKEL1\0\0\0\x01\0\0\x02/a",
        SkelFault::BadPath,
        15,
    ),
    (
        "a slash at the end",
        b"PSBSKEL1\0\0\0\x02\0\0\x01a\0\0\x02a/",
        SkelFault::BadPath,
        19,
    ),
    (
        "a path with NUL",
        b"PSBSKEL1\0\0\0\x01\0\0\x02a\0",
        SkelFault::BadPath,
        15,
    ),
    (
        "a byte that is no text",
        b"PSBSKEL1\0\0\0\x01\0\0\x01\xff",
        SkelFault::BadPath,
        15,
    ),
    (
        "a character cut short",
        b"PSBSKEL1\0\0\0\x01\0\0\x02a\xc3",
        SkelFault::BadPath,
        15,
    ),
    (
        "half of a surrogate pair",
        b"PSBSKEL1\0\0\0\x01\0\0\x03\xed\xa0\x80",
        SkelFault::BadPath,
        15,
    ),
    (
        "a path of no bytes",
        b"PSBSKEL1\0\0\0\x01\0\0\0",
        SkelFault::BadPath,
        13,
    ),
    (
        "a path too long, which is not read",
        b"PSBSKEL1\0\0\0\x01\0\x10\x01a",
        SkelFault::BadPath,
        13,
    ),
    (
        "an invalid path that does not ascend either",
        b"PSBSKEL1\0\0\0\x02\0\0\x01b\0\0\x01.",
        SkelFault::BadPath,
        19,
    ),
    (
        "an unknown kind",
        b"PSBSKEL1\0\0\0\x01\x02\0\x01a",
        SkelFault::BadCount,
        12,
    ),
    (
        "an unknown kind and nothing behind it",
        b"PSBSKEL1\0\0\0\x01\xff",
        SkelFault::BadCount,
        12,
    ),
    (
        "a size too great",
        b"PSBSKEL1\0\0\0\x01\x01\0\x01f\0\0\0\0\0\0\x02Y\0\0\0\x01NNNNNNNNNNNNNNNNNNNNNNNNNNNNNNNNHHHHHHHHHHHHHHHHHHHHHHHHHHHHHHHH\0\0\x02X",
        SkelFault::BadCount,
        16,
    ),
    (
        "a size too small",
        b"PSBSKEL1\0\0\0\x01\x01\0\x01f\0\0\0\0\0\0\x02W\0\0\0\x01NNNNNNNNNNNNNNNNNNNNNNNNNNNNNNNNHHHHHHHHHHHHHHHHHHHHHHHHHHHHHHHH\0\0\x02X",
        SkelFault::BadCount,
        16,
    ),
    (
        "a size and no ref",
        b"PSBSKEL1\0\0\0\x01\x01\0\x01f\0\0\0\0\0\0\0\x01\0\0\0\0",
        SkelFault::BadCount,
        16,
    ),
    (
        "the greatest size and no ref",
        b"PSBSKEL1\0\0\0\x01\x01\0\x01f\xff\xff\xff\xff\xff\xff\xff\xff\0\0\0\0",
        SkelFault::BadCount,
        16,
    ),
    (
        "a sum past 32 bits too great",
        b"PSBSKEL1\0\0\0\x01\x01\0\x01f\0\0\0\x01\0\0\x02X\0\0\0\x01NNNNNNNNNNNNNNNNNNNNNNNNNNNNNNNNHHHHHHHHHHHHHHHHHHHHHHHHHHHHHHHH\0\0\x02X",
        SkelFault::BadCount,
        16,
    ),
    (
        "a ref of length 0",
        b"PSBSKEL1\0\0\0\x01\x01\0\x01f\0\0\0\0\0\0\0\0\0\0\0\x01NNNNNNNNNNNNNNNNNNNNNNNNNNNNNNNNHHHHHHHHHHHHHHHHHHHHHHHHHHHHHHHH\0\0\0\0",
        SkelFault::BadCount,
        92,
    ),
    (
        "a ref of length 32,769",
        b"PSBSKEL1\0\0\0\x01\x01\0\x01f\0\0\0\0\0\0\x80\x01\0\0\0\x01NNNNNNNNNNNNNNNNNNNNNNNNNNNNNNNNHHHHHHHHHHHHHHHHHHHHHHHHHHHHHHHH\0\0\x80\x01",
        SkelFault::BadCount,
        92,
    ),
    (
        "a second ref of the greatest length",
        b"PSBSKEL1\0\0\0\x01\x01\0\x01f\0\0\0\0\0\0\0\x01\0\0\0\x02NNNNNNNNNNNNNNNNNNNNNNNNNNNNNNNNHHHHHHHHHHHHHHHHHHHHHHHHHHHHHHHH\0\0\0\x01NNNNNNNNNNNNNNNNNNNNNNNNNNNNNNNNHHHHHHHHHHHHHHHHHHHHHHHHHHHHHHHH\xff\xff\xff\xff",
        SkelFault::BadCount,
        160,
    ),
    ("nothing", b"", SkelFault::Short, 0),
    ("a mark alone", b"PSBSKEL1", SkelFault::Short, 8),
    (
        "a count and no entry",
        b"PSBSKEL1\0\0\0\x01",
        SkelFault::Short,
        12,
    ),
    (
        "a count too great",
        b"PSBSKEL1\0\0\0\x02\0\0\x01a",
        SkelFault::Short,
        16,
    ),
    (
        "the greatest count",
        b"PSBSKEL1\xff\xff\xff\xff\0\0\x01a",
        SkelFault::Short,
        16,
    ),
    (
        "a handle cut short",
        b"PSBSKEL1\0\0\0\x01\x01\0\x01f\0\0\0\0\0\0\x02X\0\0\0\x01NNNNNNNNNNNNNNNNNNNNNNNNNNNNNNNNHHHHHHHHHHHHHHHHHHHHHHHHHHHH",
        SkelFault::Short,
        60,
    ),
    (
        "more refs than stand there",
        b"PSBSKEL1\0\0\0\x01\x01\0\x01f\0\0\0\0\0\0\x02X\0\0\0\x02NNNNNNNNNNNNNNNNNNNNNNNNNNNNNNNNHHHHHHHHHHHHHHHHHHHHHHHHHHHHHHHH\0\0\x02X",
        SkelFault::Short,
        96,
    ),
    (
        "a count too small",
        b"PSBSKEL1\0\0\0\x01\0\0\x01a\0\0\x01b",
        SkelFault::Trailing,
        16,
    ),
    (
        "one byte more",
        b"PSBSKEL1\0\0\0\x02\0\0\x01a\x01\0\x01b\0\0\0\0\0\0\0\0\0\0\0\0\0",
        SkelFault::Trailing,
        32,
    ),
    (
        "a byte behind no entries",
        b"PSBSKEL1\0\0\0\0x",
        SkelFault::Trailing,
        12,
    ),
];

/// Texts of skeletons, with the number of entries.
const SOUND: [(&str, &[u8], usize); 7] = [
    ("no entries", b"PSBSKEL1\0\0\0\0", 0),
    (
        "a folder and an empty file",
        b"PSBSKEL1\0\0\0\x02\0\0\x01a\x01\0\x01b\0\0\0\0\0\0\0\0\0\0\0\0",
        2,
    ),
    (
        "siblings that stand between a folder and its files",
        b"PSBSKEL1\0\0\0\x03\0\0\x01a\0\0\x03a-b\x01\0\x03a/b\0\0\0\0\0\0\0\0\0\0\0\0",
        3,
    ),
    (
        "folders in folders",
        b"PSBSKEL1\0\0\0\x04\0\0\x01a\0\0\x03a/b\x01\0\x05a/b/c\0\0\0\0\0\0\0\0\0\0\0\0\x01\0\x02a0\0\0\0\0\0\0\0\0\0\0\0\0",
        4,
    ),
    (
        "a file of one ref",
        b"PSBSKEL1\0\0\0\x01\x01\0\x01f\0\0\0\0\0\0\x02X\0\0\0\x01NNNNNNNNNNNNNNNNNNNNNNNNNNNNNNNNHHHHHHHHHHHHHHHHHHHHHHHHHHHHHHHH\0\0\x02X",
        1,
    ),
    (
        "the least and the greatest length",
        b"PSBSKEL1\0\0\0\x01\x01\0\x01f\0\0\0\0\0\0\x80\x01\0\0\0\x02NNNNNNNNNNNNNNNNNNNNNNNNNNNNNNNNHHHHHHHHHHHHHHHHHHHHHHHHHHHHHHHH\0\0\0\x01NNNNNNNNNNNNNNNNNNNNNNNNNNNNNNNNHHHHHHHHHHHHHHHHHHHHHHHHHHHHHHHH\0\0\x80\0",
        1,
    ),
    (
        "three dots, a space and characters of two to four bytes",
        b"PSBSKEL1\0\0\0\x03\0\0\x03...\0\0\x03a b\0\0\x09\xc3\xa9\xe2\x82\xac\xf0\x9f\x98\x80",
        3,
    ),
];

/// Texts that are no refs, with the first fault and its place.
const FAULTY_REFS: [(&str, &[u8], SkelFault, u32); 10] = [
    (
        "one byte less",
        b"PSBREFS1\0\0\0\x01NNNNNNNNNNNNNNNNNNNNNNNNNNNNNNNNHHHHHHHHHHHHHHHHHHHHHHHHHHHHHHHH\0\0\0",
        SkelFault::Short,
        76,
    ),
    (
        "one byte more",
        b"PSBREFS1\0\0\0\x01NNNNNNNNNNNNNNNNNNNNNNNNNNNNNNNNHHHHHHHHHHHHHHHHHHHHHHHHHHHHHHHH\0\0\0\x03\0",
        SkelFault::Trailing,
        80,
    ),
    (
        "the mark of a skeleton",
        b"PSBSKEL1\0\0\0\x01NNNNNNNNNNNNNNNNNNNNNNNNNNNNNNNNHHHHHHHHHHHHHHHHHHHHHHHHHHHHHHHH\0\0\0\x03",
        SkelFault::BadMark,
        0,
    ),
    (
        "a ref of length 0",
        b"PSBREFS1\0\0\0\x01NNNNNNNNNNNNNNNNNNNNNNNNNNNNNNNNHHHHHHHHHHHHHHHHHHHHHHHHHHHHHHHH\0\0\0\0",
        SkelFault::BadCount,
        76,
    ),
    (
        "a second ref of length 32,769",
        b"PSBREFS1\0\0\0\x02NNNNNNNNNNNNNNNNNNNNNNNNNNNNNNNNHHHHHHHHHHHHHHHHHHHHHHHHHHHHHHHH\0\0\0\x01NNNNNNNNNNNNNNNNNNNNNNNNNNNNNNNNHHHHHHHHHHHHHHHHHHHHHHHHHHHHHHHH\0\0\x80\x01",
        SkelFault::BadCount,
        144,
    ),
    ("seven bytes", b"PSBREFS", SkelFault::Short, 0),
    (
        "a count and no ref",
        b"PSBREFS1\0\0\0\x01",
        SkelFault::Short,
        12,
    ),
    (
        "the greatest count",
        b"PSBREFS1\xff\xff\xff\xffNNNNNNNNNNNNNNNNNNNNNNNNNNNNNNNNHHHHHHHHHHHHHHHHHHHHHHHHHHHHHHHH\0\0\0\x03",
        SkelFault::Short,
        80,
    ),
    (
        "no refs and a byte",
        b"PSBREFS1\0\0\0\0\0",
        SkelFault::Trailing,
        12,
    ),
    (
        "a name cut short",
        b"PSBREFS1\0\0\0\x01NNNNNNNNNNNNNNNNNNNNNNNNNNNNNNN",
        SkelFault::Short,
        12,
    ),
];

#[test]
fn the_first_fault_is_told_with_its_place(rt: HostRuntime) {
    for (name, text, fault, place) in FAULTY {
        assert_eq!(rt;
            read_skeleton(rt.alloc(), text).err(),
            bad(fault, place),
            "{name}"
        );
    }
    for (name, text, fault, place) in FAULTY_REFS {
        assert_eq!(rt;
            read_refs(rt.alloc(), text).err(),
            bad(fault, place),
            "{name}"
        );
    }
}

#[test]
fn each_prefix_of_a_text_is_short_where_its_field_begins(rt: HostRuntime) -> Result<(), Fail> {
    let places = [
        0, 0, 0, 0, 0, 0, 0, 0, 8, 8, 8, 8, 12, 13, 13, 15, 16, 17, 17, 19, 20, 20, 20, 20, 20, 20,
        20, 20, 28, 28, 28, 28,
    ];
    for (len, place) in places.iter().enumerate() {
        let front = SMALL.get(..len).ok_or("a prefix")?;
        let answer = read_skeleton(rt.alloc(), front).err();
        assert_eq!(rt; answer, bad(SkelFault::Short, *place), "of {len} bytes");
    }
    Ok(())
}

#[test]
fn a_text_that_is_read_is_written_again(rt: HostRuntime) -> Result<(), Fail> {
    for (name, text, count) in SOUND {
        let skeleton = read_skeleton(rt.alloc(), text)?;
        assert_eq!(rt; skeleton.entries().len(), count, "{name}");
        let again = write_skeleton(rt.alloc(), &skeleton)?;
        assert_eq!(rt; again.as_slice(), text, "{name}");
    }
    let small = read_skeleton(rt.alloc(), SMALL)?;
    let entries = small.entries();
    assert_eq!(rt; entries.len(), 2);
    assert_eq!(rt; entries[0].path.as_str(), "a");
    assert_eq!(rt; entries[0].kind, EntryKind::Folder);
    assert_eq!(rt; entries[1].path.as_str(), "b");
    assert_eq!(rt; entries[1].kind, EntryKind::File);
    assert_eq!(rt; entries[1].size, 0);
    Ok(())
}

#[test]
fn a_path_has_4096_bytes_at_most(rt: HostRuntime) -> Result<(), Fail> {
    for (len, code, fault) in [
        (1, [0, 1], None),
        (4_096, [0x10, 0], None),
        (4_097, [0x10, 1], bad(SkelFault::BadPath, 13)),
    ] {
        let mut text = Vec::from_slice(rt.alloc(), b"PSBSKEL1\0\0\0\x01\0")?;
        text.extend_from_slice(&code)?;
        for _ in 0..len {
            text.push(b'x')?;
        }
        assert_eq!(rt;
            read_skeleton(rt.alloc(), &text).err(),
            fault,
            "of {len} bytes"
        );
    }
    Ok(())
}
