use change_codec::{ChangeError, decode_change, encode_change};
use psb_bytes::{Digest, Memory};
use psb_model::Change;
use std::alloc::Global;
use std::test::Fail;

const SETTINGS: &[u8; 274] =
    b"id = 1\naddress = \"127.0.0.1:7001\"\nseed = \"000102030405060708090a0b0c0d0e0f101112131415161718191a1b1c1d1e1f\"\ncapacity = 64\nbuddies = 2\nforward = true\n[[peer]]\nid = 2\naddress = \"127.0.0.1:7002\"\nkey = \"202122232425262728292a2b2c2d2e2f303132333435363738393a3b3c3d3e3f\"\nhops = 0\n";

const BEGUN: [u8; 1] = [1];

/// Peer 2 stored 512 bytes as its deal 1, against slot 0.
const FRESH: [u8; 54] = [
    5, 0, 0, 0, 2, 0, 0, 0, 0, 0, 0, 0, 1, 0xd8, 0x6e, 0x38, 0x62, 0x78, 0xa7, 0x17, 0x82, 0xa2,
    0x83, 0xf9, 0x6a, 0xae, 0x4f, 0x4e, 0x74, 0x37, 0x47, 0x1a, 0xbe, 0xf7, 0x11, 0x36, 0xbd, 0x27,
    0x11, 0xf9, 0x82, 0x45, 0x48, 0x8d, 0x89, 0, 0, 0, 0, 0, 0, 2, 0, 1,
];

/// A deal 2 of peer 2 was refused as Full, with 1 unit in use.
const REFUSED: [u8; 22] = [
    10, 0, 0, 0, 2, 0, 0, 0, 0, 0, 0, 0, 2, 8, 0, 0, 0, 0, 0, 0, 0, 1,
];

/// Peer 2 stored a chunk of 600 bytes as its deal 3, in the place of the slots 5 and 7.
const SWAP: [u8; 62] = [
    6, 0, 0, 0, 2, 0, 0, 0, 0, 0, 0, 0, 3, 9, 9, 9, 9, 9, 9, 9, 9, 9, 9, 9, 9, 9, 9, 9, 9, 9, 9, 9,
    9, 9, 9, 9, 9, 9, 9, 9, 9, 9, 9, 9, 9, 0, 0, 0, 2, 0, 0, 0, 5, 0, 0, 0, 7, 0, 0, 2, 88, 0,
];

/// Peer 2 took a chunk back as its deal 4, against slot 256.
const LET_GO: [u8; 53] = [
    7, 0, 0, 0, 2, 0, 0, 0, 0, 0, 0, 0, 4, 9, 9, 9, 9, 9, 9, 9, 9, 9, 9, 9, 9, 9, 9, 9, 9, 9, 9, 9,
    9, 9, 9, 9, 9, 9, 9, 9, 9, 9, 9, 9, 9, 0, 0, 0, 1, 0, 0, 1, 0,
];

/// Peer 2 took a chunk back as its deal 4, and put a claim into slot 256.
const PUT_BACK: [u8; 53] = [
    8, 0, 0, 0, 2, 0, 0, 0, 0, 0, 0, 0, 4, 9, 9, 9, 9, 9, 9, 9, 9, 9, 9, 9, 9, 9, 9, 9, 9, 9, 9, 9,
    9, 9, 9, 9, 9, 9, 9, 9, 9, 9, 9, 9, 9, 0, 0, 0, 1, 0, 0, 1, 0,
];

/// Chunk 9 was proposed to peer 2 as deal 1: against new slots, in the place of slot 256, to be given
/// up for it, and to be put back as claims from 256 on.
const PLACED: [u8; 46] = [
    11, 0, 0, 0, 2, 0, 0, 0, 0, 0, 0, 0, 1, 1, 9, 9, 9, 9, 9, 9, 9, 9, 9, 9, 9, 9, 9, 9, 9, 9, 9,
    9, 9, 9, 9, 9, 9, 9, 9, 9, 9, 9, 9, 9, 9, 9,
];

const PLACED_IN_SLOTS: [u8; 54] = [
    11, 0, 0, 0, 2, 0, 0, 0, 0, 0, 0, 0, 1, 2, 9, 9, 9, 9, 9, 9, 9, 9, 9, 9, 9, 9, 9, 9, 9, 9, 9,
    9, 9, 9, 9, 9, 9, 9, 9, 9, 9, 9, 9, 9, 9, 9, 0, 0, 0, 1, 0, 0, 1, 0,
];

const CANCELLED: [u8; 54] = [
    11, 0, 0, 0, 2, 0, 0, 0, 0, 0, 0, 0, 1, 3, 9, 9, 9, 9, 9, 9, 9, 9, 9, 9, 9, 9, 9, 9, 9, 9, 9,
    9, 9, 9, 9, 9, 9, 9, 9, 9, 9, 9, 9, 9, 9, 9, 0, 0, 0, 1, 0, 0, 1, 0,
];

const TO_PUT_BACK: [u8; 50] = [
    11, 0, 0, 0, 2, 0, 0, 0, 0, 0, 0, 0, 1, 4, 9, 9, 9, 9, 9, 9, 9, 9, 9, 9, 9, 9, 9, 9, 9, 9, 9,
    9, 9, 9, 9, 9, 9, 9, 9, 9, 9, 9, 9, 9, 9, 9, 0, 0, 1, 0,
];

/// Peer 2 settled deal 1 with a claim in slot 256.
const SETTLED: [u8; 21] = [
    12, 0, 0, 0, 2, 0, 0, 0, 0, 0, 0, 0, 1, 0, 0, 0, 1, 0, 0, 1, 0,
];

/// Peer 2 turned deal 1 down as Full, with 1 unit in use.
const TURNED: [u8; 22] = [
    13, 0, 0, 0, 2, 0, 0, 0, 0, 0, 0, 0, 1, 8, 0, 0, 0, 0, 0, 0, 0, 1,
];

/// Peer 2 was chosen, which has 3 of 4 sampled names, at 5 hops.
const CHOSE: [u8; 21] = [
    19, 0, 0, 0, 1, 0, 0, 0, 2, 0, 0, 0, 3, 0, 0, 0, 4, 0, 0, 0, 5,
];

/// Peer 2 put a claim into slot 18 as its deal 11.
const REPLACED: [u8; 22] = [
    9, 0, 0, 0, 2, 0, 0, 0, 0, 0, 0, 0, 11, 0, 0, 0, 18, 0, 0, 0, 0, 0,
];

/// Peer 1 replaced slot 45 as its deal 6 by one that stands elsewhere.
const REPLACED_ELSEWHERE: [u8; 22] = [
    9, 0, 0, 0, 1, 0, 0, 0, 0, 0, 0, 0, 6, 0, 0, 0, 45, 1, 0, 0, 0, 0,
];

/// Slot 4 was proposed to peer 2 as deal 1, to be forwarded to slot 5 of peer 3.
const FORWARDED: [u8; 26] = [
    11, 0, 0, 0, 2, 0, 0, 0, 0, 0, 0, 0, 1, 5, 0, 0, 0, 4, 0, 0, 0, 3, 0, 0, 0, 5,
];

/// Slot 6 was proposed to peer 1 as deal 4, to be returned.
const RETURNED: [u8; 18] = [11, 0, 0, 0, 1, 0, 0, 0, 0, 0, 0, 0, 4, 6, 0, 0, 0, 6];

/// Peer 3 was asked for the slots 1, 2 and 0.
const ASKED: [u8; 24] = [
    14, 0, 0, 0, 3, 0, 0, 0, 3, 1, 0, 0, 0, 1, 1, 0, 0, 0, 2, 1, 0, 0, 0, 0,
];

/// Peer 3 has the slots 14 and 10, as it was asked in change 24.
const PASSED: [u8; 27] = [
    15, 0, 0, 0, 3, 0, 0, 0, 0, 0, 0, 0, 24, 0, 0, 0, 2, 1, 0, 0, 0, 14, 1, 0, 0, 0, 10,
];

/// Peer 2 lacks slot 2, as it was asked in change 23.
const FAILED: [u8; 55] = [
    16, 0, 0, 0, 2, 0, 0, 0, 0, 0, 0, 0, 23, 0, 0, 0, 0, 0, 0, 0, 0, 0, 0, 0, 0, 0, 0, 0, 0, 0, 0,
    0, 0, 0, 0, 0, 0, 0, 0, 0, 0, 0, 0, 0, 0, 0, 0, 0, 0, 1, 1, 0, 0, 0, 2,
];

/// Peer 1 declined the places 0 and 2 of what change 11 asked.
const DECLINED: [u8; 21] = [
    17, 0, 0, 0, 1, 0, 0, 0, 0, 0, 0, 0, 11, 0, 0, 0, 2, 0, 0, 0, 2,
];

/// Nothing of peer 1 was discarded.
const DISCARDED: [u8; 9] = [18, 0, 0, 0, 1, 0, 0, 0, 0];

/// The same bytes, kept as an own chunk.
const KEPT: [u8; 38] = [
    2, 0xd8, 0x6e, 0x38, 0x62, 0x78, 0xa7, 0x17, 0x82, 0xa2, 0x83, 0xf9, 0x6a, 0xae, 0x4f, 0x4e,
    0x74, 0x37, 0x47, 0x1a, 0xbe, 0xf7, 0x11, 0x36, 0xbd, 0x27, 0x11, 0xf9, 0x82, 0x45, 0x48, 0x8d,
    0x89, 0, 0, 2, 0, 1,
];

/// Snapshot 1 was forgotten.
const FORGOT: [u8; 5] = [4, 0, 0, 0, 1];

/// Snapshot 1 of 3 files in 2 folders, with 256 bytes and two names; one file was left out.
fn snapped(alloc: Global) -> Result<Vec<u8>, Memory> {
    let parts: [&[u8]; 13] = [
        &[3],
        &[0, 0, 0, 1],
        &[4; 32],
        &[5; 32],
        &[0, 0, 2, 0],
        &[1],
        &[0, 0, 0, 3],
        &[0, 0, 0, 2],
        &[0, 0, 0, 0, 0, 0, 1, 0],
        &[0, 0, 0, 1],
        &[0, 0, 0, 2],
        &[6; 32],
        &[7; 32],
    ];
    let mut head = Vec::new(alloc);
    for part in parts {
        head.extend_from_slice(part)?;
    }
    Ok(head)
}

/// The bytes that the peer stored: 0 to 250, over and over.
fn stored() -> [u8; 512] {
    let mut bytes = [0; 512];
    for (i, byte) in bytes.iter_mut().enumerate() {
        *byte = (i % 251) as u8;
    }
    bytes
}

#[test]
fn records_of_a_first_path_are_read_and_written(rt: HostRuntime) -> Result<(), Fail> {
    let stored = stored();
    let snapped = snapped(rt.alloc())?;
    let records: [(&[u8], &[u8]); 9] = [
        (&BEGUN, SETTINGS),
        (&KEPT, &stored),
        (snapped.as_slice(), &[]),
        (&FORGOT, &[]),
        (&FRESH, &stored),
        (&SWAP, &[]),
        (&LET_GO, &[]),
        (&PUT_BACK, &stored),
        (&REFUSED, &[]),
    ];
    for (head, body) in records {
        let c = decode_change(rt.alloc(), head, Some(body))?;
        assert_eq!(rt; encode_change(rt.alloc(), &c)?.as_slice(), head);
        assert_eq!(rt; c.body().unwrap_or(&[]), body);
    }
    Ok(())
}

#[test]
fn the_fields_of_a_stored_chunk_are_those_of_its_head(rt: HostRuntime) -> Result<(), Fail> {
    let change = decode_change(rt.alloc(), &FRESH, None)?;
    match &change {
        Change::TookFresh(x) => {
            assert_eq!(rt;
                (x.peer.0, x.deal, x.name.0[0], x.first, x.len, x.new),
                (2, 1, 0xd8, 0, 512, true)
            );
            assert!(rt; x.body.is_none());
        }
        _ => assert!(rt; false, "another kind"),
    }
    Ok(())
}

#[test]
fn the_fields_of_a_snapshot_are_those_of_its_head(rt: HostRuntime) -> Result<(), Fail> {
    let head = snapped(rt.alloc())?;
    let change = decode_change(rt.alloc(), head.as_slice(), None)?;
    match &change {
        Change::Snapped(x) => {
            assert_eq!(rt;
                (x.number, x.files, x.folders, x.bytes, x.left),
                (1, 3, 2, 256, 1)
            );
            let reference = &x.ticket.reference;
            assert_eq!(rt;
                (
                    reference.name.0[0],
                    reference.handle.0[0],
                    reference.len,
                    x.ticket.levels
                ),
                (4, 5, 512, 1)
            );
            assert!(rt;
                x.names
                    .as_slice()
                    .iter()
                    .eq(&[Digest([6; 32]), Digest([7; 32])])
            );
        }
        _ => assert!(rt; false, "another kind"),
    }
    Ok(())
}

#[test]
fn a_snapshot_outside_the_grammar_is_none(rt: HostRuntime) -> Result<(), Fail> {
    let bytes = [
        ("a ticket of no length", 71, 0),
        ("5 levels", 73, 5),
        ("a name too few", 97, 3),
        ("a name too many", 97, 1),
        ("names for more memory than there is", 94, 0xff),
    ];
    for (what, place, byte) in bytes {
        let mut head = snapped(rt.alloc())?;
        if place < head.len() {
            head[place] = byte;
        }
        let answer = decode_change(rt.alloc(), head.as_slice(), None).err();
        assert_eq!(rt; answer, Some(ChangeError::BadHead), "{what}");
    }
    Ok(())
}

#[test]
fn a_head_that_is_cut_or_longer_is_none(rt: HostRuntime) -> Result<(), Fail> {
    let stored = stored();
    let snapped = snapped(rt.alloc())?;
    let records: [(&[u8], &[u8]); 9] = [
        (&BEGUN, SETTINGS),
        (&KEPT, &stored),
        (snapped.as_slice(), &[]),
        (&FORGOT, &[]),
        (&FRESH, &stored),
        (&SWAP, &[]),
        (&LET_GO, &[]),
        (&PUT_BACK, &stored),
        (&REFUSED, &[]),
    ];
    for (head, body) in records {
        for end in 0..head.len() {
            let cut = decode_change(rt.alloc(), &head[..end], Some(body)).err();
            assert_eq!(rt; cut, Some(ChangeError::BadHead), "{end} bytes");
        }
        let mut longer = head.to_vec(rt.alloc())?;
        longer.push(0)?;
        let long = decode_change(rt.alloc(), longer.as_slice(), Some(body)).err();
        assert_eq!(rt; long, Some(ChangeError::BadHead));
    }
    Ok(())
}

#[test]
fn slots_outside_the_grammar_are_none(rt: HostRuntime) {
    let bytes = [
        ("slots that do not ascend", 56, 5),
        ("a slot too many", 48, 1),
        ("a slot too few", 48, 3),
        ("slots for more memory than there is", 45, 0xff),
        ("length 0", 59, 0),
        ("flag 2", 61, 2),
    ];
    for (what, place, byte) in bytes {
        let mut head = SWAP;
        if place < 62 {
            head[place] = byte;
        }
        if place == 59 {
            head[60] = byte;
        }
        let answer = decode_change(rt.alloc(), &head, None).err();
        assert_eq!(rt; answer, Some(ChangeError::BadHead), "{what}");
    }
    let odd = decode_change(rt.alloc(), &LET_GO, Some(&[0])).err();
    assert_eq!(rt; odd, Some(ChangeError::BadHead), "a cancel with a body");
    let short = decode_change(rt.alloc(), &PUT_BACK, Some(&[0; 511])).err();
    assert_eq!(rt; short, Some(ChangeError::BadHead), "claims of 511 bytes");
}

/// A head with another byte at a place.
fn with(head: &[u8; 54], place: usize, byte: u8) -> [u8; 54] {
    let mut other = *head;
    if place < 54 {
        other[place] = byte;
    }
    other
}

#[test]
fn fields_and_bodies_outside_the_grammar_are_none(rt: HostRuntime) {
    let stored = stored();
    let whole: &[u8] = &stored;
    let heads = [
        ("kind 9", with(&FRESH, 0, 9), Some(whole)),
        ("flag 2", with(&FRESH, 53, 2), Some(whole)),
        (
            "held already, with a body",
            with(&FRESH, 53, 0),
            Some(whole),
        ),
        ("length 0", with(&FRESH, 51, 0), None),
        ("length 33,280", with(&FRESH, 51, 130), None),
        ("a body of 511 bytes", FRESH, Some(&whole[1..])),
    ];
    for (what, head, body) in heads {
        let answer = decode_change(rt.alloc(), &head, body).err();
        assert_eq!(rt; answer, Some(ChangeError::BadHead), "{what}");
    }
    let lost = decode_change(rt.alloc(), &BEGUN, None).err();
    assert_eq!(rt;
        lost,
        Some(ChangeError::BadHead),
        "a beginning without its text"
    );
    let odd = decode_change(rt.alloc(), &REFUSED, Some(&[0])).err();
    assert_eq!(rt; odd, Some(ChangeError::BadHead), "a refusal with a body");
    assert!(rt;
        decode_change(rt.alloc(), &REFUSED, None).is_ok(),
        "a refusal whose empty body was given up"
    );
}

#[test]
fn records_of_own_deals_are_read_and_written(rt: HostRuntime) -> Result<(), Fail> {
    let stored = stored();
    let records: [(&[u8], &[u8]); 7] = [
        (&PLACED, &[]),
        (&PLACED_IN_SLOTS, &[]),
        (&CANCELLED, &[]),
        (&TO_PUT_BACK, &[]),
        (&SETTLED, &stored),
        (&TURNED, &[]),
        (&CHOSE, &[]),
    ];
    for (head, body) in records {
        let c = decode_change(rt.alloc(), head, Some(body))?;
        assert_eq!(rt; encode_change(rt.alloc(), &c)?.as_slice(), head);
        assert_eq!(rt; c.body().unwrap_or(&[]), body);
    }
    Ok(())
}

/// The records of deals that are forwarded or returned, of slots that are replaced, and of questions.
fn later_kinds(stored: &[u8; 512]) -> [(&[u8], &[u8]); 9] {
    [
        (&REPLACED, stored),
        (&REPLACED_ELSEWHERE, &[]),
        (&FORWARDED, &[]),
        (&RETURNED, &[]),
        (&ASKED, &[]),
        (&PASSED, &[]),
        (&FAILED, &[]),
        (&DECLINED, &[]),
        (&DISCARDED, &[]),
    ]
}

#[test]
fn records_of_the_later_kinds_are_read_and_written(rt: HostRuntime) -> Result<(), Fail> {
    let stored = stored();
    for (head, body) in later_kinds(&stored) {
        let c = decode_change(rt.alloc(), head, Some(body))?;
        assert_eq!(rt; encode_change(rt.alloc(), &c)?.as_slice(), head);
        assert_eq!(rt; c.body().unwrap_or(&[]), body);
        for end in 0..head.len() {
            let cut = decode_change(rt.alloc(), &head[..end], Some(body)).err();
            assert_eq!(rt; cut, Some(ChangeError::BadHead), "{end} bytes");
        }
    }
    Ok(())
}

#[test]
fn objects_and_places_outside_the_grammar_are_none(rt: HostRuntime) {
    let mut twice = ASKED;
    twice[23] = 1;
    let again = decode_change(rt.alloc(), &twice, None).err();
    assert_eq!(rt; again, Some(ChangeError::BadHead), "an object twice");
    let mut other = ASKED;
    other[9] = 2;
    let neither = decode_change(rt.alloc(), &other, None).err();
    assert_eq!(rt;
        neither,
        Some(ChangeError::BadHead),
        "neither a chunk nor a slot"
    );
    let mut equal = DECLINED;
    equal[20] = 0;
    let same = decode_change(rt.alloc(), &equal, None).err();
    assert_eq!(rt; same, Some(ChangeError::BadHead), "a place twice");
    let short = decode_change(rt.alloc(), &REPLACED, Some(&[])).err();
    assert_eq!(rt; short, Some(ChangeError::BadHead), "a claim of no bytes");
}
