//! Frames that another program made, and what becomes of them when they are cut or altered.
use super::{KEY, NAME, NONCE, digest, keys, pattern, put_hex, why_dropped};
use crate::{BodyView, CLAIM_BYTES, Dropped, MOST_FRAME_BYTES, decode, encode};
use psb_bytes::{Digest, Object, PeerId};
use std::alloc::Global;
use std::test::Fail;

/// A frame from node 2 to node 1 that another program made: its number, its length, and its bytes,
/// as parts of hexadecimal digits that a pattern of so many bytes follows.
type KnownFrame = (u64, usize, &'static [(&'static str, usize)]);

const FRAMES: [KnownFrame; 19] = [
    // Store
    (
        1,
        610,
        &[
            (
                "50534231010000000000000200000001000000000000000100000226d86e386278a71782a283f96aae4f4e7437471abef71136bd2811f98245488d89000000000200",
                512,
            ),
            (
                "bb6b93d7973158b01362d52bb76a8d483a1320d18fd4ff531472453c280af892",
                0,
            ),
        ],
    ),
    // Store
    (
        2,
        111,
        &[(
            "5053423101000000000000020000000100000000000000020000003382a3537ff0dbce7eec35d69edc3a189ee6f17d82f353a553f9aa96cb0be3ce8900030000000000000007ffffffff0000000178d93a21f01c44cc361a82de80204a9f32b67a20660334856f3a31a76eccc4f4a4",
            0,
        )],
    ),
    // Cancel
    (
        3,
        99,
        &[(
            "5053423102000000000000020000000100000000000000030000002782a3537ff0dbce7eec35d69edc3a189ee6f17d82f353a553f9aa96cb0be3ce89000001000000037eb67953ee0afb77cf12428d070e738d036c00e169c3c9fda210513143181168",
            0,
        )],
    ),
    // PutBack
    (
        4,
        611,
        &[
            (
                "5053423102000000000000020000000100000000000000040000022782a3537ff0dbce7eec35d69edc3a189ee6f17d82f353a553f9aa96cb0be3ce8901000100000009",
                512,
            ),
            (
                "4dcccd4325c146fe1e0c15fc69ab804a01dafd4691606927c2357d645d1fcc50",
                0,
            ),
        ],
    ),
    // Replace
    (
        5,
        576,
        &[
            (
                "5053423103000000000000020000000100000000000000050000020400000005",
                512,
            ),
            (
                "aff5e3846083be27684158bd3a5d9a91d3dc4e45d59b0dac64f128e02ad381c7",
                0,
            ),
        ],
    ),
    // Accepted
    (
        6,
        62,
        &[(
            "50534231040000000000000200000001000000000000000600000002000032c42aef90dcd45aac9400f92d0ea2a33f293763d6747deecdc7317922faf19a",
            0,
        )],
    ),
    // Accepted
    (
        7,
        1094,
        &[
            (
                "5053423104000000000000020000000100000000000000070000040a000200000000",
                512,
            ),
            ("00000001", 512),
            (
                "6c7dd36fb4429507ba1d6f1aa125b0c4cdb773e16947e0bb59520f0ec7048be8",
                0,
            ),
        ],
    ),
    // Refused
    (
        8,
        69,
        &[(
            "5053423105000000000000020000000100000000000000080000000908000000000000003f1854e29d5da7ce095e5b44bc478929cba09fbedd9ebc0842d0cf8cd834bc0703",
            0,
        )],
    ),
    // Refused
    (
        9,
        69,
        &[(
            "5053423105000000000000020000000100000000000000090000000901ffffffffffffffff4daf8b8e417a060a8c72f51a81c55262ee505b0c6b6802d4efe23b5c6aecb864",
            0,
        )],
    ),
    // Declined
    (
        10,
        98,
        &[(
            "50534231060000000000000200000001000000000000000a0000002663479ad69a090b258277ec8fba6f99419a2ffb248981510657c944ccd1148e9700020000001ff4751b13513b00b7beda9b2db3c84248188e8459f94a1ad91badc0a7f6bf3613",
            0,
        )],
    ),
    // Get
    (
        11,
        92,
        &[(
            "50534231070000000000000200000001000000000000000b0000002082a3537ff0dbce7eec35d69edc3a189ee6f17d82f353a553f9aa96cb0be3ce897f27e6a1bda38226dba1af8f18ee6c8bddd32f2128db88282f2678c08370511d",
            0,
        )],
    ),
    // Here
    (
        12,
        96,
        &[(
            "50534231080000000000000200000001000000000000000c0000002482a3537ff0dbce7eec35d69edc3a189ee6f17d82f353a553f9aa96cb0be3ce89000000003d445fe9d64b8f8cc0bb65e849a12ec281463dde9b21e881706df37e5ec24491",
            0,
        )],
    ),
    // Here
    (
        13,
        608,
        &[
            (
                "50534231080000000000000200000001000000000000000d0000022482a3537ff0dbce7eec35d69edc3a189ee6f17d82f353a553f9aa96cb0be3ce8900000200",
                512,
            ),
            (
                "29578e1e9bacc7d4fe26428b4f2e6d77bd207423d267c7fa11e38bb00546f556",
                0,
            ),
        ],
    ),
    // Probe
    (
        14,
        132,
        &[(
            "50534231090000000000000200000001000000000000000e0000004863479ad69a090b258277ec8fba6f99419a2ffb248981510657c944ccd1148e9700020082a3537ff0dbce7eec35d69edc3a189ee6f17d82f353a553f9aa96cb0be3ce89010000000495ef62a54567c985cf5a7133ea7030cb3eea2b2adc5d5e51b40911face2e82b1",
            0,
        )],
    ),
    // Proof
    (
        15,
        124,
        &[(
            "505342310a0000000000000200000001000000000000000f0000004063479ad69a090b258277ec8fba6f99419a2ffb248981510657c944ccd1148e9782a3537ff0dbce7eec35d69edc3a189ee6f17d82f353a553f9aa96cb0be3ce89105e6f47834b8785c6f409e66e5a7a065a35e3de2a23cd4559874ba523a74102",
            0,
        )],
    ),
    // Ask
    (
        16,
        158,
        &[(
            "505342310b000000000000020000000100000000000000100000006263479ad69a090b258277ec8fba6f99419a2ffb248981510657c944ccd1148e97000282a3537ff0dbce7eec35d69edc3a189ee6f17d82f353a553f9aa96cb0be3ce8963479ad69a090b258277ec8fba6f99419a2ffb248981510657c944ccd1148e97f253954b188f5a60d2c8b4b427b427e74b73a8a1b03f1df95c75a5200b6471ad",
            0,
        )],
    ),
    // Sample
    (
        17,
        96,
        &[(
            "505342310c000000000000020000000100000000000000110000002463479ad69a090b258277ec8fba6f99419a2ffb248981510657c944ccd1148e9700000005ac63db55e64aeed66c4c1222cdf322bd0bfd03a902d8815ff5aea9a7d595b7ff",
            0,
        )],
    ),
    // Refused
    (
        18,
        69,
        &[(
            "50534231050000000000000200000001000000000000001200000009090000000000000000ad61405c1f658871650ab54358eb42ec6443068eddf23a45f109b5629b337aa6",
            0,
        )],
    ),
    // Get
    (
        5,
        92,
        &[(
            "5053423107000000000000020000000100000000000000050000002082a3537ff0dbce7eec35d69edc3a189ee6f17d82f353a553f9aa96cb0be3ce89b07aeb9b1873cc723fd56824cbfdfbd68fd67418262d0a56f7fb309c53d7a35a",
            0,
        )],
    ),
];

/// A Store of the most bytes in place of the most slots.
const LONGEST: KnownFrame = (
    19,
    33122,
    &[
        (
            "5053423101000000000000020000000100000000000000130000812682a3537ff0dbce7eec35d69edc3a189ee6f17d82f353a553f9aa96cb0be3ce890040000000000000000100000002000000030000000400000005000000060000000700000008000000090000000a0000000b0000000c0000000d0000000e0000000f000000100000001100000012000000130000001400000015000000160000001700000018000000190000001a0000001b0000001c0000001d0000001e0000001f000000200000002100000022000000230000002400000025000000260000002700000028000000290000002a0000002b0000002c0000002d0000002e0000002f000000300000003100000032000000330000003400000035000000360000003700000038000000390000003a0000003b0000003c0000003d0000003e0000003f00008000",
            32_768,
        ),
        (
            "6f1bfad6f9f009ccc5d6cdbbaf4767449b0f3dfd868496626affb97746542063",
            0,
        ),
    ],
);

fn bytes_of(alloc: Global, parts: &[(&str, usize)]) -> Result<Vec<u8>, Fail> {
    let mut out = Vec::new(alloc);
    for part in parts {
        put_hex(&mut out, part.0)?;
        out.extend_from_slice(&pattern(alloc, part.1)?)?;
    }
    Ok(out)
}

/// Whether a body has the fields that the table's frame of this number has.
fn is_frame(number: u64, body: &BodyView<'_>, name: Digest, nonce: Digest) -> bool {
    match (number, body) {
        (1, BodyView::Store { slots, bytes, .. }) => slots.len() == 0 && bytes.len() == 512,
        (
            2,
            BodyView::Store {
                name: n,
                slots,
                bytes,
            },
        ) => {
            *n == name
                && slots.len() == 3
                && (slots.at(0), slots.at(1), slots.at(2)) == (0, 7, 0xffff_ffff)
                && *bytes == b"x".as_slice()
        }
        (3, BodyView::Cancel { slots, .. }) => slots.len() == 1 && slots.at(0) == 3,
        (4, BodyView::PutBack { claims, .. }) => claims.len() == 1 && claims.at(0).0 == 9,
        (5, BodyView::Replace { slot, bytes }) => *slot == 5 && bytes.len() == CLAIM_BYTES,
        (6, BodyView::Accepted { claims }) => claims.len() == 0,
        (7, BodyView::Accepted { claims }) => {
            claims.len() == 2 && claims.at(1).0 == 1 && claims.at(1).1[511] == 9
        }
        (8, BodyView::Refused { why, detail }) => (*why, *detail) == (8, 63),
        (9, BodyView::Refused { why, detail }) => (*why, *detail) == (1, u64::MAX),
        (10, BodyView::Declined { places, .. }) => places.len() == 2 && places.at(1) == 31,
        (5 | 11, BodyView::Get { name: n }) => *n == name,
        (12, BodyView::Here { bytes, .. }) => bytes.len() == 0,
        (13, BodyView::Here { bytes, .. }) => bytes.len() == 512,
        (14, BodyView::Probe { objects, .. }) => {
            objects.len() == 2
                && objects.at(0) == Object::Chunk(name)
                && objects.at(1) == Object::Slot(4)
        }
        (15, BodyView::Proof { nonce: n, value }) => *n == nonce && *value == name,
        (16, BodyView::Ask { names, .. }) => names.len() == 2 && names.at(1) == nonce,
        (17, BodyView::Sample { bits, .. }) => *bits == 5,
        (18, BodyView::Refused { why, detail }) => (*why, *detail) == (9, 0),
        (19, BodyView::Store { slots, bytes, .. }) => {
            slots.len() == 64 && slots.at(63) == 63 && bytes.len() == 32_768
        }
        _ => false,
    }
}

/// The frame that node 1 reads, written again.
fn written_again(alloc: Global, bytes: &[u8]) -> Result<Vec<u8>, Fail> {
    let view = decode(bytes, PeerId(1), &keys(alloc)?)?;
    let frame = view.body.to_frame(alloc)?;
    let key = digest(KEY)?;
    Ok(encode(alloc, &frame, view.from, PeerId(1), view.number, &key)?)
}

#[test]
fn frames_are_those_of_another_program(rt: HostRuntime) -> Result<(), Fail> {
    let alloc = rt.alloc();
    let keys = keys(alloc)?;
    assert_eq!(rt; LONGEST.1, MOST_FRAME_BYTES);
    for (number, len, parts) in FRAMES.iter().chain(&[LONGEST]) {
        let bytes = bytes_of(alloc, parts)?;
        assert_eq!(rt; bytes.len(), *len, "frame {number}");
        let view = decode(&bytes, PeerId(1), &keys)?;
        assert_eq!(rt; view.from, PeerId(2));
        assert_eq!(rt; view.number, *number);
        assert!(rt;
            is_frame(*number, &view.body, digest(NAME)?, digest(NONCE)?),
            "frame {number}"
        );
        let again = written_again(alloc, &bytes)?;
        assert_eq!(rt; again.as_slice(), bytes.as_slice(), "frame {number}");
    }
    Ok(())
}

#[test]
fn frames_that_are_cut_are_dropped(rt: HostRuntime) -> Result<(), Fail> {
    let keys = keys(rt.alloc())?;
    for (_, _, parts) in &FRAMES {
        let bytes = bytes_of(rt.alloc(), parts)?;
        for len in 0..bytes.len() {
            let want = if len < 60 {
                Dropped::Short
            } else {
                Dropped::BadTag
            };
            assert_eq!(rt;
                decode(&bytes[..len], PeerId(1), &keys).err(),
                Some(want),
                "{len}"
            );
        }
        assert!(rt; bytes.len() >= 60);
        let body = &bytes[28..bytes.len() - 32];
        for len in 0..body.len() {
            let why = why_dropped(rt.alloc(), bytes[4], &body[..len])?;
            assert_eq!(rt; why, Some(Dropped::BadBody), "{len}");
        }
    }
    Ok(())
}

#[test]
fn a_bit_that_is_turned_is_noticed(rt: HostRuntime) -> Result<(), Fail> {
    let keys = keys(rt.alloc())?;
    for (number, _, parts) in &FRAMES {
        let mut bytes = bytes_of(rt.alloc(), parts)?;
        for place in 0..bytes.len() {
            for turned in [1, 2, 4, 8, 16, 32, 64, 128] {
                assert!(rt; place < bytes.len());
                bytes[place] ^= turned;
                assert!(rt;
                    decode(&bytes, PeerId(1), &keys).is_err(),
                    "{turned} of byte {place} of frame {number}"
                );
                bytes[place] ^= turned;
            }
        }
        assert!(rt; decode(&bytes, PeerId(1), &keys).is_ok());
    }
    Ok(())
}
