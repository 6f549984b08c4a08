use crate::{Cutter, cut_all};
use psb_bytes::read_digest;
use rand_chacha::ChaCha20Rng;
use rand_core::{Rng, SeedableRng};
use std::alloc::{AllocError, Global};
use std::process::Abort;
use std::test::Fail;

const FIRST_KEY: &str = "6a4e1ce64585e569e79b8d842514738d480345ec28c61576b51c57c8c6052a22";

// The keys of keystreams of ChaCha20, each with the lengths of texts that are cut from its stream 0
// and those of their chunks. All lengths were computed elsewhere, by sums of powers of big integers.
const STREAMS: [(&str, usize, &[usize]); 10] = [
    (FIRST_KEY, 1, &[1]),
    (FIRST_KEY, 2_047, &[2_047]),
    (FIRST_KEY, 2_048, &[2_048]),
    (FIRST_KEY, 2_049, &[2_049]),
    (FIRST_KEY, 32_768, &[27_902, 4_866]),
    (FIRST_KEY, 40_000, &[27_902, 12_098]),
    (
        "94c8c24277eae5177abe0528d827b9ab072840cdbd605b756f3d4e91e6bf706b",
        100_000,
        &[
            3_459, 3_919, 31_780, 6_185, 9_578, 3_522, 9_878, 9_642, 16_930, 5_107,
        ],
    ),
    (
        "6f7f632ae79fe2d76c191381811c063e81afdb5715a7ea45a92630743c674b27",
        300_000,
        &[
            26_788, 26_342, 8_623, 2_080, 26_504, 4_819, 14_035, 22_245, 5_275, 11_543, 2_758,
            19_994, 4_347, 5_743, 3_841, 7_841, 21_314, 5_523, 8_386, 19_993, 2_410, 7_450, 3_652,
            13_636, 5_894, 5_680, 13_284,
        ],
    ),
    (
        "3d857a512ba4216bcd14fceb7717a2c908709297201ff002e6a377ad91983d77",
        65_536,
        &[
            9_896, 2_455, 2_856, 11_164, 6_882, 2_189, 10_643, 9_698, 9_753,
        ],
    ),
    (
        "bb6fc9873bac3d430f46ef812f03bd97994b396fe3821bbd6cb9e8e3fbcccb52",
        1_048_576,
        &[
            11_517, 10_306, 23_254, 4_415, 4_212, 17_061, 6_721, 5_248, 11_661, 4_592, 10_447,
            3_245, 6_362, 2_276, 32_768, 8_051, 2_262, 6_318, 28_466, 10_569, 4_772, 8_976, 3_140,
            4_396, 4_388, 4_932, 13_713, 6_057, 9_702, 7_358, 3_220, 12_825, 15_298, 7_845, 4_929,
            3_783, 2_229, 7_147, 7_485, 11_838, 22_507, 4_429, 12_446, 3_023, 17_735, 6_965,
            21_414, 10_470, 4_585, 5_721, 2_456, 12_770, 21_412, 3_546, 2_590, 15_422, 30_776,
            10_116, 8_103, 4_741, 3_581, 24_434, 9_247, 7_524, 5_174, 12_213, 25_186, 14_198,
            7_038, 18_954, 4_173, 2_389, 4_248, 7_661, 15_196, 3_099, 7_700, 14_718, 5_479, 8_260,
            3_522, 32_768, 13_913, 8_931, 17_202, 13_126, 6_197, 12_580, 6_449, 3_182, 17_825,
            9_995, 6_549, 3_170, 12_279, 4_100, 4_815, 13_467, 4_931, 7_599, 3_259, 4_512, 13_226,
            11_726, 6_377, 4_097, 9_166, 13_783, 3_719, 628,
        ],
    ),
];

// Lengths of texts of zero bytes, and those of their chunks. No window of zeros ends at an anchor.
const ZEROS: [(usize, &[usize]); 10] = [
    (0, &[]),
    (1, &[1]),
    (2_047, &[2_047]),
    (2_048, &[2_048]),
    (32_767, &[32_767]),
    (32_768, &[32_768]),
    (32_769, &[32_768, 1]),
    (40_000, &[32_768, 7_232]),
    (65_536, &[32_768, 32_768]),
    (65_537, &[32_768, 32_768, 1]),
];

// 48 bytes whose fingerprint leaves 4,095 of 8,192, found elsewhere.
const ANCHOR: [u8; 48] = [
    0x21, 0x86, 0x45, 0x70, 0xcf, 0xcb, 0x47, 0x85, 0x9d, 0xf8, 0xef, 0x78, 0x77, 0x35, 0x54, 0xd0,
    0xa2, 0x62, 0xda, 0x3e, 0x79, 0x01, 0x6c, 0x70, 0x55, 0x57, 0xb6, 0x00, 0xec, 0x71, 0xa5, 0xad,
    0x41, 0x43, 0xc7, 0x3e, 0xed, 0xe4, 0xef, 0xbe, 0x7f, 0xf5, 0x50, 0x49, 0xf9, 0x09, 0xb8, 0xa6,
];

// The places that the anchor ends at among 40,000 zero bytes, and the lengths of the chunks then.
const ANCHORS: [(usize, &[usize]); 8] = [
    (47, &[32_768, 7_232]),
    (48, &[32_768, 7_232]),
    (2_047, &[32_768, 7_232]),
    (2_048, &[2_048, 32_768, 5_184]),
    (2_049, &[2_049, 32_768, 5_183]),
    (32_767, &[32_767, 7_233]),
    (32_768, &[32_768, 7_232]),
    (32_769, &[32_768, 7_232]),
];

// Sizes of the pieces that texts are pushed in beside one piece, long texts in the greatest alone.
const PIECES: [usize; 8] = [1, 7, 47, 48, 49, 2_047, 2_048, 65_536];

// The first bytes of a keystream.
fn keystream(alloc: Global, key: &str, len: usize) -> Result<Vec<u8>, Fail> {
    let key = read_digest(key).ok_or("64 digits")?;
    let mut text = vec![in alloc; 0; len]?;
    ChaCha20Rng::from_seed(key.0).fill_bytes(text.as_mut_slice());
    Ok(text)
}

// Zero bytes, with the anchor so that it ends at this place.
fn with_anchor(alloc: Global, end: usize) -> Result<Vec<u8>, AllocError> {
    let mut text = vec![in alloc; 0; 40_000]?;
    for (place, byte) in text.iter_mut().enumerate() {
        let from_end = end.saturating_sub(place);
        *byte = match 48usize.checked_sub(from_end) {
            Some(i) => ANCHOR.get(i).copied().unwrap_or(0),
            None => 0,
        };
    }
    Ok(text)
}

// The lengths that the pushes of a text and a finish answer.
fn pushed(alloc: Global, cutter: &mut Cutter, text: &[u8]) -> Result<Vec<usize>, AllocError> {
    let mut lens = Vec::new(alloc);
    for byte in text {
        if let Some(len) = cutter.push(*byte) {
            lens.push(len as usize)?;
        }
    }
    if let Some(len) = cutter.finish() {
        lens.push(len as usize)?;
    }
    Ok(lens)
}

// The lengths that its runs and a finish answer, where the text comes in pieces of one size.
fn run_through(
    alloc: Global,
    cutter: &mut Cutter,
    text: &[u8],
    size: usize,
) -> Result<Vec<usize>, AllocError> {
    let mut lens = Vec::new(alloc);
    let mut len: usize = 0;
    for piece in text.chunks(size.max(1)) {
        let mut rest = piece;
        for _ in 0..u64::MAX {
            if rest.is_empty() {
                break;
            }
            let run = cutter.push_to_cut(rest);
            len = len.wrapping_add(run.len);
            if run.ends {
                lens.push(len)?;
                len = 0;
            }
            rest = &rest[run.len..];
        }
    }
    if let Some(len) = cutter.finish() {
        lens.push(len as usize)?;
    }
    Ok(lens)
}

// Cuts the text at once, byte by byte and in pieces, and compares the lengths of its chunks.
fn assert_lens(
    rt: &impl Abort,
    alloc: Global,
    cutter: &mut Cutter,
    text: &[u8],
    want: &[usize],
) -> Result<(), Fail> {
    let mut lens = Vec::new(alloc);
    let mut end: usize = 0;
    for span in &cut_all(alloc, text)? {
        assert_eq!(rt; span.start, end, "of {} bytes", text.len());
        end = end.wrapping_add(span.len);
        lens.push(span.len)?;
    }
    assert_eq!(rt; end, text.len());
    assert_eq!(rt; lens.as_slice(), want, "of {} bytes", text.len());
    let lens = pushed(alloc, cutter, text)?;
    assert_eq!(rt; lens.as_slice(), want, "pushed, of {} bytes", text.len());
    for size in PIECES {
        if size < 2_047 && text.len() > 100_000 {
            continue;
        }
        let lens = run_through(alloc, cutter, text, size)?;
        assert_eq!(rt;
            lens.as_slice(),
            want,
            "in pieces of {size}, of {} bytes",
            text.len()
        );
    }
    Ok(())
}

#[test]
fn keystreams_are_cut_where_big_integers_cut_them(rt: HostRuntime) -> Result<(), Fail> {
    let mut cutter = Cutter::new(rt.alloc())?;
    for (key, len, want) in STREAMS {
        let text = keystream(rt.alloc(), key, len)?;
        assert_lens(&rt, rt.alloc(), &mut cutter, text.as_slice(), want)?;
    }
    Ok(())
}

#[test]
fn zeros_are_cut_by_length_alone(rt: HostRuntime) -> Result<(), Fail> {
    let mut cutter = Cutter::new(rt.alloc())?;
    for (len, want) in ZEROS {
        let text = vec![in rt.alloc(); 0; len]?;
        assert_lens(&rt, rt.alloc(), &mut cutter, text.as_slice(), want)?;
    }
    Ok(())
}

#[test]
fn an_anchor_cuts_from_2_048_bytes_on(rt: HostRuntime) -> Result<(), Fail> {
    let mut cutter = Cutter::new(rt.alloc())?;
    for (end, want) in ANCHORS {
        let text = with_anchor(rt.alloc(), end)?;
        assert_lens(&rt, rt.alloc(), &mut cutter, text.as_slice(), want)?;
    }
    Ok(())
}

#[test]
fn a_finished_cutter_is_as_new(rt: HostRuntime) -> Result<(), Fail> {
    let mut cutter = Cutter::new(rt.alloc())?;
    assert_eq!(rt; cutter.finish(), None);
    assert_eq!(rt; cutter.push(7), None);
    assert_eq!(rt; cutter.finish(), Some(1));
    assert_eq!(rt; cutter.finish(), None);
    let text = vec![in rt.alloc(); 0; 2_047]?;
    for round in 0..3u8 {
        let lens = pushed(rt.alloc(), &mut cutter, text.as_slice())?;
        assert_eq!(rt; lens.as_slice(), [2_047].as_slice(), "round {round}");
    }
    Ok(())
}
