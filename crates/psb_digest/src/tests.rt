use crate::{Clash, Words, claim_of, hmac, mask, own_words, sha, sha_two};
use psb_bytes::{Digest, read_digest};
use std::test::Fail;

fn digest(text: &str) -> Result<Digest, Fail> {
    Ok(read_digest(text).ok_or("64 digits")?)
}

// The seed 00 01 02 .. 1f.
fn seed() -> Result<Digest, Fail> {
    digest("000102030405060708090a0b0c0d0e0f101112131415161718191a1b1c1d1e1f")
}

#[test]
fn hashes_are_those_of_the_standard(rt: HostRuntime) -> Result<(), Fail> {
    let two_blocks = "abcdbcdecdefdefgefghfghighijhijkijkljklmklmnlmnomnopnopq";
    let rows = [
        (
            "",
            "e3b0c44298fc1c149afbf4c8996fb92427ae41e4649b934ca495991b7852b855",
        ),
        (
            "abc",
            "ba7816bf8f01cfea414140de5dae2223b00361a396177a9cb410ff61f20015ad",
        ),
        (
            two_blocks,
            "248d6a61d20638b8e5c026930c3e6039a33ce45964ff2167f6ecedd419db06c1",
        ),
    ];
    for (message, want) in rows {
        let bytes = message.as_bytes();
        assert_eq!(rt; sha(bytes), digest(want)?, "{message}");
        assert_eq!(rt; sha_two(b"", bytes), digest(want)?, "{message}");
    }
    assert_eq!(rt; sha_two(b"a", b"bc"), sha(b"abc"));
    Ok(())
}

#[test]
fn codes_are_those_of_rfc_4231(rt: HostRuntime) -> Result<(), Fail> {
    let largest = "Test Using Larger Than Block-Size Key - Hash Key First";
    let rows: [(&[u8], &[u8], &str); 4] = [
        (
            &[0x0b; 20],
            b"Hi There",
            "b0344c61d8db38535ca8afceaf0bf12b881dc200c9833da726e9376c2e32cff7",
        ),
        (
            b"Jefe",
            b"what do ya want for nothing?",
            "5bdcc146bf60754e6a042426089575c75a003f089d2739839dec58b964ec3843",
        ),
        (
            &[0xaa; 20],
            &[0xdd; 50],
            "773ea91e36800e46854db8ebd09181a72959098b3ef8c122d9635514ced565fe",
        ),
        (
            &[0xaa; 131],
            largest.as_bytes(),
            "60e431591ee0b67f0d8a26aacbf5b77f8e0bc6213728c5140546040f0ee37f54",
        ),
    ];
    for (key, message, want) in rows {
        assert_eq!(rt; hmac(key, message), digest(want)?, "{want}");
    }
    Ok(())
}

#[test]
fn masks_with_the_keystream_of_the_zero_key(rt: HostRuntime) {
    let key = Digest([0; 32]);
    let mut bytes = [0; 17];
    mask(&key, 0, &mut bytes);
    let want = [
        0x76, 0xb8, 0xe0, 0xad, 0xa0, 0xf1, 0x3d, 0x90, 0x40, 0x5d, 0x6a, 0xe5, 0x53, 0x86, 0xbd,
        0x28, 0xbd,
    ];
    assert_eq!(rt; bytes, want);
    mask(&key, 0, &mut bytes);
    assert_eq!(rt; bytes, [0; 17]);
    assert_eq!(rt; Words::new(&key, 0).next(), 0xade0_b876);
}

#[test]
fn words_drawn_one_by_one_are_the_mask_of_zeros(rt: HostRuntime) -> Result<(), Fail> {
    let mut bytes = [0; 150];
    mask(&seed()?, 3, &mut bytes);
    let mut words = Words::new(&seed()?, 3);
    for four in bytes.chunks(4) {
        let word = words.next().to_le_bytes();
        assert_eq!(rt; Some(four), word.get(..four.len()));
    }
    Ok(())
}

#[test]
fn masks_of_any_length_are_those_of_the_stream(rt: HostRuntime) -> Result<(), Fail> {
    let rows = [
        (
            1,
            "4fb733bedb74fec8d65bedf056b935189a289e928b3302bec38a281814de523a",
        ),
        (
            3,
            "78a0d5d5eff9fdbf97344d4ea51df71be252291263bbfd8190d09d47407e3947",
        ),
        (
            4,
            "d1aac8aa1d2a1d6e2fc09673833ed130f4b9f8d4b6d475fc9798eea93537e7cd",
        ),
        (
            63,
            "1e921ce3bb224c14a321961b3ae940679e7e6cbc89c16091c7d9d7e2e3fb5931",
        ),
        (
            64,
            "cb0dcb43443dc4318756ffc69d629753f88c38eb8f83682620bc0ad5e19b3274",
        ),
        (
            67,
            "76ba0878703ef29bcc0a56e7020bf60ac59026e0dd8ddd618a8308941ec1ed85",
        ),
        (
            130,
            "c284f406994bf9d2838285be44286ca01ba68bf61641643d79e23d03709d67db",
        ),
        (
            257,
            "05a40db6e8bb65ea71c22dab3a27bab33b4a683f0a4f720c79a06673d70bdbdd",
        ),
        (
            515,
            "2344385fd6a03350fc3582dd04864692970c282a602240a967c45ac8c55905b3",
        ),
    ];
    for (len, want) in rows {
        let mut bytes = [0; 515];
        for (i, byte) in bytes.iter_mut().enumerate() {
            *byte = (7 * i % 256) as u8;
        }
        mask(&seed()?, (1 << 40) + 9, &mut bytes[..len]);
        assert_eq!(rt; sha(&bytes[..len]), digest(want)?, "{len} bytes");
    }
    Ok(())
}

#[test]
fn claims_are_those_of_the_seed(rt: HostRuntime) -> Result<(), Fail> {
    let rows = [
        (
            0,
            "7ca745377f1a10e1569b02ad1434e057373adff946554ba6ce302131ba0d3390",
        ),
        (
            1,
            "614d555bae2ec7894ccf8299908ae5b7677c75cdc7cfaa84b2cbf70376d8befd",
        ),
        (
            2,
            "ab77acc0cf1b6cfba0a37422b30b1ac9c10bff224d45264f4a42833fb7abef5a",
        ),
        (
            15,
            "15b0f397eb67ad3bffc20fb91350e31f56b1c8b555c4439c5fcf0ccea7c521a9",
        ),
        (
            16,
            "3dd2468bed37b565b00ec413c6310cfc315fb054fe697ce127a7f84cbd8973a4",
        ),
        (
            255,
            "369bcfe9e5dc5f65ce1299dc0d66f743600169ae9a250227bac734b41992b26e",
        ),
        (
            299,
            "827953ac605ddc6126a47ba5f122c4c8389d53b7b543437c32e825fd3f827330",
        ),
    ];
    for (i, want) in rows {
        assert_eq!(rt; sha(&claim_of(&seed()?, i)), digest(want)?, "claim {i}");
    }
    Ok(())
}

#[test]
fn own_words_are_those_of_the_change(rt: HostRuntime) -> Result<(), Fail> {
    let mut words = own_words(&seed()?, 7);
    let wanted: [u32; 20] = [
        1158524048, 769669231, 3587931579, 452259817, 1023693612, 885650683, 63630059, 1256341011,
        1101547655, 2026390203, 1274092799, 1464134029, 919321230, 2024237083, 2451919016,
        144414973, 2083105832, 4063978138, 2511821890, 33961874,
    ];
    for want in wanted {
        assert_eq!(rt; words.next(), want);
    }
    Ok(())
}

#[test]
fn two_different_texts_are_no_clash(rt: HostRuntime) -> Result<(), Fail> {
    let first = b"one".to_vec(rt.alloc())?;
    let same = b"one".to_vec(rt.alloc())?;
    let other = b"two".to_vec(rt.alloc())?;
    assert!(rt; Clash::of(first, same).is_none());
    let again = b"one".to_vec(rt.alloc())?;
    assert!(rt; Clash::of(again, other).is_none());
    Ok(())
}
