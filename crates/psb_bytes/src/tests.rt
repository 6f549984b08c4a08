use crate::{
    Bytes, Cursor, Digest, Memory, Page, Ref, Short, Text, Ticket, digest_text, folder_of,
    hex_text, read_digest, units_of,
};
use std::test::Fail;

const DIGITS: &str = "00010203040506070809aAbBcCdDeEfF101112131415161718191a1b1c1d1eff";

#[test]
fn units_are_begun_blocks_of_512(rt: HostRuntime) {
    for (len, want) in [
        (0, 1),
        (1, 1),
        (512, 1),
        (513, 2),
        (32_768, 64),
        (u32::MAX, 8_388_608),
    ] {
        assert_eq!(rt; units_of(len), want, "at {len}");
    }
}

#[test]
fn a_page_reads_back_in_turn(rt: HostRuntime) -> Result<(), Fail> {
    let Ok(mut page) = Page::with_room(rt.alloc(), 20) else {
        return Err(Fail::from("no memory"));
    };
    page.put_u8(1);
    page.put_u16(0x0203);
    page.put_u32(0x0405_0607);
    page.put_u64(0x0809_0a0b_0c0d_0e0f);
    page.put_slice(b"end");
    let bytes = page.done();
    let want = [
        1, 2, 3, 4, 5, 6, 7, 8, 9, 10, 11, 12, 13, 14, 15, b'e', b'n', b'd',
    ];
    assert_eq!(rt; bytes.as_slice(), want.as_slice());
    let mut cursor = Cursor::new(&bytes);
    assert_eq!(rt; cursor.take_u8(), Ok(1));
    assert_eq!(rt; cursor.take_u16(), Ok(0x0203));
    assert_eq!(rt; cursor.take_digest(), Err(Short));
    assert_eq!(rt; cursor.take_u32(), Ok(0x0405_0607));
    assert_eq!(rt; cursor.take_u64(), Ok(0x0809_0a0b_0c0d_0e0f));
    assert_eq!(rt; cursor.take_u32(), Err(Short));
    assert_eq!(rt; cursor.left(), 3);
    assert_eq!(rt; cursor.take_array(), Ok(*b"end"));
    assert_eq!(rt; cursor.take_u8(), Err(Short));
    Ok(())
}

#[test]
fn a_digest_is_64_digits_in_either_case(rt: HostRuntime) -> Result<(), Fail> {
    let digest = read_digest(DIGITS).ok_or("a digest")?;
    assert_eq!(rt;
        &digest.0[10..16],
        [0xaa, 0xbb, 0xcc, 0xdd, 0xee, 0xff].as_slice()
    );
    let Ok(text) = digest_text(rt.alloc(), &digest) else {
        return Err(Fail::from("no memory"));
    };
    let lower = "00010203040506070809aabbccddeeff101112131415161718191a1b1c1d1eff";
    assert_eq!(rt; text.as_str(), lower);
    let refused = [
        "",
        "0001020304050607",
        "00010203040506070809aabbccddeeff101112131415161718191a1b1c1d1ef",
        "00010203040506070809aabbccddeeff101112131415161718191a1b1c1d1eff0",
        "0001020304050607080gaabbccddeeff101112131415161718191a1b1c1d1eff",
        "00010203040506070809aabbccddeeff101112131415161718191a1b1c1d1e\u{e9}",
        " 0010203040506070809aabbccddeeff101112131415161718191a1b1c1d1eff",
    ];
    for text in refused {
        assert_eq!(rt; read_digest(text), None, "{text}");
    }
    Ok(())
}

#[test]
fn copies_are_what_was_copied(rt: HostRuntime) -> Result<(), Memory> {
    assert_eq!(rt;
        Bytes::copy(rt.alloc(), b"one")?.as_slice(),
        b"one".as_slice()
    );
    assert_eq!(rt; Text::copy(rt.alloc(), "two")?.as_str(), "two");
    assert_eq!(rt; hex_text(rt.alloc(), b"\x0f\xa0")?.as_str(), "0fa0");
    Ok(())
}

fn ticket(len: u32, levels: u8) -> Ticket {
    let name = Digest([0x11; 32]);
    let handle = Digest([0x22; 32]);
    let reference = Ref { name, handle, len };
    Ticket { reference, levels }
}

#[test]
fn a_ticket_is_its_name_handle_length_and_levels(rt: HostRuntime) {
    let ticket = ticket(0x0001_0203, 4);
    let bytes = ticket.bytes();
    assert_eq!(rt; &bytes[..32], [0x11; 32].as_slice());
    assert_eq!(rt; &bytes[32..64], [0x22; 32].as_slice());
    assert_eq!(rt; &bytes[64..], [0, 1, 2, 3, 4].as_slice());
    assert_eq!(rt; &bytes[..68], ticket.reference.bytes().as_slice());
}

#[test]
fn a_ticket_is_read_exactly_within_its_bounds(rt: HostRuntime) {
    let rows = [
        (0, 0, false),
        (1, 0, true),
        (1, 4, true),
        (1, 5, false),
        (258, 3, true),
        (32_768, 4, true),
        (32_768, 255, false),
        (32_769, 0, false),
        (u32::MAX, 0, false),
    ];
    for (len, levels, within) in rows {
        let ticket = ticket(len, levels);
        let want = within.then_some(ticket);
        assert_eq!(rt; Ticket::read(&ticket.bytes()), want, "{len}, {levels}");
    }
}

#[test]
fn a_folder_is_what_stands_before_the_last_slash(rt: HostRuntime) {
    let rows = [
        ("", None),
        ("a", None),
        ("/a", Some("")),
        ("a/", Some("a")),
        ("a/b", Some("a")),
        ("a/b/c", Some("a/b")),
        ("a//c", Some("a/")),
    ];
    for (path, folder) in rows {
        assert_eq!(rt; folder_of(path), folder, "{path}");
    }
}
