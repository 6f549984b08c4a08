use super::*;
use psb_bytes::Digest;
use std::test::Fail;

const GOOD: &str = r#"id = 1
address = "127.0.0.1:7001"
seed = "000102030405060708090a0b0c0d0e0f101112131415161718191a1b1c1d1e1f"
capacity = 64
buddies = 3
forward = false
[[peer]]
id = 2
address = "127.0.0.1:7002"
key = "202122232425262728292a2b2c2d2e2f303132333435363738393a3b3c3d3e3f"
hops = 7
"#;

const PEER: &str = r#"[[peer]]
id = 2
address = "127.0.0.1:7002"
key = "202122232425262728292a2b2c2d2e2f303132333435363738393a3b3c3d3e3f"
hops = 7
"#;

const INLINE_PEER: &str =
    r#"peer = [{ id = 2, address = "a:1", key = "202122232425262728292a2b2c2d2e2f303132333435363738393a3b3c3d3e3f" }]
"#;

/// Changes of the good text, and whether settings come of them.
const CHANGES: [(&str, &str, bool); 33] = [
    ("", "", true),
    ("capacity = 64\n", "", false),
    ("capacity = 64", "capacity = -1", false),
    ("capacity = 64", "capacity = 2147483648", true),
    ("capacity = 64", "capacity = 2147483649", false),
    ("id = 1", "id = 0", false),
    ("id = 1", "id = 4294967295", true),
    ("id = 1", "id = 4294967296", false),
    ("id = 1", "id = \"1\"", false),
    ("id = 1", "id = 1.0", false),
    ("id = 2", "id = 1", false),
    ("id = 1\n", "id = 1\nname = \"x\"\n", false),
    ("id = 1\n", "id = 1\nlong = true\n", false),
    ("id = 1\n", "id = 1\nid = 1\n", false),
    ("hops = 7", "hops = 7\nlong = true", false),
    ("0001", "01", false),
    ("0a0b0c", "0A0B0C", true),
    ("\"0001", "\"0g01", false),
    ("\"127.0.0.1:7001\"", "\"\"", false),
    (":7001", " 7001", false),
    (":7001", "\u{7f}7001", false),
    (":7001", "~7001", true),
    ("buddies = 3", "buddies = 0", false),
    ("buddies = 3", "buddies = 65", false),
    ("forward = false", "forward = 1", false),
    ("hops = 7", "hops = 255", true),
    ("hops = 7", "hops = 256", false),
    (PEER, "", false),
    (PEER, "peer = []\n", false),
    (PEER, INLINE_PEER, true),
    ("[[peer]]", "[peer]", false),
    ("id = 1\n", "# x\n\nid = 1\n", true),
    ("hops = 7\n", "hops = 7\n=", false),
];

/// Whether the text is read. Want of memory is an error.
fn is_read(alloc: Global, text: &[u8]) -> Result<bool, SettingsError> {
    match read_settings(alloc, text) {
        Ok(_) => Ok(true),
        Err(SettingsError::Bad) => Ok(false),
        Err(SettingsError::Memory) => Err(SettingsError::Memory),
    }
}

#[test]
fn one_change_of_a_good_text(rt: HostRuntime) -> Result<(), Fail> {
    let alloc = rt.alloc();
    for (from, to, good) in CHANGES {
        let text = GOOD.replacen(alloc, from, to, 1)?;
        assert_eq!(rt; is_read(alloc, text.as_bytes())?, good, "{from} -> {to}");
    }
    Ok(())
}

#[test]
fn long_texts_and_addresses(rt: HostRuntime) -> Result<(), Fail> {
    let alloc = rt.alloc();
    for (len, good) in [(253, true), (254, false)] {
        let address = "x".repeat(alloc, len)?;
        let text = GOOD.replacen(alloc, "127.0.0.1:7001", address.as_str(), 1)?;
        assert_eq!(rt;
            is_read(alloc, text.as_bytes())?,
            good,
            "an address of {len}"
        );
    }
    for (len, good) in [(65_536, true), (65_537, false)] {
        let blanks = " ".repeat(alloc, len - GOOD.len())?;
        let text = format!(in alloc; "{GOOD}{blanks}")?;
        assert_eq!(rt; is_read(alloc, text.as_bytes())?, good, "a text of {len}");
    }
    Ok(())
}

#[test]
fn bytes_that_are_no_utf8(rt: HostRuntime) -> Result<(), Fail> {
    let mut text = GOOD.as_bytes().to_vec(rt.alloc())?;
    text.extend_from_slice(b"# \xff\n")?;
    assert_eq!(rt; is_read(rt.alloc(), text.as_slice())?, false);
    Ok(())
}

#[test]
fn up_to_64_peers(rt: HostRuntime) -> Result<(), Fail> {
    let alloc = rt.alloc();
    let mut text = GOOD.replacen(alloc, PEER, "", 1)?;
    for n in 2..67u32 {
        let peer = format!(in alloc; "id = {n}")?;
        text.push_str(PEER.replacen(alloc, "id = 2", peer.as_str(), 1)?.as_str())?;
        assert_eq!(rt; is_read(alloc, text.as_bytes())?, n <= 65, "ids to {n}");
    }
    Ok(())
}

#[test]
fn what_a_text_says(rt: HostRuntime) -> Result<(), Fail> {
    let alloc = rt.alloc();
    let read = read_settings(alloc, GOOD.as_bytes())?;
    let copied = read.copy(alloc).ok().ok_or("memory")?;
    for settings in [&read, &copied] {
        assert_eq!(rt; settings.id, PeerId(1));
        assert_eq!(rt; settings.address.as_str(), "127.0.0.1:7001");
        assert_eq!(rt; settings.seed, counted_from(0));
        assert_eq!(rt;
            (settings.capacity, settings.buddies, settings.forward),
            (64, 3, false)
        );
        assert_eq!(rt; settings.peers.as_slice().len(), 1);
        let peer = &settings.peers.as_slice()[0];
        assert_eq!(rt; peer.id, PeerId(2));
        assert_eq!(rt; peer.address.as_str(), "127.0.0.1:7002");
        assert_eq!(rt; peer.key, counted_from(0x20));
        assert_eq!(rt; peer.hops, 7);
    }
    Ok(())
}

#[test]
fn what_is_left_out(rt: HostRuntime) -> Result<(), Fail> {
    let alloc = rt.alloc();
    let mut text = GOOD.replacen(alloc, "buddies = 3\n", "", 1)?;
    text = text.as_str().replacen(alloc, "forward = false\n", "", 1)?;
    text = text.as_str().replacen(alloc, "hops = 7\n", "", 1)?;
    let settings = read_settings(alloc, text.as_bytes())?;
    assert_eq!(rt; (settings.buddies, settings.forward), (2, true));
    assert_eq!(rt; settings.peers.as_slice().len(), 1);
    assert_eq!(rt; settings.peers.as_slice()[0].hops, 0);
    Ok(())
}

/// 32 bytes that count up.
fn counted_from(first: u8) -> Digest {
    let mut bytes = [first; 32];
    for (i, byte) in bytes.iter_mut().enumerate() {
        *byte = first.wrapping_add(i as u8);
    }
    Digest(bytes)
}
