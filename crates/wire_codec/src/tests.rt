use crate::{Dropped, KeyError, Keys, MAGIC, decode};
use psb_bytes::{Digest, PeerId, read_digest};
use psb_digest::hmac;
use std::alloc::Global;
use std::test::Fail;

mod dropped;
mod frames;
mod lists;

const KEY: &str = "202122232425262728292a2b2c2d2e2f303132333435363738393a3b3c3d3e3f";

const NAME: &str = "82a3537ff0dbce7eec35d69edc3a189ee6f17d82f353a553f9aa96cb0be3ce89";

const NONCE: &str = "63479ad69a090b258277ec8fba6f99419a2ffb248981510657c944ccd1148e97";

fn digit(c: u8) -> u8 {
    match c {
        b'0'..=b'9' => c - b'0',
        b'a'..=b'f' => c - b'a' + 10,
        _ => 0,
    }
}

fn put_hex(out: &mut Vec<u8>, text: &str) -> Result<(), Fail> {
    let mut high = None;
    for c in text.as_bytes() {
        match high {
            None => high = Some(digit(*c)),
            Some(value) => {
                out.push(digit(*c).wrapping_add(16u8.wrapping_mul(value)))?;
                high = None;
            }
        }
    }
    Ok(())
}

fn pattern(alloc: Global, len: usize) -> Result<Vec<u8>, Fail> {
    let mut out = Vec::new(alloc);
    for i in 0..len {
        out.push((i % 251) as u8)?;
    }
    Ok(out)
}

fn digest(text: &str) -> Result<Digest, Fail> {
    Ok(read_digest(text).ok_or("the text is a digest")?)
}

fn keys(alloc: Global) -> Result<Keys, Fail> {
    let mut keys = Keys::new(alloc);
    keys.put(PeerId(2), digest(KEY)?)?;
    Ok(keys)
}

/// A datagram from 2 to 1 with number 5, a body, a length field and a right tag.
fn signed(alloc: Global, kind: u8, body: &[u8], len: u32) -> Result<Vec<u8>, Fail> {
    let mut out = Vec::new(alloc);
    out.extend_from_slice(&MAGIC)?;
    out.extend_from_slice(&[
        kind, 0, 0, 0, 0, 0, 0, 2, 0, 0, 0, 1, 0, 0, 0, 0, 0, 0, 0, 5,
    ])?;
    out.extend_from_slice(&len.to_be_bytes())?;
    out.extend_from_slice(body)?;
    let tag = hmac(&digest(KEY)?.0, &out);
    out.extend_from_slice(&tag.0)?;
    Ok(out)
}

/// Why node 1 drops a body of this kind under a right tag.
fn why_dropped(alloc: Global, kind: u8, body: &[u8]) -> Result<Option<Dropped>, Fail> {
    let len = u32::try_from(body.len()).ok().ok_or("a body is short")?;
    let bytes = signed(alloc, kind, body, len)?;
    Ok(decode(&bytes, PeerId(1), &keys(alloc)?).err())
}

#[test]
fn a_peer_has_one_key(rt: HostRuntime) -> Result<(), Fail> {
    let mut keys = keys(rt.alloc())?;
    assert_eq!(rt; keys.put(PeerId(2), digest(NAME)?), Err(KeyError::Twice));
    keys.put(PeerId(3), digest(NAME)?)?;
    assert_eq!(rt; keys.key_of(PeerId(2)).copied(), Some(digest(KEY)?));
    assert_eq!(rt; keys.key_of(PeerId(3)).copied(), Some(digest(NAME)?));
    assert_eq!(rt; keys.key_of(PeerId(4)).copied(), None);
    Ok(())
}
