//! The lists and the sealed bytes of bodies: how long they may be, and in which order.
use super::{NAME, NONCE, pattern, put_hex, why_dropped};
use crate::{CLAIM_BYTES, DIGEST_BYTES, Dropped};
use std::alloc::Global;
use std::test::Fail;

/// What the lists of a body are made of.
#[derive(Clone, Copy)]
enum Item {
    Slot,
    Claim,
    Place,
    Object,
    Name,
}

/// An item, with the number j where it has one.
fn put_item(out: &mut Vec<u8>, item: Item, j: u16) -> Result<(), Fail> {
    let number = u32::from(j).to_be_bytes();
    match item {
        Item::Slot => out.extend_from_slice(&number)?,
        Item::Claim => {
            out.extend_from_slice(&number)?;
            out.extend_from_slice(&[7; CLAIM_BYTES])?;
        }
        Item::Place => out.extend_from_slice(&j.to_be_bytes())?,
        Item::Object => {
            out.push(1)?;
            out.extend_from_slice(&number)?;
        }
        Item::Name => out.extend_from_slice(&[7; DIGEST_BYTES])?,
    }
    Ok(())
}

fn put_items(out: &mut Vec<u8>, item: Item, items: &[u16]) -> Result<(), Fail> {
    let count = u16::try_from(items.len()).ok().ok_or("a list is short")?;
    out.extend_from_slice(&count.to_be_bytes())?;
    for j in items {
        put_item(out, item, *j)?;
    }
    Ok(())
}

/// The numbers from 0 on, so many.
fn numbers(alloc: Global, count: u16) -> Result<Vec<u16>, Fail> {
    let mut out = Vec::new(alloc);
    for j in 0..count {
        out.push(j)?;
    }
    Ok(out)
}

/// A list in the bodies of a kind: digits before it and behind it, and what may stand in it.
struct List {
    kind: u8,
    front: [&'static str; 2],
    item: Item,
    least: u16,
    most: u16,
    ascends: bool,
    back: &'static str,
}

impl List {
    /// Why node 1 drops a body with these items under a right tag.
    fn why_dropped(&self, alloc: Global, items: &[u16]) -> Result<Option<Dropped>, Fail> {
        let mut body = Vec::new(alloc);
        for digits in self.front {
            put_hex(&mut body, digits)?;
        }
        put_items(&mut body, self.item, items)?;
        put_hex(&mut body, self.back)?;
        why_dropped(alloc, self.kind, &body)
    }
}

const LISTS: [List; 7] = [
    List {
        kind: 1,
        front: [NAME, ""],
        item: Item::Slot,
        least: 0,
        most: 64,
        ascends: true,
        back: "0000000178",
    },
    List {
        kind: 2,
        front: [NAME, "00"],
        item: Item::Slot,
        least: 1,
        most: 64,
        ascends: true,
        back: "",
    },
    List {
        kind: 2,
        front: [NAME, "01"],
        item: Item::Claim,
        least: 1,
        most: 64,
        ascends: true,
        back: "",
    },
    List {
        kind: 4,
        front: ["", ""],
        item: Item::Claim,
        least: 0,
        most: 64,
        ascends: true,
        back: "",
    },
    List {
        kind: 6,
        front: [NONCE, ""],
        item: Item::Place,
        least: 1,
        most: 32,
        ascends: true,
        back: "",
    },
    List {
        kind: 9,
        front: [NONCE, ""],
        item: Item::Object,
        least: 1,
        most: 32,
        ascends: false,
        back: "",
    },
    List {
        kind: 11,
        front: [NONCE, ""],
        item: Item::Name,
        least: 1,
        most: 32,
        ascends: false,
        back: "",
    },
];

/// What is told of a body in the grammar, and of one that is not.
fn bad_unless(fits: bool) -> Option<Dropped> {
    if fits { None } else { Some(Dropped::BadBody) }
}

#[test]
fn each_list_has_its_bounds_and_its_order(rt: HostRuntime) -> Result<(), Fail> {
    let alloc = rt.alloc();
    for list in &LISTS {
        let kind = list.kind;
        for count in [0, 1, 32, 33, 64, 65] {
            assert_eq!(rt;
                list.why_dropped(alloc, &numbers(alloc, count)?)?,
                bad_unless(list.least <= count && count <= list.most),
                "{count} in kind {kind}"
            );
        }
        for (first, second) in [(3, 31), (7, 7), (7, 3)] {
            assert_eq!(rt;
                list.why_dropped(alloc, &[first, second])?,
                bad_unless(first < second || !list.ascends),
                "{first} before {second} in kind {kind}"
            );
        }
    }
    Ok(())
}

#[test]
fn sealed_bytes_have_their_bounds(rt: HostRuntime) -> Result<(), Fail> {
    let alloc = rt.alloc();
    for (kind, slots, least) in [(1, Some(0), 1), (1, Some(64), 1), (8, None, 0)] {
        for len in [0u32, 1, 32_768, 32_769] {
            let mut body = Vec::new(alloc);
            put_hex(&mut body, NAME)?;
            if let Some(count) = slots {
                put_items(&mut body, Item::Slot, &numbers(alloc, count)?)?;
            }
            body.extend_from_slice(&len.to_be_bytes())?;
            body.extend_from_slice(&pattern(alloc, len as usize)?)?;
            assert_eq!(rt;
                why_dropped(alloc, kind, &body)?,
                bad_unless(least <= len && len <= 32_768),
                "{len} in kind {kind}"
            );
        }
    }
    Ok(())
}
