//! The reasons of each kind of deal, each alone and each beside the next one that it can stand beside. The
//! wanted values were written down from the table of reasons.
ghost use Rattle.std.specs.Prelude.{IsTrue, IfOk};
ghost use Rattle.psb_model.specs.Grammar.{in_grammar};
ghost use Rattle.psb_machine.specs.Judging.{IsShort};
ghost use Rattle.deals.specs.Views.{deal_in};

mod proposals;
mod replies;

use super::*;
use next_deals::Planner;
use psb_bytes::{Bytes, Digest, Memory, PeerId, SlotList};
use psb_digest::hmac;
use psb_ledger::Ledger;
use psb_model::{Begun, Change, LetGoBack, Refused, TookFresh};
use std::alloc::Global;
use std::process::Abort;
use std::test::Fail;
use wire_codec::{FrameView, Keys, MAGIC, decode};

/// A node with capacity 64 and one peer, of id 2.
const SETTINGS: &[u8; 274] =
    b"id = 1\naddress = \"127.0.0.1:7001\"\nseed = \"000102030405060708090a0b0c0d0e0f101112131415161718191a1b1c1d1e1f\"\ncapacity = 64\nbuddies = 2\nforward = true\n[[peer]]\nid = 2\naddress = \"127.0.0.1:7002\"\nkey = \"202122232425262728292a2b2c2d2e2f303132333435363738393a3b3c3d3e3f\"\nhops = 0\n";

const PEER: PeerId = PeerId(2);

const KEY: Digest = Digest([32; 32]);

/// The kinds of frames that ask for these deals.
#[derive(Clone, Copy)]
enum Kind {
    Store,
    Cancel,
    PutBack,
    Replace,
}

/// What is known of the bytes of a deal: whether they have the name, whether others are held under it, the
/// number of the next claim, and the capacity.
type Known = (bool, bool, u32, u32);

/// A deal (its kind, the byte of its name, its slots, the length of its bytes), what is known of it, and
/// what comes of it: the number of the reason and the detail, or 0 and the number of the change's kind.
type Row = (
    &'static str,
    (Kind, u8, &'static [u32], usize),
    Known,
    (u8, u64),
);

const GOOD: Known = (true, false, 4, 64);

const BAD: Known = (false, false, 4, 64);

const OTHERS: Known = (true, true, 4, 64);

const BAD_AND_OTHERS: Known = (false, true, 4, 64);

const SPENT: Known = (true, false, 4_294_967_294, 64);

const FRESH: [Row; 10] = [
    ("taken", (Kind::Store, 5, &[], 600), GOOD, (0, 5)),
    ("bad name", (Kind::Store, 5, &[], 600), BAD, (2, 0)),
    ("bad name, already", (Kind::Store, 7, &[], 600), BAD, (2, 0)),
    ("already", (Kind::Store, 7, &[], 600), GOOD, (3, 0)),
    ("already, clash", (Kind::Store, 7, &[], 600), OTHERS, (3, 0)),
    ("clash", (Kind::Store, 5, &[], 600), OTHERS, (4, 0)),
    (
        "clash, full",
        (Kind::Store, 5, &[], 600),
        (true, true, 4, 5),
        (4, 0),
    ),
    (
        "full",
        (Kind::Store, 5, &[], 600),
        (true, false, 4, 5),
        (8, 4),
    ),
    (
        "full, spent",
        (Kind::Store, 5, &[], 600),
        (true, false, 4_294_967_294, 5),
        (8, 4),
    ),
    (
        "spent",
        (Kind::Store, 5, &[], 600),
        SPENT,
        (9, 4_294_967_294),
    ),
];

const SWAP: [Row; 11] = [
    ("taken", (Kind::Store, 5, &[9, 12], 600), GOOD, (0, 6)),
    (
        "taken where a Store fresh is full and spent",
        (Kind::Store, 5, &[9, 12], 600),
        (true, false, 4_294_967_295, 0),
        (0, 6),
    ),
    ("bad name", (Kind::Store, 5, &[9, 12], 600), BAD, (2, 0)),
    (
        "bad name, already",
        (Kind::Store, 7, &[9, 12], 600),
        BAD,
        (2, 0),
    ),
    ("already", (Kind::Store, 7, &[9, 12], 600), GOOD, (3, 0)),
    (
        "already, clash",
        (Kind::Store, 7, &[9, 12], 600),
        OTHERS,
        (3, 0),
    ),
    ("clash", (Kind::Store, 5, &[9, 12], 600), OTHERS, (4, 0)),
    (
        "clash, not there",
        (Kind::Store, 5, &[8, 12], 600),
        OTHERS,
        (4, 0),
    ),
    ("not there", (Kind::Store, 5, &[9, 10], 600), GOOD, (5, 10)),
    (
        "not there, unequal",
        (Kind::Store, 5, &[8, 9, 10], 600),
        GOOD,
        (5, 8),
    ),
    ("unequal", (Kind::Store, 5, &[9, 12], 512), GOOD, (6, 1)),
];

const CANCEL: [Row; 6] = [
    (
        "taken",
        (Kind::Cancel, 7, &[0, 1], 0),
        BAD_AND_OTHERS,
        (0, 7),
    ),
    ("no such chunk", (Kind::Cancel, 5, &[0, 1], 0), GOOD, (5, 0)),
    ("no such slot", (Kind::Cancel, 7, &[0, 5], 0), GOOD, (5, 5)),
    (
        "neither is there",
        (Kind::Cancel, 5, &[0, 5, 6], 0),
        GOOD,
        (5, 5),
    ),
    (
        "not there, unequal",
        (Kind::Cancel, 7, &[0, 1, 5], 0),
        GOOD,
        (5, 5),
    ),
    ("unequal", (Kind::Cancel, 7, &[0, 1, 2], 0), GOOD, (6, 2)),
];

const PUT_BACK: [Row; 5] = [
    (
        "taken",
        (Kind::PutBack, 7, &[10, 11], 0),
        BAD_AND_OTHERS,
        (0, 8),
    ),
    ("already", (Kind::PutBack, 7, &[8, 9], 0), GOOD, (3, 9)),
    (
        "already, not there",
        (Kind::PutBack, 5, &[9, 12], 0),
        GOOD,
        (3, 9),
    ),
    (
        "not there, unequal",
        (Kind::PutBack, 5, &[8, 10], 0),
        GOOD,
        (5, 0),
    ),
    ("unequal", (Kind::PutBack, 7, &[8], 0), GOOD, (6, 2)),
];

const REPLACE: [Row; 3] = [
    ("taken", (Kind::Replace, 5, &[9], 0), GOOD, (0, 9)),
    (
        "taken where a Store fresh is full and spent",
        (Kind::Replace, 5, &[12], 0),
        (true, false, 4_294_967_295, 0),
        (0, 9),
    ),
    (
        "not there",
        (Kind::Replace, 5, &[10], 0),
        BAD_AND_OTHERS,
        (5, 10),
    ),
];

/// The bytes of a Replace's body: the first slot, and 512 times the byte `tag`.
fn replace_body(alloc: Global, tag: u8, slots: &[u32]) -> Result<Vec<u8>, Fail> {
    let slot = slots.first().ok_or("there is a slot")?;
    let mut out = Vec::new(alloc);
    out.extend_from_slice(&slot.to_be_bytes())?;
    out.extend_from_slice(&[tag; 512])?;
    Ok(out)
}

/// The bytes of a frame's body.
fn body_of(alloc: Global, kind: Kind, tag: u8, slots: &[u32], len: usize) -> Result<Vec<u8>, Fail> {
    if let Kind::Replace = kind {
        return replace_body(alloc, tag, slots);
    }
    let mut out = Vec::new(alloc);
    out.extend_from_slice(&[tag; 32])?;
    match kind {
        Kind::Store | Kind::Replace => {}
        Kind::Cancel => out.push(0)?,
        Kind::PutBack => out.push(1)?,
    }
    let count = u16::try_from(slots.len())
        .ok()
        .ok_or("there are few slots")?;
    out.extend_from_slice(&count.to_be_bytes())?;
    for slot in slots {
        out.extend_from_slice(&slot.to_be_bytes())?;
        if let Kind::PutBack = kind {
            out.extend_from_slice(&[3; 512])?;
        }
    }
    if let Kind::Store = kind {
        let count = u32::try_from(len).ok().ok_or("the bytes are few")?;
        out.extend_from_slice(&count.to_be_bytes())?;
        for _ in 0..len {
            out.push(3)?;
        }
    }
    Ok(out)
}

/// The datagram from 2 to 1 that asks for a deal.
fn datagram(alloc: Global, kind: Kind, body: &[u8]) -> Result<Vec<u8>, Fail> {
    let number = match kind {
        Kind::Store => 1,
        Kind::Cancel | Kind::PutBack => 2,
        Kind::Replace => 3,
    };
    sealed(alloc, number, body)
}

/// The datagram from 2 to 1 of a frame of this kind with a body, under deal number 4.
fn sealed(alloc: Global, kind: u8, body: &[u8]) -> Result<Vec<u8>, Fail> {
    let mut out = Vec::new(alloc);
    out.extend_from_slice(&MAGIC)?;
    out.push(kind)?;
    out.extend_from_slice(&[0, 0, 0, 0, 0, 0, 2, 0, 0, 0, 1, 0, 0, 0, 0, 0, 0, 0, 4])?;
    let len = u32::try_from(body.len()).ok().ok_or("the body is short")?;
    out.extend_from_slice(&len.to_be_bytes())?;
    out.extend_from_slice(body)?;
    let tag = hmac(&KEY.0, &out);
    out.extend_from_slice(&tag.0)?;
    Ok(out)
}

/// Makes room for a change, and applies it.
fn make(rt: &impl Abort, ledger: &mut Planner, c: Change) -> Result<(), Memory>
    requires { IsTrue (in_grammar c) }
{
    ledger.make_room(&c)?;
    assert!(rt; ledger.ledger().changes() < 1000);
    assert!(rt; ledger.ledger().allows(&c));
    ledger.apply(c);
    Ok(())
}

/// A chunk of two units, whose name has the byte `tag` 32 times.
fn fresh(deal: u64, tag: u8, first: u32) -> Change
    ensures { IsTrue (in_grammar result) }
{
    Change::TookFresh(TookFresh {
        peer: PEER,
        deal,
        name: Digest([tag; 32]),
        first,
        len: 600,
        new: true,
        body: None,
    })
}

/// The chunk is let go against the slots 9 and 12.
fn put_back(alloc: Global, deal: u64, tag: u8) -> Result<Change, Memory>
    ensures { IfOk result (λ c. IsTrue (in_grammar c)) }
{
    Ok(Change::LetGoBack(LetGoBack {
        peer: PEER,
        deal,
        name: Digest([tag; 32]),
        slots: SlotList::copy(alloc, &[9, 12])?,
        body: None,
    }))
}

fn begun(alloc: Global) -> Result<Change, Memory>
    ensures { IfOk result (λ c. IsTrue (in_grammar c)) }
{
    let body = Some(Bytes::copy(alloc, SETTINGS)?);
    Ok(Change::Begun(Begun { body }))
}

/// Peer 2 has chunk 7 of two units here, and the slots 9 and 12, where chunk 6 was; the node has the slots
/// 0 to 3 there.
fn with_slots(rt: &impl Abort, alloc: Global) -> Result<Planner, Memory> {
    let mut ledger = Planner::new(alloc);
    make(rt, &mut ledger, begun(alloc)?)?;
    make(rt, &mut ledger, fresh(1, 7, 0))?;
    make(rt, &mut ledger, fresh(2, 6, 2))?;
    make(rt, &mut ledger, put_back(alloc, 3, 6)?)?;
    Ok(ledger)
}

/// What comes of a deal.
fn told(change: &Change) -> (u8, u64) {
    match change {
        Change::Refused(Refused { why, detail, .. }) => (*why, *detail),
        Change::TookFresh(_) => (0, 5),
        Change::TookSwap(_) => (0, 6),
        Change::LetGo(_) => (0, 7),
        Change::LetGoBack(_) => (0, 8),
        Change::Replaced(_) => (0, 9),
        _ => (0, 0),
    }
}

/// Whether the bytes that a deal brings are no longer than a chunk.
fn is_short(deal: &DealView<'_>) -> bool
    ensures { IsTrue result → IsShort (deal_in deal.now) }
{
    match deal {
        DealView::StoreFresh { bytes, .. } | DealView::StoreSwap { bytes, .. } => {
            bytes.len() <= 32_768
        }
        DealView::Cancel { .. } | DealView::PutBack { .. } | DealView::Replace { .. } => true,
    }
}

/// What comes of the deal that a datagram asks for.
fn judged(
    rt: &impl Abort,
    alloc: Global,
    ledger: &Ledger,
    datagram: &[u8],
    facts: &Facts,
) -> Result<(u8, u64), Fail> {
    let mut keys = Keys::new(alloc);
    keys.put(PEER, KEY)?;
    let FrameView { body, .. } = decode(datagram, PeerId(1), &keys)?;
    let deal = DealView::of(body).ok_or("the frame asks for a deal")?;
    assert!(rt; is_short(&deal));
    assert!(rt; ledger.row(PEER).last().number < 1000);
    Ok(told(&judge(alloc, ledger, PEER, &deal, facts)?))
}

fn run_rows(rt: &impl Abort, alloc: Global, rows: &[Row]) -> Result<(), Fail> {
    let ledger = with_slots(rt, alloc)?;
    for (what, (kind, tag, slots, len), (name_fits, clash, issued, capacity), want) in rows {
        let body = body_of(alloc, *kind, *tag, slots, *len)?;
        let frame = datagram(alloc, *kind, &body)?;
        let facts = Facts {
            name_fits: *name_fits,
            clash: *clash,
            new_body: true,
            home: None,
            issued: *issued,
            capacity: *capacity,
        };
        assert_eq!(rt;
            judged(rt, alloc, ledger.ledger(), &frame, &facts)?,
            *want,
            "{what}"
        );
    }
    Ok(())
}

#[test]
fn the_first_reason_of_a_kind_is_told(rt: HostRuntime) -> Result<(), Fail> {
    run_rows(&rt, rt.alloc(), &FRESH)?;
    run_rows(&rt, rt.alloc(), &SWAP)?;
    run_rows(&rt, rt.alloc(), &CANCEL)?;
    run_rows(&rt, rt.alloc(), &PUT_BACK)?;
    run_rows(&rt, rt.alloc(), &REPLACE)?;
    Ok(())
}
