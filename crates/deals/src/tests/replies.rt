//! Replies to each kind of own deal: those that fit it, and beside each one that does not. The wanted kinds
//! of change were written down from what a reply has to have.
ghost use Rattle.std.specs.Prelude.{IsTrue, IfOk};
ghost use Rattle.psb_model.specs.Grammar.{in_grammar};

use super::*;
use psb_bytes::{DigestList, Ref, Ticket};
use psb_model::{
    Candidate, CandidateList, Chose, Deal, DealWhat, Forgot, Kept, Proposed, Settled, Snapped,
};

/// Which own deal is pending.
#[derive(Clone, Copy)]
enum Pending {
    Nothing,
    Fresh,
    Swap,
    Cancel,
    PutBack,
}

/// What the peer answers: claims in these slots, or a refusal.
#[derive(Clone, Copy)]
enum Answer {
    Accepted(&'static [u32]),
    Refused,
}

/// A pending deal, a reply by the number of the deal that it answers, and the kind of the change that is
/// made of it, 0 for none.
type Row = (&'static str, Pending, (u64, Answer), u8);

const FRESH: [Row; 9] = [
    (
        "settled",
        Pending::Fresh,
        (1, Answer::Accepted(&[20, 21])),
        12,
    ),
    (
        "too few claims",
        Pending::Fresh,
        (1, Answer::Accepted(&[20])),
        0,
    ),
    ("no claims", Pending::Fresh, (1, Answer::Accepted(&[])), 0),
    (
        "too many claims",
        Pending::Fresh,
        (1, Answer::Accepted(&[20, 21, 22])),
        0,
    ),
    (
        "a slot in use",
        Pending::Fresh,
        (1, Answer::Accepted(&[12, 20])),
        0,
    ),
    (
        "another number",
        Pending::Fresh,
        (2, Answer::Accepted(&[20, 21])),
        0,
    ),
    (
        "number 0",
        Pending::Fresh,
        (0, Answer::Accepted(&[20, 21])),
        0,
    ),
    ("turned down", Pending::Fresh, (1, Answer::Refused), 13),
    (
        "another turned down",
        Pending::Fresh,
        (2, Answer::Refused),
        0,
    ),
];

const SWAP: [Row; 4] = [
    ("settled", Pending::Swap, (1, Answer::Accepted(&[])), 12),
    ("claims", Pending::Swap, (1, Answer::Accepted(&[20, 21])), 0),
    (
        "another number",
        Pending::Swap,
        (3, Answer::Accepted(&[])),
        0,
    ),
    ("turned down", Pending::Swap, (1, Answer::Refused), 13),
];

const RELEASES: [Row; 8] = [
    ("cancelled", Pending::Cancel, (2, Answer::Accepted(&[])), 12),
    ("claims", Pending::Cancel, (2, Answer::Accepted(&[30])), 0),
    (
        "the deal before",
        Pending::Cancel,
        (1, Answer::Accepted(&[])),
        0,
    ),
    (
        "a cancel turned down",
        Pending::Cancel,
        (2, Answer::Refused),
        13,
    ),
    ("put back", Pending::PutBack, (2, Answer::Accepted(&[])), 12),
    (
        "claims of a put back",
        Pending::PutBack,
        (2, Answer::Accepted(&[30, 31])),
        0,
    ),
    (
        "a put back turned down",
        Pending::PutBack,
        (2, Answer::Refused),
        13,
    ),
    (
        "the deal before a put back",
        Pending::PutBack,
        (1, Answer::Refused),
        0,
    ),
];

const NOTHING: [Row; 2] = [
    (
        "settled already",
        Pending::Nothing,
        (1, Answer::Accepted(&[20, 21])),
        0,
    ),
    (
        "turned down late",
        Pending::Nothing,
        (1, Answer::Refused),
        0,
    ),
];

/// The own chunk of two units, whose name has the byte 5 32 times.
pub(super) const OWN: Digest = Digest([5; 32]);

pub(super) fn kept() -> Change
    ensures { IsTrue (in_grammar result) }
{
    Change::Kept(Kept {
        name: OWN,
        len: 600,
        new: true,
        body: None,
    })
}

pub(super) fn snapped(alloc: Global) -> Result<Change, Memory>
    ensures { IfOk result (λ c. IsTrue (in_grammar c)) }
{
    let reference = Ref {
        name: OWN,
        handle: Digest([0; 32]),
        len: 600,
    };
    Ok(Change::Snapped(Snapped {
        number: 1,
        ticket: Ticket {
            reference,
            levels: 0,
        },
        files: 1,
        folders: 0,
        bytes: 600,
        left: 0,
        names: DigestList::copy(alloc, &[OWN])?,
    }))
}

pub(super) fn chose(alloc: Global) -> Result<Change, Memory>
    ensures { IfOk result (λ c. IsTrue (in_grammar c)) }
{
    let candidate = Candidate {
        peer: PEER,
        got: 1,
        of: 1,
        hops: 0,
    };
    Ok(Change::Chose(Chose {
        candidates: CandidateList::copy(alloc, &[candidate])?,
    }))
}

/// Peer 2 is chosen, and has slots here as in `with_slots`; the own chunk is wanted.
pub(super) fn with_own(rt: &impl Abort, alloc: Global) -> Result<Planner, Memory> {
    let mut ledger = with_slots(rt, alloc)?;
    make(rt, &mut ledger, kept())?;
    make(rt, &mut ledger, snapped(alloc)?)?;
    make(rt, &mut ledger, chose(alloc)?)?;
    Ok(ledger)
}

pub(super) fn proposed_fresh() -> Change
    ensures { IsTrue (in_grammar result) }
{
    Change::Proposed(Proposed {
        peer: PEER,
        deal: 1,
        what: DealWhat::Fresh { name: OWN },
    })
}

pub(super) fn proposed_swap(alloc: Global) -> Result<Change, Memory>
    ensures { IfOk result (λ c. IsTrue (in_grammar c)) }
{
    Ok(Change::Proposed(Proposed {
        peer: PEER,
        deal: 1,
        what: DealWhat::Swap {
            name: OWN,
            slots: SlotList::copy(alloc, &[0, 1])?,
        },
    }))
}

pub(super) fn proposed_cancel(alloc: Global) -> Result<Change, Memory>
    ensures { IfOk result (λ c. IsTrue (in_grammar c)) }
{
    Ok(Change::Proposed(Proposed {
        peer: PEER,
        deal: 2,
        what: DealWhat::Cancel {
            name: OWN,
            slots: SlotList::copy(alloc, &[20, 21])?,
        },
    }))
}

fn proposed_put_back() -> Change
    ensures { IsTrue (in_grammar result) }
{
    Change::Proposed(Proposed {
        peer: PEER,
        deal: 2,
        what: DealWhat::PutBack {
            name: OWN,
            first: 4,
        },
    })
}

/// The own chunk is stored against the slots 20 and 21.
pub(super) fn settled(alloc: Global) -> Result<Change, Memory>
    ensures { IfOk result (λ c. IsTrue (in_grammar c)) }
{
    Ok(Change::Settled(Settled {
        peer: PEER,
        deal: 1,
        slots: SlotList::copy(alloc, &[20, 21])?,
        body: None,
    }))
}

pub(super) fn forgot() -> Change
    ensures { IsTrue (in_grammar result) }
{
    Change::Forgot(Forgot { number: 1 })
}

/// The own chunk stands with the peer, and is wanted no longer.
pub(super) fn with_placed(rt: &impl Abort, alloc: Global) -> Result<Planner, Memory> {
    let mut ledger = with_own(rt, alloc)?;
    make(rt, &mut ledger, proposed_fresh())?;
    make(rt, &mut ledger, settled(alloc)?)?;
    make(rt, &mut ledger, forgot())?;
    Ok(ledger)
}

/// A ledger with this deal pending.
fn ledger_with(rt: &impl Abort, alloc: Global, pending: Pending) -> Result<Planner, Memory> {
    match pending {
        Pending::Nothing => with_placed(rt, alloc),
        Pending::Fresh => {
            let mut ledger = with_own(rt, alloc)?;
            make(rt, &mut ledger, proposed_fresh())?;
            Ok(ledger)
        }
        Pending::Swap => {
            let mut ledger = with_own(rt, alloc)?;
            make(rt, &mut ledger, proposed_swap(alloc)?)?;
            Ok(ledger)
        }
        Pending::Cancel => {
            let mut ledger = with_placed(rt, alloc)?;
            make(rt, &mut ledger, proposed_cancel(alloc)?)?;
            Ok(ledger)
        }
        Pending::PutBack => {
            let mut ledger = with_placed(rt, alloc)?;
            make(rt, &mut ledger, proposed_put_back())?;
            Ok(ledger)
        }
    }
}

/// The bytes of an answer's body.
fn answer_body(alloc: Global, answer: Answer) -> Result<Vec<u8>, Fail> {
    let mut out = Vec::new(alloc);
    match answer {
        Answer::Accepted(slots) => {
            let count = u16::try_from(slots.len())
                .ok()
                .ok_or("there are few claims")?;
            out.extend_from_slice(&count.to_be_bytes())?;
            for slot in slots {
                out.extend_from_slice(&slot.to_be_bytes())?;
                out.extend_from_slice(&[3; 512])?;
            }
        }
        Answer::Refused => {
            out.push(8)?;
            out.extend_from_slice(&3_u64.to_be_bytes())?;
        }
    }
    Ok(out)
}

/// The kind of the change that a reply makes, 0 for none.
fn settled_kind(alloc: Global, ledger: &Ledger, number: u64, datagram: &[u8]) -> Result<u8, Fail> {
    let mut keys = Keys::new(alloc);
    keys.put(PEER, KEY)?;
    let FrameView { body, .. } = decode(datagram, PeerId(1), &keys)?;
    let answer = AnswerView::of(body).ok_or("the frame is an answer")?;
    let reply = ReplyView { number, answer };
    Ok(match settle(alloc, ledger, PEER, &reply)? {
        None => 0,
        Some(Change::Settled(_)) => 12,
        Some(Change::Turned(_)) => 13,
        Some(_) => 255,
    })
}

fn run_rows(rt: &impl Abort, alloc: Global, rows: &[Row]) -> Result<(), Fail> {
    for (what, pending, (number, answer), want) in rows {
        let ledger = ledger_with(rt, alloc, *pending)?;
        let body = answer_body(alloc, *answer)?;
        let kind = match answer {
            Answer::Accepted(_) => 4,
            Answer::Refused => 5,
        };
        let frame = sealed(alloc, kind, &body)?;
        assert_eq!(rt;
            settled_kind(alloc, ledger.ledger(), *number, &frame)?,
            *want,
            "{what}"
        );
    }
    Ok(())
}

#[test]
fn a_reply_that_fits_settles_or_turns(rt: HostRuntime) -> Result<(), Fail> {
    run_rows(&rt, rt.alloc(), &FRESH)?;
    run_rows(&rt, rt.alloc(), &SWAP)?;
    run_rows(&rt, rt.alloc(), &RELEASES)?;
    run_rows(&rt, rt.alloc(), &NOTHING)?;
    Ok(())
}
