//! The next own deal with a peer, by what each has of the other. The wanted deals were written down from
//! that.
ghost use Rattle.std.specs.Prelude.{IsTrue, IfOk};
ghost use Rattle.psb_model.specs.Grammar.{in_grammar};

use super::replies::{
    chose, forgot, kept, proposed_cancel, proposed_swap, snapped, with_own, with_placed,
};
use super::*;
use psb_bytes::{DigestList, Object, ObjectList, Ref, Ticket};
use psb_model::{DealWhat, Kept, Proposed, Settled, Snapped, Turned};

/// What the node and the peer have of each other.
#[derive(Clone, Copy)]
enum Stage {
    Nothing,
    /// An own chunk of two units is wanted, and the node has the slots 0 to 3 there.
    Wanted,
    /// The same, and nobody was chosen.
    NotChosen,
    /// As `Wanted`, with a chunk of one unit besides.
    TwoWanted,
    /// The chunk of two units stands there and is marked, the other is wanted; the peer has the slots 9, 12,
    /// 20 and 21 here.
    Marked,
    /// The same, and the peer turned a Cancel of it down.
    Turned,
    /// The chunk stands there in the place of slots and is marked; the peer has no slots here.
    Swapped,
}

/// A deal: its kind by its letter, its number, the byte of its chunk's name, and its slots, or the number of
/// its first claim.
type Told = (char, u64, u8, &'static [u32]);

/// The slots there that a probe lists, the capacity, and the deal that is proposed.
type Row = (&'static str, Stage, (&'static [u32], u32), Option<Told>);

const ROWS: [Row; 11] = [
    ("an empty ledger", Stage::Nothing, (&[], 64), None),
    ("swap", Stage::Wanted, (&[], 0), Some(('s', 1, 5, &[0, 1]))),
    (
        "no slots that a probe lists",
        Stage::Wanted,
        (&[1], 0),
        Some(('s', 1, 5, &[0, 2])),
    ),
    (
        "fresh, with a slot too few",
        Stage::Wanted,
        (&[0, 1, 3], 64),
        Some(('f', 1, 5, &[])),
    ),
    (
        "no room, and no slots",
        Stage::Wanted,
        (&[0, 1, 3], 5),
        None,
    ),
    ("no buddy", Stage::NotChosen, (&[], 64), None),
    (
        "the next name fits",
        Stage::TwoWanted,
        (&[0, 1, 2, 3], 5),
        Some(('f', 1, 8, &[])),
    ),
    (
        "the next name has a slot",
        Stage::TwoWanted,
        (&[0, 1, 2], 0),
        Some(('s', 1, 8, &[3])),
    ),
    (
        "cancel before a chunk is placed",
        Stage::Marked,
        (&[], 64),
        Some(('c', 2, 5, &[9, 12])),
    ),
    (
        "put back after a cancel",
        Stage::Turned,
        (&[], 64),
        Some(('p', 3, 5, &[4])),
    ),
    (
        "put back for want of slots",
        Stage::Swapped,
        (&[], 64),
        Some(('p', 2, 5, &[2])),
    ),
];

/// The other own chunk, of one unit.
const OTHER: Digest = Digest([8; 32]);

fn kept_other() -> Change
    ensures { IsTrue (in_grammar result) }
{
    Change::Kept(Kept {
        name: OTHER,
        len: 100,
        new: true,
        body: None,
    })
}

fn snapped_other(alloc: Global) -> Result<Change, Memory>
    ensures { IfOk result (λ c. IsTrue (in_grammar c)) }
{
    let reference = Ref {
        name: OTHER,
        handle: Digest([0; 32]),
        len: 100,
    };
    Ok(Change::Snapped(Snapped {
        number: 2,
        ticket: Ticket {
            reference,
            levels: 0,
        },
        files: 1,
        folders: 0,
        bytes: 100,
        left: 0,
        names: DigestList::copy(alloc, &[OTHER])?,
    }))
}

/// The other chunk is wanted too.
fn add_other(rt: &impl Abort, alloc: Global, ledger: &mut Planner) -> Result<(), Memory> {
    make(rt, ledger, kept_other())?;
    make(rt, ledger, snapped_other(alloc)?)
}

fn turned() -> Change
    ensures { IsTrue (in_grammar result) }
{
    Change::Turned(Turned {
        peer: PEER,
        deal: 2,
        why: 8,
        detail: 0,
    })
}

/// The Swap is settled.
fn settled_swap(alloc: Global) -> Change
    ensures { IsTrue (in_grammar result) }
{
    Change::Settled(Settled {
        peer: PEER,
        deal: 1,
        slots: SlotList::from_vec(Vec::new(alloc)),
        body: None,
    })
}

/// The node has the slots 0 and 1 there, and the peer has none here.
fn with_few(rt: &impl Abort, alloc: Global) -> Result<Planner, Memory> {
    let mut ledger = Planner::new(alloc);
    make(rt, &mut ledger, begun(alloc)?)?;
    make(rt, &mut ledger, fresh(1, 7, 0))?;
    Ok(ledger)
}

/// The own chunk is wanted.
fn want(rt: &impl Abort, alloc: Global, ledger: &mut Planner) -> Result<(), Memory> {
    make(rt, ledger, kept())?;
    make(rt, ledger, snapped(alloc)?)
}

/// It is stored in the place of the slots 0 and 1, and wanted no longer.
fn swap(rt: &impl Abort, alloc: Global, ledger: &mut Planner) -> Result<(), Memory> {
    want(rt, alloc, ledger)?;
    make(rt, ledger, chose(alloc)?)?;
    make(rt, ledger, proposed_swap(alloc)?)?;
    make(rt, ledger, settled_swap(alloc))?;
    make(rt, ledger, forgot())
}

/// A Cancel of it is turned down.
fn turn(rt: &impl Abort, alloc: Global, ledger: &mut Planner) -> Result<(), Memory> {
    make(rt, ledger, proposed_cancel(alloc)?)?;
    make(rt, ledger, turned())
}

fn first_ledger(rt: &impl Abort, alloc: Global, stage: Stage) -> Result<Planner, Memory> {
    match stage {
        Stage::Nothing => Ok(Planner::new(alloc)),
        Stage::NotChosen => with_slots(rt, alloc),
        Stage::Wanted | Stage::TwoWanted => with_own(rt, alloc),
        Stage::Marked | Stage::Turned => with_placed(rt, alloc),
        Stage::Swapped => with_few(rt, alloc),
    }
}

fn lead(rt: &impl Abort, alloc: Global, ledger: &mut Planner, stage: Stage) -> Result<(), Memory> {
    match stage {
        Stage::Nothing | Stage::Wanted => Ok(()),
        Stage::NotChosen => want(rt, alloc, ledger),
        Stage::TwoWanted | Stage::Marked => add_other(rt, alloc, ledger),
        Stage::Turned => turn(rt, alloc, ledger),
        Stage::Swapped => swap(rt, alloc, ledger),
    }
}

fn ledger_at(rt: &impl Abort, alloc: Global, stage: Stage) -> Result<Planner, Memory> {
    let mut ledger = first_ledger(rt, alloc, stage)?;
    lead(rt, alloc, &mut ledger, stage)?;
    Ok(ledger)
}

fn listed(alloc: Global, slots: &[u32]) -> Result<ObjectList, Memory> {
    let mut objects = Vec::new(alloc);
    for slot in slots {
        objects.push(Object::Slot(*slot))?;
    }
    Ok(ObjectList::from_vec(objects))
}

/// Whether the deal is the one that is wanted.
fn is_deal(what: &DealWhat, (kind, _, tag, slots): Told) -> bool {
    let own = Digest([tag; 32]);
    match what {
        DealWhat::Fresh { name } => kind == 'f' && *name == own,
        DealWhat::Swap { name, slots: mine } => {
            kind == 's' && *name == own && mine.as_slice() == slots
        }
        DealWhat::Cancel {
            name,
            slots: theirs,
        } => { kind == 'c' && *name == own && theirs.as_slice() == slots }
        DealWhat::PutBack { name, first } => kind == 'p'
            && *name == own
            && [*first].as_slice() == slots,
        _ => false,
    }
}

fn is_proposed(change: &Option<Change>, want: Option<Told>) -> bool {
    let (Some(change), Some(want)) = (change, want) else {
        return change.is_none() && want.is_none();
    };
    match change {
        Change::Proposed(Proposed { peer, deal, what }) => {
            *peer == PEER && *deal == want.1 && is_deal(what, want)
        }
        _ => false,
    }
}

/// Whether the wanted deal is proposed.
fn is_next(
    rt: &impl Abort,
    alloc: Global,
    ledger: &Planner,
    listed: &ObjectList,
    facts: &ProposeFacts,
    want: Option<Told>,
) -> Result<bool, Memory> {
    assert!(rt; ledger.ledger().row(PEER).mine() < 1000);
    let change = propose(alloc, ledger, PEER, listed, facts)?;
    Ok(is_proposed(&change, want))
}

/// Whether it is, before the search was led on and after it.
fn is_told(rt: &impl Abort, alloc: Global, row: &Row) -> Result<bool, Memory> {
    let (_, stage, (slots, capacity), want) = row;
    let mut ledger = ledger_at(rt, alloc, *stage)?;
    let objects = listed(alloc, slots)?;
    let facts = ProposeFacts {
        issued: ledger.ledger().issued(),
        capacity: *capacity,
        forward: true,
    };
    let before = is_next(rt, alloc, &ledger, &objects, &facts, *want)?;
    look_ahead(&mut ledger, PEER, &objects, &facts)?;
    let after = is_next(rt, alloc, &ledger, &objects, &facts, *want)?;
    Ok(before && after)
}

#[test]
fn the_next_deal_is_proposed(rt: HostRuntime) -> Result<(), Fail> {
    for row in &ROWS {
        assert!(rt; is_told(&rt, rt.alloc(), row)?, "{}", row.0);
    }
    Ok(())
}
