ghost use Rattle.std.specs.Prelude.{◌≡◌, IfOk, replicate};
ghost use Rattle.psb_model.specs.State.{blank};
ghost use Rattle.peer_account.specs.View.{fresh_row};

use crate::objects_drawn;
use peer_account::Account;
use psb_bytes::{Digest, Object, ObjectList, PeerId};
use psb_model::{Failed, TookFresh};
use std::alloc::Global;
use std::test::Fail;

/// The slots from 5 to 8, from the last on. With the seed 00 01 02 .. 1f word 8 of change 7 is 1101547655, which leaves
/// 3 by 4.
const DRAWN: [Object; 4] = [
    Object::Slot(8),
    Object::Slot(5),
    Object::Slot(6),
    Object::Slot(7),
];

fn seed() -> Digest {
    let mut bytes = [0; 32];
    for i in 0..32_u8 {
        bytes[usize::from(i)] = i;
    }
    Digest(bytes)
}

/// An account with the own slots from 5 to 8, which were drawn for a chunk of four units.
fn account(alloc: Global) -> Result<Account, Fail>
    ensures { IfOk result (λ a. a.row ≡ fresh_row (replicate 32 1) 4 5 1 1 blank) }
{
    let mut account = Account::new(alloc, PeerId(2));
    account.reserve(1, 1)?;
    let chunk = TookFresh {
        peer: PeerId(2),
        deal: 1,
        name: Digest([1; 32]),
        first: 5,
        len: 2048,
        new: true,
        body: None,
    };
    account.take_fresh(&chunk, 4, 1);
    Ok(account)
}

#[test]
fn nothing_is_drawn_of_nothing(rt: HostRuntime) -> Result<(), Fail> {
    let account = Account::new(rt.alloc(), PeerId(2));
    let drawn = objects_drawn(rt.alloc(), &account, &seed(), 7)?;
    assert!(&rt; drawn.as_slice().is_empty());
    Ok(())
}

#[test]
fn slots_are_drawn_from_the_place_of_the_word(rt: HostRuntime) -> Result<(), Fail> {
    let account = account(rt.alloc())?;
    let drawn = objects_drawn(rt.alloc(), &account, &seed(), 7)?;
    assert!(&rt; drawn.as_slice() == DRAWN.as_slice());
    Ok(())
}

#[test]
fn a_slot_in_debt_stands_in_its_place(rt: HostRuntime) -> Result<(), Fail> {
    let mut account = account(rt.alloc())?;
    account.reserve_debts(1)?;
    let failed = Failed {
        peer: PeerId(2),
        asked: 0,
        how: 2,
        got: Digest([0; 32]),
        objects: ObjectList::copy(rt.alloc(), &[Object::Slot(6)])?,
    };
    account.fail(&failed, 2);
    let drawn = objects_drawn(rt.alloc(), &account, &seed(), 7)?;
    assert!(&rt; drawn.as_slice() == DRAWN.as_slice());
    Ok(())
}
