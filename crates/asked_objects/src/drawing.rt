//! Which objects a probe asks for, from a place that is drawn.

ghost use Rattle.std.specs.Prelude.{◌≡◌, ◌≤◌, ◌<◌, ◌+◌, ◌%◌, ◌^◌, ◌++◌, length, option_to_list, IfOk, OnOk};
ghost use Rattle.psb_digest.specs.Words.{own_word};
ghost use Rattle.psb_machine.specs.OwnProbes.{listed_from, objects_to_ask};
ghost use Rattle.asked_objects.specs.Listable.{IsListable};
ghost use Rattle.asked_objects.specs.Parts.{AreParts};

use crate::parts::{Parts, go_round};
use peer_account::Account;
use psb_bytes::{Digest, Memory, Object, ObjectList};
use psb_digest::own_words;
use std::alloc::Global;

/// No probe asks for more objects.
const MOST_LISTED: u64 = 32;

/// The word by which a change's place is drawn; the eight in front of it are the probe's nonce.
fn drawn_word(seed: &Digest, change: u64) -> u32
    ensures { result ≡ own_word seed.now change 8 }
{
    let mut words = own_words(seed, change);
    for _ in 0..8_u64 {
        words.next();
    }
    words.next()
}

/// Puts an object behind the others, if there is one.
fn push_some(objects: &mut Vec<Object>, object: Option<Object>) -> Result<(), Memory>
    ensures { OnOk result (objects.new.items ≡ objects.old.items ++ option_to_list object) }
{
    if let Some(o) = object {
        objects.push(o)?;
    }
    Ok(())
}

/// The objects from a place on, and on from the first behind the last, as many as a probe lists.
fn listed_from(
    alloc: Global,
    account: &Account,
    parts: &Parts,
    first: u64,
) -> Result<ObjectList, Memory>
    requires listable { IsListable account.now.row }
    requires parts { AreParts account.now.row parts.now.chunks.items parts.now.slots parts.now.debts.items }
    requires first { first < length (objects_to_ask account.now.row) }
    ensures { IfOk result (λ os. os ≡ listed_from first (objects_to_ask account.now.row)) }
{
    let count = parts.count(account);
    let mut place = parts.place(account, first);
    let mut objects = Vec::new(alloc);
    for _ in 0..count.min(MOST_LISTED) {
        push_some(&mut objects, parts.take_next(account, &mut place))?;
        go_round(&mut place, count);
    }
    Ok(ObjectList::from_vec(objects))
}

/// What a probe asks for that the change of this number begins: at most 32 of the objects that the peer may be
/// asked for, in object order from a place that is drawn, and on from the first behind the last. Empty exactly where there
/// is nothing to ask for.
pub fn objects_drawn(
    alloc: Global,
    account: &Account,
    seed: &Digest,
    change: u64,
) -> Result<ObjectList, Memory>
    requires { IsListable account.now.row }
    ensures { IfOk result (λ os. os ≡ listed_from (own_word seed.now change 8 % length (objects_to_ask account.now.row)) (objects_to_ask account.now.row)) }
{
    let parts = Parts::of(alloc, account)?;
    let count = parts.count(account);
    if count == 0 {
        return Ok(ObjectList::from_vec(Vec::new(alloc)));
    }
    let first = u64::from(drawn_word(seed, change)) % count;
    listed_from(alloc, account, &parts, first)
}
