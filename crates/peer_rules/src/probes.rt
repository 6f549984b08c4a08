//! What the row of a peer says of a probe and its outcome.

ghost use Rattle.std.specs.Prelude.{◌≡◌, ◌==◌, if◌then◌else◌, nat_lt, not};
ghost use Rattle.std.specs.List.{list_all};
ghost use Rattle.std.specs.Option.{option_map};
ghost use Rattle.psb_model.specs.Words.{all_of};
ghost use Rattle.psb_model.specs.State.{ties_out};
ghost use Rattle.psb_model.specs.Conditions.{may_ask, each, asked_objects, is_one_slot, same_objects, is_outcome, asked_tests, failed_tests, declined_tests};
ghost use Rattle.peer_rules.specs.Probing.{is_untied_at};

use peer_account::Account;
use psb_bytes::{Digest, Object};
use psb_model::{Declined, Failed};

/// The most objects that a probe asks for.
const MOST_ASKED: usize = 32;

/// How a probe failed: the answer was wrong, or a relay told of it.
const WRONG: u8 = 1;

const RELAYED: u8 = 2;

/// One slot and no more.
fn is_one_slot(objects: &[Object]) -> bool
    ensures { result ≡ is_one_slot objects.now }
{
    matches!(objects, [Object::Slot(_)])
}

/// The two lists are one.
fn is_same(a: &[Object], b: &[Object]) -> bool
    ensures { result ≡ same_objects a.now b.now }
{
    a == b
}

/// Whether nothing was got: all bytes are 0.
fn is_nothing(got: &Digest) -> bool
    ensures { result ≡ list_all (λ b. b == 0) got.now }
{
    got.0.iter().all(|b| *b == 0)
}

/// Whether a probe of this number may fail so: a relay's has number 0.
fn is_how(asked: u64, how: u8) -> bool
    ensures { result ≡ (if asked == 0 then how == 2 else nat_lt how 2) }
{
    if asked == 0 {
        how == RELAYED
    } else {
        how < RELAYED
    }
}

fn may_ask_each(account: &Account, objects: &[Object]) -> bool
    ensures { result ≡ each (may_ask account.now.row) objects.now }
{
    objects.iter().all(|object| account.may_ask(object))
}

/// Whether the pending deal ties none of the objects there.
fn unties(account: &Account, objects: &[Object]) -> bool
    ensures { result ≡ each (λ o. not (ties_out account.now.row.pending o)) objects.now }
{
    objects.iter().all(|object| !account.ties_out(object))
}

/// What the last probe asks for, where it is the change of this number and has no outcome yet.
fn asked_for(account: &Account, asked: u64) -> Option<&[Object]>
    ensures { option_map (λ b. b.now) result ≡ asked_objects account.now.row.asked asked }
{
    match account.asked() {
        Some((number, objects)) if *number == asked => Some(objects.as_slice()),
        _ => None,
    }
}

/// Whether a probe may ask for these objects.
pub fn allows_asking(account: &Account, objects: &[Object]) -> bool
    ensures { result ≡ all_of (asked_tests account.now.row objects.now) }
{
    1 <= objects.len()
        && objects.len() <= MOST_ASKED
        && may_ask_each(account, objects)
        && unties(account, objects)
}

/// Whether this is the outcome of the last probe with its objects, or a relay's with one slot.
pub fn is_outcome(account: &Account, asked: u64, objects: &[Object]) -> bool
    ensures { result ≡ is_outcome account.now.row asked objects.now }
{
    if asked == 0 {
        return is_one_slot(objects);
    }
    match asked_for(account, asked) {
        None => false,
        Some(list) => is_same(list, objects),
    }
}

/// Whether a probe may have failed so.
pub fn allows_failing(account: &Account, x: &Failed) -> bool
    ensures { result ≡ all_of (failed_tests account.now.row x.now.asked x.now.how x.now.got x.now.objects) }
{
    let objects = x.objects.as_slice();
    is_outcome(account, x.asked, objects)
        && x.how <= RELAYED
        && is_how(x.asked, x.how)
        && (x.how == WRONG || is_nothing(&x.got))
        && unties(account, objects)
}

/// Whether the last probe may be declined for the objects at these places.
pub fn allows_declining(account: &Account, x: &Declined) -> bool
    ensures { result ≡ all_of (declined_tests account.now.row x.now.asked x.now.places) }
{
    match asked_for(account, x.asked) {
        None => false,
        Some(objects) => are_untied_at(account, objects, x.places.as_slice()),
    }
}

/// Whether the place is one of the list, and no deal ties its object.
fn is_untied_at(account: &Account, objects: &[Object], place: u16) -> bool
    ensures { result ≡ is_untied_at account.now.row objects.now place }
{
    match objects.get(usize::from(place)) {
        None => false,
        Some(object) => !account.ties_out(object),
    }
}

/// Whether that holds of each of the places.
fn are_untied_at(account: &Account, objects: &[Object], places: &[u16]) -> bool
    ensures { result ≡ list_all (is_untied_at account.now.row objects.now) places.now }
{
    places
        .iter()
        .all(|place| is_untied_at(account, objects, *place))
}
