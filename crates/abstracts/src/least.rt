//! The least names under a salt.

ghost use Rattle.std.specs.Prelude.{◌≡◌, ◌≤◌, length, map, take, OnOk, IfOk};
ghost use Rattle.abstracts.specs.Least.{under_salt, comes_before, put_in, place_in, abstract_of};

use psb_bytes::{Digest, DigestList, Memory};
use psb_digest::sha_two;
use std::alloc::Global;
use std::cmp::Ordering;

/// A name with its hash under a salt.
#[derive(Clone, Copy)]
pub(crate) struct Salted {
    pub hash: Digest,
    pub name: Digest,
}

fn under_salt(salt: &Digest, name: &Digest) -> Salted
    ensures { result ≡ under_salt salt.now name.now }
{
    Salted {
        hash: sha_two(&salt.0, &name.0),
        name: *name,
    }
}

/// The lesser hash comes first, and of one hash the lesser name.
fn comes_before(a: &Salted, b: &Salted) -> bool
    ensures { result ≡ comes_before a.now b.now }
{
    match a.hash.cmp(&b.hash) {
        Ordering::Less => true,
        Ordering::Equal => a.name.cmp(&b.name).is_lt(),
        Ordering::Greater => false,
    }
}

/// How many stand before it.
fn place_in(new: &Salted, least: &[Salted]) -> usize
    ensures { result ≡ place_in new.now least.now }
{
    for i in 0..least.len() {
        if comes_before(new, &least[i]) {
            return i;
        }
    }
    least.len()
}

/// Puts a name in its place among the least, of which no more than k are kept.
fn keep(least: &mut Vec<Salted>, k: usize, new: Salted) -> Result<(), Memory>
    requires { length least.old.items ≤ k }
    ensures { OnOk result (least.new.items ≡ take k (put_in new least.old.items)) }
{
    let place = place_in(&new, least);
    if place >= k {
        return Ok(());
    }
    least.insert(place, new)?;
    least.truncate(k);
    Ok(())
}

fn names_of(alloc: Global, least: &[Salted]) -> Result<DigestList, Memory>
    ensures { IfOk result (λ l. l ≡ map (λ s. s.name) least.now) }
{
    let mut names = Vec::with_capacity(alloc, least.len())?;
    for one in least {
        names.push(one.name)?;
    }
    Ok(DigestList::from_vec(names))
}

/// The k names, or all where there are fewer, with the least SHA-256 of the salt and the name joined, in that order,
/// and of one hash the lesser name first. It hashes each name once, and keeps no more than k.
pub fn abstract_of(
    alloc: Global,
    names: &[Digest],
    salt: &Digest,
    k: u32,
) -> Result<DigestList, Memory>
    ensures { IfOk result (λ l. l ≡ abstract_of names.now salt.now k) }
{
    let mut least = Vec::new(alloc);
    for name in names {
        keep(&mut least, k as usize, under_salt(salt, name))?;
    }
    names_of(alloc, &least)
}
