use crate::{abstract_of, coverage};
use psb_bytes::{Digest, DigestList};
use psb_digest::sha;
use std::alloc::Global;
use std::test::Fail;

/// The names of so many numbers, each the hash of its number as a byte.
fn names(alloc: Global, numbers: &[u8]) -> Result<DigestList, Fail> {
    let mut names = Vec::new(alloc);
    for number in numbers {
        names.push(sha(&[*number]))?;
    }
    Ok(DigestList::from_vec(names))
}

fn salt() -> Digest {
    sha(b"salt")
}

/// The abstract of the six names, computed elsewhere, as far as it goes.
fn is_sample(rt: &HostRuntime, k: u32, wanted: &[u8]) -> Result<bool, Fail> {
    let all = names(rt.alloc(), &[3, 1, 0, 2, 4, 5])?;
    let sample = abstract_of(rt.alloc(), all.as_slice(), &salt(), k)?;
    let wanted = names(rt.alloc(), wanted)?;
    Ok(sample.as_slice() == wanted.as_slice())
}

#[test]
fn the_least_under_a_salt_come_in_order(rt: HostRuntime) -> Result<(), Fail> {
    assert!(&rt; is_sample(&rt, 0, &[])?);
    assert!(&rt; is_sample(&rt, 1, &[3])?);
    assert!(&rt; is_sample(&rt, 3, &[3, 5, 0])?);
    assert!(&rt; is_sample(&rt, 6, &[3, 5, 0, 4, 1, 2])?);
    assert!(&rt; is_sample(&rt, 32, &[3, 5, 0, 4, 1, 2])?);
    Ok(())
}

#[test]
fn of_no_names_there_is_no_abstract(rt: HostRuntime) -> Result<(), Fail> {
    let none = abstract_of(rt.alloc(), &[], &salt(), 32)?;
    assert_eq!(&rt; none.as_slice().len(), 0);
    Ok(())
}

#[test]
fn only_the_lowest_bits_count(rt: HostRuntime) {
    assert_eq!(&rt; coverage(0b1011, 0), 0);
    assert_eq!(&rt; coverage(0b1011, 1), 1);
    assert_eq!(&rt; coverage(0b1011, 3), 2);
    assert_eq!(&rt; coverage(0b1011, 4), 3);
    assert_eq!(&rt; coverage(u32::MAX, 32), 32);
    assert_eq!(&rt; coverage(1 << 31, 31), 0);
}
