use crate::{ClaimSource, IssueError};
use psb_bytes::{Digest, read_digest};
use psb_digest::sha;
use std::alloc::Global;
use std::test::Fail;

// The seed 00 01 02 .. 1f.
const SEED: &str = "000102030405060708090a0b0c0d0e0f101112131415161718191a1b1c1d1e1f";

fn digest(text: &str) -> Result<Digest, Fail> {
    Ok(read_digest(text).ok_or("64 digits")?)
}

fn new_source(alloc: Global) -> Result<ClaimSource, Fail> {
    Ok(ClaimSource::new(alloc, &digest(SEED)?))
}

// The hash of a claim that was issued.
fn hash_of(source: &ClaimSource, i: u32) -> Option<Digest> {
    if i < source.issued() {
        Some(sha(&source.claim(i)))
    } else {
        None
    }
}

// Whether two claims from a number on have the bytes that each has by itself.
fn run_agrees(source: &ClaimSource, i: u32) -> bool {
    if source.issued() < 2 || i > source.issued() - 2 {
        return false;
    }
    let mut run = source.run_from(i);
    let first = run.next_claim();
    let second = run.next_claim();
    first == source.claim(i) && second == source.claim(i + 1)
}

#[test]
fn claims_are_those_of_the_seed(rt: HostRuntime) -> Result<(), Fail> {
    let mut source = new_source(rt.alloc())?;
    assert_eq!(rt; source.issue(300)?, 0);
    let rows = [
        (
            0,
            "7ca745377f1a10e1569b02ad1434e057373adff946554ba6ce302131ba0d3390",
        ),
        (
            16,
            "3dd2468bed37b565b00ec413c6310cfc315fb054fe697ce127a7f84cbd8973a4",
        ),
        (
            299,
            "827953ac605ddc6126a47ba5f122c4c8389d53b7b543437c32e825fd3f827330",
        ),
    ];
    for budget in [0, 17, 300] {
        source.walk(budget)?;
        for (i, want) in rows {
            assert_eq!(rt; hash_of(&source, i), Some(digest(want)?), "claim {i}");
        }
        for i in [0, 15, 16, 298] {
            assert!(rt; run_agrees(&source, i), "claims {i} and behind it");
        }
    }
    assert_eq!(rt; source.walk(1)?, 0);
    Ok(())
}

#[test]
fn issues_ahead_of_the_walk(rt: HostRuntime) -> Result<(), Fail> {
    let mut source = new_source(rt.alloc())?;
    assert_eq!(rt; source.issue(65536)?, 0);
    assert_eq!(rt; source.issued(), 65536);
    let last = source.claim(65535);
    assert_eq!(rt; source.walk(70000)?, 65536);
    for _again in 1..4096 {
        assert_eq!(rt; source.claim(65535), last);
    }
    assert_eq!(rt; source.home_of(&last), Some(65535));
    Ok(())
}

#[test]
fn walks_as_far_as_numbers_were_issued(rt: HostRuntime) -> Result<(), Fail> {
    let mut source = new_source(rt.alloc())?;
    assert_eq!(rt; source.issue(20)?, 0);
    assert_eq!(rt; source.walk(0)?, 0);
    assert_eq!(rt; source.walk(16)?, 16);
    assert_eq!(rt; source.walk(3)?, 3);
    let last = source.claim(19);
    assert_eq!(rt; source.walk_next()?, last);
    assert_eq!(rt; source.walked(), 20);
    assert_eq!(rt; source.walk(5)?, 0);
    Ok(())
}

#[test]
fn finds_walked_claims_and_others(rt: HostRuntime) -> Result<(), Fail> {
    let mut source = new_source(rt.alloc())?;
    source.issue(100)?;
    assert_eq!(rt; source.walk(40)?, 40);
    let mut other = new_source(rt.alloc())?;
    other.issue(101)?;
    for i in [0, 39, 40, 99] {
        let body = other.claim(i);
        assert_eq!(rt; source.claim(i), body, "claim {i}");
        assert_eq!(rt; source.home_of(&body), Some(i), "claim {i}");
    }
    assert_eq!(rt; source.home_of(&other.claim(100)), None);
    let mut altered = source.claim(3);
    altered[511] ^= 1;
    assert_eq!(rt; source.home_of(&altered), None);
    Ok(())
}

#[test]
fn numbers_are_spent_at_the_bound(rt: HostRuntime) -> Result<(), Fail> {
    let mut source = new_source(rt.alloc())?;
    assert_eq!(rt; source.issue(1)?, 0);
    assert_eq!(rt; source.issue(4_294_967_295), Err(IssueError::Spent));
    assert_eq!(rt; source.issued(), 1);
    assert_eq!(rt; source.issue(1)?, 1);
    let mut source = new_source(rt.alloc())?;
    assert_eq!(rt; source.issue(4_294_967_294)?, 0);
    assert_eq!(rt; source.issue(2), Err(IssueError::Spent));
    assert_eq!(rt; source.issue(1)?, 4_294_967_294);
    assert_eq!(rt; source.issue(1), Err(IssueError::Spent));
    assert_eq!(rt; source.issued(), 4_294_967_295);
    Ok(())
}
