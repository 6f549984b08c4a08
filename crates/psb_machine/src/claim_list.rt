ghost use Rattle.std.specs.Prelude.{◌≡◌, ◌≤◌, ◌<◌, ◌+◌, ◌^◌, IfOk};
ghost use Rattle.psb_digest.specs.Claims.{claim};
ghost use Rattle.psb_machine.specs.Replies.{claims_from};

use claims::ClaimSource;
use psb_bytes::{ClaimList, Items, Memory, SlotClaim};
use std::alloc::Global;

/// The claims of `count` slots from the first one on. A claim's number is its slot. The source walks over
/// those that are its next, so that each of them is made once.
pub fn claims_from(
    alloc: Global,
    source: &mut ClaimSource,
    first: u32,
    count: u32,
) -> Result<ClaimList, Memory>
    requires slots { first + count < 2 ^ 32 }
    requires issued { first + count ≤ source.old.issued }
    ensures list { IfOk result (λ l. l ≡ claims_from source.old.seed first count) }
    ensures seed { source.new.seed ≡ source.old.seed }
    ensures issued { source.new.issued ≡ source.old.issued }
{
    if source.walked() == first {
        next_claims(alloc, source, first, count)
    } else {
        known_claims(alloc, source, first, count)
    }
}

/// A claim, over which the source walks where it is the next.
fn next_claim(source: &mut ClaimSource, slot: u32) -> [u8; 512]
    requires { slot < source.old.issued }
    ensures bytes { result ≡ claim source.old.seed slot }
    ensures seed { source.new.seed ≡ source.old.seed }
    ensures issued { source.new.issued ≡ source.old.issued }
{
    if source.walked() != slot {
        return source.claim(slot);
    }
    match source.walk_next() {
        Ok(bytes) => bytes,
        Err(_) => source.claim(slot),
    }
}

/// Claims that the source has not walked over.
fn next_claims(
    alloc: Global,
    source: &mut ClaimSource,
    first: u32,
    count: u32,
) -> Result<ClaimList, Memory>
    requires slots { first + count < 2 ^ 32 }
    requires issued { first + count ≤ source.old.issued }
    ensures list { IfOk result (λ l. l ≡ claims_from source.old.seed first count) }
    ensures seed { source.new.seed ≡ source.old.seed }
    ensures issued { source.new.issued ≡ source.old.issued }
{
    let mut list = Vec::with_capacity(alloc, count as usize)?;
    for i in 0..count {
        let slot = first + i;
        let bytes = next_claim(source, slot);
        list.push(SlotClaim { slot, bytes })?;
    }
    Ok(Items::from_vec(list))
}

/// Claims that the source walked over before.
fn known_claims(
    alloc: Global,
    source: &ClaimSource,
    first: u32,
    count: u32,
) -> Result<ClaimList, Memory>
    requires slots { first + count < 2 ^ 32 }
    requires issued { first + count ≤ source.now.issued }
    ensures { IfOk result (λ l. l ≡ claims_from source.now.seed first count) }
{
    let mut list = Vec::with_capacity(alloc, count as usize)?;
    let mut run = source.run_from(first);
    for i in 0..count {
        list.push(SlotClaim {
            slot: first + i,
            bytes: run.next_claim(),
        })?;
    }
    Ok(Items::from_vec(list))
}
