//! The claims that go out with letters.

ghost use Rattle.std.specs.Prelude.{◌≡◌, ◌≤◌, ◌<◌, ◌+◌, ◌^◌, IfOk};
ghost use Rattle.psb_machine.specs.Replies.{claims_from};

use claims::ClaimSource;
use psb_bytes::{ClaimList, Memory};
use psb_machine::claims_from;
use std::alloc::Global;

/// Issues the numbers below `end` that were not issued yet. Takes no memory.
pub fn issue_to(claims: &mut ClaimSource, end: u32)
    ensures issued { end ≤ claims.new.issued }
    ensures stay { claims.old.issued ≤ claims.new.issued }
    ensures seed { claims.new.seed ≡ claims.old.seed }
{
    let missing = end.saturating_sub(claims.issued());
    let _ = claims.issue(missing);
}

/// A claim for each of so many slots from the first one on.
pub(crate) fn claims_at(
    alloc: Global,
    claims: &mut ClaimSource,
    first: u32,
    count: u32,
) -> Result<ClaimList, Memory>
    requires claims { first + count < 2 ^ 32 }
    ensures list { IfOk result (λ l. l ≡ claims_from claims.old.seed first count) }
    ensures seed { claims.new.seed ≡ claims.old.seed }
    ensures issued { claims.old.issued ≤ claims.new.issued }
{
    issue_to(claims, first + count);
    // Walked claims are fast to make. Where memory runs out, those that were not are right but slow.
    let _ = claims.walk(first.saturating_sub(claims.walked()));
    claims_from(alloc, claims, first, count)
}
