//! Limits that the conditions of changes speak of.
ghost use Rattle.std.specs.Prelude.{◌≡◌, ◌+◌, ◌&&◌, nat_le};
ghost use Rattle.psb_model.specs.Conditions.{most_claims};

use psb_bytes::MOST_CLAIMS;

/// Whether a node that has issued so many claims may issue so many more.
pub fn may_issue(issued: u32, more: u32) -> bool
    ensures { result ≡ nat_le (issued + more) most_claims }
{
    u64::from(issued) + u64::from(more) <= u64::from(MOST_CLAIMS)
}

/// Whether a refusal for this reason bars the name for good: the name is bad, the chunk is there already, or
/// other bytes are held under its name.
pub fn bars_name(why: u8) -> bool
    ensures { result ≡ (nat_le 2 why && nat_le why 4) }
{
    matches!(why, 2..=4)
}
