//! Limits that several layers speak of.

/// The most claims that a node ever issues. Their numbers are below it.
pub const MOST_CLAIMS: u32 = u32::MAX;

/// The reasons of a refusal are 1 to this.
pub const LAST_REASON: u8 = 9;
