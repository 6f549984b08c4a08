//! The changes of a node, and the state that a history of them gives.
#![tactic(auto)]

mod change;
mod deals;
mod entries;
mod kinds;
mod limits;
mod snapshots;

pub use change::Change;
pub use deals::{Deal, DealWhat, LastDeal};
pub use entries::{
    Candidate, CandidateList, DebtEntry, InEntry, InState, OutEntry, OutState, OwnEntry, SnapMark,
};
pub use kinds::{
    Asked, Begun, Chose, Declined, Discarded, Failed, Forgot, Kept, LetGo, LetGoBack, Passed,
    Proposed, Refused, Replaced, Settled, Snapped, TookFresh, TookSwap, Turned,
};
pub use limits::{bars_name, may_issue};
pub use snapshots::{Snapshot, has_name, is_listed};
