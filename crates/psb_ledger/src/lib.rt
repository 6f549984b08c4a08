//! The ledger of a node: the state that a history of its changes gives.
#![tactic(auto)]

mod ledger;

pub use ledger::{Balance, Ledger};
