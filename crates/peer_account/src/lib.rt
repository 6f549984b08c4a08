//! What the ledger of a node keeps of one peer: its row, with running sums, and its moves.
#![tactic(auto)]

mod account;
mod probes;

pub use account::{Account, is_named};
