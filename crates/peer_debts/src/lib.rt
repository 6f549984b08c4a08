//! What a peer lost and still owes: rows of debt, in order of booking.
#![tactic(auto)]

mod debt_list;

pub use debt_list::{DebtList, is_whole_listed};
