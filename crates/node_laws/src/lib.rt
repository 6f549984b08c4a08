//! What holds of one node: why its changes are made, what its letters tell, and what it keeps.
#![tactic(auto)]

mod laws;

pub use laws::{changes_have_causes, letters_are_told};
