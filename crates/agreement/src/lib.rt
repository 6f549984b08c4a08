//! Two honest nodes agree about what each holds for the other, in any world of nodes.
#![tactic(auto)]

mod laws;

pub use laws::{all_agree, two_agree, worked_world};
