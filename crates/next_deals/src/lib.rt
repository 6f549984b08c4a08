//! What a node does next with each peer: which of its chunks there it releases, which it places, and
//! the slots that it gives or fills for them.
#![tactic(auto)]

mod planner;
mod search;
mod seeking;
mod slots;

pub use planner::Planner;
