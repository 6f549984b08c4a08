//! What the node answers for to a peer, and what it has there.
#![tactic(auto)]

mod entry;
mod entry_list;
mod entry_tree;
mod in_list;
mod order;
mod out_list;
mod sought;

pub use entry::{InTest, OutTest};
pub use in_list::InList;
pub use order::compare;
pub use out_list::OutList;
