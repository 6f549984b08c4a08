//! Which names a node holds bodies of, in which record of the log each stands, and whose they are.
//!
//! The table is an ordered tree in memory, so that the steps of a call grow with the logarithm of
//! the number of names, and with the number of owners of the one name, whichever names others
//! choose: a hash table would want a secret for that. A tree takes memory where it grows. So `add`
//! keeps what it adds beside the tree, and the next `make_room` puts it in.
#![tactic(auto)]

mod error;
mod latest;
mod owner;
mod owners;
mod reading;
mod store;
mod table;

pub use error::{NotThere, StoreError};
pub use owner::Owner;
pub use reading::Fit;
pub use store::Store;

#[cfg(test)]
mod tests;
