//! The changes of a node as records of its log: a head, which has the kind and its fields in order, and a body.
#![tactic(auto)]

mod deals;
mod decode;
mod encode;
mod fields;
mod grammar;
mod kinds;
mod laws;
mod lists;
mod writing;

pub use decode::{ChangeError, decode_change};
pub use encode::encode_change;
pub use laws::{a_record_is_read_as_its_change, one_record_stands_for_one_change};
