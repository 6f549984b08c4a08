//! The own deal that a tick of a peer offers, and the letter that asks for it. Nothing is written here.
#![tactic(auto)]

mod asking;
mod offering;

pub use asking::deal_letter;
pub use offering::{Offer, offer_at, proposed};
