//! What a node looks up in its log for a peer: the facts that a deal is judged by, the answer that a deal had, the
//! proof that a peer asks for, and the one that it is asked for. Nothing is written here.
#![tactic(auto)]

mod bytes;
mod claims_in_turn;
mod facts;
mod own_chain;
mod probing;
mod repeats;

pub use facts::facts_of;
pub use own_chain::{are_own, own_value};
pub use probing::{Holdings, proof_for};
pub use repeats::reply_again;
