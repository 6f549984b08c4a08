//! What frames of peers say to a node, and the letters that a node sends.
#![tactic(auto)]

mod frames;
mod issuing;
mod letter;
mod message;
mod peers;
mod replies;

pub use frames::{
    ask_frame, cancel_of, declined_of, object_copy, objects_copy, probe_of, proof_of, put_back_of,
    sample_frame, store_of,
};
pub use issuing::issue_to;
pub use letter::{Letter, Outbox, Outbox64, gets_to, letter_to};
pub use message::{Message, Reading, Sender};
pub use peers::Peers;
pub use replies::{answer_to, here_to, reply_to};
