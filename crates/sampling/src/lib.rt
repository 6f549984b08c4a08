//! What a node asks of its peers before it chooses its buddies, what it answers when it is asked, and its choice
//! (Pastiche, OSDI 2002).
#![tactic(auto)]

mod answering;
mod candidates;
mod choosing;
mod questions;
mod wanted;

pub use answering::{is_answer_to, sample_of};
pub use candidates::{add_candidate, is_ready};
pub use choosing::choose;
pub use psb_machine::Question;
pub use questions::{has_names, keeps_question, question_of, salt_of};

#[cfg(test)]
mod tests;
