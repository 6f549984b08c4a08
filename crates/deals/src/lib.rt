//! Deals with a peer: how one stands by its number, the change that a fresh one makes, the change that a
//! reply to one of the node's own makes, and the own deal that is proposed next.
#![tactic(auto)]

mod deal;
mod facts;
mod judging;
mod proposing;
mod reasons;
mod reply;
mod settling;
mod slots;
mod standings;
mod taking;

pub use deal::DealView;
pub use facts::Facts;
pub use judging::judge;
pub use proposing::{ProposeFacts, look_ahead, propose};
pub use psb_machine::{Reason, Refusal, Standing};
pub use reasons::refusal;
pub use reply::{AnswerView, ReplyView};
pub use settling::settle;
pub use standings::standing;

#[cfg(test)]
mod tests;
