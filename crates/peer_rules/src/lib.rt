//! What the row of a peer says of a change: the conditions of each kind that speak of one peer alone.
#![tactic(auto)]

mod peer_deals;
mod probes;
mod replies;
mod slots;

pub use peer_deals::{
    Measure, allows_fresh, allows_let_go, allows_put_back, allows_refusal, allows_replacing,
    allows_swap,
};
pub use probes::{allows_asking, allows_declining, allows_failing, is_outcome};
pub use replies::{allows_settling, is_next_own};
pub use slots::{are_own, are_ready, unties_out};
