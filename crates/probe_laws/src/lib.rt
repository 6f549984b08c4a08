//! What holds of the probes of a node's own, over any course of its machine.
#![tactic(auto)]

mod laws;

pub use laws::{
    answers_are_noted, courses_are_just, outcomes_are_just, probes_are_compared,
    probes_run_unanswered, rows_name_own_chunks, silence_is_just,
};
