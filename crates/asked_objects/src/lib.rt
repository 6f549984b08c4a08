//! Which objects a probe of a peer asks for: found by their places among all that may be asked for.
#![tactic(auto)]

mod drawing;
mod listing;
mod order;
mod parts;

pub use drawing::objects_drawn;

#[cfg(test)]
mod tests;
