//! Which entries a discard takes (Samsara, SOSP 2003: a peer's debt is paid by chance, the more often the
//! more probes it failed in a row).
#![tactic(auto)]

mod choosing;
mod failures;
mod grades;
mod picking;

pub use choosing::choose;
pub use failures::grade;
pub use grades::Grade;
pub use picking::{MOST_CHOSEN, Picker};

#[cfg(test)]
mod tests;
