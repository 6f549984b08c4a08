//! The history that the records of a log are: how it is read up, with the names that are held, what a change does
//! to them, and what an image of a log stands for.
#![tactic(auto)]

mod entering;
mod fault;
mod given;
mod history;
mod lacking;
mod laws;

pub use entering::Entering;
pub use fault::ReadFault;
pub use given::given_bytes;
pub use history::{Tables, read_history};
pub use laws::less_gives_the_same;
