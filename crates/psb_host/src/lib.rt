//! The devices of the machine that a program runs on: a file, a UDP socket, standard output and the clock as a
//! station, and the folders. Each keeps a record of its calls and their answers that clauses alone can read, and tells
//! what its file or its folders hold as long as the answers are those of honest ones.
#![tactic(auto)]

mod call;
mod file_id;
mod host_folder;
mod host_station;
mod laws;
mod record;
mod standard;
mod start;
mod transfer;

pub use host_folder::HostFolder;
pub use host_station::HostStation;
pub use laws::{a_lie_ends_the_telling, honest_file_goes_on, honest_folder_goes_on};
pub use standard::Standard;
pub use start::{Start, StartFolder, Unknown};
