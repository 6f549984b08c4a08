//! The settings of a node: what a text of TOML has to say, and its reader.
#![tactic(auto)]

mod error;
mod fields;
mod read;
mod settings;

pub use error::SettingsError;
pub use read::{MOST_PEERS, read_settings};
pub use settings::{PeerList, PeerRow, Settings};
