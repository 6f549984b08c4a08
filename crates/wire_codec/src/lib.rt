//! The frames that two nodes send each other: one spelling for each frame, both ways.
#![tactic(auto)]

mod bodies;
mod cells;
mod fields;
mod frame;
mod keys;
mod laws;
mod limits;
mod objects;
mod reading;
mod view;
mod views;
mod writing;

pub use frame::{Dropped, Frame};
pub use keys::{KeyError, Keys};
pub use laws::{one_datagram, one_frame, read_is_spelled, spelled_is_read};
pub use limits::{
    CLAIM_BYTES, DIGEST_BYTES, HEADER_BYTES, LAST_KIND, MAGIC, MOST_BYTES, MOST_FRAME_BYTES,
    MOST_OBJECTS, MOST_SLOTS, TAG_BYTES,
};
pub use objects::ObjectsView;
pub use reading::decode;
pub use view::{BodyView, FrameView};
pub use views::{ClaimsView, NamesView, PlacesView, SlotsView};
pub use writing::encode;

#[cfg(test)]
mod tests;
