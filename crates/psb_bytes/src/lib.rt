//! Ids, names, objects and the small lists that all layers speak of, and bytes read and written in turn.
#![tactic(auto)]

mod digits;
mod ids;
mod limits;
mod lists;
mod names;
mod numbers;
mod paths;
mod reading;
mod units;
mod writing;

pub use digits::{digest_text, hex_text, read_digest};
pub use ids::{Digest, MOST_LEVELS, Object, PeerId, Ref, Seat, Ticket};
pub use limits::{LAST_REASON, MOST_CLAIMS};
pub use lists::{
    Bytes, ClaimList, DigestList, Items, Memory, ObjectList, PlaceList, RefList, Short, SlotClaim,
    SlotList, Text,
};
pub use names::{has_names, is_name};
pub use numbers::numbers_have_one_spelling;
pub use paths::folder_of;
pub use reading::Cursor;
pub use units::{LONGEST_CHUNK, UNIT, units_of};
pub use writing::Page;

#[cfg(test)]
mod tests;
