//! Snapshots: what a ticket means, the ticket of a tree and its counts, the walk that finds a tree, and
//! the chunks of its files as they are read.
#![tactic(auto)]

mod counting;
mod gathering;
mod laws;
mod paths;
mod reading;
mod sealing;
mod unread;
mod walking;
mod writing;

pub use counting::{Counts, count};
pub use laws::{
    a_ticket_means_its_tree, bad_texts_are_met, empty_folders_are_bare, ended_readers_gave_all,
    folders_have_one_tree, places_have_skeletons, read_trees_are_counted, read_trees_are_in_place,
    readers_give_first_chunks, readers_read_one_piece_ahead, reads_the_meaning,
    short_trees_are_not_too_large, skeletons_are_as_long, trees_are_in_place, trees_have_tickets,
    walks_are_in_place, walks_are_not_too_large, walks_find_trees, walks_have_places,
    writings_are_trees, writings_stay_below,
};
pub use paths::child_path;
pub use reading::ChunkReader;
pub use sealing::refs_of_text;
pub use walking::{Found, WalkFault, Walked, walk};
pub use writing::{WriteFault, add_piece, is_empty, make_place};

#[cfg(test)]
mod tests;
