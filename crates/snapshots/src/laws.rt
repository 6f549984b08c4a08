//! The laws of tickets, of trees, of walks and of readers.
ghost use Rattle.snapshots.specs.Laws.{TicketMeansItsTree, TreesAreInPlace, PlacesHaveSkeletons, TreesHaveTickets, FoldersHaveOneTree, ShortTreesAreNotTooLarge};
ghost use Rattle.snapshots.specs.GotLaws.{ReadsTheMeaning, BadTextsAreMet, ReadTreesAreInPlace, ReadTreesAreCounted};
ghost use Rattle.snapshots.specs.Reading.{EndedReadersGaveAll, ReadersGiveFirstChunks, ReadersReadOnePieceAhead};
ghost use Rattle.snapshots.specs.Writing.{EmptyFoldersAreBare, WritingsAreTrees, WritingsStayBelow};
ghost use Rattle.snapshots.specs.Shapes.{WalksHavePlaces, SkeletonsAreAsLong, WalksAreInPlace, WalksFindTrees, WalksAreNotTooLarge};

/// A ticket means the tree that it was made of, over any bodies that have the sealed pieces of its files, of
/// its skeleton and of the lists of refs above that.
#[tactic(auto, using(crate::proofs::Tickets::ticket_means))]
pub fn a_ticket_means_its_tree()
    ensures { TicketMeansItsTree }
{}

/// What is read of a ticket is what it means over any bodies, or two unequal texts were met that share a
/// SHA-256: one of these bodies, and one that was used for its name.
pub fn reads_the_meaning()
    ensures { ReadsTheMeaning }
{}

/// Over bodies over which the ticket means something, a text on the way that is too long, or outside the
/// grammar, was read only where two such texts were met.
pub fn bad_texts_are_met()
    ensures { BadTextsAreMet }
{}

/// A tree that was read of a ticket is in place, whatever bodies were used.
pub fn read_trees_are_in_place()
    ensures { ReadTreesAreInPlace }
{}

/// The entries that were read count the files, the folders and the bytes of that tree.
pub fn read_trees_are_counted()
    ensures { ReadTreesAreCounted }
{}

/// What stands below a folder, in the order of the paths, is in place, where none of these is too long:
/// each behind the folders that it lies in.
#[tactic(auto, using(crate::proofs::Skeletons::tree_in_place))]
pub fn trees_are_in_place()
    ensures { TreesAreInPlace }
{}

/// Places that are in place have a skeleton.
#[tactic(auto, using(crate::proofs::Skeletons::places_have_skeleton))]
pub fn places_have_skeletons()
    ensures { PlacesHaveSkeletons }
{}

/// Four lists of refs above each other are enough for any skeleton whose text is not too long.
#[tactic(auto, using(crate::proofs::Levels::tree_has_ticket))]
pub fn trees_have_tickets()
    ensures { TreesHaveTickets }
{}

/// Where the folder tells what it holds, a walk finds the places of a tree.
pub fn walks_have_places()
    ensures { WalksHavePlaces }
{}

/// A skeleton's text is as long as the walk has counted, and 68 bytes more for each ref.
#[tactic(auto, using(crate::proofs::WalkPlaces::skeleton_is_as_long))]
pub fn skeletons_are_as_long()
    ensures { SkeletonsAreAsLong }
{}

/// What a walk finds is in place, whatever the folder answered.
#[tactic(auto, using(crate::proofs::WalkTrees::in_place))]
pub fn walks_are_in_place()
    ensures { WalksAreInPlace }
{}

/// Where the folder tells what it holds, and its files were read, what a walk finds is its tree.
pub fn walks_find_trees()
    ensures { WalksFindTrees }
{}

/// A folder has one tree.
#[tactic(auto, using(crate::proofs::NotTooLarge::one_tree))]
pub fn folders_have_one_tree()
    ensures { FoldersHaveOneTree }
{}

/// Where no path of its tree is too long, nor the text of its skeleton, a folder is not too large.
pub fn short_trees_are_not_too_large()
    ensures { ShortTreesAreNotTooLarge }
{}

/// Where a walk found what stands in a folder, the folder is not too large.
pub fn walks_are_not_too_large()
    ensures { WalksAreNotTooLarge }
{}

/// The chunks that an ended reader gave are those that its file is cut into.
#[tactic(auto, using(crate::proofs::ChunkReads::ended_gave_all))]
pub fn ended_readers_gave_all()
    ensures { EndedReadersGaveAll }
{}

/// The chunks that a reader gave are the first of those that its file is cut into.
pub fn readers_give_first_chunks()
    ensures { ReadersGiveFirstChunks }
{}

/// A reader is at most a piece ahead of the chunks that it gave.
#[tactic(auto, using(crate::proofs::ChunkReads::read_ahead))]
pub fn readers_read_one_piece_ahead()
    ensures { ReadersReadOnePieceAhead }
{}

/// Where each thing stands in folders, nothing stands below a folder that lists nothing.
pub fn empty_folders_are_bare()
    ensures { EmptyFoldersAreBare }
{}

/// What is written in place below a bare folder is the tree that stands there then.
pub fn writings_are_trees()
    ensures { WritingsAreTrees }
{}

/// Where none of it was put stands what stood there.
pub fn writings_stay_below()
    ensures { WritingsStayBelow }
{}
