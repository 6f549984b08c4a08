//! The laws of one history, of whatever kinds its changes are.

ghost use Rattle.placing_laws.specs.Laws.{PlacedAreOwn, ChunksStay, SlotsWereGiven};

/// A chunk that a peer has, or lost, is the node's own. One that a peer has counts there as many units as the own
/// chunk's length asks for.
pub fn placed_chunks_are_own()
    ensures { PlacedAreOwn }
{}

/// A chunk that stands here for a peer stays, with its units, in each change but one by which that peer lets it go, or
/// by which it is discarded.
pub fn chunks_stay()
    ensures { ChunksStay }
{}

/// Each slot that stands here for a peer got bytes from some change, and of those which gave it some there is a last; so
/// there is of those which said what it has, by bytes or by the number of an own claim.
pub fn slots_were_given()
    ensures { SlotsWereGiven }
{}
