//! How many places a ticket has at most.
ghost use Rattle.snapshot_restore.specs.FewPlaces.{TextsHaveFewPlaces, FilesHaveFewPlaces};

/// The ticket's own text has one place. Each text that a list of refs names has no more than a text may have
/// bytes, since a ref that is read of a list has a length of a byte at least, and a text that is longer in sum
/// is refused before its first place. The files have one place for each ref of the skeleton, which takes 68
/// bytes of its text.
pub fn places_are_few()
    ensures texts { TextsHaveFewPlaces }
    ensures files { FilesHaveFewPlaces }
{}
