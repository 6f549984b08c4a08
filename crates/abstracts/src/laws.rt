//! The law of abstracts.

ghost use Rattle.abstracts.specs.Laws.{AreTheLeast};

/// An abstract has the k least of the names under its salt: of all in order, the first k.
pub fn abstracts_are_the_least()
    ensures { AreTheLeast }
{}
