//! The laws of the histories that a disk may hold.
ghost use Rattle.node_history.specs.Less.{LessGivesTheSame};

/// A history and the same less bodies that were given up give one state; and where what is left is valid, the same
/// bytes are held under each name, and stand in each slot that is to have them here. So a node that is opened goes on
/// as the history has it.
pub fn less_gives_the_same()
    ensures { LessGivesTheSame }
{}
