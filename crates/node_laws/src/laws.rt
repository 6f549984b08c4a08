//! The laws of one node, over its machine.

ghost use Rattle.node_laws.specs.Causes.{HaveCauses, AreTold};

/// Each change is made of a deal that a datagram asks for, or of a reply that one is, or it neither answers a deal of a
/// peer nor ends one of the node's own.
pub fn changes_have_causes()
    ensures { HaveCauses }
{}

/// Each letter that asks for a deal is the frame of one that the history proposed, and each reply that of the change by
/// which the history answered. Those of a deal fit the grammar.
pub fn letters_are_told()
    ensures { AreTold }
{}
