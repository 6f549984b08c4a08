//! Laws of every lawful history of changes, and histories worked out.
#![tactic(auto)]

ghost use Rattle.psb_model.specs.History.{AllExplained, Balances, StaysWithin};
ghost use Rattle.model_laws.specs.Following.{AllDiscardsFollow, AllOutcomesOnce};
ghost use Rattle.model_laws.specs.Held.{AllHeldHaveBytes};
ghost use Rattle.model_laws.specs.Links.{AllAreLinked};
ghost use Rattle.model_laws.specs.Moved.{AllAreSums};
ghost use Rattle.model_laws.specs.Numbers.{AllAreNumbered};
ghost use Rattle.model_laws.specs.Worked.{WorkedRows};

/// After every lawful history and for every peer: what the node answers for to the peer is what it
/// is owed back, plus the peer's debt.
pub fn balance_law()
    ensures { Balances }
{}

/// After every lawful history: what the node answers for to all peers, with the units of each chunk that
/// a pending deal stores fresh, is within the capacity of its settings.
pub fn capacity_law()
    ensures { StaysWithin }
{}

/// After every lawful history and for every peer: each row of debt stands for an object that one
/// Failed or Declined change of that peer listed, and that no later Passed gave back; no object
/// stands twice.
pub fn explanation_law()
    ensures { AllExplained }
{}

/// After every lawful history and for every peer: each of the three numbers is the sum of what the
/// changes moved, by a table of its own.
pub fn sums_law()
    ensures { AllAreSums }
{}

/// After every lawful history: forwarded claims and the slots that carry them are linked one to one.
/// What stands at the seat to which an entry is forwarded carries that entry, and the entry that a slot
/// carries is there, forwarded to this slot; so no two slots that stand carry one entry, and no two
/// entries are forwarded to one slot that stands.
pub fn links_law()
    ensures { AllAreLinked }
{}

/// In every lawful history each discard of a peer comes after a failure of that peer, a Failed or
/// Declined change, and no other discard of the peer is between the two.
pub fn discards_law()
    ensures { AllDiscardsFollow }
{}

/// In every lawful history each outcome of a probe of the node's own comes behind the Asked change that
/// it names by number. Between the two the peer is neither asked again, nor is there another outcome of
/// a probe of it. A Passed or Failed lists the objects that were asked for, and a Declined names places
/// among them. So no Asked has two outcomes.
pub fn outcomes_law()
    ensures { AllOutcomesOnce }
{}

/// In every lawful history and for every peer: the deals of the peer that were answered have the numbers
/// 1, 2, 3 and so on, in turn and each once, and so have the own deals that were proposed to it. Each of
/// those ended in its turn, but the last one where that is pending; and what is pending is what was
/// proposed under its number.
pub fn numbers_law()
    ensures { AllAreNumbered }
{}

/// In every valid history: the bytes of each name that is held are those of the last change that brought
/// it, which has them; and their SHA-256 is the name.
pub fn held_law()
    ensures { AllHeldHaveBytes }
{}

/// Worked histories are lawful, with these numbers and states: a chunk that was taken, a slot that
/// was lost and found again by a later probe, one that was declined, a slot that was forwarded, one
/// that came loose and was returned, and a claim that came home.
pub fn worked_rows()
    ensures { WorkedRows }
{}
