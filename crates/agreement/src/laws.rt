//! The laws of worlds of nodes.

ghost use Rattle.agreement.specs.Laws.{TwoAgree, AllAgree};
ghost use Rattle.agreement.specs.Worked.{WorkedWorld};

/// Two honest nodes agree about what each holds for the other, at every moment: whatever is lost, comes
/// again or late, whatever others forge, and whenever a node stops. What one has on the other stands there,
/// unless the other discarded it since.
pub fn two_agree()
    ensures { TwoAgree }
{}

/// Where nothing is forged all nodes agree, two by two.
pub fn all_agree()
    ensures { AllAgree }
{}

/// A worked world: a Store is lost and sent again, its receiver stops before the reply was sent, and each
/// of both comes once more. Where both nodes stand after each step, and what their histories tell of the
/// deal.
pub fn worked_world()
    ensures { WorkedWorld }
{}
