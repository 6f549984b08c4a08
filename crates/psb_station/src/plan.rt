//! Calls that are to fail, given by their kind.
ghost use Rattle.std.specs.Prelude.{◌≡◌};
ghost use Rattle.psb_station.specs.Plan.{is_planned, nearer, counted};

/// A call that is to fail: of all calls of its kind the one of this number, counted from 1.
#[derive(Clone, Copy)]
pub struct Planned<K> {
    pub kind: K,
    pub number: u64,
}

/// Counts a call of a kind against a call that is to fail.
fn count<K: Copy + PartialEq>(planned: &mut Planned<K>, kind: K)
    ensures { planned.new ≡ nearer K.eq kind planned.old }
{
    if planned.kind == kind {
        planned.number = planned.number.saturating_sub(1);
    }
}

/// Counts a call of a kind against the plan, and says whether it is to fail. A number in the plan is
/// how many calls of its kind it is away, and 0 once the call has come.
pub fn is_planned<K: Copy + PartialEq>(plan: &mut [Planned<K>], kind: K) -> bool
    ensures due { result ≡ is_planned K.eq kind plan.old }
    ensures counts { plan.new ≡ counted K.eq kind plan.old }
{
    let due = plan.iter().any(|p| p.kind == kind && p.number == 1);
    for planned in plan.iter_mut() {
        count(planned, kind);
    }
    due
}
