//! The calls of a station in memory: which fail, and which write.
ghost use Rattle.std.specs.Prelude.{◌≡◌, ◌⊎◌, ◌≤◌, [], IsTrue, Contains, true, false};
ghost use Rattle.psb_station.specs.Calls.{raised};
ghost use Rattle.psb_station.specs.Plan.{is_planned, counted};
ghost use Rattle.psb_station.specs.StationCalls.{with_change, Refuses};
ghost use Rattle.psb_station.specs.contracts.memory.calls.StationCallPartialEq.TheImpl.{eq-value as same_call};

use crate::count::is_due as is_due_by_number;
use crate::plan::{Planned, is_planned};
use std::alloc::Global;

/// A call of a station that may fail.
#[derive(Clone, Copy, Debug, PartialEq, Eq)]
pub enum StationCall {
    Len,
    Read,
    Write,
    Cut,
    Sync,
    Join,
    Recv,
    Send,
    Say,
}

/// The calls that fail by their kind, and the numbers of those that write.
#[derive(Drop)]
pub struct Plan {
    pub faults: Vec<Planned<StationCall>>,
    pub changes: Vec<u64>,
}

impl Plan {
    /// No call fails by its kind. Takes no memory.
    pub fn new(alloc: Global) -> Plan
        ensures faults { result.faults.items ≡ [] }
        ensures changes { result.changes.items ≡ [] }
    {
        Plan {
            faults: Vec::new(alloc),
            changes: Vec::new(alloc),
        }
    }
}

/// Keeps the number of a call where it writes, and says whether the growth was refused.
fn is_refused(changes: &mut Vec<u64>, number: u64, kind: StationCall) -> bool
    ensures kept { result ≡ false → changes.new.items ≡ with_change kind number changes.old.items }
    ensures refused { IsTrue result → changes.new.items ≡ changes.old.items }
    ensures full { IsTrue result → Refuses kind changes.old changes.new }
{
    match kind {
        StationCall::Write | StationCall::Cut | StationCall::Sync => changes.push(number).is_err(),
        _ => false,
    }
}

/// Counts a call, and says whether it is to fail: by its number among all calls, by its number among
/// those of its kind, or where the growth of the record of calls that write was refused.
pub fn is_due(faults: &[u64], calls: &mut u64, plan: &mut Plan, kind: StationCall) -> bool
    ensures count { calls.new ≡ raised calls.old }
    ensures no_fall { calls.old ≤ calls.new }
    ensures by_number { Contains faults.now (raised calls.old) → IsTrue result }
    ensures planned { is_planned same_call.it kind plan.old.faults.items ≡ true → IsTrue result }
    ensures cause { IsTrue result → Contains faults.now (raised calls.old) ⊎ (is_planned same_call.it kind plan.old.faults.items ≡ true) ⊎ Refuses kind plan.old.changes plan.new.changes }
    ensures plan { plan.new.faults.items ≡ counted same_call.it kind plan.old.faults.items }
    ensures kept { result ≡ false → plan.new.changes.items ≡ with_change kind calls.new plan.old.changes.items }
{
    let due = is_due_by_number(faults, calls);
    let planned = is_planned(&mut plan.faults, kind);
    let refused = is_refused(&mut plan.changes, *calls, kind);
    due || planned || refused
}
