//! One input that a node is fed, and the letters that it gives.

ghost use Rattle.std.specs.Prelude.{◌≡◌, ℕ, ◌⊎◌, ◌+◌, ◌≤◌, List, [], ◌∷◌, true, false, None, if◌then◌else◌, is_some, is_ok, IfOk, OnOk, OnErr};
ghost use Rattle.psb_digest.specs.Clashes.{Pair};
ghost use Rattle.psb_station.specs.Calls.{Rose};
ghost use Rattle.psb_station.specs.Span.{DiskWorks, Tells_bytes};
ghost use Rattle.psb_machine.specs.Machine.{Situation, Forget, settled};
ghost use Rattle.psb_machine.specs.Course.{Absorb, datagrams};
ghost use Rattle.node_core.specs.Inputs.{input_of, is_own};
ghost use Rattle.node_core.specs.Refusing.{IsApt, is_refused, when_taken, IsHeldAs, Refuses};
ghost use Rattle.node_core.specs.Stored.{Knows, Stored, IsCounted};
ghost use Rattle.node_core.specs.Unread.{IsCertain};
ghost use Rattle.node_serve.specs.Spans.{IsReady, Counts, Fed};
ghost use Rattle.node_serve.specs.Turns.{OnlySends, turned_counts};

use crate::Turned;
use crate::sending::send_all;
use node_core::{Fault, Input, Node};
use node_journal::Log;
use psb_station::{Disk, Station};
use wire_codec::Dropped;

/// How many datagrams came with an input.
fn taken_in(input: &Input<'_>) -> u32
    ensures count { result ≡ datagrams (input_of input.now) }
    ensures small { result ≤ 1 }
{
    match input {
        Input::Frame(_) => 1,
        Input::Tick(_) | Input::Keep(_) | Input::Snap(_) | Input::Forget(_) => 0,
    }
}

/// How many datagrams were dropped, by what the one was dropped for.
fn dropped_in(dropped: Option<Dropped>) -> u32
    ensures count { result ≡ (if is_some dropped then 1 else 0) }
    ensures small { result ≤ 1 }
{
    match dropped {
        None => 0,
        Some(_) => 1,
    }
}

/// Has a node absorb a datagram or a tick, and sends the letters. A letter that cannot be sent is lost,
/// and counted.
pub fn feed<L: Log, S: Station>(
    node: &mut Node<L>,
    station: &mut S,
    input: &Input<'_>,
) -> Result<Turned, Fault>
    requires ready { IsReady L.holds node.old (S.view station.old) }
    requires whole { L.is_broken node.old.log ≡ false }
    requires counted { IsCounted L.size L.keeps_body node.old }
    requires of_peer { is_own (input_of input.now) ≡ false }
    ensures tells { Tells_bytes (S.view station.new) → Tells_bytes (S.view station.old) }
    ensures fed { Tells_bytes (S.view station.new) → (n : Situation) → Knows node.old n → Stored L.holds node.old n.history (S.view station.old)
        → Fed L.holds L.stands L.is_broken node.old node.new (S.view station.old) (S.view station.new) n (Absorb (input_of input.now) ∷ []) (turned_counts result) (is_ok result) }
    ensures only_sends { OnlySends (S.view station.old) (S.view station.new) }
    ensures ready { OnOk result (IsReady L.holds node.new (S.view station.new)) }
    ensures counts { Counts (S.view station.old) (S.view station.new) }
    ensures whole { OnOk result (L.is_broken node.new.log ≡ false) }
    ensures unbroken { L.is_broken node.new.log ≡ true → result ≡ Err Fault.DiskFault }
    ensures counted { OnOk result (IsCounted L.size L.keeps_body node.new) }
    ensures small { IfOk result (λ t. (t.taken + t.dropped ≤ 2) × (t.lost ≤ 2)) }
    ensures disk_cause { result ≡ Err Fault.DiskFault → Rose (S.view station.old).disk_faults (S.view station.new).disk_faults }
    ensures steady { (result ≡ Err Fault.DiskFault) ⊎ ((S.view station.new).disk_faults ≡ (S.view station.old).disk_faults) }

    ensures only { OnErr result ((result ≡ Err Fault.DiskFault) ⊎ (result ≡ Err Fault.Memory)) }
{
    let outcome = match node.absorb(station, input) {
        Ok(outcome) => outcome,
        Err(fault) => return Err(fault),
    };
    let lost = send_all(station, outcome.out.as_slice());
    Ok(Turned {
        taken: taken_in(input),
        dropped: dropped_in(outcome.dropped),
        lost,
    })
}

/// Has a node absorb an input of its own. Nobody is told of it, so no more than the disk is used.
pub fn feed_own<L: Log, D: Disk>(
    node: &mut Node<L>,
    disk: &mut D,
    input: &Input<'_>,
) -> Result<(), Fault>
    requires ready { IsReady L.holds node.old (D.view disk.old) }
    requires whole { L.is_broken node.old.log ≡ false }
    requires counted { IsCounted L.size L.keeps_body node.old }
    requires own { is_own (input_of input.now) ≡ true }
    requires apt { IsApt node.old.ledger.state input.now }
    ensures fed { Tells_bytes (D.view disk.new) → (n : Situation) → Knows node.old n → Stored L.holds node.old n.history (D.view disk.old)
        → Fed L.holds L.stands L.is_broken node.old node.new (D.view disk.old) (D.view disk.new) n (Absorb (input_of input.now) ∷ []) None (is_ok result) }

    // What is taken is taken on every disk.
    ensures taken { OnOk result ((n : Situation) → Knows node.old n → Knows node.new (settled n (when_taken n (input_of input.now)))) }
    ensures works { DiskWorks (D.view disk.old) (D.view disk.new) }
    ensures ready { OnOk result (IsReady L.holds node.new (D.view disk.new)) }
    ensures whole { OnOk result (L.is_broken node.new.log ≡ false) }
    ensures unbroken { L.is_broken node.new.log ≡ true → result ≡ Err Fault.DiskFault }
    ensures counted { OnOk result (IsCounted L.size L.keeps_body node.new) }
    ensures disk_cause { result ≡ Err Fault.DiskFault → Rose (D.view disk.old).disk_faults (D.view disk.new).disk_faults }
    ensures steady { (result ≡ Err Fault.DiskFault) ⊎ ((D.view disk.new).disk_faults ≡ (D.view disk.old).disk_faults) }

    // Why it is refused.
    ensures accepts { OnOk result ((n : Situation) → Knows node.old n → IsCertain n (input_of input.now) → is_refused n (input_of input.now) ≡ false) }
    ensures told_accepts { OnOk result (Tells_bytes (D.view disk.new) → (n : Situation) → Knows node.old n → Stored L.holds node.old n.history (D.view disk.old)
        → is_refused n (input_of input.now) ≡ false) }
    ensures no_snapshot { (k : ℕ) → result ≡ Err (Fault.NoSnapshot k) → (n : Situation) → Knows node.old n → is_refused n (Forget k) ≡ true }
    ensures clash { (c : Pair) → result ≡ Err (Fault.Clash c) → Tells_bytes (D.view disk.new) → (n : Situation) → Knows node.old n → Stored L.holds node.old n.history (D.view disk.old)
        → (is_refused n (input_of input.now) ≡ true) × IsHeldAs n (input_of input.now) c.first }
    ensures altered { (name : List ℕ) → result ≡ Err (Fault.Altered name) → Tells_bytes (D.view disk.new) → (n : Situation) → Knows node.old n → ¬ Stored L.holds node.old n.history (D.view disk.old) }
    ensures only { OnErr result ((result ≡ Err Fault.DiskFault) ⊎ (result ≡ Err Fault.Memory) ⊎ Refuses (input_of input.now) result) }
{
    match node.absorb(disk, input) {
        Ok(_) => Ok(()),
        Err(fault) => Err(fault),
    }
}
