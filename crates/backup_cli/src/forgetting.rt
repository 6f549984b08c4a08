//! The command `forget NUMBER`.
ghost use Rattle.std.specs.Prelude.{◌≡◌, ◌≢◌, ◌⊎◌, ℕ, Bool, List, [], ◌∷◌, true, false, None, is_ok, IfSome, IfErr, OnOk};
ghost use Rattle.psb_digest.specs.Clashes.{Pair};
ghost use Rattle.psb_station.specs.Calls.{Rose};
ghost use Rattle.psb_station.specs.Span.{Tells_bytes};
ghost use Rattle.psb_model.specs.History.{state};
ghost use Rattle.psb_model.specs.Needed.{IsValid};
ghost use Rattle.psb_model.specs.declared.change.Change.{Change};
ghost use Rattle.psb_machine.specs.Course.{Absorb};
ghost use Rattle.psb_machine.specs.Machine.{Situation, Forget, fresh, has_snapshot};
ghost use Rattle.node_history.specs.Stands.{HoldsHistory};
ghost use Rattle.node_core.specs.Stored.{Knows, Stored, IsCounted};
ghost use Rattle.node_serve.specs.Spans.{IsReady, Fed};
ghost use Rattle.said_lines.specs.Says.{Refuses};
ghost use Rattle.said_lines.specs.Status.{IsElsewhere};
ghost use Rattle.backup_cli.specs.Served.{IsNode};
ghost use Rattle.backup_cli.specs.Forgotten.{Forgets, ForgetsOn, StopsForget};

use crate::opening::open_or_refuse;
use node_core::{Fault, Input, Node};
use node_journal::Log;
use node_serve::feed_own;
use psb_station::Station;
use said_lines::{Status, refuse, say_forgot};
use std::alloc::Global;

/// Gives a snapshot of a node up.
fn give_up<L: Log, S: Station>(
    node: &mut Node<L>,
    station: &mut S,
    number: u32,
) -> Result<(), Status>
    requires ready { IsReady L.holds node.old (S.view station.old) }
    requires whole { L.is_broken node.old.log ≡ false }
    requires counted { IsCounted L.size L.keeps_body node.old }
    ensures tells { Tells_bytes (S.view station.new) → Tells_bytes (S.view station.old) }
    ensures fed { Tells_bytes (S.view station.new) → (n : Situation) → Knows node.old n → Stored L.holds node.old n.history (S.view station.old)
        → Fed L.holds L.stands L.is_broken node.old node.new (S.view station.old) (S.view station.new) n (Absorb (Forget number) ∷ []) None (is_ok result) }
    ensures unbroken { (result ≡ Err Status.DiskFault) ⊎ (L.is_broken node.new.log ≡ false) }
    ensures present { OnOk result ((n : Situation) → Knows node.old n → has_snapshot (state n.history) number ≡ true) }
    ensures absent { result ≡ Err (Status.NoSnapshot number) → (n : Situation) → Knows node.old n → has_snapshot (state n.history) number ≡ false }
    ensures outside { (S.view station.new).outside ≡ (S.view station.old).outside }
    ensures disk_cause { result ≡ Err Status.DiskFault → Rose (S.view station.old).disk_faults (S.view station.new).disk_faults }
    ensures disk { (result ≡ Err Status.DiskFault) ⊎ ((S.view station.new).disk_faults ≡ (S.view station.old).disk_faults) }
    ensures only { IfErr result (StopsForget number) }
{
    match feed_own(node, station, &Input::Forget(number)) {
        Ok(_) => Ok(()),
        Err(Fault::DiskFault) => Err(Status::DiskFault),
        Err(Fault::NoSnapshot(number)) => Err(Status::NoSnapshot(number)),
        Err(_) => Err(Status::Memory),
    }
}

/// Gives a snapshot of a node that was opened up, and says its line.
fn forget_opened<L: Log, S: Station>(node: &mut Node<L>, station: &mut S, number: u32) -> Status
    requires ready { IsReady L.holds node.old (S.view station.old) }
    requires whole { L.is_broken node.old.log ≡ false }
    requires counted { IsCounted L.size L.keeps_body node.old }
    ensures tells { Tells_bytes (S.view station.new) → Tells_bytes (S.view station.old) }
    ensures forgets { Tells_bytes (S.view station.new) → (h : List Change) → Knows node.old (fresh h) → Stored L.holds node.old h (S.view station.old)
        → ForgetsOn L.stands h number (S.view station.old) (S.view station.new) result }
    ensures kept { (S.view station.new).outside ≡ record (S.view station.old).outside { said = (S.view station.new).outside.said; say_faults = (S.view station.new).outside.say_faults } }
    ensures disk_cause { result ≡ Status.DiskFault → Rose (S.view station.old).disk_faults (S.view station.new).disk_faults }
    ensures say_cause { result ≡ Status.SayFault → Rose (S.view station.old).outside.say_faults (S.view station.new).outside.say_faults }
    ensures disk { (result ≡ Status.DiskFault) ⊎ ((S.view station.new).disk_faults ≡ (S.view station.old).disk_faults) }
    ensures all_said { result ≡ Status.Done → (S.view station.new).outside.say_faults ≡ (S.view station.old).outside.say_faults }
    ensures only { (result ≢ Status.Usage) × (result ≢ Status.LinkFault) × (result ≢ Status.NotNode) }
    ensures no_begin { (result ≢ Status.FolderFault) × (result ≢ Status.Already) × (result ≢ Status.BadSettings) }
    ensures no_backup { (result ≢ Status.TooLarge) × ((c : Pair) → result ≢ Status.Clash c) }
    ensures number { (k : ℕ) → result ≡ Status.NoSnapshot k → k ≡ number }
    ensures elsewhere { IsElsewhere result }
{
    match give_up(node, station, number) {
        Ok(()) => {}
        Err(status) => return refuse(station, status),
    }
    match say_forgot(station, number) {
        Ok(()) => Status::Done,
        Err(_) => Status::SayFault,
    }
}

/// Gives a snapshot of the node that the disk holds up. The link is not used.
pub(crate) fn forget_command<L: Log, S: Station>(
    alloc: Global,
    station: &mut S,
    number: u32,
) -> Status
    ensures forgets { Tells_bytes (S.view station.new) → (h : List Change) → IsNode L.stands h (S.view station.old)
        → (opened : Bool) × Forgets L.stands h number opened (S.view station.old) (S.view station.new) result }

    // Whatever the disk is, nothing is joined, heard or sent, and the clock is not asked.
    ensures quiet { (S.view station.new).outside ≡ record (S.view station.old).outside { said = (S.view station.new).outside.said; say_faults = (S.view station.new).outside.say_faults } }

    // An answer for which the node was opened is no NotNode, so this is exact.
    ensures not_node { result ≡ Status.NotNode → Tells_bytes (S.view station.new) → IfSome (S.view station.old).bytes (λ b. (h : List Change) → IsValid h → ¬ HoldsHistory L.stands h b) }
    ensures opened { (result ≡ Status.Done) ⊎ (result ≡ Status.SayFault) ⊎ ((k : ℕ) × (result ≡ Status.NoSnapshot k))
        → Tells_bytes (S.view station.new) → IfSome (S.view station.old).bytes (λ b. (h : List Change) × IsValid h × HoldsHistory L.stands h b) }
    ensures unharmed { ((h : List Change) → ¬ IsNode L.stands h (S.view station.old)) → Tells_bytes (S.view station.new)
        → (c : List ℕ) (k : ℕ) → (S.view station.new).left_since (S.view station.old).moment c k → (S.view station.old).may_leave c }
    ensures refuses { ((h : List Change) → ¬ IsNode L.stands h (S.view station.old)) → Tells_bytes (S.view station.new)
        → Refuses result (S.view station.old) (S.view station.new) }
    ensures disk_cause { result ≡ Status.DiskFault → Rose (S.view station.old).disk_faults (S.view station.new).disk_faults }
    ensures say_cause { result ≡ Status.SayFault → Rose (S.view station.old).outside.say_faults (S.view station.new).outside.say_faults }
    ensures disk { (result ≡ Status.DiskFault) ⊎ ((S.view station.new).disk_faults ≡ (S.view station.old).disk_faults) }
    ensures link { (S.view station.new).outside.link_faults ≡ (S.view station.old).outside.link_faults }
    ensures all_said { result ≡ Status.Done → (S.view station.new).outside.say_faults ≡ (S.view station.old).outside.say_faults }
    ensures only { (result ≢ Status.Usage) × (result ≢ Status.LinkFault) }
    ensures no_begin { (result ≢ Status.FolderFault) × (result ≢ Status.Already) × (result ≢ Status.BadSettings) }
    ensures no_backup { (result ≢ Status.TooLarge) × ((c : Pair) → result ≢ Status.Clash c) }
    ensures number { (k : ℕ) → result ≡ Status.NoSnapshot k → k ≡ number }
    ensures elsewhere { IsElsewhere result }
{
    let mut node = match open_or_refuse::<L, S>(alloc, station) {
        Ok(node) => node,
        Err(status) => return status,
    };
    forget_opened(&mut node, station, number)
}
