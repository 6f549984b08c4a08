//! The node of a command that needs one.
ghost use Rattle.std.specs.Prelude.{◌≡◌, ◌⊎◌, List, true, false, IfSome, IfOk, IfErr, OnOk};
ghost use Rattle.psb_station.specs.Calls.{Rose};
ghost use Rattle.psb_station.specs.Span.{Tells_bytes, Keeps};
ghost use Rattle.psb_model.specs.Needed.{IsValid};
ghost use Rattle.psb_model.specs.declared.change.Change.{Change};
ghost use Rattle.psb_machine.specs.Machine.{fresh};
ghost use Rattle.node_history.specs.Stands.{HoldsHistory};
ghost use Rattle.node_core.specs.Stored.{Knows, Stored, IsCounted};
ghost use Rattle.said_lines.specs.Says.{IsUnopened, NotOpened};

use node_core::{Fault, Node};
use node_journal::Log;
use psb_station::Station;
use said_lines::{Status, refuse};
use std::alloc::Global;

/// Opens the node that the station's disk holds.
fn open_node<L: Log, S: Station>(alloc: Global, station: &mut S) -> Result<Node<L>, Status>
    ensures ok { IfOk result (λ node. (h : List Change) × Knows node (fresh h)
        × (Tells_bytes (S.view station.new) → (s : Stored L.holds node h (S.view station.new)) × (s.less ≡ h))) }
    ensures whole { IfOk result (λ node. L.is_broken node.log ≡ false) }
    ensures counted { IfOk result (IsCounted L.size L.keeps_body) }
    ensures not_node { result ≡ Err Status.NotNode → Tells_bytes (S.view station.new)
        → IfSome (S.view station.old).bytes (λ b. (h : List Change) → IsValid h → ¬ HoldsHistory L.stands h b) }
    ensures keeps { Keeps (S.view station.old) (S.view station.new) }
    ensures disk_cause { result ≡ Err Status.DiskFault → Rose (S.view station.old).disk_faults (S.view station.new).disk_faults }
    ensures disk { (result ≡ Err Status.DiskFault) ⊎ ((S.view station.new).disk_faults ≡ (S.view station.old).disk_faults) }
    ensures only { IfErr result IsUnopened }
{
    match Node::<L>::open(alloc, station) {
        Ok(node) => Ok(node),
        Err(Fault::NotNode) => Err(Status::NotNode),
        Err(Fault::DiskFault) => Err(Status::DiskFault),
        Err(_) => Err(Status::Memory),
    }
}

/// Opens the node that the station's disk holds. Where that fails, the refusal's line is tried.
pub(crate) fn open_or_refuse<L: Log, S: Station>(
    alloc: Global,
    station: &mut S,
) -> Result<Node<L>, Status>
    ensures ok { IfOk result (λ node. (h : List Change) × Knows node (fresh h)
        × (Tells_bytes (S.view station.new) → (s : Stored L.holds node h (S.view station.new)) × (s.less ≡ h))) }
    ensures whole { IfOk result (λ node. L.is_broken node.log ≡ false) }
    ensures counted { IfOk result (IsCounted L.size L.keeps_body) }
    ensures keeps { OnOk result (Keeps (S.view station.old) (S.view station.new)) }
    ensures refused { IfErr result (λ status. NotOpened status (S.view station.old) (S.view station.new)) }

    // An Ok is a history that the bytes hold, so this is exact.
    ensures not_node { result ≡ Err Status.NotNode → Tells_bytes (S.view station.new)
        → IfSome (S.view station.old).bytes (λ b. (h : List Change) → IsValid h → ¬ HoldsHistory L.stands h b) }
    ensures disk_cause { result ≡ Err Status.DiskFault → Rose (S.view station.old).disk_faults (S.view station.new).disk_faults }
    ensures disk { (result ≡ Err Status.DiskFault) ⊎ ((S.view station.new).disk_faults ≡ (S.view station.old).disk_faults) }
    ensures only { IfErr result IsUnopened }
{
    match open_node::<L, S>(alloc, station) {
        Ok(node) => Ok(node),
        Err(status) => Err(refuse(station, status)),
    }
}
