//! The command `backup FOLDER`.
ghost use Rattle.std.specs.Prelude.{◌≡◌, ◌≢◌, ◌⊎◌, ℕ, Bool, List, IfSome};
ghost use Rattle.psb_digest.specs.Clashes.{Pair, Clashes};
ghost use Rattle.psb_station.specs.Calls.{Rose};
ghost use Rattle.psb_station.specs.Folder.{Tells_content};
ghost use Rattle.psb_station.specs.Span.{Tells_bytes};
ghost use Rattle.psb_model.specs.State.{snaps_made};
ghost use Rattle.psb_model.specs.History.{state};
ghost use Rattle.psb_model.specs.Needed.{IsValid};
ghost use Rattle.psb_model.specs.declared.change.Change.{Change};
ghost use Rattle.psb_machine.specs.Machine.{fresh};
ghost use Rattle.node_history.specs.Stands.{HoldsHistory};
ghost use Rattle.node_core.specs.Stored.{Knows, Stored};
ghost use Rattle.snapshot_backup.specs.Backed.{ListsThenReads};
ghost use Rattle.node_serve.specs.Spans.{IsUp};
ghost use Rattle.backup_cli.specs.BackedUp.{BacksUpTo, BacksUpOn, ComesToEnd, status_of_node, status_of};
ghost use Rattle.said_lines.specs.Says.{Refuses};
ghost use Rattle.said_lines.specs.Status.{IsElsewhere};
ghost use Rattle.backup_cli.specs.Served.{IsNode};

use crate::opening::open_or_refuse;
use node_core::{Fault, Node};
use node_journal::Log;
use psb_station::{Folder, Station};
use said_lines::{SayError, Status, refuse, say_snapshot};
use snapshot_backup::{BackupFault, backup};
use std::alloc::Global;

/// How the program ends for a fault of the node that makes a backup. A disk that was altered since the
/// node was opened holds no node any more.
fn status_of_node(fault: Fault) -> Status
    ensures by { result ≡ status_of_node fault }
    ensures clashes { (c : Pair) → result ≡ Status.Clash c → Clashes c.first c.second }
{
    match fault {
        Fault::DiskFault => Status::DiskFault,
        Fault::Clash(clash) => Status::Clash(clash),
        Fault::Altered(_) => Status::NotNode,
        _ => Status::Memory,
    }
}

/// How the program ends for a fault of a backup.
fn status_of(fault: BackupFault) -> Status
    ensures by { result ≡ status_of fault }
    ensures clashes { (c : Pair) → result ≡ Status.Clash c → Clashes c.first c.second }
{
    match fault {
        BackupFault::Node(fault) => status_of_node(fault),
        BackupFault::Folder => Status::FolderFault,
        BackupFault::TooLarge => Status::TooLarge,
        BackupFault::Memory => Status::Memory,
    }
}

/// Makes a snapshot of a folder on a node that was opened, and says its line.
fn backup_opened<L: Log, S: Station, F: Folder>(
    alloc: Global,
    node: &mut Node<L>,
    station: &mut S,
    folder: &mut F,
    path: &str,
) -> Status
    requires up { IsUp L.holds L.size L.keeps_body L.is_broken node.old (S.view station.old) }
    ensures tells { Tells_bytes (S.view station.new) → Tells_bytes (S.view station.old) }
    ensures backs_up { Tells_bytes (S.view station.new) → (h : List Change) → Knows node.old (fresh h) → Stored L.holds node.old h (S.view station.old)
        → BacksUpOn L.stands h path.now (S.view station.old) (S.view station.new) (F.view folder.new) result }
    ensures kept { (S.view station.new).outside ≡ record (S.view station.old).outside { said = (S.view station.new).outside.said; say_faults = (S.view station.new).outside.say_faults } }
    ensures disk_cause { result ≡ Status.DiskFault → Rose (S.view station.old).disk_faults (S.view station.new).disk_faults }
    ensures say_cause { result ≡ Status.SayFault → Rose (S.view station.old).outside.say_faults (S.view station.new).outside.say_faults }
    ensures folder_cause { result ≡ Status.FolderFault → Rose (F.view folder.old).folder_faults (F.view folder.new).folder_faults }
    ensures disk { (result ≡ Status.DiskFault) ⊎ ((S.view station.new).disk_faults ≡ (S.view station.old).disk_faults) }
    ensures folder { (result ≡ Status.FolderFault) ⊎ ((F.view folder.new).folder_faults ≡ (F.view folder.old).folder_faults) }
    ensures all_said { result ≡ Status.Done → (S.view station.new).outside.say_faults ≡ (S.view station.old).outside.say_faults }
    ensures content { Tells_content (F.view folder.new) → (F.view folder.new).content ≡ (F.view folder.old).content }
    ensures calls { ListsThenReads path.now (F.view folder.old) (F.view folder.new) }
    ensures only { (result ≢ Status.Usage) × (result ≢ Status.LinkFault) × (result ≢ Status.Already) × (result ≢ Status.BadSettings) }
    ensures no_number { (k : ℕ) → result ≢ Status.NoSnapshot k }
    ensures idle { (h : List Change) → Knows node.old (fresh h) → snaps_made (state h) ≡ 4294967295 → folder.new ≡ folder.old }
    ensures altered { result ≡ Status.NotNode → Tells_bytes (S.view station.new) → (h : List Change) → Knows node.old (fresh h) → ¬ Stored L.holds node.old h (S.view station.old) }
    ensures elsewhere { IsElsewhere result }
{
    match backup(alloc, node, station, folder, path) {
        Ok(_) => {}
        Err(fault) => return refuse(station, status_of(fault)),
    }
    let Some(snapshot) = node.ledger().kept().last() else {
        unreachable!()
    };
    match say_snapshot(alloc, station, snapshot) {
        Ok(()) => Status::Done,
        Err(SayError::Say) => Status::SayFault,
        Err(SayError::Memory) => refuse(station, Status::Memory),
    }
}

/// Makes a snapshot of a folder on the node that the disk holds, and says its line. The link is not used.
pub(crate) fn backup_command<L: Log, S: Station, F: Folder>(
    alloc: Global,
    station: &mut S,
    folder: &mut F,
    path: &str,
) -> Status
    ensures backs_up { Tells_bytes (S.view station.new) → (h : List Change) → IsNode L.stands h (S.view station.old)
        → (opened : Bool) × BacksUpTo L.stands h path.now opened (S.view station.old) (S.view station.new) (F.view folder.new) result }

    // A folder that can be backed up is, unless a device fails or memory is short.
    ensures complete { ComesToEnd L.stands path.now (S.view station.old) (S.view station.new) (F.view folder.old) (F.view folder.new) result }

    // Whatever the disk is, nothing is joined, heard or sent, and the clock is not asked.
    ensures quiet { (S.view station.new).outside ≡ record (S.view station.old).outside { said = (S.view station.new).outside.said; say_faults = (S.view station.new).outside.say_faults } }

    // An answer for which the node was opened is no NotNode, so this is exact.
    ensures not_node { result ≡ Status.NotNode → Tells_bytes (S.view station.new) → IfSome (S.view station.old).bytes (λ b. (h : List Change) → IsValid h → ¬ HoldsHistory L.stands h b) }
    ensures opened { (result ≡ Status.Done) ⊎ (result ≡ Status.SayFault) ⊎ (result ≡ Status.FolderFault) ⊎ (result ≡ Status.TooLarge) ⊎ ((c : Pair) × (result ≡ Status.Clash c))
        → Tells_bytes (S.view station.new) → IfSome (S.view station.old).bytes (λ b. (h : List Change) × IsValid h × HoldsHistory L.stands h b) }
    ensures unharmed { ((h : List Change) → ¬ IsNode L.stands h (S.view station.old)) → Tells_bytes (S.view station.new)
        → (c : List ℕ) (k : ℕ) → (S.view station.new).left_since (S.view station.old).moment c k → (S.view station.old).may_leave c }
    ensures refuses { ((h : List Change) → ¬ IsNode L.stands h (S.view station.old)) → Tells_bytes (S.view station.new)
        → Refuses result (S.view station.old) (S.view station.new) }
    ensures untouched { ((h : List Change) → ¬ IsNode L.stands h (S.view station.old)) → Tells_bytes (S.view station.new) → folder.new ≡ folder.old }
    ensures disk_cause { result ≡ Status.DiskFault → Rose (S.view station.old).disk_faults (S.view station.new).disk_faults }
    ensures say_cause { result ≡ Status.SayFault → Rose (S.view station.old).outside.say_faults (S.view station.new).outside.say_faults }
    ensures folder_cause { result ≡ Status.FolderFault → Rose (F.view folder.old).folder_faults (F.view folder.new).folder_faults }
    ensures disk { (result ≡ Status.DiskFault) ⊎ ((S.view station.new).disk_faults ≡ (S.view station.old).disk_faults) }
    ensures link { (S.view station.new).outside.link_faults ≡ (S.view station.old).outside.link_faults }
    ensures folder { (result ≡ Status.FolderFault) ⊎ ((F.view folder.new).folder_faults ≡ (F.view folder.old).folder_faults) }
    ensures all_said { result ≡ Status.Done → (S.view station.new).outside.say_faults ≡ (S.view station.old).outside.say_faults }

    // The folder is as before: it is listed, then each folder that was found in it, and then the files are read. Where so
    // many snapshots were made that there is no number for another, it is not looked at.
    ensures idle { Tells_bytes (S.view station.new) → (h : List Change) → IsNode L.stands h (S.view station.old) → snaps_made (state h) ≡ 4294967295 → folder.new ≡ folder.old }
    ensures content { Tells_content (F.view folder.new) → (F.view folder.new).content ≡ (F.view folder.old).content }
    ensures calls { ListsThenReads path.now (F.view folder.old) (F.view folder.new) }
    ensures only { (result ≢ Status.Usage) × (result ≢ Status.LinkFault) × (result ≢ Status.Already) × (result ≢ Status.BadSettings) }
    ensures no_number { (k : ℕ) → result ≢ Status.NoSnapshot k }
    ensures elsewhere { IsElsewhere result }
{
    let mut node = match open_or_refuse::<L, S>(alloc, station) {
        Ok(node) => node,
        Err(status) => return status,
    };
    backup_opened(alloc, &mut node, station, folder, path)
}
