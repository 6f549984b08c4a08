//! The backup of a folder.
ghost use Rattle.std.specs.Prelude.{◌≡◌, ◌⊎◌, ◌≤◌, ◌+◌, List, [], ◌∷◌, ◌++◌, true, Some, IfOk, IfErr, IfSome, OnOk};
ghost use Rattle.psb_station.specs.Calls.{Rose};
ghost use Rattle.psb_station.specs.Folder.{Tells_content};
ghost use Rattle.psb_station.specs.Span.{Tells_bytes};
ghost use Rattle.psb_model.specs.State.{snaps_made};
ghost use Rattle.psb_model.specs.declared.snapshots.Snapshot.{Snapshot};
ghost use Rattle.psb_machine.specs.Machine.{Situation};
ghost use Rattle.node_core.specs.declared.fault.Fault.{Fault};
ghost use Rattle.node_core.specs.declared.fault.Fault.TheVariants as fault;
ghost use Rattle.node_core.specs.Stored.{Knows, Stored};
ghost use Rattle.skeleton.specs.declared.limits.TheConstants.{MOST_TEXT_BYTES};
ghost use Rattle.snapshots.specs.Meaning.{Place};
ghost use Rattle.snapshots.specs.Walks.{IsTooLarge};
ghost use Rattle.snapshot_backup.specs.Backed.{Notes, BacksUp, StopsBackup, IsSnapOf, IsLongWithRefs, ListsThenReads, text_len, snapshot_of};
ghost use Rattle.snapshot_backup.specs.Faults.{IsOfPieces};
ghost use Rattle.node_serve.specs.Spans.{IsUp};
ghost use Rattle.snapshot_backup.specs.Runs.{Ran, NoneAltered};

use crate::BackupFault;
use crate::note::keep_skeleton;
use crate::places::keep_places;
use node_core::{Input, Node};
use node_journal::Log;
use node_serve::feed_own;
use psb_ledger::Ledger;
use psb_machine::SnapNote;
use psb_station::{Disk, Folder};
use skeleton::MOST_TEXT_BYTES;
use snapshots::walk;
use std::alloc::Global;

/// How many bytes a ref has in the text of a skeleton.
const REF_BYTES: usize = 68;

/// How many snapshots were made so far.
fn snapshots_made(ledger: &Ledger) -> u32
    ensures { result ≡ snaps_made ledger.now.state }
{
    match ledger.snapped() {
        None => 0,
        Some(mark) => mark.number,
    }
}

/// Makes a snapshot of the folder at a path on the node's own disk, and answers what it is noted with.
/// All folders are listed before the first file is read; the files are read in the order of their paths,
/// piece by piece, and cut and kept as they are read; then the skeleton and the lists of refs above it
/// are kept; and the note comes last. Where it fails, what was kept stays, and no snapshot was added.
pub fn backup<L: Log, D: Disk, F: Folder>(
    alloc: Global,
    node: &mut Node<L>,
    disk: &mut D,
    folder: &mut F,
    path: &str,
) -> Result<SnapNote, BackupFault>
    requires up { IsUp L.holds L.size L.keeps_body L.is_broken node.old (D.view disk.old) }

    // What is made: over the bodies that the node has for itself, the ticket means the tree of the folder.
    ensures made { IfOk result (λ note. (places : List Place) × Notes places note × IfSome (F.view folder.new).content (λ c. IsSnapOf c path.now places note.left) × (text_len places ≤ MOST_TEXT_BYTES)
        × (Tells_bytes (D.view disk.new) → (n : Situation) → Knows node.old n → Stored L.holds node.old n.history (D.view disk.old)
        → BacksUp L.holds L.stands L.is_broken node.old node.new (D.view disk.old) (D.view disk.new) n places note)) }
    ensures stopped { IfErr result (λ e. Tells_bytes (D.view disk.new) → (n : Situation) → Knows node.old n → Stored L.holds node.old n.history (D.view disk.old)
        → StopsBackup L.holds L.stands L.is_broken node.old node.new (D.view disk.old) (D.view disk.new) n e (F.view folder.new).content path.now) }
    ensures noted { IfOk result (λ note. (before : List Snapshot) × (node.new.ledger.state.kept ≡ before ++ snapshot_of (snaps_made node.old.ledger.state + 1) note ∷ [])) }
    ensures up { OnOk result (IsUp L.holds L.size L.keeps_body L.is_broken node.new (D.view disk.new)) }

    // The disk.
    ensures unbroken { L.is_broken node.new.log ≡ true → result ≡ Err (BackupFault.Node fault.DiskFault) }
    ensures altered { NoneAltered L.holds node.old (D.view disk.old) (D.view disk.new) (λ name. result ≡ Err (BackupFault.Node (fault.Altered name))) }
    ensures ran { Ran (result ≡ Err (BackupFault.Node fault.DiskFault)) (D.view disk.old) (D.view disk.new) }

    // The folder is as before: it is listed, then each folder that was found in it, and then the files are read.
    ensures content { Tells_content (F.view folder.new) → (F.view folder.new).content ≡ (F.view folder.old).content }
    ensures calls { ListsThenReads path.now (F.view folder.old) (F.view folder.new) }
    ensures folder_cause { result ≡ Err BackupFault.Folder → Rose (F.view folder.old).folder_faults (F.view folder.new).folder_faults }
    ensures folder_steady { (result ≡ Err BackupFault.Folder) ⊎ ((F.view folder.new).folder_faults ≡ (F.view folder.old).folder_faults) }

    // Why none is made. The number of snapshots is looked at first, and what the walk finds too large is refused
    // before the first piece is kept.
    ensures full { snaps_made node.old.ledger.state ≡ 4294967295 → (result ≡ Err BackupFault.TooLarge) × (folder.new ≡ folder.old) × (disk.new ≡ disk.old) }
    ensures too_large { result ≡ Err BackupFault.TooLarge
        → ((snaps_made node.old.ledger.state ≡ 4294967295) × (folder.new ≡ folder.old) × (disk.new ≡ disk.old))
        ⊎ (IfSome (F.view folder.new).content (λ c. IsTooLarge c path.now) × (disk.new ≡ disk.old))
        ⊎ IfSome (F.view folder.new).content (λ c. IsLongWithRefs c path.now) }
    ensures only { (f : Fault) → result ≡ Err (BackupFault.Node f) → IsOfPieces f }
{
    if snapshots_made(node.ledger()) == u32::MAX {
        return Err(BackupFault::TooLarge);
    }
    let walked = walk(alloc, folder, path)?;
    let room = ((MOST_TEXT_BYTES - walked.text_len) / REF_BYTES) as u32;
    let skeleton = match keep_places(alloc, node, disk, folder, path, &walked.found, room) {
        Ok(skeleton) => skeleton,
        Err(fault) => return Err(fault),
    };
    let note = match keep_skeleton(alloc, node, disk, &skeleton, walked.left) {
        Ok(note) => note,
        Err(fault) => return Err(BackupFault::from(fault)),
    };
    match feed_own(node, disk, &Input::Snap(&note)) {
        Ok(()) => Ok(note),
        Err(fault) => Err(BackupFault::from(fault)),
    }
}
