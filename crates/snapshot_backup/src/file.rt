//! A file that is kept piece by piece.
ghost use Rattle.std.specs.Prelude.{◌≡◌, ◌⊎◌, ◌≤◌, ◌+◌, ℕ, List, length, true, IfOk, IfErr};
ghost use Rattle.psb_station.specs.Calls.{Rose};
ghost use Rattle.node_core.specs.declared.fault.Fault.TheVariants as fault;
ghost use Rattle.snapshots.specs.Reading.{Reads};
ghost use Rattle.snapshots.specs.Tickets.{chunks_of, refs_of_text};
ghost use Rattle.snapshot_backup.specs.Endings.{AllKept, StoppedFor};
ghost use Rattle.snapshot_backup.specs.Faults.{FailsOfPiece};
ghost use Rattle.snapshot_backup.specs.Files.{IsFile, AreFirst, HasMore};
ghost use Rattle.node_serve.specs.Spans.{IsUp};
ghost use Rattle.snapshot_backup.specs.Runs.{Ran, KeepsSo, NoneAltered, most_refs};

use crate::BackupFault;
use crate::piece::keep_piece;
use node_core::Node;
use node_journal::Log;
use psb_bytes::{Items, RefList};
use psb_station::{Disk, Folder};
use snapshots::ChunkReader;
use std::alloc::Global;

/// Keeps the pieces of the file at a path, and answers what opens each, in order. There is room for so
/// many refs, of which those are taken; a file that has more pieces is too large.
pub(crate) fn keep_file<L: Log, D: Disk, F: Folder>(
    alloc: Global,
    node: &mut Node<L>,
    disk: &mut D,
    folder: &mut F,
    reader: &mut ChunkReader,
    path: &str,
    room: &mut u32,
) -> Result<RefList, BackupFault>
    requires up { IsUp L.holds L.size L.keeps_body L.is_broken node.old (D.view disk.old) }
    requires few { room.old ≤ most_refs }
    ensures kept { IfOk result (λ refs. (bytes : List ℕ) × (refs ≡ refs_of_text bytes) × IsFile (F.view folder.new).content path.now bytes
        × KeepsSo L.holds L.stands L.size L.keeps_body L.is_broken node.old node.new (D.view disk.old) (D.view disk.new) (chunks_of bytes) AllKept) }
    ensures room { IfOk result (λ refs. room.new + length refs ≡ room.old) }
    ensures stopped { IfErr result (λ e. (pieces : List (List ℕ)) × AreFirst (F.view folder.new).content path.now pieces × (length pieces ≤ room.old)
        × KeepsSo L.holds L.stands L.size L.keeps_body L.is_broken node.old node.new (D.view disk.old) (D.view disk.new) pieces (StoppedFor e)) }
    ensures too_large { result ≡ Err BackupFault.TooLarge → HasMore (F.view folder.new).content path.now room.old }
    ensures reads { Reads path.now (F.view folder.old) (F.view folder.new) }
    ensures folder_cause { result ≡ Err BackupFault.Folder → Rose (F.view folder.old).folder_faults (F.view folder.new).folder_faults }
    ensures folder_steady { (result ≡ Err BackupFault.Folder) ⊎ ((F.view folder.new).folder_faults ≡ (F.view folder.old).folder_faults) }
    ensures unbroken { L.is_broken node.new.log ≡ true → result ≡ Err (BackupFault.Node fault.DiskFault) }
    ensures of_piece { FailsOfPiece result }
    ensures altered { NoneAltered L.holds node.old (D.view disk.old) (D.view disk.new) (λ name. result ≡ Err (BackupFault.Node (fault.Altered name))) }
    ensures ran { Ran (result ≡ Err (BackupFault.Node fault.DiskFault)) (D.view disk.old) (D.view disk.new) }
{
    reader.restart();
    let mut refs = Vec::new(alloc);
    loop {
        match reader.next(folder, path) {
            Ok(true) => {}
            Ok(false) => return Ok(Items::from_vec(refs)),
            Err(_) => return Err(BackupFault::Folder),
        }
        if *room == 0 {
            return Err(BackupFault::TooLarge);
        }
        *room -= 1;
        match keep_piece(alloc, node, disk, reader.chunk(), &mut refs) {
            Ok(()) => {}
            Err(fault) => return Err(BackupFault::from(fault)),
        }
    }
}
