//! The folders and files that a walk found, which are kept in their order.
ghost use Rattle.std.specs.Prelude.{◌≡◌, ◌⊎◌, ◌≤◌, ◌+◌, ◌<◌, ◌++◌, ◌∷◌, [], ℕ, List, length, true, IfOk, IfErr, IfSome, OnOk};
ghost use Rattle.psb_station.specs.Calls.{Rose};
ghost use Rattle.node_core.specs.declared.fault.Fault.TheVariants as fault;
ghost use Rattle.skeleton.specs.Entries.{fits_behind, total};
ghost use Rattle.snapshots.specs.Meaning.{Place, refs_in};
ghost use Rattle.snapshots.specs.Tickets.{entry_of, skeleton_of_tree};
ghost use Rattle.snapshots.specs.Walks.{AreFound};
ghost use Rattle.snapshot_backup.specs.Course.{pieces_in, pieces_of_files};
ghost use Rattle.snapshots.specs.Shapes.{IsOf, AreOf, IsReadAt, AreRead};
ghost use Rattle.snapshot_backup.specs.Endings.{AllKept, StoppedFor};
ghost use Rattle.snapshot_backup.specs.Faults.{FailsOfPiece};
ghost use Rattle.snapshot_backup.specs.Files.{AreFirstAt, AreFirstIn, HasMoreAt, HasMoreIn, ReadsFiles};
ghost use Rattle.node_serve.specs.Spans.{IsUp};
ghost use Rattle.snapshot_backup.specs.Runs.{Ran, KeepsSo, NoneAltered, most_refs};

use crate::BackupFault;
use crate::file::keep_file;
use node_core::Node;
use node_journal::Log;
use psb_bytes::{Items, Memory, Ref, Text};
use psb_station::{Disk, Folder};
use skeleton::{Entry, EntryKind, PushError, Skeleton};
use snapshots::{ChunkReader, Found, child_path};
use std::alloc::Global;

/// How many bytes some refs open to.
fn bytes_in(refs: &[Ref]) -> u64
    requires { length refs.now ≤ most_refs }
    ensures { result ≡ total refs.now }
{
    let mut bytes = 0;
    for r in refs {
        bytes += u64::from(r.len);
    }
    bytes
}

/// Keeps what stands at a place, and answers its entry.
fn keep_place<L: Log, D: Disk, F: Folder>(
    alloc: Global,
    node: &mut Node<L>,
    disk: &mut D,
    folder: &mut F,
    reader: &mut ChunkReader,
    root: &str,
    found: &Found,
    room: &mut u32,
) -> Result<Entry, BackupFault>
    requires up { IsUp L.holds L.size L.keeps_body L.is_broken node.old (D.view disk.old) }
    requires few { room.old ≤ most_refs }
    ensures kept { IfOk result (λ e. (p : Place) × (e ≡ entry_of p) × (p.path ≡ found.now.path) × IsOf found.now.kind p.item × IfSome (F.view folder.new).content (λ c. IsReadAt c root.now p.path p.item)
        × KeepsSo L.holds L.stands L.size L.keeps_body L.is_broken node.old node.new (D.view disk.old) (D.view disk.new) (pieces_in p.item) AllKept) }
    ensures room { IfOk result (λ e. room.new + length e.refs ≡ room.old) }
    ensures stopped { IfErr result (λ e. (pieces : List (List ℕ)) × AreFirstAt (F.view folder.new).content root.now found.now pieces × (length pieces ≤ room.old)
        × KeepsSo L.holds L.stands L.size L.keeps_body L.is_broken node.old node.new (D.view disk.old) (D.view disk.new) pieces (StoppedFor e)) }
    ensures too_large { result ≡ Err BackupFault.TooLarge → HasMoreAt (F.view folder.new).content root.now found.now room.old }
    ensures reads { ReadsFiles root.now (found.now ∷ []) (F.view folder.old) (F.view folder.new) }
    ensures folder_cause { result ≡ Err BackupFault.Folder → Rose (F.view folder.old).folder_faults (F.view folder.new).folder_faults }
    ensures folder_steady { (result ≡ Err BackupFault.Folder) ⊎ ((F.view folder.new).folder_faults ≡ (F.view folder.old).folder_faults) }
    ensures unbroken { L.is_broken node.new.log ≡ true → result ≡ Err (BackupFault.Node fault.DiskFault) }
    ensures of_piece { FailsOfPiece result }
    ensures altered { NoneAltered L.holds node.old (D.view disk.old) (D.view disk.new) (λ name. result ≡ Err (BackupFault.Node (fault.Altered name))) }
    ensures ran { Ran (result ≡ Err (BackupFault.Node fault.DiskFault)) (D.view disk.old) (D.view disk.new) }
{
    let path = Text::copy(alloc, found.path.as_str())?;
    match found.kind {
        EntryKind::Folder => Ok(Entry {
            path,
            kind: EntryKind::Folder,
            size: 0,
            refs: Items::from_vec(Vec::new(alloc)),
        }),
        EntryKind::File => {
            let at = child_path(alloc, root, path.as_str())?;
            let refs = match keep_file(alloc, node, disk, folder, reader, at.as_str(), room) {
                Ok(refs) => refs,
                Err(fault) => return Err(fault),
            };
            Ok(Entry {
                path,
                kind: EntryKind::File,
                size: bytes_in(refs.as_slice()),
                refs,
            })
        }
    }
}

/// Adds an entry that may stand behind the others.
fn push_entry(skeleton: &mut Skeleton, entry: Entry) -> Result<(), Memory>
    requires { fits_behind skeleton.old entry ≡ true }
    ensures { OnOk result (skeleton.new ≡ skeleton.old ++ entry ∷ []) }
{
    match skeleton.push(entry) {
        Ok(()) => Ok(()),
        Err(PushError::Memory) => Err(Memory),
        Err(PushError::BadPath | PushError::BadOrder | PushError::BadCount) => unreachable!(),
    }
}

/// Keeps the files of a tree in the order in which they were found, and answers its skeleton. There is
/// room for so many refs.
pub(crate) fn keep_places<L: Log, D: Disk, F: Folder>(
    alloc: Global,
    node: &mut Node<L>,
    disk: &mut D,
    folder: &mut F,
    root: &str,
    found: &[Found],
    room: u32,
) -> Result<Skeleton, BackupFault>
    requires up { IsUp L.holds L.size L.keeps_body L.is_broken node.old (D.view disk.old) }
    requires few { room ≤ most_refs }
    requires found { AreFound found.now }
    ensures kept { IfOk result (λ s. (places : List Place) × (s ≡ skeleton_of_tree places) × AreOf found.now places × IfSome (F.view folder.new).content (λ c. AreRead c root.now places)
        × KeepsSo L.holds L.stands L.size L.keeps_body L.is_broken node.old node.new (D.view disk.old) (D.view disk.new) (pieces_of_files places) AllKept) }
    ensures fits { IfOk result (λ s. length (refs_in s) ≤ room) }
    ensures stopped { IfErr result (λ e. (pieces : List (List ℕ)) × AreFirstIn (F.view folder.new).content root.now found.now pieces × (length pieces ≤ room)
        × KeepsSo L.holds L.stands L.size L.keeps_body L.is_broken node.old node.new (D.view disk.old) (D.view disk.new) pieces (StoppedFor e)) }
    ensures too_large { result ≡ Err BackupFault.TooLarge → HasMoreIn (F.view folder.new).content root.now found.now room }
    ensures reads { ReadsFiles root.now found.now (F.view folder.old) (F.view folder.new) }
    ensures folder_cause { result ≡ Err BackupFault.Folder → Rose (F.view folder.old).folder_faults (F.view folder.new).folder_faults }
    ensures folder_steady { (result ≡ Err BackupFault.Folder) ⊎ ((F.view folder.new).folder_faults ≡ (F.view folder.old).folder_faults) }
    ensures unbroken { L.is_broken node.new.log ≡ true → result ≡ Err (BackupFault.Node fault.DiskFault) }
    ensures of_piece { FailsOfPiece result }
    ensures altered { NoneAltered L.holds node.old (D.view disk.old) (D.view disk.new) (λ name. result ≡ Err (BackupFault.Node (fault.Altered name))) }
    ensures ran { Ran (result ≡ Err (BackupFault.Node fault.DiskFault)) (D.view disk.old) (D.view disk.new) }
{
    let mut reader = ChunkReader::new(alloc)?;
    let mut left = room;
    let mut skeleton = Skeleton::new(alloc);
    for place in found {
        let entry = match keep_place(
            alloc,
            node,
            disk,
            folder,
            &mut reader,
            root,
            place,
            &mut left,
        ) {
            Ok(entry) => entry,
            Err(fault) => return Err(fault),
        };
        push_entry(&mut skeleton, entry)?;
    }
    Ok(skeleton)
}
