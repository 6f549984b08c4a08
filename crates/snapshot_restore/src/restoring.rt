//! A snapshot that is restored.
ghost use Rattle.std.specs.Prelude.{◌≡◌, ◌≤◌, [], ◌∷◌, length, IfOk, IfErr, IfSome, OnOk};
ghost use Rattle.psb_station.specs.Folder.{Lists, Tells_content};
ghost use Rattle.node_serve.specs.Spans.{IsUp};
ghost use Rattle.snapshots.specs.Writing.{IsNotEmpty};
ghost use Rattle.snapshot_restore.specs.Faults.{Faults, FolderCounts, IsOfBelow, IsOfRestore, failed};
ghost use Rattle.snapshot_restore.specs.Restored.{Restores, RestoresBelow, StopsBelow, StopsRestore};

use crate::RestoreFault;
use crate::texts::fetch_skeleton;
use crate::tree::write_entries;
use crate::waiting::Waiting;
use node_core::Node;
use node_journal::Log;
use psb_bytes::Ticket;
use psb_station::{Folder, Station};
use snapshots::{Counts, count, is_empty};
use std::alloc::Global;

/// What was restored: how many files and folders, and how many bytes the files have.
#[derive(Clone, Copy, Debug, PartialEq, Eq)]
pub struct Restored {
    pub files: u32,
    pub folders: u32,
    pub bytes: u64,
}

/// Reads the tree of a ticket, and writes it below a folder.
fn restore_below<L: Log, S: Station, F: Folder>(
    alloc: Global,
    node: &mut Node<L>,
    station: &mut S,
    folder: &mut F,
    ticket: &Ticket,
    path: &str,
    turns: u32,
) -> Result<Restored, RestoreFault>
    requires up { IsUp L.holds L.size L.keeps_body L.is_broken node.old (S.view station.old) }
    ensures restored { IfOk result (λ d. RestoresBelow L.holds L.stands L.is_broken node.old node.new (S.view station.old) (S.view station.new) (F.view folder.old) (F.view folder.new) ticket.now path.now turns [] d) }
    ensures stopped { IfErr result (λ e. StopsBelow L.holds L.stands L.is_broken node.old node.new (S.view station.old) (S.view station.new) (F.view folder.old) (F.view folder.new) ticket.now path.now turns [] e) }
    ensures up { OnOk result (IsUp L.holds L.size L.keeps_body L.is_broken node.new (S.view station.new)) }
    ensures faults { Faults (failed result) (S.view station.old) (S.view station.new) }
    ensures folder_faults { FolderCounts (failed result) (F.view folder.old).folder_faults (F.view folder.new).folder_faults }
    ensures only { IfErr result IsOfBelow }
{
    let mut waiting = match Waiting::new(alloc, node, turns) {
        Ok(waiting) => waiting,
        Err(fault) => return Err(RestoreFault::from(fault)),
    };
    let first = [ticket.reference];
    let skeleton = match fetch_skeleton(alloc, node, station, &mut waiting, &first, ticket.levels) {
        Ok(skeleton) => skeleton,
        Err(fault) => return Err(fault),
    };
    match write_entries(
        alloc,
        node,
        station,
        folder,
        &mut waiting,
        path,
        skeleton.entries(),
    ) {
        Ok(()) => {}
        Err(fault) => return Err(fault),
    }
    let Counts {
        files,
        folders,
        bytes,
    } = count(&skeleton);
    Ok(Restored {
        files,
        folders,
        bytes,
    })
}

/// Restores the snapshot of a ticket into an empty folder. A chunk is the node's own where that opens; or
/// else all peers are asked for it, and it is the first that comes and opens within so many turns, in which
/// the node serves; the peers are asked again after each eighth turn. The whole skeleton is read before the
/// first entry is made, and a file is written chunk by chunk. After a refusal the first entries stay, the
/// last of them perhaps in part. (Pastiche, Cox, Murray and Noble, OSDI 2002)
pub fn restore<L: Log, S: Station, F: Folder>(
    alloc: Global,
    node: &mut Node<L>,
    station: &mut S,
    folder: &mut F,
    ticket: &Ticket,
    path: &str,
    turns: u32,
) -> Result<Restored, RestoreFault>
    requires up { IsUp L.holds L.size L.keeps_body L.is_broken node.old (S.view station.old) }

    // The target holds the tree that the ticket means, or two texts that share a SHA-256 were met.
    ensures restored { IfOk result (λ d. Restores L.holds L.stands L.is_broken node.old node.new (S.view station.old) (S.view station.new) (F.view folder.old) (F.view folder.new) ticket.now path.now turns d) }

    // The place that got no body is the first one in the order of reading, and each of its turns was made.
    ensures stopped { IfErr result (λ e. StopsRestore L.holds L.stands L.is_broken node.old node.new (S.view station.old) (S.view station.new) (F.view folder.old) (F.view folder.new) ticket.now path.now turns e) }
    ensures empty { OnOk result (Tells_content (F.view folder.new) → IfSome (F.view folder.old).content (λ c. Lists c path.now [])) }
    ensures not_empty { result ≡ Err RestoreFault.NotEmpty → IfSome (F.view folder.new).content (λ c. IsNotEmpty c path.now) }

    // And then nothing was asked, read or made.
    ensures unasked { result ≡ Err RestoreFault.NotEmpty → station.new ≡ station.old }
    ensures unmade { result ≡ Err RestoreFault.NotEmpty → Tells_content (F.view folder.new) → (F.view folder.new).content ≡ (F.view folder.old).content }
    ensures up { OnOk result (IsUp L.holds L.size L.keeps_body L.is_broken node.new (S.view station.new)) }
    ensures faults { Faults (failed result) (S.view station.old) (S.view station.new) }
    ensures folder_faults { FolderCounts (failed result) (F.view folder.old).folder_faults (F.view folder.new).folder_faults }
    ensures only { IfErr result IsOfRestore }
{
    match is_empty(folder, path) {
        Ok(true) => {}
        Ok(false) => return Err(RestoreFault::NotEmpty),
        Err(fault) => return Err(RestoreFault::from(fault)),
    }
    match restore_below(alloc, node, station, folder, ticket, path, turns) {
        Ok(restored) => Ok(restored),
        Err(fault) => Err(fault),
    }
}
