//! The tree of a snapshot, which is written below the target.
ghost use Rattle.std.specs.Prelude.{◌≡◌, IfOk, IfErr, OnOk, OnErr};
ghost use Rattle.psb_station.specs.Folder.{child};
ghost use Rattle.node_serve.specs.Spans.{IsUp};
ghost use Rattle.snapshot_restore.specs.Faults.{Faults, FolderCounts, IsOfTree, failed};
ghost use Rattle.snapshot_restore.specs.Written.{AppendsAll, StopsAppending, WritesEntry, StopsEntry, WritesAll, StopsTree};

use crate::RestoreFault;
use crate::fetching::fetch;
use crate::waiting::Waiting;
use node_core::Node;
use node_journal::Log;
use psb_bytes::Ref;
use psb_station::{Folder, Station};
use skeleton::{Entry, EntryKind};
use snapshots::{add_piece, make_place};
use std::alloc::Global;

/// Appends the bytes of each ref to the file at a path, as they come.
fn append_all<L: Log, S: Station, F: Folder>(
    alloc: Global,
    node: &mut Node<L>,
    station: &mut S,
    folder: &mut F,
    waiting: &mut Waiting,
    at: &str,
    refs: &[Ref],
) -> Result<(), RestoreFault>
    requires up { IsUp L.holds L.size L.keeps_body L.is_broken node.old (S.view station.old) }
    ensures appended { OnOk result (AppendsAll L.holds L.stands L.is_broken waiting.old waiting.new node.old node.new (S.view station.old) (S.view station.new) (F.view folder.old) (F.view folder.new) at.now refs.now) }
    ensures stopped { IfErr result (λ e. StopsAppending L.holds L.stands L.is_broken waiting.old waiting.new node.old node.new (S.view station.old) (S.view station.new) (F.view folder.old) (F.view folder.new) at.now refs.now e) }
    ensures up { OnOk result (IsUp L.holds L.size L.keeps_body L.is_broken node.new (S.view station.new)) }
    ensures faults { Faults (failed result) (S.view station.old) (S.view station.new) }
    ensures folder_faults { FolderCounts (failed result) (F.view folder.old).folder_faults (F.view folder.new).folder_faults }
    ensures only { IfErr result IsOfTree }
{
    for reference in refs {
        let plain = match fetch(alloc, node, station, waiting, reference) {
            Ok(plain) => plain,
            Err(fault) => return Err(fault),
        };
        match add_piece(folder, at, &plain) {
            Ok(()) => {}
            Err(fault) => return Err(RestoreFault::from(fault)),
        }
    }
    Ok(())
}

/// Makes what an entry says below the root.
fn write_entry<L: Log, S: Station, F: Folder>(
    alloc: Global,
    node: &mut Node<L>,
    station: &mut S,
    folder: &mut F,
    waiting: &mut Waiting,
    root: &str,
    entry: &Entry,
) -> Result<(), RestoreFault>
    requires up { IsUp L.holds L.size L.keeps_body L.is_broken node.old (S.view station.old) }
    ensures written { OnOk result (WritesEntry L.holds L.stands L.is_broken waiting.old waiting.new node.old node.new (S.view station.old) (S.view station.new) root.now (F.view folder.old) (F.view folder.new) entry.now) }
    ensures stopped { IfErr result (λ e. StopsEntry L.holds L.stands L.is_broken waiting.old waiting.new node.old node.new (S.view station.old) (S.view station.new) root.now (F.view folder.old) (F.view folder.new) entry.now e) }
    ensures up { OnOk result (IsUp L.holds L.size L.keeps_body L.is_broken node.new (S.view station.new)) }
    ensures faults { Faults (failed result) (S.view station.old) (S.view station.new) }
    ensures folder_faults { FolderCounts (failed result) (F.view folder.old).folder_faults (F.view folder.new).folder_faults }
    ensures only { IfErr result IsOfTree }
{
    let at = match make_place(alloc, folder, root, entry.path.as_str(), entry.kind) {
        Ok(at) => at,
        Err(fault) => return Err(RestoreFault::from(fault)),
    };
    match entry.kind {
        EntryKind::Folder => Ok(()),
        EntryKind::File => append_all(
            alloc,
            node,
            station,
            folder,
            waiting,
            at.as_str(),
            entry.refs.as_slice(),
        ),
    }
}

/// Makes what the entries say below the root, one after another.
pub(crate) fn write_entries<L: Log, S: Station, F: Folder>(
    alloc: Global,
    node: &mut Node<L>,
    station: &mut S,
    folder: &mut F,
    waiting: &mut Waiting,
    root: &str,
    entries: &[Entry],
) -> Result<(), RestoreFault>
    requires up { IsUp L.holds L.size L.keeps_body L.is_broken node.old (S.view station.old) }
    ensures written { OnOk result (WritesAll L.holds L.stands L.is_broken waiting.old waiting.new node.old node.new (S.view station.old) (S.view station.new) root.now (F.view folder.old) (F.view folder.new) entries.now) }
    ensures stopped { IfErr result (λ e. StopsTree L.holds L.stands L.is_broken waiting.old waiting.new node.old node.new (S.view station.old) (S.view station.new) root.now (F.view folder.old) (F.view folder.new) entries.now e) }
    ensures up { OnOk result (IsUp L.holds L.size L.keeps_body L.is_broken node.new (S.view station.new)) }
    ensures faults { Faults (failed result) (S.view station.old) (S.view station.new) }
    ensures folder_faults { FolderCounts (failed result) (F.view folder.old).folder_faults (F.view folder.new).folder_faults }
    ensures only { IfErr result IsOfTree }
{
    for entry in entries {
        match write_entry(alloc, node, station, folder, waiting, root, entry) {
            Ok(()) => {}
            Err(fault) => return Err(fault),
        }
    }
    Ok(())
}
