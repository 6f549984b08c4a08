//! The note of a snapshot.
ghost use Rattle.std.specs.Prelude.{◌≡◌, ◌⊎◌, ◌≤◌, ◌<◌, ◌^◌, ℕ, List, length, true, IfOk, OnErr};
ghost use Rattle.psb_model.specs.Words.{name_listed};
ghost use Rattle.skeleton.specs.declared.limits.TheConstants.{MOST_TEXT_BYTES};
ghost use Rattle.skeleton.specs.Texts.{skeleton_text};
ghost use Rattle.snapshots.specs.Meaning.{Place, refs_in};
ghost use Rattle.snapshots.specs.Tickets.{skeleton_of_tree, most_levels};
ghost use Rattle.snapshot_backup.specs.Backed.{Notes};
ghost use Rattle.snapshot_backup.specs.Course.{pieces_of_levels};
ghost use Rattle.snapshot_backup.specs.Naming.{has_name, count_of, names_in};
ghost use Rattle.node_serve.specs.Spans.{IsUp};
ghost use Rattle.snapshot_backup.specs.Endings.{end_of};
ghost use Rattle.snapshot_backup.specs.Runs.{Ran, KeepsSo, NoneAltered, RefusesPiece};

use crate::levels::keep_levels;
use crate::naming::Names;
use node_core::{Fault, Node};
use node_journal::Log;
use psb_bytes::Memory;
use psb_machine::SnapNote;
use psb_station::Disk;
use skeleton::{Entry, Skeleton, WriteError, write_skeleton};
use snapshots::{Counts, count};
use std::alloc::Global;

/// How many lists of refs there are at most above a skeleton's text.
const MOST_LEVELS: u8 = 4;

/// The names of the pieces of all files.
fn name_files(alloc: Global, entries: &[Entry]) -> Result<Names, Memory>
    ensures names { IfOk result (λ names. (q : List ℕ) → has_name names q ≡ name_listed (names_in (refs_in entries.now)) q) }
    ensures count { IfOk result (λ names. count_of names ≤ length (refs_in entries.now)) }
{
    let mut names = Names::new(alloc);
    for entry in entries {
        names.add(entry.refs.as_slice())?;
    }
    Ok(names)
}

/// Keeps the text of a skeleton and those of the refs above it, and answers the note of its tree, of
/// which so many names were left out.
pub(crate) fn keep_skeleton<L: Log, D: Disk>(
    alloc: Global,
    node: &mut Node<L>,
    disk: &mut D,
    skeleton: &Skeleton,
    left: u32,
) -> Result<SnapNote, Fault>
    requires up { IsUp L.holds L.size L.keeps_body L.is_broken node.old (D.view disk.old) }
    requires short { length (skeleton_text skeleton.now) ≤ MOST_TEXT_BYTES }
    ensures keeps { KeepsSo L.holds L.stands L.size L.keeps_body L.is_broken node.old node.new (D.view disk.old) (D.view disk.new) (pieces_of_levels most_levels (skeleton_text skeleton.now)) (end_of result) }
    ensures note { IfOk result (λ note. (places : List Place) → skeleton.now ≡ skeleton_of_tree places → Notes places note) }
    ensures left { IfOk result (λ note. note.left ≡ left) }
    ensures few { IfOk result (λ note. length note.names ≤ 1048576) }
    ensures widths { IfOk result (λ note. (note.files < 2 ^ 32) × (note.folders < 2 ^ 32) × (note.bytes < 2 ^ 64) × (note.left < 2 ^ 32)) }
    ensures unbroken { L.is_broken node.new.log ≡ true → result ≡ Err Fault.DiskFault }
    ensures altered { NoneAltered L.holds node.old (D.view disk.old) (D.view disk.new) (λ name. result ≡ Err (Fault.Altered name)) }
    ensures ran { Ran (result ≡ Err Fault.DiskFault) (D.view disk.old) (D.view disk.new) }
    ensures only { OnErr result ((result ≡ Err Fault.DiskFault) ⊎ (result ≡ Err Fault.Memory) ⊎ RefusesPiece result) }
{
    let Counts {
        files,
        folders,
        bytes,
    } = count(skeleton);
    let mut names = name_files(alloc, skeleton.entries())?;
    let text = match write_skeleton(alloc, skeleton) {
        Ok(text) => text,
        Err(WriteError::Memory) => return Err(Fault::Memory),
        Err(WriteError::TooLarge) => unreachable!(),
    };
    let ticket = match keep_levels(alloc, node, disk, &text, MOST_LEVELS, &mut names) {
        Ok(ticket) => ticket,
        Err(fault) => return Err(fault),
    };
    Ok(SnapNote {
        ticket,
        files,
        folders,
        bytes,
        left,
        names: names.list(alloc)?,
    })
}
