//! The text of a skeleton, and the lists of refs above it.
ghost use Rattle.std.specs.Prelude.{◌≡◌, ◌⊎◌, ◌≤◌, ◌+◌, ◌||◌, ℕ, List, true, is_some, length, Some, IfOk, OnOk, OnErr};
ghost use Rattle.skeleton.specs.declared.limits.TheConstants.{MOST_TEXT_BYTES};
ghost use Rattle.snapshots.specs.Tickets.{one_of, ticket_from};
ghost use Rattle.psb_model.specs.Words.{name_listed};
ghost use Rattle.snapshot_backup.specs.Course.{pieces_of_levels};
ghost use Rattle.snapshot_backup.specs.Kept.{names_of};
ghost use Rattle.snapshot_backup.specs.Naming.{has_name, count_of};
ghost use Rattle.node_serve.specs.Spans.{IsUp};
ghost use Rattle.snapshot_backup.specs.Endings.{end_of};
ghost use Rattle.snapshot_backup.specs.Runs.{Ran, KeepsSo, NoneAltered, RefusesPiece};

use crate::naming::Names;
use crate::text::keep_text;
use node_core::{Fault, Node};
use node_journal::Log;
use psb_bytes::{Ref, Ticket};
use psb_station::Disk;
use skeleton::{WriteError, write_refs};
use std::alloc::Global;

/// The ref, where there is one alone.
fn only_one(refs: &[Ref]) -> Option<Ref>
    ensures { result ≡ one_of refs.now }
{
    match refs {
        [reference] => Some(*reference),
        _ => None,
    }
}

/// Keeps a text, and so many texts of refs above it at most: the refs of its pieces make the next one,
/// until one ref is left, which opens them all. The names of the pieces are added.
pub(crate) fn keep_levels<L: Log, D: Disk>(
    alloc: Global,
    node: &mut Node<L>,
    disk: &mut D,
    text: &[u8],
    most: u8,
    names: &mut Names,
) -> Result<Ticket, Fault>
    requires up { IsUp L.holds L.size L.keeps_body L.is_broken node.old (D.view disk.old) }
    requires short { length text.now ≤ MOST_TEXT_BYTES }
    requires enough { is_some (ticket_from most text.now) ≡ true }
    ensures ticket { IfOk result (λ t. ticket_from most text.now ≡ Some t) }
    ensures levels { IfOk result (λ t. t.levels ≤ most) }
    ensures keeps { KeepsSo L.holds L.stands L.size L.keeps_body L.is_broken node.old node.new (D.view disk.old) (D.view disk.new) (pieces_of_levels most text.now) (end_of result) }
    ensures names { OnOk result ((q : List ℕ) → has_name names.new q ≡ (has_name names.old q || name_listed (names_of (pieces_of_levels most text.now)) q)) }
    ensures count { OnOk result (count_of names.new ≤ count_of names.old + length (pieces_of_levels most text.now)) }
    ensures unbroken { L.is_broken node.new.log ≡ true → result ≡ Err Fault.DiskFault }
    ensures altered { NoneAltered L.holds node.old (D.view disk.old) (D.view disk.new) (λ name. result ≡ Err (Fault.Altered name)) }
    ensures ran { Ran (result ≡ Err Fault.DiskFault) (D.view disk.old) (D.view disk.new) }
    ensures only { OnErr result ((result ≡ Err Fault.DiskFault) ⊎ (result ≡ Err Fault.Memory) ⊎ RefusesPiece result) }
{
    let refs = match keep_text(alloc, node, disk, text) {
        Ok(refs) => refs,
        Err(fault) => return Err(fault),
    };
    names.add(refs.as_slice())?;
    match only_one(refs.as_slice()) {
        Some(reference) => {
            return Ok(Ticket {
                reference,
                levels: 0,
            });
        }
        None => {}
    }
    let above = match write_refs(alloc, &refs) {
        Ok(above) => above,
        Err(WriteError::Memory) => return Err(Fault::Memory),
        Err(WriteError::TooLarge) => unreachable!(),
    };
    match keep_levels(alloc, node, disk, &above, most - 1, names) {
        Ok(ticket) => Ok(Ticket {
            reference: ticket.reference,
            levels: ticket.levels + 1,
        }),
        Err(fault) => Err(fault),
    }
}
