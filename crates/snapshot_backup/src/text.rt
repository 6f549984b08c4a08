//! A text that is cut and kept.
ghost use Rattle.std.specs.Prelude.{◌≡◌, ◌⊎◌, ◌≤◌, ◌+◌, [], ◌∷◌, ◌++◌, true, length, IfOk, OnOk, OnErr};
ghost use Rattle.psb_bytes.specs.Units.{longest_chunk};
ghost use Rattle.convergent_seal.specs.Sealing.{sealed_ref};
ghost use Rattle.rolling_chunks.specs.Laws.{part};
ghost use Rattle.snapshots.specs.Tickets.{chunks_of, refs_of_text};
ghost use Rattle.node_serve.specs.Spans.{IsUp};
ghost use Rattle.snapshot_backup.specs.Endings.{end_of};
ghost use Rattle.snapshot_backup.specs.Runs.{Ran, KeepsSo, NoneAltered, RefusesPiece};

use crate::piece::keep_piece;
use node_core::{Fault, Node};
use node_journal::Log;
use psb_bytes::{Items, Ref, RefList};
use psb_station::Disk;
use rolling_chunks::{Span, cut_all};
use std::alloc::Global;

/// Keeps the piece that a span of a text holds. What opens it is added to the refs.
fn keep_span<L: Log, D: Disk>(
    alloc: Global,
    node: &mut Node<L>,
    disk: &mut D,
    text: &[u8],
    span: &Span,
    refs: &mut Vec<Ref>,
) -> Result<(), Fault>
    requires up { IsUp L.holds L.size L.keeps_body L.is_broken node.old (D.view disk.old) }
    requires inside { span.now.start + span.now.len ≤ length text.now }
    requires some { 1 ≤ span.now.len }
    requires short { span.now.len ≤ longest_chunk }
    ensures refs { OnOk result (refs.new.items ≡ refs.old.items ++ sealed_ref (part text.now span.now) ∷ []) }
    ensures keeps { KeepsSo L.holds L.stands L.size L.keeps_body L.is_broken node.old node.new (D.view disk.old) (D.view disk.new) (part text.now span.now ∷ []) (end_of result) }
    ensures unbroken { L.is_broken node.new.log ≡ true → result ≡ Err Fault.DiskFault }
    ensures altered { NoneAltered L.holds node.old (D.view disk.old) (D.view disk.new) (λ name. result ≡ Err (Fault.Altered name)) }
    ensures ran { Ran (result ≡ Err Fault.DiskFault) (D.view disk.old) (D.view disk.new) }
    ensures only { OnErr result ((result ≡ Err Fault.DiskFault) ⊎ (result ≡ Err Fault.Memory) ⊎ RefusesPiece result) }
{
    keep_piece(
        alloc,
        node,
        disk,
        &text[span.start..span.start + span.len],
        refs,
    )
}

/// Keeps the pieces of a text, and answers what opens each, in order.
pub(crate) fn keep_text<L: Log, D: Disk>(
    alloc: Global,
    node: &mut Node<L>,
    disk: &mut D,
    text: &[u8],
) -> Result<RefList, Fault>
    requires up { IsUp L.holds L.size L.keeps_body L.is_broken node.old (D.view disk.old) }
    ensures refs { IfOk result (λ refs. refs ≡ refs_of_text text.now) }
    ensures keeps { KeepsSo L.holds L.stands L.size L.keeps_body L.is_broken node.old node.new (D.view disk.old) (D.view disk.new) (chunks_of text.now) (end_of result) }
    ensures unbroken { L.is_broken node.new.log ≡ true → result ≡ Err Fault.DiskFault }
    ensures altered { NoneAltered L.holds node.old (D.view disk.old) (D.view disk.new) (λ name. result ≡ Err (Fault.Altered name)) }
    ensures ran { Ran (result ≡ Err Fault.DiskFault) (D.view disk.old) (D.view disk.new) }
    ensures only { OnErr result ((result ≡ Err Fault.DiskFault) ⊎ (result ≡ Err Fault.Memory) ⊎ RefusesPiece result) }
{
    let spans = cut_all(alloc, text)?;
    let mut refs = Vec::new(alloc);
    for span in spans.as_slice() {
        match keep_span(alloc, node, disk, text, span, &mut refs) {
            Ok(()) => {}
            Err(fault) => return Err(fault),
        }
    }
    Ok(Items::from_vec(refs))
}
