//! One piece of a text, which is sealed and kept.
ghost use Rattle.std.specs.Prelude.{◌≡◌, ◌⊎◌, ◌≤◌, [], ◌∷◌, ◌++◌, true, length, OnOk, OnErr};
ghost use Rattle.psb_bytes.specs.Units.{longest_chunk};
ghost use Rattle.convergent_seal.specs.Sealing.{sealed_ref};
ghost use Rattle.node_serve.specs.Spans.{IsUp};
ghost use Rattle.snapshot_backup.specs.Endings.{end_of};
ghost use Rattle.snapshot_backup.specs.Runs.{Ran, KeepsSo, NoneAltered, RefusesPiece};

use convergent_seal::seal;
use node_core::{Fault, Input, Node};
use node_journal::Log;
use node_serve::feed_own;
use psb_bytes::Ref;
use psb_station::Disk;
use std::alloc::Global;

/// Seals a piece and has the node keep it. What opens it is added to the refs.
pub(crate) fn keep_piece<L: Log, D: Disk>(
    alloc: Global,
    node: &mut Node<L>,
    disk: &mut D,
    plain: &[u8],
    refs: &mut Vec<Ref>,
) -> Result<(), Fault>
    requires up { IsUp L.holds L.size L.keeps_body L.is_broken node.old (D.view disk.old) }
    requires some { 1 ≤ length plain.now }
    requires fits { length plain.now ≤ longest_chunk }
    ensures refs { OnOk result (refs.new.items ≡ refs.old.items ++ sealed_ref plain.now ∷ []) }
    ensures keeps { KeepsSo L.holds L.stands L.size L.keeps_body L.is_broken node.old node.new (D.view disk.old) (D.view disk.new) (plain.now ∷ []) (end_of result) }
    ensures unbroken { L.is_broken node.new.log ≡ true → result ≡ Err Fault.DiskFault }
    ensures altered { NoneAltered L.holds node.old (D.view disk.old) (D.view disk.new) (λ name. result ≡ Err (Fault.Altered name)) }
    ensures ran { Ran (result ≡ Err Fault.DiskFault) (D.view disk.old) (D.view disk.new) }
    ensures only { OnErr result ((result ≡ Err Fault.DiskFault) ⊎ (result ≡ Err Fault.Memory) ⊎ RefusesPiece result) }
{
    refs.reserve(1)?;
    let sealed = seal(alloc, plain)?;
    match feed_own(node, disk, &Input::Keep(&sealed)) {
        Ok(()) => {
            refs.push_reserved(*sealed.reference());
            Ok(())
        }
        Err(fault) => Err(fault),
    }
}
