//! Bodies that a node reads by their names.
ghost use Rattle.std.specs.Prelude.{◌≡◌, false, OnOk, IfOk};
ghost use Rattle.psb_machine.specs.Machine.{Situation};
ghost use Rattle.node_core.specs.Stored.{Knows, IsCounted};

use node_core::{Fault, Node};
use node_journal::{Log, PlainLog};
use psb_bytes::{Digest, Memory};
use psb_station::{Disk, MemStation};
use std::alloc::Global;

/// What came of reading a body: whether one is held, and whether the disk failed.
#[derive(Clone, Copy, PartialEq, Eq, Debug)]
pub enum Found {
    Body,
    Nothing,
    Fault,
}

/// Reads the body under a name.
pub fn find<L: Log, D: Disk>(
    node: &mut Node<L>,
    disk: &mut D,
    name: &Digest,
    body: &mut Vec<u8>,
) -> Result<Found, Memory>
    requires known { L.is_broken node.old.log ≡ false → (n : Situation) × Knows node.old n }
    requires counted { L.is_broken node.old.log ≡ false → IsCounted L.size L.keeps_body node.old }
    ensures { node.new ≡ node.old }
{
    match node.body(disk, name, body) {
        Ok(true) => Ok(Found::Body),
        Ok(false) => Ok(Found::Nothing),
        Err(Fault::Memory) => Err(Memory),
        Err(_) => Ok(Found::Fault),
    }
}

/// Opens the node that a disk holds, and reads the body under a name twice: from another disk, and from
/// this one. A node keeps no bodies in memory, so that what the other disk can't read is not there.
pub fn find_twice<D: Disk>(
    alloc: Global,
    disk: &mut D,
    other: &mut D,
    name: &Digest,
    body: &mut Vec<u8>,
) -> Result<[Found; 2], Memory> {
    let mut node: Node<PlainLog> = match Node::open(alloc, disk) {
        Ok(node) => node,
        Err(Fault::Memory) => return Err(Memory),
        Err(_) => return Ok([Found::Fault, Found::Fault]),
    };
    let first = find(&mut node, other, name, body)?;
    let second = find(&mut node, disk, name, body)?;
    Ok([first, second])
}

/// A disk of these bytes whose first hundred calls fail.
pub fn failing_disk(alloc: Global, image: &[u8]) -> Result<MemStation, Memory> {
    let mut faults = Vec::new(alloc);
    for call in 1..101u64 {
        faults.push(call)?;
    }
    let image = Vec::from_slice(alloc, image)?;
    let clock = Vec::new(alloc);
    Ok(MemStation::new(alloc, image, Vec::new(alloc), clock, faults))
}
