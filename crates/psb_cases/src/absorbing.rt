//! An input that a node absorbs twice.
ghost use Rattle.std.specs.Prelude.{◌≡◌, false};
ghost use Rattle.psb_model.specs.State.{State};
ghost use Rattle.node_core.specs.Refusing.{IsApt};
ghost use Rattle.node_core.specs.Stored.{IsCounted};
ghost use Rattle.node_serve.specs.Spans.{IsReady};

use crate::stop::Stop;
use convergent_seal::seal;
use node_core::{Fault, Input, Node, Outcome};
use node_journal::{Log, PlainLog};
use psb_bytes::{LONGEST_CHUNK, Memory};
use psb_station::Disk;
use std::alloc::Global;

/// What came of an input that was to be absorbed.
#[derive(Clone, Copy, PartialEq, Eq, Debug)]
pub enum Absorbed {
    /// It made the change of this number.
    Change(u64),
    /// It made no change.
    Nothing,
    /// The disk failed.
    Fault,
    /// The disk failed in an append before: the node has to be opened again.
    Broken,
}

/// What an outcome comes to. What is to be sent is let go.
fn change_of(outcome: Outcome) -> Absorbed {
    match outcome.change {
        Some(number) => Absorbed::Change(number),
        None => Absorbed::Nothing,
    }
}

/// Has a node absorb an input.
fn absorb<L: Log, D: Disk>(
    node: &mut Node<L>,
    disk: &mut D,
    input: &Input<'_>,
) -> Result<Absorbed, Memory>
    requires ready { L.is_broken node.old.log ≡ false → IsReady L.holds node.old (D.view disk.old) }
    requires counted { L.is_broken node.old.log ≡ false → IsCounted L.size L.keeps_body node.old }
    requires apt { IsApt node.old.ledger.state input.now }
    ensures ready { L.is_broken node.old.log ≡ false → L.is_broken node.new.log ≡ false → IsReady L.holds node.new (D.view disk.new) }
    ensures counted { L.is_broken node.old.log ≡ false → L.is_broken node.new.log ≡ false → IsCounted L.size L.keeps_body node.new }
{
    match node.absorb(disk, input) {
        Ok(outcome) => Ok(change_of(outcome)),
        Err(Fault::Memory) => Err(Memory),
        Err(Fault::Broken) => Ok(Absorbed::Broken),
        Err(_) => Ok(Absorbed::Fault),
    }
}

/// Opens the node that a disk holds, and feeds it an input twice. A disk whose node can't be opened
/// is outside of the language.
fn feed_twice<D: Disk>(
    alloc: Global,
    disk: &mut D,
    input: &Input<'_>,
) -> Result<[Absorbed; 2], Stop>
    requires apt { (s : State) → IsApt s input.now }
{
    let mut node: Node<PlainLog> = match Node::open(alloc, disk) {
        Ok(node) => node,
        Err(Fault::Memory) => return Err(Stop::Memory),
        Err(_) => return Err(Stop::Outside),
    };
    let first = absorb(&mut node, disk, input)?;
    let second = absorb(&mut node, disk, input)?;
    Ok([first, second])
}

/// Has the node that a disk holds absorb a datagram twice.
pub fn absorb_twice<D: Disk>(
    alloc: Global,
    disk: &mut D,
    frame: &[u8],
) -> Result<[Absorbed; 2], Stop> {
    feed_twice(alloc, disk, &Input::Frame(frame))
}

/// Seals a piece, and has the node that a disk holds keep it twice. A piece that is empty, or longer
/// than a chunk, is outside of the language.
pub fn keep_twice<D: Disk>(
    alloc: Global,
    disk: &mut D,
    plain: &[u8],
) -> Result<[Absorbed; 2], Stop> {
    if plain.is_empty() || plain.len() > LONGEST_CHUNK as usize {
        return Err(Stop::Outside);
    }
    let sealed = seal(alloc, plain)?;
    feed_twice(alloc, disk, &Input::Keep(&sealed))
}
