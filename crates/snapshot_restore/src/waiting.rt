//! What waits for the bodies that peers are asked for.
ghost use Rattle.std.specs.Prelude.{◌≡◌, ◌≤◌, length, IfOk};
ghost use Rattle.psb_machine.specs.Machine.{Situation};
ghost use Rattle.psb_settings.specs.Settings.{most_peers};
ghost use Rattle.node_core.specs.Stored.{Knows};
ghost use Rattle.node_serve.specs.Turns.{peers_in};

use node_core::Node;
use node_journal::Log;
use node_serve::{Buffer, peers_of};
use psb_bytes::{Bytes, Items, Memory, PeerId};
use std::alloc::Global;

/// The peers whom a node asks, the clock of the call, and how many turns there are for each place.
#[derive(Drop)]
pub(crate) struct Waiting {
    pub(crate) buffer: Buffer,
    pub(crate) peers: Items<PeerId>,
    pub(crate) clock: u64,
    pub(crate) turns: u32,
    ghost few: { length peers ≤ most_peers },
}

impl Waiting {
    /// With a clock that begins at 0.
    pub(crate) fn new<L: Log>(alloc: Global, node: &Node<L>, turns: u32) -> Result<Waiting, Memory>
        requires known { (n : Situation) × Knows node.now n }
        ensures peers { IfOk result (λ w. w.peers ≡ peers_in node.now.ledger.state.settings) }
        ensures clock { IfOk result (λ w. w.clock ≡ 0) }
        ensures turns { IfOk result (λ w. w.turns ≡ turns) }
    {
        let buffer = Buffer::new(alloc)?;
        let peers = peers_of(alloc, node)?;
        Ok(Waiting {
            buffer,
            peers,
            clock: 0,
            turns,
        })
    }
}

/// What a turn brought for a place.
#[derive(Drop)]
pub(crate) enum Brought {
    /// No body for its name.
    Nothing,
    /// One that does not open.
    Other(Bytes),
    /// The plain bytes of one that opens.
    Plain(Vec<u8>),
}
