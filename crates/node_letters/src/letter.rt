//! Letters: datagrams to peers.

ghost use Rattle.std.specs.Prelude.{◌≡◌, true, map, IfOk};
ghost use Rattle.wire_codec.specs.Frames.{datagram, fits};
ghost use Rattle.wire_codec.specs.declared.frame.Frame.TheVariants.{Get};
ghost use Rattle.psb_machine.specs.Commands.{get_by};
ghost use Rattle.node_letters.specs.Letters.{letters_of};

use crate::frames::get_of;
use psb_bytes::{Bytes, Digest, Items, Memory, PeerId};
use psb_settings::PeerRow;
use std::alloc::Global;
use wire_codec::{Frame, encode};

/// A datagram to a peer.
#[derive(Drop)]
pub struct Letter {
    pub to: PeerId,
    pub frame: Bytes,
}

/// Letters in the order in which they are to be sent.
pub type Outbox = Items<Letter>;

/// One letter to each peer, of whom there are at most 64.
pub type Outbox64 = Items<Letter>;

/// The letter with a frame for a peer, under a number and a key.
pub fn letter_to(
    alloc: Global,
    frame: &Frame,
    own: PeerId,
    peer: PeerId,
    number: u64,
    key: &Digest,
) -> Result<Letter, Memory>
    requires { fits frame.now ≡ true }
    ensures to { IfOk result (λ l. l.to ≡ peer) }
    ensures frame { IfOk result (λ l. l.frame ≡ datagram key.now own peer number frame.now) }
{
    let datagram = encode(alloc, frame, own, peer, number, key)?;
    Ok(Letter {
        to: peer,
        frame: Items::from_vec(datagram),
    })
}

/// A Get of the bytes under a name, to a peer. Its number is 0.
fn get_to(alloc: Global, name: &Digest, own: PeerId, peer: &PeerRow) -> Result<Letter, Memory>
    ensures to { IfOk result (λ l. l.to ≡ peer.now.id) }
    ensures frame { IfOk result (λ l. l.frame ≡ datagram peer.now.key own peer.now.id 0 (Get name.now)) }
{
    let frame = get_of(*name);
    let datagram = encode(alloc, &frame, own, peer.id, 0, &peer.key)?;
    Ok(Letter {
        to: peer.id,
        frame: Items::from_vec(datagram),
    })
}

/// A Get of the bytes under a name to each of these peers, in their order.
pub fn gets_to(
    alloc: Global,
    name: &Digest,
    own: PeerId,
    peers: &[PeerRow],
) -> Result<Outbox64, Memory>
    ensures { IfOk result (λ out. letters_of out ≡ map (get_by own name.now) peers.now) }
{
    let mut letters = Vec::new(alloc);
    for peer in peers {
        letters.push(get_to(alloc, name, own, peer)?)?;
    }
    Ok(Items::from_vec(letters))
}
