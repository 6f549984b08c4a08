//! What a datagram says to the node: who sent it, and the message that its frame is.

ghost use Rattle.std.specs.Prelude.{◌≡◌, option_map};
ghost use Rattle.wire_codec.specs.Views.{frame_of};
ghost use Rattle.psb_machine.specs.Messages.{message_of};
ghost use Rattle.node_letters.specs.Messages.{message_in, Reads};

use deals::{AnswerView, DealView};
use psb_bytes::{Digest, PeerId};
use wire_codec::{BodyView, Dropped, FrameView, Keys, NamesView, ObjectsView, PlacesView, decode};

/// The peer that a frame is of, the frame's number, and the key that the two share.
#[derive(Clone, Copy)]
pub struct Sender {
    pub peer: PeerId,
    pub number: u64,
    pub key: Digest,
}

/// What a frame of a peer says. It is lent from the datagram.
#[derive(Drop)]
pub enum Message<'a> {
    /// The peer asks for a deal.
    Deal(DealView<'a>),
    /// It replies to a deal of the node's own.
    Reply(AnswerView<'a>),
    /// It asks for the bytes under a name.
    Get(Digest),
    /// It asks which of these names are held.
    Ask {
        salt: Digest,
        names: NamesView<'a>,
    },
    /// It tells which of the names that it was asked for under a salt it holds: bit j is 1 where it holds name j.
    Sample {
        salt: Digest,
        bits: u32,
    },
    /// It asks for a proof that these objects are held.
    Probe {
        nonce: Digest,
        objects: ObjectsView<'a>,
    },
    /// It gives the proof.
    Proof {
        nonce: Digest,
        value: Digest,
    },
    /// It does not have what stood at these places of a question.
    Declined {
        nonce: Digest,
        places: PlacesView<'a>,
    },
}

impl<'a> Message<'a> {
    /// The message that a frame is. A Here is for a restore alone.
    pub fn of(body: BodyView<'a>) -> Option<Message<'a>>
        ensures { option_map message_in result ≡ message_of (frame_of body.entry) }
    {
        match body {
            BodyView::Store { .. }
            | BodyView::Cancel { .. }
            | BodyView::PutBack { .. }
            | BodyView::Replace { .. } => Some(Message::Deal(DealView::of(body)?)),
            BodyView::Accepted { .. } | BodyView::Refused { .. } => {
                Some(Message::Reply(AnswerView::of(body)?))
            }
            BodyView::Declined { nonce, places } => Some(Message::Declined { nonce, places }),
            BodyView::Get { name } => Some(Message::Get(name)),
            BodyView::Probe { nonce, objects } => Some(Message::Probe { nonce, objects }),
            BodyView::Proof { nonce, value } => Some(Message::Proof { nonce, value }),
            BodyView::Ask { salt, names } => Some(Message::Ask { salt, names }),
            BodyView::Sample { salt, bits } => Some(Message::Sample { salt, bits }),
            BodyView::Here { .. } => None,
        }
    }
}

/// What a datagram is read as.
#[derive(Drop)]
pub enum Reading<'a> {
    /// The first test of its format that it fails.
    Fails(Dropped),
    /// A frame that says nothing to the node.
    Other,
    /// A message of a peer.
    Says(Sender, Message<'a>),
}

/// Reads a datagram for the node `own`.
pub(crate) fn read<'a>(datagram: &'a [u8], own: PeerId, keys: &Keys) -> Reading<'a>
    ensures { Reads result own keys.now datagram.now }
{
    let FrameView { from, number, body } = match decode(datagram, own, keys) {
        Ok(frame) => frame,
        Err(why) => return Reading::Fails(why),
    };
    let Some(key) = keys.key_of(from) else {
        unreachable!()
    };
    let sender = Sender {
        peer: from,
        number,
        key: *key,
    };
    match Message::of(body) {
        None => Reading::Other,
        Some(message) => Reading::Says(sender, message),
    }
}
