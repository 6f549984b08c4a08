ghost use Rattle.std.specs.Prelude.{◌≡◌, IfOk};
ghost use Rattle.wire_codec.specs.Views.{frame_of};

use crate::frame::Frame;
use crate::objects::ObjectsView;
use crate::views::{ClaimsView, NamesView, PlacesView, SlotsView};
use psb_bytes::{Bytes, Digest, Memory, PeerId};
use std::alloc::Global;

/// A frame that came in: who sent it, its number, and what it says.
#[derive(Drop)]
pub struct FrameView<'a> {
    pub from: PeerId,
    pub number: u64,
    pub body: BodyView<'a>,
}

/// What a frame says, as [`crate::Frame`], lent from the datagram that it came in.
#[derive(Drop)]
pub enum BodyView<'a> {
    Store {
        name: Digest,
        slots: SlotsView<'a>,
        bytes: &'a [u8],
    },
    Cancel {
        name: Digest,
        slots: SlotsView<'a>,
    },
    PutBack {
        name: Digest,
        claims: ClaimsView<'a>,
    },
    Replace {
        slot: u32,
        bytes: &'a [u8],
    },
    Accepted {
        claims: ClaimsView<'a>,
    },
    Refused {
        why: u8,
        detail: u64,
    },
    Declined {
        nonce: Digest,
        places: PlacesView<'a>,
    },
    Get {
        name: Digest,
    },
    Here {
        name: Digest,
        bytes: &'a [u8],
    },
    Probe {
        nonce: Digest,
        objects: ObjectsView<'a>,
    },
    Proof {
        nonce: Digest,
        value: Digest,
    },
    Ask {
        salt: Digest,
        names: NamesView<'a>,
    },
    Sample {
        salt: Digest,
        bits: u32,
    },
}

impl<'a> BodyView<'a> {
    /// A copy that owns its lists and bytes.
    pub fn to_frame(&self, alloc: Global) -> Result<Frame, Memory>
        ensures { IfOk result (λ f. f ≡ frame_of self.now) }
    {
        Ok(match self {
            BodyView::Store { name, slots, bytes } => Frame::Store {
                name: *name,
                slots: slots.to_list(alloc)?,
                bytes: Bytes::copy(alloc, bytes)?,
            },
            BodyView::Cancel { name, slots } => Frame::Cancel {
                name: *name,
                slots: slots.to_list(alloc)?,
            },
            BodyView::PutBack { name, claims } => Frame::PutBack {
                name: *name,
                claims: claims.to_list(alloc)?,
            },
            BodyView::Replace { slot, bytes } => Frame::Replace {
                slot: *slot,
                bytes: Bytes::copy(alloc, bytes)?,
            },
            BodyView::Accepted { claims } => Frame::Accepted {
                claims: claims.to_list(alloc)?,
            },
            BodyView::Refused { why, detail } => Frame::Refused {
                why: *why,
                detail: *detail,
            },
            BodyView::Declined { nonce, places } => Frame::Declined {
                nonce: *nonce,
                places: places.to_list(alloc)?,
            },
            BodyView::Get { name } => Frame::Get { name: *name },
            BodyView::Here { name, bytes } => Frame::Here {
                name: *name,
                bytes: Bytes::copy(alloc, bytes)?,
            },
            BodyView::Probe { nonce, objects } => Frame::Probe {
                nonce: *nonce,
                objects: objects.to_list(alloc)?,
            },
            BodyView::Proof { nonce, value } => Frame::Proof {
                nonce: *nonce,
                value: *value,
            },
            BodyView::Ask { salt, names } => Frame::Ask {
                salt: *salt,
                names: names.to_list(alloc)?,
            },
            BodyView::Sample { salt, bits } => Frame::Sample {
                salt: *salt,
                bits: *bits,
            },
        })
    }
}
