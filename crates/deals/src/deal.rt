ghost use Rattle.std.specs.Prelude.{◌≡◌, option_map, Some};
ghost use Rattle.wire_codec.specs.Views.{frame_of};
ghost use Rattle.wire_codec.specs.declared.frame.Frame.TheVariants.{Store};
ghost use Rattle.psb_machine.specs.Deals.{deal_of};
ghost use Rattle.deals.specs.Views.{deal_in};

use psb_bytes::Digest;
use wire_codec::{BodyView, ClaimsView, SlotsView};

/// What a peer asks for by a deal. It is lent from the peer's frame.
#[derive(Drop)]
pub enum DealView<'a> {
    /// To keep these sealed bytes under their name, against new claims.
    StoreFresh {
        name: Digest,
        bytes: &'a [u8],
    },
    /// To keep these sealed bytes under their name, in place of slots that the peer has here.
    StoreSwap {
        name: Digest,
        slots: SlotsView<'a>,
        bytes: &'a [u8],
    },
    /// To let its chunk go, and with it slots that the node has there.
    Cancel {
        name: Digest,
        slots: SlotsView<'a>,
    },
    /// To let its chunk go, and to take claims for it that stand here in its place.
    PutBack {
        name: Digest,
        claims: ClaimsView<'a>,
    },
    /// To keep these 512 bytes in a slot that the peer has here, in place of what stands there.
    Replace {
        slot: u32,
        bytes: &'a [u8],
    },
}

impl<'a> DealView<'a> {
    /// The deal that a frame asks for, None where it asks for none.
    pub fn of(body: BodyView<'a>) -> Option<DealView<'a>>
        ensures { option_map deal_in result ≡ deal_of (frame_of body.entry) }
    {
        match body {
            BodyView::Store { name, slots, bytes } => Some(stored(name, slots, bytes)),
            BodyView::Cancel { name, slots } => Some(DealView::Cancel { name, slots }),
            BodyView::PutBack { name, claims } => Some(DealView::PutBack { name, claims }),
            BodyView::Replace { slot, bytes } => Some(DealView::Replace { slot, bytes }),
            _ => None,
        }
    }
}

/// The deal that a Store is: one that names slots is a swap.
fn stored<'a>(name: Digest, slots: SlotsView<'a>, bytes: &'a [u8]) -> DealView<'a>
    ensures { deal_of (Store name slots.entry bytes.now) ≡ Some (deal_in result) }
{
    if slots.len() == 0 {
        DealView::StoreFresh { name, bytes }
    } else {
        DealView::StoreSwap { name, slots, bytes }
    }
}
