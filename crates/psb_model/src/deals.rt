//! The node's own deals, and the last ones of its peers.

ghost use Rattle.std.specs.Prelude.{◌≡◌, IfOk, option_to_list};
ghost use Rattle.psb_model.specs.Effects.{deal_name};

use psb_bytes::{Digest, Memory, Seat, SlotList};
use std::alloc::Global;

/// What an own deal proposes to a peer.
#[derive(Drop)]
pub enum DealWhat {
    Fresh { name: Digest },
    Swap { name: Digest, slots: SlotList },
    Cancel { name: Digest, slots: SlotList },
    PutBack { name: Digest, first: u32 },
    Forward { slot: u32, entry: Seat },
    Return { slot: u32 },
}

impl DealWhat {
    /// The chunk that the deal names.
    pub fn name(&self) -> Option<Digest>
        ensures { option_to_list result ≡ deal_name self.now }
    {
        match self {
            DealWhat::Fresh { name }
            | DealWhat::Swap { name, .. }
            | DealWhat::Cancel { name, .. }
            | DealWhat::PutBack { name, .. } => Some(*name),
            DealWhat::Forward { .. } | DealWhat::Return { .. } => None,
        }
    }

    /// The same deal once more, in memory of its own.
    pub fn copy(&self, alloc: Global) -> Result<DealWhat, Memory>
        ensures { IfOk result (λ w. w ≡ self.now) }
    {
        match self {
            DealWhat::Fresh { name } => Ok(DealWhat::Fresh { name: *name }),
            DealWhat::Swap { name, slots } => Ok(DealWhat::Swap {
                name: *name,
                slots: SlotList::copy(alloc, slots.as_slice())?,
            }),
            DealWhat::Cancel { name, slots } => Ok(DealWhat::Cancel {
                name: *name,
                slots: SlotList::copy(alloc, slots.as_slice())?,
            }),
            DealWhat::PutBack { name, first } => Ok(DealWhat::PutBack {
                name: *name,
                first: *first,
            }),
            DealWhat::Forward { slot, entry } => Ok(DealWhat::Forward {
                slot: *slot,
                entry: *entry,
            }),
            DealWhat::Return { slot } => Ok(DealWhat::Return { slot: *slot }),
        }
    }
}

/// An own deal with its number.
#[derive(Drop)]
pub struct Deal {
    pub number: u64,
    pub what: DealWhat,
}

/// The number of a peer's last deal, and its change; both 0 where there is none.
#[derive(Clone, Copy, PartialEq, Eq, Debug)]
pub struct LastDeal {
    pub number: u64,
    pub change: u64,
}
