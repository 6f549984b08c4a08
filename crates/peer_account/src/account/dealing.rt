//! What an account says of the node's own deals with its peer.

ghost use Rattle.std.specs.Prelude.{◌≡◌, option_to_list};
ghost use Rattle.std.specs.Option.{option_copied};
ghost use Rattle.psb_model.specs.Words.{name_listed};
ghost use Rattle.psb_model.specs.State.{is_barred, ties_in, ties_out};
ghost use Rattle.psb_model.specs.Conditions.{is_pending};
ghost use Rattle.psb_model.specs.Effects.{deal_name, pending_name};
ghost use Rattle.peer_account.specs.OwnDeals.{barring, placed_name, coming_name, drawn};

use super::Account;
use psb_bytes::{Digest, Object, PeerId};
use psb_model::{Deal, DealWhat};

impl Account {
    /// The own deal that has no reply yet.
    pub fn pending(&self) -> Option<&Deal>
        ensures { option_copied result ≡ self.now.row.pending }
    {
        let _held = self.held;
        self.deals.pending()
    }

    /// The number of the last own deal, 0 where there is none.
    pub fn mine(&self) -> u64
        ensures { result ≡ self.now.row.mine }
    {
        let _held = self.held;
        self.deals.mine()
    }

    /// Whether the pending deal has this number.
    pub fn is_pending(&self, deal: u64) -> bool
        ensures { result ≡ is_pending self.now.row.pending deal }
    {
        match self.pending() {
            None => false,
            Some(d) => d.number == deal,
        }
    }

    /// The chunk that the pending deal names.
    pub fn named(&self) -> Option<Digest>
        ensures { option_to_list result ≡ pending_name deal_name self.now.row.pending }
    {
        let _held = self.held;
        self.deals.named()
    }

    /// The chunk that a pending Fresh or Swap places.
    pub fn placed(&self) -> Option<Digest>
        ensures { result ≡ placed_name self.now.row.pending }
    {
        match &self.pending()?.what {
            DealWhat::Fresh { name } | DealWhat::Swap { name, .. } => Some(*name),
            _ => None,
        }
    }

    /// The chunk of a pending Fresh.
    pub fn coming(&self) -> Option<Digest>
        ensures { result ≡ coming_name self.now.row.pending }
    {
        match &self.pending()?.what {
            DealWhat::Fresh { name } => Some(*name),
            _ => None,
        }
    }

    /// The claims that the deal draws: as many as the chunk that is put back has units.
    pub fn drawn(&self, what: &DealWhat) -> u32
        ensures { result ≡ drawn self.now.row what.now }
    {
        match what {
            DealWhat::PutBack { name, .. } => self.units_out(&Object::Chunk(*name)),
            _ => 0,
        }
    }

    /// Whether the pending deal ties the object in what the node has on the peer: a Swap ties its
    /// slots, a Cancel and a PutBack their chunk.
    pub fn ties_out(&self, object: &Object) -> bool
        ensures { result ≡ ties_out self.now.row.pending object.now }
    {
        let _held = self.held;
        self.deals.ties_out(object)
    }

    /// Whether the pending deal ties the object in what the node answers for to `holder`: a Cancel
    /// ties the slots that it gives for its chunk.
    pub fn ties_in(&self, holder: PeerId, object: &Object) -> bool
        ensures { result ≡ ties_in self.now.id self.now.row.pending holder object.now }
    {
        let _held = self.held;
        self.deals.ties_in(self.id, holder, object)
    }

    /// The number of the first change by which the peer turned an own deal that names the chunk down
    /// for good, None exactly where none did.
    pub fn barred(&self, name: &Digest) -> Option<u64>
        ensures { result ≡ barring self.now.row name.now }
    {
        let _held = self.held;
        self.deals.barred(name)
    }

    /// Whether the peer turned the name down for good.
    pub fn is_barred(&self, name: &Digest) -> bool
        ensures { result ≡ is_barred self.now.row name.now }
    {
        self.barred(name).is_some()
    }

    /// Whether the peer turned down a Cancel of the chunk before.
    pub fn is_cancel_turned(&self, name: &Digest) -> bool
        ensures { result ≡ name_listed self.now.row.turned_cancels name.now }
    {
        let _held = self.held;
        self.deals.is_cancel_turned(name)
    }
}
