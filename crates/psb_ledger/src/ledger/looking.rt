//! What a ledger says of its state.

ghost use Rattle.std.specs.Prelude.{◌≡◌, ◌==◌, ◌+◌, ◌&&◌, nat_lt, not, true, Some, position};
ghost use Rattle.std.specs.List.{list_any};
ghost use Rattle.std.specs.Option.{option_copied, option_map};
ghost use Rattle.psb_model.specs.State.{row, is_peer, used, own_has, own_marked, is_held, is_wanted, held_units, back_units, debt_units, tied_in};
ghost use Rattle.psb_model.specs.Conditions.{each_slot};
ghost use Rattle.peer_lists.specs.Entries.{in_order};
ghost use Rattle.own_chunks.specs.OwnList.{own_key, known_len, next_own};

use super::{Balance, Ledger};
use accounts::{account_of, holds, is_peer, place_in, ties_in};
use own_chunks::has_number;
use peer_account::Account;
use psb_bytes::{Digest, Object, PeerId};
use psb_model::{OwnEntry, SnapMark, Snapshot, is_listed};
use psb_settings::Settings;
use std::alloc::Global;

impl Ledger {
    /// The allocator that the ledger takes its memory from.
    pub fn alloc(&self) -> Global {
        self.alloc
    }

    /// How many changes were applied.
    pub fn changes(&self) -> u64
        ensures { result ≡ self.now.state.changes }
    {
        self.changes
    }

    /// The present settings, None exactly for the empty history.
    pub fn settings(&self) -> Option<&Settings>
        ensures { option_copied result ≡ self.now.state.settings }
    {
        self.settings.as_ref()
    }

    /// How many claim numbers were drawn.
    pub fn issued(&self) -> u32
        ensures { result ≡ self.now.state.issued }
    {
        self.issued
    }

    /// What the node answers for to all peers and will answer for by pending Fresh deals, in units of
    /// 512 bytes.
    pub fn used(&self) -> u32
        ensures { result ≡ used self.now.state }
    {
        self.used
    }

    /// Whether the id is that of a peer of the settings.
    pub fn is_peer(&self, peer: PeerId) -> bool
        ensures { result ≡ is_peer self.now.state peer }
    {
        let _changes = self.changes;
        is_peer(self.accounts.as_slice(), peer)
    }

    /// The place of the account of one of the peers.
    pub(super) fn place_in(&self, peer: PeerId) -> usize
        requires { is_peer self.now.state peer ≡ true }
        ensures { Some result ≡ position (λ v. v.id == peer) self.now.accounts }
    {
        let _changes = self.changes;
        place_in(self.accounts.as_slice(), peer)
    }

    /// What is kept of the peer; a blank account for an id that is no peer.
    pub fn row(&self, peer: PeerId) -> &Account
        ensures { result.now.row ≡ row self.now.state peer }
    {
        match account_of(self.accounts.as_slice(), peer) {
            None => &self.stranger,
            Some(account) => account,
        }
    }

    /// The three numbers of a peer.
    pub fn balance(&self, peer: PeerId) -> Balance
        ensures held { result.held ≡ held_units (row self.now.state peer) }
        ensures back { result.back ≡ back_units (row self.now.state peer) }
        ensures debt { result.debt ≡ debt_units (row self.now.state peer) }
        ensures law { result.held ≡ result.back + result.debt }
    {
        let _changes = self.changes;
        let row = self.row(peer);
        Balance {
            held: row.held(),
            back: row.back(),
            debt: row.debt(),
        }
    }

    /// Whether a change of the peer may come: one was made before, and the id is that of a peer.
    pub(super) fn is_open(&self, peer: PeerId) -> bool
        ensures { result ≡ (nat_lt 0 self.now.state.changes && is_peer self.now.state peer) }
    {
        self.changes != 0 && self.is_peer(peer)
    }

    /// Whether a pending deal of the node ties the object in what it answers for to the peer: a
    /// Cancel with the peer ties the slots that it gives for its chunk.
    pub fn tied_in(&self, peer: PeerId, object: &Object) -> bool
        ensures { result ≡ tied_in self.now.state peer object.now }
    {
        let _changes = self.changes;
        ties_in(self.accounts.as_slice(), peer, object)
    }

    /// Whether none of these slots is tied there.
    pub(super) fn unties_in(&self, peer: PeerId, slots: &[u32]) -> bool
        ensures { result ≡ each_slot (λ o. not (tied_in self.now.state peer o)) slots.now }
    {
        slots.iter().all(|n| !self.tied_in(peer, &Object::Slot(*n)))
    }

    /// The buddies of the last choice, in its order; none before the first.
    pub fn chosen(&self) -> &[PeerId]
        ensures { result.now ≡ self.now.state.chosen }
    {
        self.chosen.as_slice()
    }

    /// Whether a body is held under the name.
    pub fn is_held(&self, name: &Digest) -> bool
        ensures { result ≡ is_held self.now.state name.now }
    {
        self.own.has(name) || holds(self.accounts.as_slice(), name)
    }

    /// Whether a kept snapshot lists the name: one search in each list.
    pub fn is_wanted(&self, name: &Digest) -> bool
        ensures { result ≡ is_wanted self.now.state name.now }
    {
        is_listed(self.kept.as_slice(), name)
    }

    /// Whether the name is that of an own chunk.
    pub fn has_own(&self, name: &Digest) -> bool
        ensures { result ≡ own_has self.now.state.own name.now }
    {
        self.own.has(name)
    }

    /// Whether the name is that of an own chunk which no kept snapshot needs: it leaves as soon as
    /// no peer has it and no deal names it.
    pub fn is_marked(&self, name: &Digest) -> bool
        ensures { result ≡ own_marked self.now.state.own name.now }
    {
        self.own.is_marked(name)
    }

    /// The length of the own chunk of this name, in bytes, None exactly where there is none.
    pub fn own_len(&self, name: &Digest) -> Option<u32>
        ensures { result ≡ known_len self.now.state.own name.now }
    {
        self.own.len_of(name)
    }

    /// The first own chunk in the order of names, or the first behind the name.
    pub fn own_after(&self, name: Option<&Digest>) -> Option<OwnEntry>
        ensures chunk { result ≡ next_own (option_map (λ n. n.now) name.entry) self.now.state.own }
        ensures ordered { in_order own_key self.now.state.own ≡ true }
    {
        self.own.next_after(name)
    }

    /// The kept snapshots, by number.
    pub fn kept(&self) -> &[Snapshot]
        ensures { result.now ≡ self.now.state.kept }
    {
        self.kept.as_slice()
    }

    /// Whether a kept snapshot has the number.
    pub fn has_snapshot(&self, number: u32) -> bool
        ensures { result ≡ list_any (λ k. k.number == number) self.now.state.kept }
    {
        has_number(&self.kept, number)
    }

    /// The latest snapshot that was made, and its change.
    pub fn snapped(&self) -> Option<SnapMark>
        ensures { result ≡ self.now.state.snapped }
    {
        self.snapped
    }
}
