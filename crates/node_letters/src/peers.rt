//! The node itself and its peers.

ghost use Rattle.std.specs.Prelude.{◌≡◌, ◌<◌, true, length, map, Some, slice_get, IfOk};
ghost use Rattle.psb_settings.specs.Settings.{have_distinct_ids};
ghost use Rattle.psb_machine.specs.Letters.{key_of_row};
ghost use Rattle.psb_machine.specs.Sampling.{is_last};
ghost use Rattle.node_letters.specs.Messages.{Reads};
ghost use Rattle.node_letters.specs.Peers.{peers_of};

use crate::message::{Reading, read};
use psb_bytes::{Digest, Memory, PeerId};
use psb_settings::{PeerList, PeerRow, Settings};
use std::alloc::Global;
use std::marker::Model;
use wire_codec::{KeyError, Keys};

/// The node's own row, the rows of its peers in the order of the settings, and the keys of the pairs.
#[derive(Drop)]
pub struct Peers {
    own: PeerRow,
    rows: PeerList,
    keys: Keys,
}

impl Model for Peers {
    ghost use Rattle.node_letters.specs.Peers.{PeersView};

    ghost Value = { PeersView };

    ghost view = { λ p. record { own = p.own; rows = p.rows; keys = p.keys } };
}

/// The table of the peers' keys.
fn keys_of(alloc: Global, peers: &[PeerRow]) -> Result<Keys, Memory>
    requires { have_distinct_ids peers.now ≡ true }
    ensures keys { IfOk result (λ k. k ≡ map key_of_row peers.now) }
{
    let mut keys = Keys::new(alloc);
    for peer in peers {
        match keys.put(peer.id, peer.key) {
            Ok(()) => {}
            Err(KeyError::Memory) => return Err(Memory),
            Err(KeyError::Twice) => unreachable!(),
        }
    }
    Ok(keys)
}

impl Peers {
    /// The node and the peers that settings name.
    pub fn of(alloc: Global, settings: &Settings) -> Result<Peers, Memory>
        requires { have_distinct_ids settings.now.peers ≡ true }
        ensures peers { IfOk result (λ p. p ≡ peers_of settings.now) }
    {
        let keys = keys_of(alloc, settings.peers.as_slice())?;
        let Settings {
            id,
            address,
            peers,
            ..
        } = settings.copy(alloc)?;
        let own = PeerRow {
            id,
            address,
            key: Digest([0; 32]),
            hops: 0,
        };
        Ok(Peers {
            own,
            rows: peers,
            keys,
        })
    }

    /// Reads a datagram that came to the node.
    pub fn read<'a>(&self, datagram: &'a [u8]) -> Reading<'a>
        ensures { Reads result self.now.own.id self.now.keys datagram.now }
    {
        read(datagram, self.own.id, &self.keys)
    }

    /// The node itself. Its key is zeros and its hops are 0, since it shares none with itself.
    pub fn own(&self) -> &PeerRow
        ensures { result.now ≡ self.now.own }
    {
        &self.own
    }

    /// How many peers there are, one at least.
    pub fn count(&self) -> usize
        ensures { result ≡ length self.now.rows }
    {
        self.rows.as_slice().len()
    }

    /// A peer, by its place in the settings.
    pub fn at(&self, j: usize) -> &PeerRow
        requires { j < length self.now.rows }
        ensures { slice_get self.now.rows j ≡ Some result.now }
    {
        &self.rows.as_slice()[j]
    }

    /// Whether a peer is the last one of the settings.
    pub fn is_last(&self, peer: PeerId) -> bool
        ensures { result ≡ is_last self.now.rows peer }
    {
        match self.rows.as_slice().last() {
            None => false,
            Some(row) => row.id == peer,
        }
    }

    /// The peers, in the order of the settings.
    pub fn rows(&self) -> &[PeerRow]
        ensures { result.now ≡ self.now.rows }
    {
        self.rows.as_slice()
    }

    /// The keys that the node shares with its peers.
    pub fn keys(&self) -> &Keys
        ensures { result.now ≡ self.now.keys }
    {
        &self.keys
    }
}
