//! The accounts of all peers, one for each peer of the settings: an account found by its peer, and what they say
//! together.

ghost use Rattle.std.specs.Prelude.{◌≡◌, ◌==◌, true, map, IfOk, Some, find, position};
ghost use Rattle.std.specs.List.{list_all, list_any};
ghost use Rattle.std.specs.Option.{option_copied};
ghost use Rattle.psb_bytes.specs.declared.ids.Object.TheVariants.{Chunk};
ghost use Rattle.psb_model.specs.Words.{has};
ghost use Rattle.psb_model.specs.State.{has_row, in_key, ties_in};
ghost use Rattle.psb_model.specs.Effects.{blank_rows, first_rows};
ghost use Rattle.peer_account.specs.View.{named_row};

use peer_account::Account;
use psb_bytes::{Digest, Memory, Object, PeerId};
use psb_model::Candidate;
use psb_settings::{PeerRow, Settings};
use std::alloc::Global;

/// The account of a peer.
pub fn account_of(accounts: &[Account], peer: PeerId) -> Option<&Account>
    ensures { option_copied result ≡ find (λ v. v.id == peer) accounts.now }
{
    accounts.iter().find(|a| a.id() == peer)
}

/// The place of a peer's account, None for a stranger.
pub fn place_of(accounts: &[Account], peer: PeerId) -> Option<usize>
    ensures { result ≡ position (λ v. v.id == peer) accounts.now }
{
    accounts.iter().position(|a| a.id() == peer)
}

/// The place of the account of one of the peers.
pub fn place_in(accounts: &[Account], peer: PeerId) -> usize
    requires { has_row (map named_row accounts.now) peer ≡ true }
    ensures { Some result ≡ position (λ v. v.id == peer) accounts.now }
{
    place_of(accounts, peer).unwrap()
}

/// Whether the peer has an account.
pub fn is_peer(accounts: &[Account], peer: PeerId) -> bool
    ensures { result ≡ has_row (map named_row accounts.now) peer }
{
    has_account(accounts, peer)
}

fn has_account(accounts: &[Account], peer: PeerId) -> bool
    ensures { result ≡ list_any (λ v. v.id == peer) accounts.now }
{
    accounts.iter().any(|a| a.id() == peer)
}

/// Whether each candidate is a peer that has an account.
pub fn are_peers(accounts: &[Account], candidates: &[Candidate]) -> bool
    ensures { result ≡ list_all (λ x. has_row (map named_row accounts.now) x.peer) candidates.now }
{
    candidates.iter().all(|x| is_peer(accounts, x.peer))
}

/// Whether the node answers for the chunk to some peer.
pub fn holds(accounts: &[Account], name: &Digest) -> bool
    ensures { result ≡ list_any (λ v. has in_key v.row.ins (Chunk name.now)) accounts.now }
{
    let chunk = Object::Chunk(*name);
    accounts.iter().any(|a| a.has(&chunk))
}

/// Whether a pending deal ties the object in what the node answers for to the peer.
pub fn ties_in(accounts: &[Account], peer: PeerId, object: &Object) -> bool
    ensures { result ≡ list_any (λ v. ties_in v.id v.row.pending peer object.now) accounts.now }
{
    accounts.iter().any(|a| a.ties_in(peer, object))
}

/// An empty account for each peer of the settings.
pub fn first_accounts(alloc: Global, settings: &Option<Settings>) -> Result<Vec<Account>, Memory>
    ensures { IfOk result (λ v. map named_row v.items ≡ first_rows settings.now) }
{
    match settings {
        None => Ok(Vec::new(alloc)),
        Some(x) => empty_accounts(alloc, x.peers.as_slice()),
    }
}

fn empty_accounts(alloc: Global, peers: &[PeerRow]) -> Result<Vec<Account>, Memory>
    ensures { IfOk result (λ v. map named_row v.items ≡ blank_rows peers.now) }
{
    let mut accounts = Vec::new(alloc);
    for peer in peers {
        accounts.push(Account::new(alloc, peer.id))?;
    }
    Ok(accounts)
}
