//! The reader of a settings text.
ghost use Rattle.std.specs.Prelude.{◌≡◌, Some, None, IfOk, codes};
ghost use Rattle.toml.specs.View.{view, table_view, items_view};
ghost use Rattle.psb_settings.specs.Settings.{required, address_in, has_only_keys, settings_keys, has_id, have_distinct_ids, are_apart, peer_in, peer_of, peers_in, peers_of, settings_in, settings_of, IsSettings};

#[cfg(test)]
mod tests;

use crate::fields::{address_at, digest_at, flag_or, has_only_keys, member, number_at, number_or};
use crate::{PeerList, PeerRow, Settings, SettingsError};
use psb_bytes::{PeerId, Text};
use std::alloc::Global;
use toml::{Table, Value};

const MAX_TEXT_LEN: usize = 65_536;

const SETTINGS_KEYS: [&str; 7] = [
    "id", "address", "seed", "capacity", "buddies", "forward", "peer",
];

const PEER_KEYS: [&str; 4] = ["id", "address", "key", "hops"];

const MAX_CAPACITY: u32 = 2_147_483_648;

/// The most peers that a node has, and the most buddies.
pub const MOST_PEERS: u32 = 64;

/// The settings that a text says.
///
/// The text is TOML, in UTF-8, of at most 65,536 bytes, with these keys and no others:
///
/// - `id`: 1 to 4,294,967,295;
/// - `address`: 1 to 253 bytes, each 0x21 to 0x7e;
/// - `seed`: 64 hexadecimal digits;
/// - `capacity`: 0 to 2,147,483,648 units of 512 bytes;
/// - `buddies`: 1 to `MOST_PEERS`, by default 2;
/// - `forward`: a truth value, by default true;
/// - `peer`: an array of 1 to `MOST_PEERS` tables, each with `id` and `address` as above, `key`, 64
///   hexadecimal digits, and `hops`, 0 to 255, by default 0, and no other key.
///
/// No two ids are the same, the node's own included.
pub fn read_settings(alloc: Global, text: &[u8]) -> Result<Settings, SettingsError>
    ensures ok { IfOk result (λ s. settings_of text.now ≡ Some s) }
    ensures bad { result ≡ Err SettingsError.Bad → settings_of text.now ≡ None }
    ensures ranges { IfOk result IsSettings }
{
    if text.len() > MAX_TEXT_LEN {
        return Err(SettingsError::Bad);
    }
    match toml::table_from_slice(alloc, text) {
        Ok(table) => read_table(alloc, &table),
        Err(error) if error.is_memory() => Err(SettingsError::Memory),
        Err(_) => Err(SettingsError::Bad),
    }
}

fn read_table(alloc: Global, table: &Table) -> Result<Settings, SettingsError>
    ensures ok { IfOk result (λ s. settings_in (table_view table.now) ≡ Some s) }
    ensures bad { result ≡ Err SettingsError.Bad → settings_in (table_view table.now) ≡ None }
{
    if !has_only_keys(table, &SETTINGS_KEYS) {
        return Err(SettingsError::Bad);
    }
    let id = number_at(table, "id", 1, u32::MAX).ok_or(SettingsError::Bad)?;
    let address = read_address(alloc, table)?;
    let seed = digest_at(table, "seed").ok_or(SettingsError::Bad)?;
    let capacity = number_at(table, "capacity", 0, MAX_CAPACITY).ok_or(SettingsError::Bad)?;
    let buddies = number_or(table, "buddies", 1, MOST_PEERS, 2).ok_or(SettingsError::Bad)?;
    let forward = flag_or(table, "forward", true).ok_or(SettingsError::Bad)?;
    let peers = read_peers(alloc, table)?;
    if !are_apart(id, peers.as_slice()) {
        return Err(SettingsError::Bad);
    }
    Ok(Settings {
        id: PeerId(id),
        address,
        seed,
        capacity,
        buddies,
        forward,
        peers,
    })
}

fn read_address(alloc: Global, table: &Table) -> Result<Text, SettingsError>
    ensures ok { IfOk result (λ address. address_in (table_view table.now) ≡ Some address) }
    ensures bad { result ≡ Err SettingsError.Bad → address_in (table_view table.now) ≡ None }
{
    let address = address_at(table, "address").ok_or(SettingsError::Bad)?;
    Ok(Text::copy(alloc, address)?)
}

fn read_peers(alloc: Global, table: &Table) -> Result<PeerList, SettingsError>
    ensures ok { IfOk result (λ peers. required (codes "peer") peers_of (table_view table.now) ≡ Some peers) }
    ensures bad { result ≡ Err SettingsError.Bad → required (codes "peer") peers_of (table_view table.now) ≡ None }
{
    match member(table, "peer") {
        Some(value) => read_array(alloc, value),
        None => Err(SettingsError::Bad),
    }
}

fn read_array(alloc: Global, value: &Value) -> Result<PeerList, SettingsError>
    ensures ok { IfOk result (λ peers. peers_of (view value.now) ≡ Some peers) }
    ensures bad { result ≡ Err SettingsError.Bad → peers_of (view value.now) ≡ None }
{
    let Some(array) = value.as_array() else {
        return Err(SettingsError::Bad);
    };
    let peers = read_rows(alloc, array)?;
    if peers.is_empty() || peers.len() > MOST_PEERS as usize {
        return Err(SettingsError::Bad);
    }
    Ok(PeerList::from_vec(peers))
}

fn read_rows(alloc: Global, array: &[Value]) -> Result<Vec<PeerRow>, SettingsError>
    ensures ok { IfOk result (λ rows. peers_in (items_view array.now) ≡ Some rows.items) }
    ensures bad { result ≡ Err SettingsError.Bad → peers_in (items_view array.now) ≡ None }
{
    let mut rows = Vec::new(alloc);
    for value in array.iter() {
        let row = read_row(alloc, value)?;
        rows.push(row)?;
    }
    Ok(rows)
}

fn read_row(alloc: Global, value: &Value) -> Result<PeerRow, SettingsError>
    ensures ok { IfOk result (λ peer. peer_of (view value.now) ≡ Some peer) }
    ensures bad { result ≡ Err SettingsError.Bad → peer_of (view value.now) ≡ None }
{
    match value.as_table() {
        Some(table) => read_peer(alloc, table),
        None => Err(SettingsError::Bad),
    }
}

fn read_peer(alloc: Global, table: &Table) -> Result<PeerRow, SettingsError>
    ensures ok { IfOk result (λ peer. peer_in (table_view table.now) ≡ Some peer) }
    ensures bad { result ≡ Err SettingsError.Bad → peer_in (table_view table.now) ≡ None }
{
    if !has_only_keys(table, &PEER_KEYS) {
        return Err(SettingsError::Bad);
    }
    let id = number_at(table, "id", 1, u32::MAX).ok_or(SettingsError::Bad)?;
    let address = read_address(alloc, table)?;
    let key = digest_at(table, "key").ok_or(SettingsError::Bad)?;
    let hops = number_or(table, "hops", 0, 255, 0).ok_or(SettingsError::Bad)?;
    Ok(PeerRow {
        id: PeerId(id),
        address,
        key,
        hops,
    })
}

/// Whether the node's own id and those of its peers are all different.
fn are_apart(id: u32, peers: &[PeerRow]) -> bool
    ensures { result ≡ are_apart id peers.now }
{
    !has_id(peers, id) && have_distinct_ids(peers)
}

/// Whether one of the peers has this id.
fn has_id(peers: &[PeerRow], id: u32) -> bool
    ensures { result ≡ has_id id peers.now }
{
    peers.iter().any(|peer| peer.id.0 == id)
}

/// Whether no two of the peers have the same id.
fn have_distinct_ids(peers: &[PeerRow]) -> bool
    ensures { result ≡ have_distinct_ids peers.now }
{
    for (i, peer) in peers.iter().enumerate() {
        if has_id(&peers[i + 1..], peer.id.0) {
            return false;
        }
    }
    true
}
