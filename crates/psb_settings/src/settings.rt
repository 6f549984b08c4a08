ghost use Rattle.std.specs.Prelude.{◌≡◌, IfOk};

use psb_bytes::{Digest, Items, Memory, PeerId, Text};
use std::alloc::Global;

/// A peer of the settings: its address is `host:port`, its key that of the pair, its hops 0 to 255.
#[derive(Drop)]
pub struct PeerRow {
    pub id: PeerId,
    pub address: Text,
    pub key: Digest,
    pub hops: u32,
}

/// Peers in the order of the settings.
pub type PeerList = Items<PeerRow>;

/// What a settings text says. The capacity is in units of 512 bytes.
#[derive(Drop)]
pub struct Settings {
    pub id: PeerId,
    pub address: Text,
    pub seed: Digest,
    pub capacity: u32,
    pub buddies: u32,
    pub forward: bool,
    pub peers: PeerList,
}

impl PeerRow {
    pub fn copy(&self, alloc: Global) -> Result<PeerRow, Memory>
        ensures { IfOk result (λ row. row ≡ self.now) }
    {
        Ok(PeerRow {
            id: self.id,
            address: Text::copy(alloc, self.address.as_str())?,
            key: self.key,
            hops: self.hops,
        })
    }
}

impl Settings {
    pub fn copy(&self, alloc: Global) -> Result<Settings, Memory>
        ensures { IfOk result (λ s. s ≡ self.now) }
    {
        Ok(Settings {
            id: self.id,
            address: Text::copy(alloc, self.address.as_str())?,
            seed: self.seed,
            capacity: self.capacity,
            buddies: self.buddies,
            forward: self.forward,
            peers: PeerList::from_vec(copy_rows(alloc, self.peers.as_slice())?),
        })
    }
}

fn copy_rows(alloc: Global, rows: &[PeerRow]) -> Result<Vec<PeerRow>, Memory>
    ensures { IfOk result (λ copies. copies.items ≡ rows.now) }
{
    let mut copies = Vec::new(alloc);
    for row in rows {
        copies.push(row.copy(alloc)?)?;
    }
    Ok(copies)
}
