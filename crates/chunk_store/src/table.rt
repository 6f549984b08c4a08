//! Names, each with its record and its owners, in the order of their bytes.

ghost use Rattle.std.specs.Prelude.{◌≡◌, ◌⊎◌, ◌&&◌, ◌||◌, ℕ, List, Some, None, false, not, OnOk, OnErr, if◌then◌else◌};
ghost use Rattle.psb_bytes.specs.Objects.{name_eq};
ghost use Rattle.chunk_store.specs.declared.owner.Owner.{Owner};
ghost use Rattle.chunk_store.specs.Owners.{owner_eq};
ghost use Rattle.chunk_store.specs.Records.{or_else};

use crate::Owner;
use crate::owners::Owners;
use psb_bytes::{Digest, Memory};
use std::alloc::Global;
use std::collections::BTreeMap;

/// The record with a body, and whose it is.
#[derive(Drop)]
pub(crate) struct Held {
    record_no: u64,
    owners: Owners,
}

#[derive(Drop)]
pub(crate) struct Table {
    alloc: Global,
    names: BTreeMap<[u8; 32], Held>,
}

impl Table {
    ghost use Rattle.chunk_store.specs.Table.{recorded, listed};

    /// Takes no memory.
    pub(crate) fn new(alloc: Global) -> Table
        ensures none { (q : List ℕ) → recorded result q ≡ None }
        ensures nobody { (o : Owner) (q : List ℕ) → listed result o q ≡ false }
    {
        Table {
            alloc,
            names: BTreeMap::new(alloc),
        }
    }

    pub(crate) fn record_of(&self, name: &Digest) -> Option<u64>
        ensures { result ≡ recorded self.now name.now }
    {
        match self.names.get(&name.0) {
            Some(held) => Some(held.record_no),
            None => None,
        }
    }

    pub(crate) fn has(&self, owner: &Owner, name: &Digest) -> bool
        ensures { result ≡ listed self.now owner.now name.now }
    {
        match self.names.get(&name.0) {
            Some(held) => held.owners.has(owner),
            None => false,
        }
    }

    /// Adds an owner of a name. A name that is there keeps its record.
    pub(crate) fn put(&mut self, owner: Owner, name: &Digest, record_no: u64) -> Result<(), Memory>
        ensures owners { OnOk result ((o : Owner) (q : List ℕ) → listed self.new o q ≡ (listed self.old o q || (name_eq name.now q && owner_eq owner o))) }
        ensures records { OnOk result ((q : List ℕ) → recorded self.new q ≡ or_else (recorded self.old q) (if name_eq name.now q then Some record_no else None)) }
        ensures owners_stay { OnErr result ((o : Owner) (q : List ℕ) → listed self.new o q ≡ listed self.old o q) }
        ensures records_stay { OnErr result ((q : List ℕ) → recorded self.new q ≡ recorded self.old q) }
    {
        if let Some(held) = self.names.get_mut(&name.0) {
            held.owners.push(owner)?;
            return Ok(());
        }
        let owners = Owners::one(self.alloc, owner);
        self.names.insert(name.0, Held { record_no, owners })?;
        Ok(())
    }

    /// Takes an owner of a name out, where it is listed. A name whose last owner goes is gone.
    pub(crate) fn take_out(&mut self, owner: &Owner, name: &Digest)
        ensures owners { (o : Owner) (q : List ℕ) → listed self.new o q ≡ (listed self.old o q && not (name_eq name.now q && owner_eq owner.now o)) }
        ensures others { (q : List ℕ) → name_eq name.now q ≡ false → recorded self.new q ≡ recorded self.old q }
        ensures record { (recorded self.new name.now ≡ recorded self.old name.now) ⊎ (recorded self.new name.now ≡ None) }
    {
        let Some(held) = self.names.get_mut(&name.0) else {
            return;
        };
        if !held.owners.take_out(owner) {
            self.names.remove(&name.0);
        }
    }
}
