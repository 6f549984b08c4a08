//! The names with their records and their owners.

ghost use Rattle.std.specs.Prelude.{◌≡◌, ◌↔◌, ◌⊎◌, ◌&&◌, ◌||◌, ℕ, List, Some, None, true, false, not, IsSome, IfOk, OnOk, OnErr, IsErrOf, if◌then◌else◌};
ghost use Rattle.psb_bytes.specs.Objects.{name_eq};
ghost use Rattle.chunk_store.specs.declared.owner.Owner.{Owner};
ghost use Rattle.chunk_store.specs.Owners.{owner_eq};
ghost use Rattle.chunk_store.specs.Records.{or_else};

use crate::latest::{Addition, added_record, is_added, left_of};
use crate::table::Table;
use crate::{NotThere, Owner};
use psb_bytes::{Digest, Memory};
use std::alloc::Global;

/// Each name that is held has one record and at least one owner. The bodies stay in the log, which
/// the calls that read are lent.
#[derive(Drop)]
pub struct Store {
    table: Table,
    // What was added since room was made. Its record is of no account where the table has the name.
    latest: Option<Addition>,
}

impl Store {
    ghost use Rattle.chunk_store.specs.Store.{record_of, is_owner, has_room};

    /// A store of no names. Takes no memory.
    pub fn new(alloc: Global) -> Store
        ensures records { (q : List ℕ) → record_of result q ≡ None }
        ensures owners { (o : Owner) (q : List ℕ) → is_owner result o q ≡ false }
    {
        Store {
            table: Table::new(alloc),
            latest: None,
        }
    }

    /// Makes room for one `add`.
    pub fn make_room(&mut self) -> Result<(), Memory>
        ensures room { OnOk result (has_room self.new ≡ true) }
        ensures earlier { has_room self.old ≡ true → has_room self.new ≡ true }
        ensures records { (q : List ℕ) → record_of self.new q ≡ record_of self.old q }
        ensures owners { (o : Owner) (q : List ℕ) → is_owner self.new o q ≡ is_owner self.old o q }
    {
        if let Some(latest) = self.latest {
            self.table
                .put(latest.owner, &latest.name, latest.record_no)?;
            self.latest = None;
        }
        Ok(())
    }

    /// Adds an owner of a name, whose body stands in this record. A name that is there keeps its
    /// record. Takes no memory.
    pub fn add(&mut self, owner: Owner, name: &Digest, record_no: u64)
        requires room { has_room self.old ≡ true }
        requires absent { is_owner self.old owner name.now ≡ false }
        ensures records { (q : List ℕ) → record_of self.new q ≡ or_else (record_of self.old q) (if name_eq name.now q then Some record_no else None) }
        ensures owners { (o : Owner) (q : List ℕ) → is_owner self.new o q ≡ (is_owner self.old o q || (name_eq name.now q && owner_eq owner o)) }
    {
        self.latest = Some(Addition {
            owner,
            name: *name,
            record_no,
        });
    }

    /// Takes one owner of a name out, and answers whether it was the last: then the name is gone.
    pub fn remove(&mut self, owner: Owner, name: &Digest) -> Result<bool, NotThere>
        ensures owners { OnOk result ((o : Owner) (q : List ℕ) → is_owner self.new o q ≡ (is_owner self.old o q && not (name_eq name.now q && owner_eq owner o))) }
        ensures last { IfOk result (λ last. (last ≡ true) ↔ ((o : Owner) → is_owner self.new o name.now ≡ false)) }
        ensures records { IfOk result (λ last. (q : List ℕ) → record_of self.new q ≡ (if name_eq name.now q && last then None else record_of self.old q)) }
        ensures not_there { IsErrOf result (record {}) ↔ (is_owner self.old owner name.now ≡ false) }
        ensures same { OnErr result (self.new ≡ self.old) }
        ensures room { has_room self.old ≡ true → has_room self.new ≡ true }
    {
        let Some(record_no) = self.record_of(name) else {
            return Err(NotThere);
        };
        if !self.is_listed(&owner, name) {
            return Err(NotThere);
        }
        self.table.take_out(&owner, name);
        self.latest = left_of(&self.latest, &owner, name, record_no);
        Ok(self.record_of(name).is_none())
    }

    /// Whether the owner is listed for the name. Takes no memory.
    pub fn holds(&self, owner: Owner, name: &Digest) -> bool
        ensures { result ≡ is_owner self.now owner name.now }
    {
        self.is_listed(&owner, name)
    }

    fn is_listed(&self, owner: &Owner, name: &Digest) -> bool
        ensures { result ≡ is_owner self.now owner.now name.now }
    {
        self.table.has(owner, name) || is_added(&self.latest, owner, name)
    }

    /// The record with the body of a name that has an owner. Takes no memory.
    pub fn record_of(&self, name: &Digest) -> Option<u64>
        ensures value { result ≡ record_of self.now name.now }
        ensures owned { IsSome result ↔ ((o : Owner) × (is_owner self.now o name.now ≡ true)) }
    {
        match self.table.record_of(name) {
            Some(record_no) => Some(record_no),
            None => added_record(&self.latest, name),
        }
    }
}
