//! The owners of one body.

ghost use Rattle.std.specs.Prelude.{◌≡◌, ◌&&◌, ◌||◌, true, false, not, OnOk, OnErr};
ghost use Rattle.chunk_store.specs.declared.owner.Owner.{Owner};
ghost use Rattle.chunk_store.specs.Owners.{owner_eq};

use crate::Owner;
use psb_bytes::Memory;
use std::alloc::Global;

/// At least one owner. Most bodies have no other, and take no further memory.
#[derive(Drop)]
pub(crate) struct Owners {
    first: Owner,
    more: Vec<Owner>,
}

impl Owners {
    ghost use Rattle.chunk_store.specs.Owners.{has_owner};

    /// Takes no memory.
    pub(crate) fn one(alloc: Global, owner: Owner) -> Owners
        ensures { (o : Owner) → has_owner result o ≡ owner_eq owner o }
    {
        Owners {
            first: owner,
            more: Vec::new(alloc),
        }
    }

    pub(crate) fn has(&self, owner: &Owner) -> bool
        ensures { result ≡ has_owner self.now owner.now }
    {
        self.first == *owner || self.more.contains(owner)
    }

    pub(crate) fn push(&mut self, owner: Owner) -> Result<(), Memory>
        ensures pushed { OnOk result ((o : Owner) → has_owner self.new o ≡ (has_owner self.old o || owner_eq owner o)) }
        ensures same { OnErr result ((o : Owner) → has_owner self.new o ≡ has_owner self.old o) }
    {
        self.more.push(owner)?;
        Ok(())
    }

    /// Takes an owner out, and answers whether another is left. Where none is, the owners are not
    /// to be used again.
    pub(crate) fn take_out(&mut self, owner: &Owner) -> bool
        ensures left { result ≡ true → (o : Owner) → has_owner self.new o ≡ (has_owner self.old o && not (owner_eq owner.now o)) }
        ensures none { result ≡ false → (o : Owner) → (has_owner self.old o && not (owner_eq owner.now o)) ≡ false }
    {
        self.more.retain(|other| *other != *owner);
        if self.first != *owner {
            return true;
        }
        match self.more.pop() {
            Some(next) => {
                self.first = next;
                true
            }
            None => false,
        }
    }
}
