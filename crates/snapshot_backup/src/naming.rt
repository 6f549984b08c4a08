//! The names of the pieces of a snapshot.
ghost use Rattle.std.specs.Prelude.{◌≡◌, ◌+◌, ◌≤◌, ◌||◌, ℕ, List, true, false, length, IfOk, OnOk};
ghost use Rattle.psb_model.specs.Words.{name_eq, name_listed};
ghost use Rattle.psb_model.specs.Conditions.{names_ascend};

use psb_bytes::{Digest, DigestList, Items, Memory, Ref};
use std::alloc::Global;
use std::collections::BTreeSet;

/// Names, each once.
#[derive(Drop)]
pub struct Names {
    names: BTreeSet<[u8; 32]>,
}

impl Names {
    ghost use Rattle.snapshot_backup.specs.Naming.{has_name, count_of, names_in};

    /// No name. Takes no memory.
    pub(crate) fn new(alloc: Global) -> Names
        ensures none { (q : List ℕ) → has_name result q ≡ false }
        ensures count { count_of result ≡ 0 }
    {
        Names {
            names: BTreeSet::new(alloc),
        }
    }

    /// Adds a name.
    fn add_one(&mut self, name: &Digest) -> Result<(), Memory>
        ensures added { OnOk result ((q : List ℕ) → has_name self.new q ≡ (has_name self.old q || name_eq name.now q)) }
        ensures count { OnOk result (count_of self.new ≤ count_of self.old + 1) }
    {
        self.names.insert(name.0)?;
        Ok(())
    }

    /// Adds the names of pieces.
    pub(crate) fn add(&mut self, refs: &[Ref]) -> Result<(), Memory>
        ensures added { OnOk result ((q : List ℕ) → has_name self.new q ≡ (has_name self.old q || name_listed (names_in refs.now) q)) }
        ensures count { OnOk result (count_of self.new ≤ count_of self.old + length refs.now) }
    {
        for r in refs {
            self.add_one(&r.name)?;
        }
        Ok(())
    }

    /// The names, ascending by their bytes.
    pub(crate) fn list(&self, alloc: Global) -> Result<DigestList, Memory>
        ensures ascend { IfOk result (λ names. names_ascend names ≡ true) }
        ensures same { IfOk result (λ names. (q : List ℕ) → name_listed names q ≡ has_name self.now q) }
        ensures count { IfOk result (λ names. length names ≡ count_of self.now) }
    {
        let mut names = Vec::with_capacity(alloc, self.names.len())?;
        for name in self.names.iter() {
            names.push(Digest(*name))?;
        }
        Ok(Items::from_vec(names))
    }
}
