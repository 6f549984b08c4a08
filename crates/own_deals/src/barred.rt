//! The names of own deals that a peer turned down.

ghost use Rattle.std.specs.Prelude.{◌≡◌, ◌≤◌, ◌++◌, ◌∷◌, [], OnOk};
ghost use Rattle.own_deals.specs.OwnDeals.{number_of, latest_number};

use psb_bytes::{Digest, Memory};
use std::alloc::Global;
use std::collections::BTreeMap;
use std::marker::Model;

/// A name that was turned down, and the number of the change that says so.
#[derive(Clone, Copy)]
pub struct Barring {
    name: Digest,
    change: u64,
}

/// The names in order of their replies, each with the number of its change, and each name's first
/// number in a tree. A tree takes memory where it grows, so the latest name goes in when room is made
/// for the next.
#[derive(Drop)]
pub struct Barred {
    list: Vec<(Digest, u64)>,
    numbers: BTreeMap<Digest, u64>,
    latest: Option<Barring>,
}

impl Model for Barred {
    ghost use Rattle.std.specs.Prelude.{◌-◌, vec_len, vec_capacity};
    ghost use Rattle.own_deals.specs.OwnDeals.{BarredView, barred_room, KnowsNumbers};

    ghost Value = { BarredView };

    ghost view = { λ b. record { items = b.list.items; room = barred_room b.latest (vec_capacity b.list - vec_len b.list) } };

    ghost invariant = { λ b. KnowsNumbers b.list.items b.numbers.entries b.latest };
}

impl Barred {
    /// Takes no memory.
    pub fn new(alloc: Global) -> Barred
        ensures { result.items ≡ [] }
    {
        Barred {
            list: Vec::new(alloc),
            numbers: BTreeMap::new(alloc),
            latest: None,
        }
    }

    /// The number of the first change that turned the name down.
    pub fn number_of(&self, name: &Digest) -> Option<u64>
        ensures { result ≡ number_of self.now.items name.now }
    {
        let _count = self.list.len();
        match self.numbers.get(name) {
            Some(number) => Some(*number),
            None => latest_number(&self.latest, name),
        }
    }

    /// Makes room for one name: the latest goes into the tree, unless its name is there.
    pub fn reserve(&mut self) -> Result<(), Memory>
        ensures items { self.new.items ≡ self.old.items }
        ensures room { OnOk result (1 ≤ self.new.room) }
    {
        self.list.try_reserve(1)?;
        let Some(latest) = self.latest else {
            return Ok(());
        };
        if self.numbers.contains_key(&latest.name) {
            self.latest = None;
            return Ok(());
        }
        self.numbers.insert(latest.name, latest.change)?;
        self.latest = None;
        Ok(())
    }

    pub fn push(&mut self, name: Digest, change: u64)
        requires { 1 ≤ self.old.room }
        ensures { self.new.items ≡ self.old.items ++ (name, change) ∷ [] }
    {
        self.list.push((name, change)).unwrap();
        self.latest = Some(Barring { name, change });
    }
}

/// The number of the latest, where it has this name.
fn latest_number(latest: &Option<Barring>, name: &Digest) -> Option<u64>
    ensures { result ≡ latest_number latest.now name.now }
{
    match latest {
        Some(b) if b.name == *name => Some(b.change),
        _ => None,
    }
}
