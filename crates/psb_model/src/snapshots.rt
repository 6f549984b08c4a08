//! Kept snapshots, and the names that they list.

ghost use Rattle.std.specs.Prelude.{◌≡◌, true};
ghost use Rattle.std.specs.List.{list_all};
ghost use Rattle.psb_model.specs.Words.{name_listed};
ghost use Rattle.psb_model.specs.Conditions.{names_ascend};
ghost use Rattle.psb_model.specs.Effects.{kept_lists};

use psb_bytes::{Digest, DigestList, Ticket};

/// A kept snapshot.
#[derive(Drop)]
pub struct Snapshot {
    pub number: u32,
    pub ticket: Ticket,
    pub files: u32,
    pub folders: u32,
    pub bytes: u64,
    pub left: u32,
    pub names: DigestList,
}

/// Whether names that ascend have this one, by one search.
pub fn has_name(names: &[Digest], name: &Digest) -> bool
    requires { names_ascend names.now ≡ true }
    ensures { result ≡ name_listed names.now name.now }
{
    names.binary_search(name).is_ok()
}

impl Snapshot {
    /// Whether the snapshot lists the name, by one search.
    pub fn lists(&self, name: &Digest) -> bool
        requires { names_ascend self.now.names ≡ true }
        ensures { result ≡ name_listed self.now.names name.now }
    {
        has_name(self.names.as_slice(), name)
    }
}

/// Whether a kept snapshot lists the name: one search in each, the newest first.
pub fn is_listed(kept: &[Snapshot], name: &Digest) -> bool
    requires { list_all (λ k. names_ascend k.names) kept.now ≡ true }
    ensures { result ≡ kept_lists kept.now name.now }
{
    for i in (0..kept.len()).rev() {
        if kept[i].lists(name) {
            return true;
        }
    }
    false
}
