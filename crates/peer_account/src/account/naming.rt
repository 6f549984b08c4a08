//! Which chunks accounts name.

ghost use Rattle.std.specs.Prelude.{◌≡◌, map};
ghost use Rattle.std.specs.List.{list_any};
ghost use Rattle.psb_model.specs.Effects.{is_named};
ghost use Rattle.psb_model.specs.Proposing.{is_absent};
ghost use Rattle.peer_account.specs.OwnDeals.{row_names};
ghost use Rattle.peer_account.specs.View.{named_row};

use super::Account;
use psb_bytes::{Digest, Object};

impl Account {
    /// Whether an entry there, a debt or the pending deal names the chunk.
    pub fn names_chunk(&self, name: &Digest) -> bool
        ensures { result ≡ row_names self.now.row name.now }
    {
        let chunk = Object::Chunk(*name);
        self.has_out(&chunk) || self.has_debt(&chunk) || self.named() == Some(*name)
    }

    /// The peer neither has the chunk nor lost it nor turned it down for good.
    pub fn is_absent(&self, name: &Digest) -> bool
        ensures { result ≡ is_absent self.now.row name.now }
    {
        let chunk = Object::Chunk(*name);
        !self.has_out(&chunk) && !self.has_debt(&chunk) && !self.is_barred(name)
    }
}

/// Whether some account names the chunk.
pub fn is_named(accounts: &[Account], name: &Digest) -> bool
    ensures { result ≡ is_named (map named_row accounts.now) name.now }
{
    any_names(accounts, name)
}

fn any_names(accounts: &[Account], name: &Digest) -> bool
    ensures { result ≡ list_any (λ v. row_names v.row name.now) accounts.now }
{
    accounts.iter().any(|a| a.names_chunk(name))
}
