//! The names that are wanted.

ghost use Rattle.std.specs.Prelude.{◌≡◌, ◌++◌, ◌∷◌, [], if◌then◌else◌, IfOk, OnOk};
ghost use Rattle.psb_model.specs.Effects.{kept_lists};
ghost use Rattle.psb_machine.specs.Sampling.{wanted_names};

use psb_bytes::{Digest, DigestList, Items, Memory};
use psb_ledger::Ledger;
use std::alloc::Global;

/// Adds a name, where a kept snapshot lists it.
fn add_wanted(names: &mut Vec<Digest>, ledger: &Ledger, name: Digest) -> Result<(), Memory>
    ensures { OnOk result (names.new.items ≡ (if kept_lists ledger.now.state.kept name then names.old.items ++ name ∷ [] else names.old.items)) }
{
    if ledger.is_wanted(&name) {
        names.push(name)?;
    }
    Ok(())
}

/// The names of the own chunks that a kept snapshot lists, in their order.
pub(crate) fn wanted_names(alloc: Global, ledger: &Ledger) -> Result<DigestList, Memory>
    ensures { IfOk result (λ names. names ≡ wanted_names ledger.now.state) }
{
    let mut names = Vec::new(alloc);
    let mut next = ledger.own_after(None);
    while let Some(own) = next {
        add_wanted(&mut names, ledger, own.name)?;
        next = ledger.own_after(Some(&own.name));
    }
    Ok(Items::from_vec(names))
}
