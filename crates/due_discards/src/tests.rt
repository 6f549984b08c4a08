use crate::discard_at;
use psb_bytes::{Memory, PeerId};
use psb_ledger::Ledger;
use std::alloc::Global;
use std::test::Fail;

/// Whether no discard of a peer is due.
fn is_none_due(alloc: Global, ledger: &Ledger) -> Result<bool, Memory> {
    let discard = discard_at(alloc, ledger, PeerId(2))?;
    Ok(discard.is_none())
}

#[test]
fn nothing_is_due_at_first(rt: HostRuntime) -> Result<(), Fail> {
    let ledger = Ledger::new(rt.alloc());
    assert!(rt; is_none_due(rt.alloc(), &ledger)?);
    Ok(())
}
