//! Whether a discard of a peer is due, and what it takes.

ghost use Rattle.std.specs.Prelude.{◌≡◌, map, IfOk};
ghost use Rattle.psb_model.specs.State.{in_key};
ghost use Rattle.psb_model.specs.Discards.{discards};
ghost use Rattle.psb_machine.specs.Machine.{by_due};

use crate::walk::taken;
use discard_policy::{Picker, grade};
use psb_bytes::{Memory, ObjectList, PeerId};
use psb_digest::own_words;
use psb_ledger::Ledger;
use psb_model::{Change, Discarded};
use std::alloc::Global;

/// The objects that the words of the next change choose, of those that no pending deal ties. None before there are
/// settings, since then the node answers for nothing.
fn discards(alloc: Global, ledger: &Ledger, peer: PeerId) -> Result<ObjectList, Memory>
    ensures { IfOk result (λ l. l ≡ map in_key (discards ledger.now.state peer)) }
{
    ledger.is_reached();
    let Some(settings) = ledger.settings() else {
        return Ok(ObjectList::from_vec(Vec::new(alloc)));
    };
    let row = ledger.row(peer);
    let _held = row.held();
    let mut words = own_words(&settings.seed, ledger.changes());
    let mut picker = Picker::new(grade(row.fails()), row.debt());
    let objects = taken(alloc, ledger, peer, &mut words, &mut picker)?;
    Ok(ObjectList::from_vec(objects))
}

/// The discard of a peer, which may take nothing; none exactly where none is due. Its entries are chosen by the node's
/// own words for the next change, with a step for each entry that the node answers for to the peer.
pub fn discard_at(alloc: Global, ledger: &Ledger, peer: PeerId) -> Result<Option<Change>, Memory>
    ensures { IfOk result (λ o. o ≡ (by_due ledger.now.state peer).grown) }
{
    if !ledger.row(peer).due() {
        return Ok(None);
    }
    let objects = discards(alloc, ledger, peer)?;
    Ok(Some(Change::Discarded(Discarded { peer, objects })))
}
