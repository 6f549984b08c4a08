//! What comes of the answer of a peer to a probe of the node's own.

ghost use Rattle.std.specs.Prelude.{◌≡◌, ◌⊎◌, List, ℕ, true, false, is_some, nat_lt, length, Some, None, IfOk, IfSome, OnErr};
ghost use Rattle.std.specs.List.{list_all};
ghost use Rattle.std.specs.Option.{option_map};
ghost use Rattle.psb_settings.specs.declared.settings.Settings.{Settings as AnySettings};
ghost use Rattle.psb_station.specs.Span.{Shows, Tells_bytes, Looked};
ghost use Rattle.node_journal.specs.Entry.{Entry};
ghost use Rattle.psb_model.specs.declared.change.Change.{Change as AnyChange};
ghost use Rattle.psb_machine.specs.OwnProbes.{are_places_of};
ghost use Rattle.psb_machine.specs.Machine.{by_proof, by_declined};
ghost use Rattle.node_history.specs.Stands.{AreDecoded};
ghost use Rattle.node_history.specs.Names.{AreThere};
ghost use Rattle.node_facts.specs.Probed.{Knows};
ghost use Rattle.own_probes.specs.Probes.{run_in, sender, outcome_by, is_answered, IsOutcome, IsToNone};

use crate::run::Run;
use claims::ClaimSource;
use node_facts::{Holdings, own_value};
use node_history::ReadFault;
use node_journal::Log;
use psb_bytes::{Digest, Memory, PeerId};
use psb_model::{Change, Declined, Failed, Passed};
use psb_station::Disk;
use std::alloc::Global;
use wire_codec::PlacesView;

/// How a probe fails whose answer has another value.
const WRONG: u8 = 1;

/// Whether each place is one of the probe's.
fn are_places_of(run: &Run, places: &PlacesView<'_>) -> bool
    ensures { result ≡ are_places_of (run_in run.now) places.now }
{
    let count = run.objects.as_slice().len();
    for j in 0..places.len() {
        if usize::from(places.at(j)) >= count {
            return false;
        }
    }
    true
}

/// What the peer declines, where it answers the probe that runs and names places of that.
pub fn declined_for(
    alloc: Global,
    seed: &Digest,
    run: &Option<Run>,
    peer: PeerId,
    number: u64,
    nonce: &Digest,
    places: &PlacesView<'_>,
) -> Result<Option<Change>, Memory>
    ensures { IfOk result (λ o. (settings : AnySettings) → settings.seed ≡ seed.now → o ≡ (by_declined settings (sender peer number) nonce.now places.now (option_map run_in run.now)).grown) }
{
    let Some(run) = run else {
        return Ok(None);
    };
    if !run.is_asked_with(seed, number, nonce) || !are_places_of(run, places) {
        return Ok(None);
    }
    Ok(Some(Change::Declined(Declined {
        peer,
        asked: run.asked,
        places: places.to_list(alloc)?,
    })))
}

/// The outcome of a probe whose answer has this value, which is right or wrong.
fn outcome(peer: PeerId, run: Run, value: &Digest, is_right: bool) -> Change
    ensures { result ≡ outcome_by peer value.now (run_in run) is_right }
{
    let Run { asked, objects, .. } = run;
    if is_right {
        return Change::Passed(Passed {
            peer,
            asked,
            objects,
        });
    }
    Change::Failed(Failed {
        peer,
        asked,
        how: WRONG,
        got: *value,
        objects,
    })
}

/// What a proof of the peer makes: where it answers the probe that runs, its value is compared with that of the chain
/// over the node's own bytes, which are read here. Each body is read once.
pub fn proof_outcome<L: Log, D: Disk>(
    alloc: Global,
    log: &mut L,
    disk: &mut D,
    held: &Holdings<'_>,
    claims: &mut ClaimSource,
    seed: &Digest,
    run: Option<Run>,
    peer: PeerId,
    number: u64,
    nonce: &Digest,
    value: &Digest,
) -> Result<Option<Change>, ReadFault>
    requires whole { L.is_broken log.old ≡ false }
    requires there { AreThere held.now.names.now (L.size log.old) (L.keeps_body log.old) }

    // Where the disk tells its bytes.
    ensures exact { IfOk result (λ o. Tells_bytes (D.view disk.new) → (h : List AnyChange) (es : List Entry) → Knows held.now h → AreDecoded h es → Shows (L.holds log.old es) (D.view disk.old)
        → (settings : AnySettings) → settings.seed ≡ seed.now → settings.seed ≡ claims.old.seed → o ≡ (by_proof settings h (sender peer number) nonce.now value.now (option_map run_in run)).grown) }

    // On each disk as if the value were right, or as if it were wrong; and whether there is one, the state tells.
    ensures somehow { IfOk result (λ o. IfSome o (IsOutcome peer value.now (option_map run_in run))) }
    ensures certain { IfOk result (λ o. (h : List AnyChange) → Knows held.now h → is_some o ≡ is_answered seed.now held.now.ledger.now.state number nonce.now (option_map run_in run)) }
    ensures rests { IsToNone seed.now number nonce.now (option_map run_in run) → disk.new ≡ disk.old }
    ensures none { IfOk result (λ o. IsToNone seed.now number nonce.now (option_map run_in run) → o ≡ None) }
    ensures log { log.new ≡ log.old }
    ensures seed { claims.new.seed ≡ claims.old.seed }
    ensures issued { claims.new.issued ≡ claims.old.issued }
    ensures looked { Looked (result ≡ Err ReadFault.DiskFault) (D.view disk.old) (D.view disk.new) }
    ensures reads { (D.view disk.new).write_faults ≡ (D.view disk.old).write_faults }
    ensures only { OnErr result ((result ≡ Err ReadFault.DiskFault) ⊎ (result ≡ Err ReadFault.Memory)) }
{
    let Some(run) = run else {
        return Ok(None);
    };
    if !run.is_asked_with(seed, number, nonce) {
        return Ok(None);
    }
    let objects = run.objects.as_slice();
    let Some(own) = own_value(alloc, log, disk, held, claims, nonce, objects)? else {
        return Ok(None);
    };
    Ok(Some(outcome(peer, run, value, own == *value)))
}
