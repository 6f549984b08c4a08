//! What is looked up before a fresh deal is judged.

ghost use Rattle.std.specs.Prelude.{◌≡◌, ◌<◌, ◌≤◌, ◌⊎◌, List, Bool, ℕ, true, false, not, Some, None, is_some, IsSome, IfSome, IfOk, OnErr};
ghost use Rattle.psb_bytes.specs.Objects.{name_eq};
ghost use Rattle.psb_digest.specs.Hashes.{sha as sha_of};
ghost use Rattle.psb_settings.specs.declared.settings.Settings.{Settings};
ghost use Rattle.psb_station.specs.Span.{Shows, Tells_bytes, Looked};
ghost use Rattle.node_journal.specs.Entry.{Entry};
ghost use Rattle.psb_model.specs.State.{State, is_held};
ghost use Rattle.psb_model.specs.History.{state};
ghost use Rattle.psb_model.specs.declared.change.Change.{Change};
ghost use Rattle.psb_machine.specs.Deals.{meets_others, is_named, is_new, clashes, claim_from, home_of};
ghost use Rattle.deals.specs.Views.{deal_in};
ghost use Rattle.node_history.specs.Stands.{AreDecoded};
ghost use Rattle.chunk_store.specs.Store.{record_of, is_owner};
ghost use Rattle.chunk_store.specs.declared.owner.Owner.TheVariants.{Peer};
ghost use Rattle.node_history.specs.Names.{KnowsNames, AreThere};
ghost use Rattle.node_facts.specs.Compared.{HasNone};
ghost use Rattle.node_facts.specs.Refused.{AreFacts, why_refused};

use crate::bytes::walk_to;
use chunk_store::{Fit, Owner, Store, StoreError};
use claims::ClaimSource;
use deals::{DealView, Facts};
use node_history::ReadFault;
use node_journal::Log;
use psb_bytes::{Digest, PeerId};
use psb_digest::sha;
use psb_ledger::Ledger;
use psb_station::Disk;
use std::alloc::Global;

/// What is looked up of sealed bytes that come under a name: whether they have it, whether other bytes are held
/// under it, and whether none are.
#[derive(Clone, Copy)]
struct Sealed {
    named: bool,
    clash: bool,
    new: bool,
}

/// Whether other bytes are held under the name, which the peer does not have here. The disk is read only
/// where some are held.
fn meets_others<L: Log, D: Disk>(
    alloc: Global,
    log: &mut L,
    disk: &mut D,
    names: &Store,
    peer: PeerId,
    name: &Digest,
    bytes: &[u8],
) -> Result<bool, ReadFault>
    requires whole { L.is_broken log.old ≡ false }
    requires below { IfSome (record_of names.now name.now) (λ k. k < L.size log.old) }
    requires there { IfSome (record_of names.now name.now) (λ k. L.keeps_body log.old k ≡ true) }
    requires named { sha_of bytes.now ≡ name.now }
    requires absent { is_owner names.now (Peer peer) name.now ≡ false }
    ensures exact { IfOk result (λ r. Tells_bytes (D.view disk.new) → (h : List Change) (es : List Entry) → KnowsNames names.now h → AreDecoded h es
        → Shows (L.holds log.old es) (D.view disk.old) → r ≡ meets_others h name.now bytes.now) }
    ensures unheld { IfOk result (λ r. record_of names.now name.now ≡ None → r ≡ false) }
    ensures log { log.new ≡ log.old }
    ensures looked { Looked (result ≡ Err ReadFault.DiskFault) (D.view disk.old) (D.view disk.new) }
    ensures reads { (D.view disk.new).write_faults ≡ (D.view disk.old).write_faults }
    ensures only { OnErr result ((result ≡ Err ReadFault.DiskFault) ⊎ (result ≡ Err ReadFault.Memory)) }
{
    let mut scratch = Vec::new(alloc);
    let owner = Owner::Peer(peer);
    match names.look(log, disk, owner, name, bytes, &mut scratch) {
        Ok(Fit::New | Fit::Shared) => Ok(false),
        Err(StoreError::Clash(_)) => Ok(true),
        Err(StoreError::Altered) => Ok(true),
        Err(StoreError::DiskFault) => Err(ReadFault::DiskFault),
        Err(StoreError::Memory) => Err(ReadFault::Memory),
        Err(StoreError::Already) => unreachable!(),
    }
}

/// What is looked up of the sealed bytes of a Store. Bodies are compared only where the bytes have their name and
/// the peer does not have it here.
fn sealed_facts<L: Log, D: Disk>(
    alloc: Global,
    log: &mut L,
    disk: &mut D,
    names: &Store,
    peer: PeerId,
    name: &Digest,
    bytes: &[u8],
) -> Result<Sealed, ReadFault>
    requires whole { L.is_broken log.old ≡ false }
    requires there { AreThere names.now (L.size log.old) (L.keeps_body log.old) }
    ensures named { IfOk result (λ f. f.named ≡ name_eq (sha_of bytes.now) name.now) }
    ensures new { IfOk result (λ f. f.new ≡ not (is_some (record_of names.now name.now))) }

    // What is told of other bytes has a say only where the bytes have their name and the peer does not have it here.
    ensures exact { IfOk result (λ f. Tells_bytes (D.view disk.new) → (h : List Change) (es : List Entry) → KnowsNames names.now h → AreDecoded h es
        → Shows (L.holds log.old es) (D.view disk.old) → name_eq (sha_of bytes.now) name.now ≡ true → is_owner names.now (Peer peer) name.now ≡ false
        → f.clash ≡ meets_others h name.now bytes.now) }
    ensures unheld { IfOk result (λ f. record_of names.now name.now ≡ None → f.clash ≡ false) }
    ensures log { log.new ≡ log.old }
    ensures looked { Looked (result ≡ Err ReadFault.DiskFault) (D.view disk.old) (D.view disk.new) }
    ensures reads { (D.view disk.new).write_faults ≡ (D.view disk.old).write_faults }
    ensures only { OnErr result ((result ≡ Err ReadFault.DiskFault) ⊎ (result ≡ Err ReadFault.Memory)) }
{
    let named = sha(bytes) == *name;
    let clash = if named && !names.holds(Owner::Peer(peer), name) {
        meets_others(alloc, log, disk, names, peer, name, bytes)?
    } else {
        false
    };
    Ok(Sealed {
        named,
        clash,
        new: names.record_of(name).is_none(),
    })
}

/// What is looked up of the sealed bytes that a deal brings. A chunk that is let go comes without any, and so does a slot.
fn looked_up<L: Log, D: Disk>(
    alloc: Global,
    log: &mut L,
    disk: &mut D,
    names: &Store,
    peer: PeerId,
    deal: &DealView<'_>,
) -> Result<Sealed, ReadFault>
    requires whole { L.is_broken log.old ≡ false }
    requires there { AreThere names.now (L.size log.old) (L.keeps_body log.old) }
    ensures named { IfOk result (λ f. f.named ≡ is_named (deal_in deal.now)) }
    ensures new { IfOk result (λ f. (s : State) → ((name : List ℕ) → is_some (record_of names.now name) ≡ is_held s name) → f.new ≡ is_new s (deal_in deal.now)) }
    ensures exact { IfOk result (λ f. Tells_bytes (D.view disk.new) → (h : List Change) (es : List Entry) → KnowsNames names.now h → AreDecoded h es
        → Shows (L.holds log.old es) (D.view disk.old) → why_refused (state h) peer (deal_in deal.now) f.clash ≡ why_refused (state h) peer (deal_in deal.now) (clashes h (deal_in deal.now))) }
    ensures unheld { IfOk result (λ f. HasNone names.now (deal_in deal.now) → f.clash ≡ false) }
    ensures log { log.new ≡ log.old }
    ensures looked { Looked (result ≡ Err ReadFault.DiskFault) (D.view disk.old) (D.view disk.new) }
    ensures reads { (D.view disk.new).write_faults ≡ (D.view disk.old).write_faults }
    ensures only { OnErr result ((result ≡ Err ReadFault.DiskFault) ⊎ (result ≡ Err ReadFault.Memory)) }
{
    match deal {
        DealView::StoreFresh { name, bytes } => {
            sealed_facts(alloc, log, disk, names, peer, name, bytes)
        }
        DealView::StoreSwap { name, bytes, .. } => {
            sealed_facts(alloc, log, disk, names, peer, name, bytes)
        }
        DealView::Cancel { .. } | DealView::PutBack { .. } | DealView::Replace { .. } => Ok(
            Sealed {
                named: true,
                clash: false,
                new: false,
            },
        ),
    }
}

/// The least own claim below `issued` that these bytes are. The claims are walked over first: so the next look is one pass
/// over their fingerprints, where there is memory for these.
fn claim_with(claims: &mut ClaimSource, issued: u32, bytes: &[u8]) -> Option<u32>
    requires { issued ≤ claims.old.issued }
    ensures claim { result ≡ claim_from claims.old.seed bytes.now 0 issued }
    ensures seed { claims.new.seed ≡ claims.old.seed }
    ensures issued { claims.new.issued ≡ claims.old.issued }
{
    let Ok(body) = <&[u8; 512]>::try_from(bytes) else {
        return None;
    };
    walk_to(claims, issued);
    match claims.home_of(body) {
        Some(home) => { if home < issued { Some(home) } else { None } }
        None => None,
    }
}

/// The own claim that the bytes of a slot are which a deal brings.
fn home_of(claims: &mut ClaimSource, issued: u32, deal: &DealView<'_>) -> Option<u32>
    requires { issued ≤ claims.old.issued }
    ensures home { result ≡ home_of claims.old.seed issued (deal_in deal.now) }
    ensures seed { claims.new.seed ≡ claims.old.seed }
    ensures issued { claims.new.issued ≡ claims.old.issued }
{
    match deal {
        DealView::StoreFresh { .. }
        | DealView::StoreSwap { .. }
        | DealView::Cancel { .. }
        | DealView::PutBack { .. } => None,
        DealView::Replace { bytes, .. } => claim_with(claims, issued, bytes),
    }
}

/// The facts that a fresh deal is judged by.
pub fn facts_of<L: Log, D: Disk>(
    alloc: Global,
    log: &mut L,
    disk: &mut D,
    ledger: &Ledger,
    names: &Store,
    claims: &mut ClaimSource,
    peer: PeerId,
    deal: &DealView<'_>,
) -> Result<Facts, ReadFault>
    requires whole { L.is_broken log.old ≡ false }
    requires there { AreThere names.now (L.size log.old) (L.keeps_body log.old) }
    requires held { (name : List ℕ) → is_some (record_of names.now name) ≡ is_held ledger.now.state name }
    requires present { IsSome ledger.now.state.settings }
    requires own { (settings : Settings) → ledger.now.state.settings ≡ Some settings → settings.seed ≡ claims.old.seed }
    requires issued { ledger.now.state.issued ≤ claims.old.issued }

    // On each disk they are the deal's, as if other bytes were held under its name or none were; where the disk
    // tells its bytes, that is so or has no say.
    ensures are { IfOk result (λ f. AreFacts f ledger.now.state (deal_in deal.now)) }
    ensures exact { IfOk result (λ f. Tells_bytes (D.view disk.new) → (h : List Change) (es : List Entry) → KnowsNames names.now h → AreDecoded h es
        → Shows (L.holds log.old es) (D.view disk.old) → why_refused (state h) peer (deal_in deal.now) f.clash ≡ why_refused (state h) peer (deal_in deal.now) (clashes h (deal_in deal.now))) }

    // Where nothing is compared, what the disk tells has no say.
    ensures unheld { IfOk result (λ f. HasNone names.now (deal_in deal.now) → f.clash ≡ false) }
    ensures log { log.new ≡ log.old }
    ensures seed { claims.new.seed ≡ claims.old.seed }
    ensures walked { claims.new.issued ≡ claims.old.issued }
    ensures looked { Looked (result ≡ Err ReadFault.DiskFault) (D.view disk.old) (D.view disk.new) }
    ensures reads { (D.view disk.new).write_faults ≡ (D.view disk.old).write_faults }
    ensures only { OnErr result ((result ≡ Err ReadFault.DiskFault) ⊎ (result ≡ Err ReadFault.Memory)) }
{
    let Some(settings) = ledger.settings() else {
        unreachable!()
    };
    let Sealed { named, clash, new } = looked_up(alloc, log, disk, names, peer, deal)?;
    Ok(Facts {
        name_fits: named,
        clash,
        new_body: new,
        home: home_of(claims, ledger.issued(), deal),
        issued: ledger.issued(),
        capacity: settings.capacity,
    })
}
