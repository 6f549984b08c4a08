//! The own deal that a tick of a peer offers.

ghost use Rattle.std.specs.Prelude.{◌≡◌, ◌+◌, ◌<◌, ◌^◌, Some, IfOk};
ghost use Rattle.std.specs.Option.{option_map};
ghost use Rattle.psb_settings.specs.declared.settings.Settings.{Settings as AnySettings};
ghost use Rattle.psb_model.specs.State.{row};
ghost use Rattle.psb_machine.specs.Proposals.{propose_facts, proposed_at};
ghost use Rattle.psb_machine.specs.OwnProbes.{listed_by};
ghost use Rattle.psb_machine.specs.Machine.{grown_by, offer_by};
ghost use Rattle.deals.specs.Views.{propose_facts_in};
ghost use Rattle.own_probes.specs.Probes.{run_in};
ghost use Rattle.peer_states.specs.PeerStates.{kept};
ghost use Rattle.own_offers.specs.Offers.{offer_in, offer_of, offered_again};

use deals::{ProposeFacts, look_ahead, propose};
use next_deals::Planner;
use node_letters::objects_copy;
use own_probes::Run;
use peer_states::PeerState;
use psb_bytes::{Items, Memory, ObjectList, PeerId};
use psb_ledger::Ledger;
use psb_model::{Change, Deal, Proposed};
use psb_settings::Settings;
use std::alloc::Global;

/// A deal that is offered to a peer, and whether it is proposed now or was before.
#[derive(Drop)]
pub struct Offer {
    pub deal: Deal,
    pub is_new: bool,
}

/// A deal without a reply is offered again at each second tick.
fn again(alloc: Global, state: &PeerState, deal: &Deal) -> Result<Option<Offer>, Memory>
    ensures { IfOk result (λ o. option_map offer_in o ≡ offered_again state.now deal.now) }
{
    if state.next_tick() % 2 != 0 {
        return Ok(None);
    }
    Ok(Some(Offer {
        deal: Deal {
            number: deal.number,
            what: deal.what.copy(alloc)?,
        },
        is_new: false,
    }))
}

/// The deal that a change proposes.
fn offer_of(change: Change) -> Option<Offer>
    ensures { option_map offer_in result ≡ offer_of change }
{
    match change {
        Change::Proposed(x) => Some(Offer {
            deal: Deal {
                number: x.deal,
                what: x.what,
            },
            is_new: true,
        }),
        _ => None,
    }
}

/// The change that proposes a deal, where it is new.
pub fn proposed(peer: PeerId, offer: Offer) -> Option<Change>
    ensures { result ≡ grown_by peer (offer_in offer) }
{
    let Offer {
        deal: Deal { number, what },
        is_new,
    } = offer;
    if !is_new {
        return None;
    }
    Some(Change::Proposed(Proposed {
        peer,
        deal: number,
        what,
    }))
}

fn facts_of(ledger: &Ledger, settings: &Settings) -> ProposeFacts
    ensures { propose_facts_in result ≡ propose_facts settings.now ledger.now.state }
{
    ProposeFacts {
        issued: ledger.issued(),
        capacity: settings.capacity,
        forward: settings.forward,
    }
}

/// The deal that is proposed to a peer next, beside the objects that a probe of it lists.
fn next(
    alloc: Global,
    ledger: &mut Planner,
    peer: PeerId,
    listed: &ObjectList,
) -> Result<Option<Offer>, Memory>
    requires more { (row ledger.old.state peer).mine + 1 < 2 ^ 64 }
    ensures offers { IfOk result (λ o. (settings : AnySettings) → ledger.old.state.settings ≡ Some settings → option_map offer_in o ≡ proposed_at settings ledger.old.state peer listed.now) }
    ensures same { ledger.new ≡ ledger.old }
{
    let Some(settings) = ledger.ledger().settings() else {
        return Ok(None);
    };
    let facts = facts_of(ledger.ledger(), settings);
    look_ahead(ledger, peer, listed, &facts)?;
    match propose(alloc, ledger, peer, listed, &facts)? {
        None => Ok(None),
        Some(change) => Ok(offer_of(change)),
    }
}

/// What the probe lists that runs, if one does.
fn listed(alloc: Global, run: &Option<Run>) -> Result<ObjectList, Memory>
    ensures { IfOk result (λ l. l ≡ listed_by (option_map run_in run.now)) }
{
    match run {
        None => Ok(Items::from_vec(Vec::new(alloc))),
        Some(run) => objects_copy(alloc, run.objects.as_slice()),
    }
}

/// The deal that a tick of a peer offers, by what is kept of it before the tick: one without a reply at each second
/// tick; where none is pending and none is waited for, the one that is proposed next, beside what a probe lists that
/// runs.
pub fn offer_at(
    alloc: Global,
    ledger: &mut Planner,
    peer: PeerId,
    state: &PeerState,
    run: &Option<Run>,
) -> Result<Option<Offer>, Memory>
    requires more { (row ledger.old.state peer).mine + 1 < 2 ^ 64 }
    ensures offers { IfOk result (λ o. (settings : AnySettings) → ledger.old.state.settings ≡ Some settings
        → option_map offer_in o ≡ offer_by settings ledger.old.state peer (kept state.now) (listed_by (option_map run_in run.now)) (row ledger.old.state peer).pending) }
    ensures same { ledger.new ≡ ledger.old }
{
    if let Some(deal) = ledger.ledger().row(peer).pending() {
        return again(alloc, state, deal);
    }
    if state.wait > 0 {
        return Ok(None);
    }
    let listed = listed(alloc, run)?;
    next(alloc, ledger, peer, &listed)
}
