ghost use Rattle.std.specs.Prelude.{◌≡◌, ◌+◌, ◌<◌, ◌^◌, IfOk};
ghost use Rattle.psb_model.specs.State.{row};
ghost use Rattle.psb_machine.specs.Deals.{judge};
ghost use Rattle.psb_machine.specs.Judging.{IsShort};
ghost use Rattle.deals.specs.Views.{deal_in, facts_in};

use crate::reasons::refusal;
use crate::taking::taken;
use crate::{DealView, Facts};
use psb_bytes::{Memory, PeerId};
use psb_ledger::Ledger;
use psb_model::{Change, Refused};
use std::alloc::Global;

/// The change that the next deal of a peer makes: it is taken, or refused for the first reason that holds.
pub fn judge(
    alloc: Global,
    ledger: &Ledger,
    peer: PeerId,
    deal: &DealView<'_>,
    facts: &Facts,
) -> Result<Change, Memory>
    requires short { IsShort (deal_in deal.now) }
    requires more { (row ledger.now.state peer).last.number + 1 < 2 ^ 64 }
    ensures { IfOk result (λ c. c ≡ judge (facts_in facts.now) ledger.now.state peer ((row ledger.now.state peer).last.number + 1) (deal_in deal.now)) }
{
    let number = ledger.row(peer).last().number + 1;
    match refusal(ledger, peer, deal, facts) {
        None => taken(alloc, peer, number, deal, facts),
        Some(refusal) => Ok(Change::Refused(Refused {
            peer,
            deal: number,
            why: refusal.why.code(),
            detail: refusal.detail,
        })),
    }
}
