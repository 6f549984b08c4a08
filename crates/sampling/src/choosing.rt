//! The choice of buddies.

ghost use Rattle.std.specs.Prelude.{◌≡◌, true, [], IfOk};
ghost use Rattle.psb_model.specs.Candidates.{distinct_peers};
ghost use Rattle.psb_model.specs.declared.change.Change.TheVariants as change;
ghost use Rattle.buddy_select.specs.Order.{put_all};
ghost use Rattle.buddy_select.specs.Choice.{were_asked};

use buddy_select::select;
use psb_bytes::Memory;
use psb_model::{Candidate, Change, Chose};
use std::alloc::Global;

/// The change that chooses so many of the candidates.
pub fn choose(alloc: Global, candidates: &[Candidate], buddies: u32) -> Result<Change, Memory>
    requires asked { were_asked candidates.now }
    requires distinct { distinct_peers candidates.now ≡ true }
    ensures { IfOk result (λ c. c ≡ change.Chose (record { candidates = put_all [] candidates.now })) }
{
    let chosen = select(alloc, candidates, buddies)?;
    Ok(Change::Chose(Chose {
        candidates: chosen.ordered,
    }))
}
