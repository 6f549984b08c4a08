//! Which candidates are chosen.

ghost use Rattle.std.specs.Prelude.{◌≡◌, true, [], IfOk, OnOk};
ghost use Rattle.std.specs.List.Sorted.{IsPermutation};
ghost use Rattle.psb_model.specs.Candidates.{distinct_peers};
ghost use Rattle.buddy_select.specs.Order.{put_in, put_all};
ghost use Rattle.buddy_select.specs.Choice.{were_asked, IsChoice};

use crate::order::place_in;
use psb_bytes::Memory;
use psb_model::{Candidate, CandidateList};
use std::alloc::Global;

/// All candidates in order, of which the first `count` are chosen.
#[derive(Drop)]
pub struct Chosen {
    pub ordered: CandidateList,
    pub count: u32,
}

fn put(ordered: &mut Vec<Candidate>, new: Candidate) -> Result<(), Memory>
    ensures { OnOk result (ordered.new.items ≡ put_in new ordered.old.items) }
{
    let place = place_in(&new, ordered);
    ordered.insert(place, new)?;
    Ok(())
}

fn put_all(alloc: Global, candidates: &[Candidate]) -> Result<CandidateList, Memory>
    ensures order { IfOk result (λ l. l ≡ put_all [] candidates.now) }
    ensures all { IfOk result (λ l. IsPermutation candidates.now l) }
{
    let mut ordered = Vec::new(alloc);
    for candidate in candidates {
        put(&mut ordered, *candidate)?;
    }
    Ok(CandidateList::from_vec(ordered))
}

/// Chooses n of the candidates, or all where there are fewer: the greater share of the sample first, then fewer hops, then the
/// lesser id.
pub fn select(alloc: Global, candidates: &[Candidate], n: u32) -> Result<Chosen, Memory>
    requires asked { were_asked candidates.now }
    requires distinct { distinct_peers candidates.now ≡ true }
    ensures choice { IfOk result (λ c. IsChoice candidates.now c.ordered n c.count) }
    ensures order { IfOk result (λ c. c.ordered ≡ put_all [] candidates.now) }
{
    let ordered = put_all(alloc, candidates)?;
    let count = candidates.len().min(n as usize) as u32;
    Ok(Chosen { ordered, count })
}
