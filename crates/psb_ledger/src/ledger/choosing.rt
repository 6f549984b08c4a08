//! What a ledger makes of a choice of buddies.

ghost use Rattle.std.specs.Prelude.{◌≡◌, ◌<◌, ◌≤◌, ◌^◌, take, map, length, true, OnOk, IfOk};
ghost use Rattle.psb_model.specs.declared.change.Change.TheVariants.{Chose};
ghost use Rattle.psb_model.specs.Candidates.{in_select_order};
ghost use Rattle.psb_model.specs.Grammar.{in_grammar};
ghost use Rattle.psb_model.specs.Conditions.{allowed, buddies};
ghost use Rattle.psb_model.specs.Effects.{after, chosen_after};

use super::Ledger;
use accounts::are_peers;
use buddy_select::{comes_before, distinct_peers, have_samples};
use psb_bytes::{Memory, PeerId};
use psb_model::Candidate;
use psb_settings::Settings;
use std::alloc::Global;
use std::mem;

/// How many buddies the settings ask for.
fn buddies_of(settings: &Option<Settings>) -> u32
    ensures { result ≡ buddies settings.now }
{
    match settings {
        None => 0,
        Some(x) => x.buddies,
    }
}

/// Whether each candidate comes before the next.
fn in_select_order(candidates: &[Candidate]) -> bool
    ensures { result ≡ in_select_order candidates.now }
{
    for i in 1..candidates.len() {
        if !comes_before(&candidates[i - 1], &candidates[i]) {
            return false;
        }
    }
    true
}

/// The first `count` candidates.
fn first_peers(alloc: Global, candidates: &[Candidate], count: usize) -> Result<Vec<PeerId>, Memory>
    requires { count ≤ length candidates.now }
    ensures { IfOk result (λ v. v.items ≡ map (λ x. x.peer) (take count candidates.now)) }
{
    let mut chosen = Vec::with_capacity(alloc, count)?;
    for i in 0..count {
        chosen.push(candidates[i].peer)?;
    }
    Ok(chosen)
}

impl Ledger {
    /// Makes the list of the first candidates, as many as the settings ask for.
    pub(super) fn make_room_to_choose(&mut self, candidates: &[Candidate]) -> Result<(), Memory>
        ensures state { self.new.state ≡ self.old.state }
        ensures room { OnOk result (self.new.next_chosen ≡ chosen_after self.new.state (Chose (record { candidates = candidates.now }))) }
    {
        let most = buddies_of(&self.settings) as usize;
        let count = candidates.len().min(most);
        self.next_chosen = first_peers(self.alloc, candidates, count)?;
        Ok(())
    }

    pub(super) fn may_choose(&self, candidates: &[Candidate]) -> bool
        ensures { result ≡ allowed self.now.state (Chose (record { candidates = candidates.now })) }
    {
        self.changes != 0
            && 1 <= candidates.len()
            && are_peers(self.accounts.as_slice(), candidates)
            && distinct_peers(candidates)
            && have_samples(candidates)
            && in_select_order(candidates)
    }

    pub(super) fn choose(&mut self, candidates: &[Candidate])
        requires grammar { in_grammar (Chose (record { candidates = candidates.now })) ≡ true }
        requires room { self.old.next_chosen ≡ chosen_after self.old.state (Chose (record { candidates = candidates.now })) }
        requires few { self.old.state.changes < 2 ^ 62 }
        requires may { allowed self.old.state (Chose (record { candidates = candidates.now })) ≡ true }
        ensures { self.new.state ≡ after self.old.state (Chose (record { candidates = candidates.now })) }
    {
        mem::swap(&mut self.chosen, &mut self.next_chosen);
        self.changes += 1;
    }
}
