//! What a tick of a peer makes of the node's probes of it.

ghost use Rattle.std.specs.Prelude.{◌≡◌, ◌+◌, ℕ, List, nat_le, Some, IfSome, IfOk};
ghost use Rattle.std.specs.Option.{option_map};
ghost use Rattle.psb_model.specs.State.{State, row};
ghost use Rattle.psb_machine.specs.Volatile.{PeerState as MachineState, later};
ghost use Rattle.psb_machine.specs.OwnProbes.{ticks_between, objects_to_ask};
ghost use Rattle.psb_machine.specs.Machine.{by_late, by_run, begins_with};
ghost use Rattle.asked_objects.specs.Listable.{IsListable};
ghost use Rattle.peer_states.specs.PeerStates.{kept};
ghost use Rattle.own_probes.specs.Probes.{run_in, rule_in, AreFew, IsFit};

use crate::run::Run;
use asked_objects::objects_drawn;
use node_letters::objects_copy;
use peer_states::PeerState;
use probe::late;
use psb_bytes::{Digest, Memory, ObjectList, PeerId};
use psb_ledger::Ledger;
use psb_model::{Change, Failed};
use std::alloc::Global;

/// How many ticks lie between the end of a probe and the next.
const TICKS_BETWEEN: u64 = 4;

/// How a probe fails that had no answer.
const SILENCE: u8 = 0;

/// What a probe asks with: the number of the change that asks, and the objects.
#[derive(Drop)]
pub struct Probe {
    pub asked: u64,
    pub objects: ObjectList,
}

/// What the rule of probes comes to at a tick.
#[derive(Drop)]
pub enum Step {
    /// No probe runs, and none begins yet: the rules behind this one are followed.
    Rests,
    /// One runs, which is not sent again now.
    Waits,
    /// One runs, and is sent again.
    Again(Probe),
    /// One begins.
    Begins(Probe),
}

/// The failure of a probe that has no answer in time, if one runs and is late with this tick.
pub fn late_probe(
    alloc: Global,
    peer: PeerId,
    run: &Option<Run>,
    state: &PeerState,
) -> Result<Option<Change>, Memory>
    ensures { IfOk result (λ o. o ≡ (by_late peer (later state.now.clock) (option_map run_in run.now)).grown) }
{
    let Some(run) = run else {
        return Ok(None);
    };
    if !late(run.began, state.next_tick()) {
        return Ok(None);
    }
    Ok(Some(Change::Failed(Failed {
        peer,
        asked: run.asked,
        how: SILENCE,
        got: Digest([0; 32]),
        objects: objects_copy(alloc, run.objects.as_slice())?,
    })))
}

/// A probe that runs is sent again at each second tick.
fn again(run: Run, clock: u64) -> Step
    requires few { AreFew run.objects }
    ensures step { (seed : List ℕ) (s : State) (p : ℕ) (x : MachineState) → later x.clock ≡ clock → rule_in seed p result ≡ by_run seed s p x (Some (run_in run)) }
    ensures fit { IsFit result }
{
    if clock.saturating_sub(run.began) % 2 != 0 {
        return Step::Waits;
    }
    Step::Again(Probe {
        asked: run.asked,
        objects: run.objects,
    })
}

/// Whether so many ticks have passed since the last probe ended that the next may begin.
fn is_time(state: &PeerState) -> bool
    ensures { result ≡ nat_le (state.now.ended + ticks_between) (later state.now.clock) }
{
    state.ended.saturating_add(TICKS_BETWEEN) <= state.next_tick()
}

/// The probe that begins, if there is anything to ask for.
fn next_probe(
    alloc: Global,
    ledger: &Ledger,
    seed: &Digest,
    peer: PeerId,
    state: &PeerState,
) -> Result<Step, Memory>
    requires listable { IsListable (row ledger.now.state peer) }
    ensures step { IfOk result (λ step. rule_in seed.now peer step ≡ begins_with seed.now ledger.now.state peer (later state.now.clock) (objects_to_ask (row ledger.now.state peer))) }
    ensures fit { IfOk result IsFit }
{
    let asked = ledger.changes();
    let objects = objects_drawn(alloc, ledger.row(peer), seed, asked)?;
    if objects.as_slice().is_empty() {
        return Ok(Step::Rests);
    }
    Ok(Step::Begins(Probe { asked, objects }))
}

/// What the rule of probes comes to at a tick of a peer, by what is kept of it before the tick: one that runs is sent
/// again at each second tick; where none runs the next one begins, some ticks after the last, if there is anything to
/// ask for.
pub fn probe_step(
    alloc: Global,
    ledger: &Ledger,
    seed: &Digest,
    peer: PeerId,
    state: &PeerState,
    run: Option<Run>,
) -> Result<Step, Memory>
    requires listable { IsListable (row ledger.now.state peer) }
    requires few { IfSome run (λ r. AreFew r.objects) }
    ensures step { IfOk result (λ step. rule_in seed.now peer step ≡ by_run seed.now ledger.now.state peer (kept state.now) (option_map run_in run)) }
    ensures fit { IfOk result IsFit }
{
    if let Some(run) = run {
        return Ok(again(run, state.next_tick()));
    }
    if !is_time(state) {
        return Ok(Step::Rests);
    }
    next_probe(alloc, ledger, seed, peer, state)
}
