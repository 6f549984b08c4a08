//! What a node keeps of each peer until it is opened again.

ghost use Rattle.std.specs.Prelude.{◌≡◌, ◌==◌, map, find, IfOk};
ghost use Rattle.std.specs.List.{list_all};
ghost use Rattle.std.specs.Option.{option_copied};
ghost use Rattle.psb_model.specs.Conditions.{peer_of};
ghost use Rattle.psb_machine.specs.Volatile.{later, ticks_to_wait, still_there, still_asked};
ghost use Rattle.peer_states.specs.PeerStates.{at_start, state_of, marked, marked_at, probed, unsampled, sample_of, note_in, states_noted, states_changed, states_probed};

use peer_account::Account;
use psb_bytes::{Memory, Object, PeerId};
use psb_ledger::Ledger;
use psb_model::Change;
use psb_settings::PeerRow;
use std::alloc::Global;

/// A clock that has come so far stays there.
const LAST_TICK: u64 = 1 << 62;

/// Of a peer: its ticks that were absorbed, those that are to pass before a deal is proposed to it, the bits of its
/// sample, if one is kept, the clock at which the probe of it began that runs, and the one at which the last one ended.
#[derive(Clone, Copy)]
pub struct PeerState {
    pub peer: PeerId,
    pub clock: u64,
    pub wait: u8,
    pub sample: Option<u32>,
    pub began: Option<u64>,
    pub ended: u64,
}

/// What is noted of one peer.
#[derive(Clone, Copy)]
pub enum Mark {
    /// A tick.
    Tick,
    /// So many ticks are to pass before the next proposal.
    Wait(u8),
    /// What it told of the names that it was asked for.
    Sample(u32),
    /// A probe of it begins.
    Asked,
    /// Whether a probe of it that runs goes on.
    Probe { goes_on: bool },
}

/// What an input notes beside the change that it makes, before that.
#[derive(Clone, Copy)]
pub enum Note {
    Nothing,
    /// A tick of a peer.
    Ticked(PeerId),
    /// What a peer told of the names that it was asked for.
    Sampled(PeerId, u32),
}

impl PeerState {
    /// The clock with the tick that is absorbed now.
    pub fn next_tick(&self) -> u64
        ensures { result ≡ later self.now.clock }
    {
        self.clock.saturating_add(1).min(LAST_TICK)
    }

    fn take(&mut self, mark: Mark)
        ensures { self.new ≡ marked mark self.old }
    {
        match mark {
            Mark::Tick => {
                self.clock = self.next_tick();
                self.wait = self.wait.saturating_sub(1);
            }
            Mark::Wait(ticks) => self.wait = ticks,
            Mark::Sample(bits) => self.sample = Some(bits),
            Mark::Asked => self.began = Some(self.clock),
            Mark::Probe { goes_on } => self.end_probe(goes_on),
        }
    }

    /// Ends a probe that runs, unless it goes on.
    fn end_probe(&mut self, goes_on: bool)
        ensures { self.new ≡ probed goes_on self.old }
    {
        if !goes_on && self.began.is_some() {
            self.began = None;
            self.ended = self.clock;
        }
    }
}

fn at_start(peer: &PeerRow) -> PeerState
    ensures { result ≡ at_start peer.now }
{
    PeerState {
        peer: peer.id,
        clock: 0,
        wait: 0,
        sample: None,
        began: None,
        ended: 0,
    }
}

/// What is kept of each peer at first.
pub fn states_of(alloc: Global, peers: &[PeerRow]) -> Result<Vec<PeerState>, Memory>
    ensures { IfOk result (λ states. states.items ≡ map at_start peers.now) }
{
    let mut states = Vec::new(alloc);
    for peer in peers {
        states.push(at_start(peer))?;
    }
    Ok(states)
}

fn find_state(states: &[PeerState], peer: PeerId) -> Option<&PeerState>
    ensures { option_copied result ≡ find (λ x. x.peer == peer) states.now }
{
    states.iter().find(|x| x.peer == peer)
}

/// What is kept of a peer.
pub fn state_of(states: &[PeerState], peer: PeerId) -> Option<PeerState>
    ensures { result ≡ state_of states.now peer }
{
    match find_state(states, peer) {
        None => None,
        Some(state) => Some(*state),
    }
}

/// The bits of the sample of a peer, if one is kept.
pub fn sample_of(states: &[PeerState], peer: PeerId) -> Option<u32>
    ensures { result ≡ sample_of states.now peer }
{
    state_of(states, peer)?.sample
}

fn marked_at(peer: PeerId, mark: Mark, state: &PeerState) -> PeerState
    ensures { result ≡ marked_at peer mark state.now }
{
    let mut state = *state;
    if state.peer == peer {
        state.take(mark);
    }
    state
}

/// Notes this of a peer, if it is one.
fn mark_peer(states: &mut [PeerState], peer: PeerId, mark: Mark)
    ensures { states.new ≡ map (marked_at peer mark) states.old }
{
    for i in 0..states.len() {
        states[i] = marked_at(peer, mark, &states[i]);
    }
}

fn unsampled(state: &PeerState) -> PeerState
    ensures { result ≡ unsampled state.now }
{
    let mut state = *state;
    state.sample = None;
    state
}

/// Keeps no sample.
fn drop_samples(states: &mut [PeerState])
    ensures { states.new ≡ map unsampled states.old }
{
    for i in 0..states.len() {
        states[i] = unsampled(&states[i]);
    }
}

/// Notes what an input notes.
pub fn take_note(states: &mut Vec<PeerState>, note: &Note)
    ensures { states.new.items ≡ states_noted (note_in note.now) states.old.items }
{
    match note {
        Note::Nothing => {}
        Note::Ticked(peer) => mark_peer(states, *peer, Mark::Tick),
        Note::Sampled(peer, bits) => mark_peer(states, *peer, Mark::Sample(*bits)),
    }
}

/// For how many ticks a node makes no proposal to a peer that turned one down: the one with the lesser id waits
/// for fewer, so that two that turned each other down do not go on in step.
fn ticks_to_wait(own: PeerId, peer: PeerId) -> u8
    ensures { result ≡ ticks_to_wait own peer }
{
    if own < peer { 2 } else { 4 }
}

/// Does what a change of the node does to what is kept of its peers, but for a probe that ends.
pub fn note_change(states: &mut Vec<PeerState>, own: PeerId, change: &Change)
    ensures { states.new.items ≡ states_changed own change.now states.old.items }
{
    match change {
        Change::Turned(x) => mark_peer(states, x.peer, Mark::Wait(ticks_to_wait(own, x.peer))),
        Change::Snapped(_) | Change::Forgot(_) => drop_samples(states),
        Change::Asked(x) => mark_peer(states, x.peer, Mark::Asked),
        _ => {}
    }
}

/// Whether the node has the object on the peer, or the peer lost it and owes for it.
fn is_still_there(row: &Account, object: &Object) -> bool
    ensures { result ≡ still_there row.now.row object.now }
{
    row.has_out(object) || row.has_debt(object)
}

fn are_still_there(row: &Account, objects: &[Object]) -> bool
    ensures { result ≡ list_all (still_there row.now.row) objects.now }
{
    objects.iter().all(|object| is_still_there(row, object))
}

/// Whether a probe of the peer has no outcome yet, and each object that it asks for is still there, or in debt.
pub fn still_asked(row: &Account) -> bool
    ensures { result ≡ still_asked row.now.row }
{
    match row.asked() {
        None => false,
        Some((_, objects)) => are_still_there(row, objects.as_slice()),
    }
}

/// The peer of a change, if it is of one.
pub fn peer_of(change: &Change) -> Option<PeerId>
    ensures { result ≡ peer_of change.now }
{
    match change {
        Change::TookFresh(x) => Some(x.peer),
        Change::TookSwap(x) => Some(x.peer),
        Change::LetGo(x) => Some(x.peer),
        Change::LetGoBack(x) => Some(x.peer),
        Change::Replaced(x) => Some(x.peer),
        Change::Refused(x) => Some(x.peer),
        Change::Proposed(x) => Some(x.peer),
        Change::Settled(x) => Some(x.peer),
        Change::Turned(x) => Some(x.peer),
        Change::Asked(x) => Some(x.peer),
        Change::Passed(x) => Some(x.peer),
        Change::Failed(x) => Some(x.peer),
        Change::Declined(x) => Some(x.peer),
        Change::Discarded(x) => Some(x.peer),
        _ => None,
    }
}

/// Ends the probe of a change's peer that runs, where it has its outcome, or where what it asks for is there no longer.
/// The ledger is the one after the change.
pub fn note_probe(states: &mut Vec<PeerState>, ledger: &Ledger, peer: Option<PeerId>)
    ensures { states.new.items ≡ states_probed ledger.now.state peer states.old.items }
{
    if let Some(peer) = peer {
        let goes_on = still_asked(ledger.row(peer));
        mark_peer(states, peer, Mark::Probe { goes_on });
    }
}
