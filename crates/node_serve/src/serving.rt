ghost use Rattle.std.specs.Prelude.{◌≡◌, ℕ, ◌⊎◌, ◌+◌, ◌*◌, ◌≤◌, List, [], ◌∷◌, Some, true, false, if◌then◌else◌, is_some, is_ok, IfOk, IsOk, OnOk, OnErr, length};
ghost use Rattle.psb_station.specs.Calls.{Rose};
ghost use Rattle.psb_station.specs.Span.{Tells_bytes};
ghost use Rattle.psb_settings.specs.Settings.{most_peers};
ghost use Rattle.psb_model.specs.declared.change.Change.{Change};
ghost use Rattle.psb_machine.specs.Machine.{Situation, fresh};
ghost use Rattle.psb_machine.specs.Course.{Absorb, datagrams};
ghost use Rattle.psb_machine.specs.Commands.{ticks};
ghost use Rattle.node_core.specs.declared.fault.Fault.TheVariants as fault;
ghost use Rattle.node_core.specs.Inputs.{input_of};
ghost use Rattle.node_core.specs.Stored.{Knows, Stored, IsCounted};
ghost use Rattle.node_serve.specs.Buffers.{last_of};
ghost use Rattle.node_serve.specs.Hears.{End, Stopped};
ghost use Rattle.node_serve.specs.Spans.{IsReady, Counts, Fed, Received, MadeTurn, RanTurns, ServedJustly};
ghost use Rattle.node_serve.specs.Turns.{IsEnd, IsEarly, OnlySends, peers_in, end_of, turned_counts, total_counts};

use crate::Buffer;
use crate::feeding::feed;
use node_core::{Fault, Input, Node};
use node_journal::Log;
use psb_bytes::{Items, Memory, PeerId};
use psb_station::Station;
use std::alloc::Global;
use thiserror::Error;

/// What came of a turn: how many datagrams came, how many of them were dropped, and how many letters were lost.
#[derive(Clone, Copy, Debug, PartialEq, Eq)]
pub struct Turned {
    pub taken: u32,
    pub dropped: u32,
    pub lost: u32,
}

/// What came of a serving: the turns made, the datagrams that came, those of them that were dropped, and the letters lost.
#[derive(Clone, Copy, Debug, PartialEq, Eq)]
pub struct Total {
    pub turns: u32,
    pub taken: u64,
    pub dropped: u64,
    pub lost: u64,
}

/// Why a turn or a serving ended.
#[derive(Drop, Debug, Error)]
pub enum ServeFault {
    /// The node gave up: the disk failed.
    #[error("the node gave up: {0}")]
    Node(Fault),
    /// The link failed to receive.
    #[error("the link failed")]
    Link,
    #[error("no memory")]
    Memory,
}

impl From<Fault> for ServeFault {
    ghost use Rattle.node_serve.specs.Turns.{serve_fault_of};

    ghost from_gives = { λ f e. e ≡ serve_fault_of f };

    fn from(fault: Fault) -> Self {
        match fault {
            Fault::Memory => ServeFault::Memory,
            fault => ServeFault::Node(fault),
        }
    }
}

/// How many claims are walked in a turn that hears nothing: some 20 milliseconds' work.
const IDLE_CLAIMS: u32 = 1024;

/// Takes a datagram where one is ready, absorbs it, and sends its letters. Where none is, some of the
/// node's claims are walked.
fn receive<L: Log, S: Station>(
    node: &mut Node<L>,
    station: &mut S,
    buffer: &mut Buffer,
) -> Result<Turned, ServeFault>
    requires ready { IsReady L.holds node.old (S.view station.old) }
    requires whole { L.is_broken node.old.log ≡ false }
    requires counted { IsCounted L.size L.keeps_body node.old }
    ensures tells { Tells_bytes (S.view station.new) → Tells_bytes (S.view station.old) }

    // What came is what the buffer tells.
    ensures ran { Received L.holds L.stands L.is_broken node.old node.new (S.view station.old) (S.view station.new) (turned_counts result) (end_of result) (last_of buffer.new) }
    ensures ready { OnOk result (IsReady L.holds node.new (S.view station.new)) }
    ensures counts { Counts (S.view station.old) (S.view station.new) }
    ensures unsaid { (S.view station.new).outside.say_faults ≡ (S.view station.old).outside.say_faults }
    ensures whole { OnOk result (L.is_broken node.new.log ≡ false) }
    ensures unbroken { (result ≡ Err ServeFault.Memory) ⊎ (result ≡ Err ServeFault.Link) → L.is_broken node.new.log ≡ false }
    ensures early { OnErr result (IsEarly (end_of result)) }
    ensures counted { OnOk result (IsCounted L.size L.keeps_body node.new) }
    ensures small { IfOk result (λ t. (t.taken + t.dropped ≤ 2) × (t.lost ≤ 2)) }
    ensures disk_cause { result ≡ Err (ServeFault.Node fault.DiskFault) → Rose (S.view station.old).disk_faults (S.view station.new).disk_faults }
    ensures steady { (result ≡ Err (ServeFault.Node fault.DiskFault)) ⊎ ((S.view station.new).disk_faults ≡ (S.view station.old).disk_faults) }
    ensures link_cause { result ≡ Err ServeFault.Link → Rose (S.view station.old).outside.link_faults (S.view station.new).outside.link_faults }
    ensures link { (result ≡ Err ServeFault.Link) ⊎ ((S.view station.new).outside.link_faults ≡ (S.view station.old).outside.link_faults) }
    ensures only { OnErr result ((result ≡ Err (ServeFault.Node fault.DiskFault)) ⊎ (result ≡ Err ServeFault.Link) ⊎ (result ≡ Err ServeFault.Memory)) }
{
    buffer.count = None;
    let count = match station.recv(&mut buffer.bytes) {
        Err(_) => return Err(ServeFault::Link),
        Ok(None) => {
            let _ = node.walk_claims(IDLE_CLAIMS);
            return Ok(Turned {
                taken: 0,
                dropped: 0,
                lost: 0,
            });
        }
        Ok(Some(count)) => count,
    };
    buffer.count = Some(count);
    match feed(node, station, &Input::Frame(&buffer.bytes[..count])) {
        Ok(turned) => Ok(turned),
        Err(fault) => Err(ServeFault::from(fault)),
    }
}

/// Gives the node a tick of each peer in order, and sends the letters.
fn tick_all<L: Log, S: Station>(
    node: &mut Node<L>,
    station: &mut S,
    peers: &[PeerId],
) -> Result<Turned, ServeFault>
    requires ready { IsReady L.holds node.old (S.view station.old) }
    requires whole { L.is_broken node.old.log ≡ false }
    requires counted { IsCounted L.size L.keeps_body node.old }
    requires few { length peers.now ≤ most_peers }
    ensures tells { Tells_bytes (S.view station.new) → Tells_bytes (S.view station.old) }
    ensures fed { Tells_bytes (S.view station.new) → (n : Situation) → Knows node.old n → Stored L.holds node.old n.history (S.view station.old)
        → Fed L.holds L.stands L.is_broken node.old node.new (S.view station.old) (S.view station.new) n (ticks peers.now) (turned_counts result) (is_ok result) }
    ensures only_sends { OnlySends (S.view station.old) (S.view station.new) }
    ensures ready { OnOk result (IsReady L.holds node.new (S.view station.new)) }
    ensures counts { Counts (S.view station.old) (S.view station.new) }
    ensures whole { OnOk result (L.is_broken node.new.log ≡ false) }
    ensures unbroken { result ≡ Err ServeFault.Memory → L.is_broken node.new.log ≡ false }
    ensures counted { OnOk result (IsCounted L.size L.keeps_body node.new) }
    ensures small { IfOk result (λ t. (t.taken + t.dropped ≤ 2 * most_peers) × (t.lost ≤ 2 * most_peers)) }
    ensures disk_cause { result ≡ Err (ServeFault.Node fault.DiskFault) → Rose (S.view station.old).disk_faults (S.view station.new).disk_faults }
    ensures steady { (result ≡ Err (ServeFault.Node fault.DiskFault)) ⊎ ((S.view station.new).disk_faults ≡ (S.view station.old).disk_faults) }
    ensures stops { OnErr result (end_of result ≡ Stopped) }
    ensures only { OnErr result ((result ≡ Err (ServeFault.Node fault.DiskFault)) ⊎ (result ≡ Err ServeFault.Memory)) }
{
    let mut sum = Turned {
        taken: 0,
        dropped: 0,
        lost: 0,
    };
    for peer in peers {
        let turned = match feed(node, station, &Input::Tick(*peer)) {
            Ok(turned) => turned,
            Err(fault) => return Err(ServeFault::from(fault)),
        };
        sum.taken += turned.taken;
        sum.dropped += turned.dropped;
        sum.lost += turned.lost;
    }
    Ok(sum)
}

/// Makes one turn: takes a datagram where one is ready, absorbs it, and sends its letters. Then it asks
/// the clock, and where that is above the call's clock, gives the node a tick of each peer.
pub fn turn<L: Log, S: Station>(
    node: &mut Node<L>,
    station: &mut S,
    buffer: &mut Buffer,
    peers: &[PeerId],
    clock: &mut u64,
) -> Result<Turned, ServeFault>
    requires ready { IsReady L.holds node.old (S.view station.old) }
    requires whole { L.is_broken node.old.log ≡ false }
    requires counted { IsCounted L.size L.keeps_body node.old }
    requires few { length peers.now ≤ most_peers }
    ensures tells { Tells_bytes (S.view station.new) → Tells_bytes (S.view station.old) }

    // It receives once and asks the clock once, whatever the disk is, and absorbs what comes of it. What
    // came, the buffer tells.
    ensures ran { MadeTurn L.holds L.stands L.is_broken peers.now clock.old clock.new node.old node.new (S.view station.old) (S.view station.new) (turned_counts result) (end_of result) (last_of buffer.new) }
    ensures ready { OnOk result (IsReady L.holds node.new (S.view station.new)) }
    ensures counts { Counts (S.view station.old) (S.view station.new) }
    ensures unsaid { (S.view station.new).outside.say_faults ≡ (S.view station.old).outside.say_faults }
    ensures whole { OnOk result (L.is_broken node.new.log ≡ false) }
    ensures unbroken { (result ≡ Err ServeFault.Memory) ⊎ (result ≡ Err ServeFault.Link) → L.is_broken node.new.log ≡ false }
    ensures counted { OnOk result (IsCounted L.size L.keeps_body node.new) }
    ensures small { IfOk result (λ t. (t.taken + t.dropped ≤ 2 * most_peers + 2) × (t.lost ≤ 2 * most_peers + 2)) }
    ensures disk_cause { result ≡ Err (ServeFault.Node fault.DiskFault) → Rose (S.view station.old).disk_faults (S.view station.new).disk_faults }
    ensures steady { (result ≡ Err (ServeFault.Node fault.DiskFault)) ⊎ ((S.view station.new).disk_faults ≡ (S.view station.old).disk_faults) }
    ensures link_cause { result ≡ Err ServeFault.Link → Rose (S.view station.old).outside.link_faults (S.view station.new).outside.link_faults }
    ensures link { (result ≡ Err ServeFault.Link) ⊎ ((S.view station.new).outside.link_faults ≡ (S.view station.old).outside.link_faults) }
    ensures only { OnErr result ((result ≡ Err (ServeFault.Node fault.DiskFault)) ⊎ (result ≡ Err ServeFault.Link) ⊎ (result ≡ Err ServeFault.Memory)) }
{
    let first = match receive(node, station, buffer) {
        Ok(turned) => turned,
        Err(fault) => return Err(fault),
    };
    let time = station.now();
    if time <= *clock {
        return Ok(first);
    }
    *clock = time;
    let then = match tick_all(node, station, peers) {
        Ok(turned) => turned,
        Err(fault) => return Err(fault),
    };
    Ok(Turned {
        taken: first.taken + then.taken,
        dropped: first.dropped + then.dropped,
        lost: first.lost + then.lost,
    })
}

/// The ids of the peers, in the order of the settings.
pub fn peers_of<L: Log>(alloc: Global, node: &Node<L>) -> Result<Items<PeerId>, Memory>
    ensures ids { IfOk result (λ ids. ids ≡ peers_in node.now.ledger.state.settings) }
{
    let mut ids = Vec::new(alloc);
    let Some(settings) = node.ledger().settings() else {
        return Ok(Items::from_vec(ids));
    };
    for peer in settings.peers.as_slice() {
        ids.push(peer.id)?;
    }
    Ok(Items::from_vec(ids))
}

/// Makes so many turns.
pub fn serve<L: Log, S: Station>(
    alloc: Global,
    node: &mut Node<L>,
    station: &mut S,
    turns: u32,
) -> Result<Total, ServeFault>
    requires ready { IsReady L.holds node.old (S.view station.old) }
    requires whole { L.is_broken node.old.log ≡ false }
    requires counted { IsCounted L.size L.keeps_body node.old }
    ensures tells { Tells_bytes (S.view station.new) → Tells_bytes (S.view station.old) }

    // So many turns, each with one `recv` and one `now`; and a failure of the link or of the node is the last.
    ensures ran { (e : End) × IsEnd result e × (clock : ℕ) × RanTurns L.holds L.stands L.is_broken (peers_in node.old.ledger.state.settings) 0 clock node.old node.new (S.view station.old) (S.view station.new) turns (total_counts result) e }

    // Unless its log broke: each change of the node's own probes has its reason, and none that answered is booked as silent.
    ensures just { L.is_broken node.new.log ≡ false → Tells_bytes (S.view station.new) → (h : List Change) → Knows node.old (fresh h) → Stored L.holds node.old h (S.view station.old)
        → ServedJustly L.holds node.new h (S.view station.new) }
    ensures unbroken { (result ≡ Err ServeFault.Memory) ⊎ (result ≡ Err ServeFault.Link) → L.is_broken node.new.log ≡ false }
    ensures whole { OnOk result (L.is_broken node.new.log ≡ false) }
    ensures counts { Counts (S.view station.old) (S.view station.new) }
    ensures ready { OnOk result (IsReady L.holds node.new (S.view station.new)) }
    ensures unsaid { (S.view station.new).outside.say_faults ≡ (S.view station.old).outside.say_faults }
    ensures turns { IfOk result (λ total. total.turns ≡ turns) }
    ensures disk_cause { result ≡ Err (ServeFault.Node fault.DiskFault) → Rose (S.view station.old).disk_faults (S.view station.new).disk_faults }
    ensures steady { (result ≡ Err (ServeFault.Node fault.DiskFault)) ⊎ ((S.view station.new).disk_faults ≡ (S.view station.old).disk_faults) }
    ensures link_cause { result ≡ Err ServeFault.Link → Rose (S.view station.old).outside.link_faults (S.view station.new).outside.link_faults }
    ensures link { (result ≡ Err ServeFault.Link) ⊎ ((S.view station.new).outside.link_faults ≡ (S.view station.old).outside.link_faults) }
    ensures only { OnErr result ((result ≡ Err (ServeFault.Node fault.DiskFault)) ⊎ (result ≡ Err ServeFault.Link) ⊎ (result ≡ Err ServeFault.Memory)) }
{
    let mut buffer = match Buffer::new(alloc) {
        Ok(buffer) => buffer,
        Err(_) => return Err(ServeFault::Memory),
    };
    let peers = match peers_of(alloc, node) {
        Ok(peers) => peers,
        Err(_) => return Err(ServeFault::Memory),
    };
    let mut clock = 0;
    let mut total = Total {
        turns,
        taken: 0,
        dropped: 0,
        lost: 0,
    };
    for _turn in 0..turns {
        let turned = match turn(node, station, &mut buffer, peers.as_slice(), &mut clock) {
            Ok(turned) => turned,
            Err(fault) => return Err(fault),
        };
        total.taken += u64::from(turned.taken);
        total.dropped += u64::from(turned.dropped);
        total.lost += u64::from(turned.lost);
    }
    Ok(total)
}
