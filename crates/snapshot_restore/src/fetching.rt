//! The body of a place: the node's own where that opens, or else the first that a peer answers with.
ghost use Rattle.std.specs.Prelude.{◌≡◌, ◌⊎◌, ◌∷◌, [], option_map, IfOk, IfErr, OnOk, OnErr};
ghost use Rattle.convergent_seal.specs.Sealing.{opened};
ghost use Rattle.psb_station.specs.Span.{Keeps};
ghost use Rattle.node_serve.specs.Spans.{IsUp};
ghost use Rattle.snapshot_restore.specs.Faults.{Neither, Faults, IsOfRead, IsOfTurn, IsOfPlace, failed};
ghost use Rattle.snapshot_restore.specs.Fetching.{IsBrought, came_in, Asks, HearsTurn, HearsPart, MakesRound, StopsRound, Awaits, StopsAwaiting, IsOwn, Takes, Stops};
ghost use Rattle.snapshot_restore.specs.Taken.{Taken};

use crate::RestoreFault;
use crate::waiting::{Brought, Waiting};
use convergent_seal::{OpenError, open};
use node_core::{Node, Peers};
use node_journal::Log;
use node_serve::{ask, turn};
use psb_bytes::{Items, Memory, Ref};
use psb_station::Station;
use std::alloc::Global;
use wire_codec::{BodyView, FrameView, decode};

/// After so many turns without a body the peers are asked again.
const TURNS_BETWEEN_ASKS: u32 = 8;

/// What a datagram brings for a place: nothing where it is no Here frame of a peer for its name.
fn brought(
    alloc: Global,
    peers: &Peers,
    datagram: Option<&[u8]>,
    reference: &Ref,
) -> Result<Brought, Memory>
    ensures { IfOk result (λ b. IsBrought reference.now (came_in peers.now reference.now.name (option_map (λ d. d.now) datagram.entry)) b) }
{
    let Some(datagram) = datagram else {
        return Ok(Brought::Nothing);
    };
    let Ok(FrameView { body, .. }) = decode(datagram, peers.own().id, peers.keys()) else {
        return Ok(Brought::Nothing);
    };
    let BodyView::Here { name, bytes } = body else {
        return Ok(Brought::Nothing);
    };
    if name != reference.name {
        return Ok(Brought::Nothing);
    }
    match open(alloc, reference, bytes) {
        Ok(plain) => Ok(Brought::Plain(plain)),
        Err(OpenError::Altered) => Ok(Brought::Other(Items::copy(alloc, bytes)?)),
        Err(OpenError::Memory) => Err(Memory),
    }
}

/// Sends a Get to each peer in front of each eighth turn of a place, the first among them.
fn ask_again<L: Log, S: Station>(
    node: &Node<L>,
    station: &mut S,
    reference: &Ref,
    made: u32,
) -> Result<(), RestoreFault>
    requires up { IsUp L.holds L.size L.keeps_body L.is_broken node.now (S.view station.old) }
    ensures asked { OnOk result (Asks L.holds L.stands L.is_broken node.now (S.view station.old) (S.view station.new) reference.now.name made) }
    ensures up { OnOk result (IsUp L.holds L.size L.keeps_body L.is_broken node.now (S.view station.new)) }
    ensures faults { Faults Neither (S.view station.old) (S.view station.new) }
    ensures untouched { OnErr result (station.new ≡ station.old) }
    ensures only { OnErr result (result ≡ Err RestoreFault.Memory) }
{
    if made % TURNS_BETWEEN_ASKS != 0 {
        return Ok(());
    }
    match ask(node, station, &reference.name) {
        Ok(_) => Ok(()),
        Err(fault) => Err(RestoreFault::from(fault)),
    }
}

/// Makes a turn, and answers what it brought for a place.
fn listen<L: Log, S: Station>(
    alloc: Global,
    node: &mut Node<L>,
    station: &mut S,
    waiting: &mut Waiting,
    reference: &Ref,
) -> Result<Brought, RestoreFault>
    requires up { IsUp L.holds L.size L.keeps_body L.is_broken node.old (S.view station.old) }
    ensures heard { IfOk result (λ b. HearsTurn L.holds L.stands L.is_broken waiting.old waiting.new node.old node.new (S.view station.old) (S.view station.new) reference.now b) }
    ensures stopped { IfErr result (λ e. HearsPart L.holds L.stands L.is_broken waiting.old waiting.new node.old node.new (S.view station.old) (S.view station.new) e) }
    ensures up { OnOk result (IsUp L.holds L.size L.keeps_body L.is_broken node.new (S.view station.new)) }
    ensures faults { Faults (failed result) (S.view station.old) (S.view station.new) }
    ensures only { IfErr result IsOfTurn }
{
    let Waiting {
        buffer,
        peers,
        clock,
        ..
    } = waiting;
    match turn(node, station, buffer, peers.as_slice(), clock) {
        Ok(_) => {}
        Err(fault) => return Err(RestoreFault::from(fault)),
    }
    match brought(alloc, node.peers(), buffer.last(), reference) {
        Ok(came) => Ok(came),
        Err(fault) => Err(RestoreFault::from(fault)),
    }
}

/// Makes a turn of a place, with the Gets in front of it, and answers what it brought.
fn make_round<L: Log, S: Station>(
    alloc: Global,
    node: &mut Node<L>,
    station: &mut S,
    waiting: &mut Waiting,
    reference: &Ref,
    made: u32,
) -> Result<Brought, RestoreFault>
    requires up { IsUp L.holds L.size L.keeps_body L.is_broken node.old (S.view station.old) }
    ensures made { IfOk result (λ b. MakesRound L.holds L.stands L.is_broken waiting.old waiting.new node.old node.new (S.view station.old) (S.view station.new) reference.now made b) }
    ensures stopped { IfErr result (λ e. StopsRound L.holds L.stands L.is_broken waiting.old waiting.new node.old node.new (S.view station.old) (S.view station.new) reference.now made e) }
    ensures up { OnOk result (IsUp L.holds L.size L.keeps_body L.is_broken node.new (S.view station.new)) }
    ensures faults { Faults (failed result) (S.view station.old) (S.view station.new) }
    ensures only { IfErr result IsOfTurn }
{
    match ask_again(node, station, reference, made) {
        Ok(()) => {}
        Err(fault) => return Err(fault),
    }
    match listen(alloc, node, station, waiting, reference) {
        Ok(came) => Ok(came),
        Err(fault) => Err(fault),
    }
}

/// Asks the peers for the body of a place, and makes turns until one that opens comes; the turn that brings
/// it is finished. Answers its plain bytes.
fn await_plain<L: Log, S: Station>(
    alloc: Global,
    node: &mut Node<L>,
    station: &mut S,
    waiting: &mut Waiting,
    reference: &Ref,
) -> Result<Vec<u8>, RestoreFault>
    requires up { IsUp L.holds L.size L.keeps_body L.is_broken node.old (S.view station.old) }
    ensures came { IfOk result (λ plain. Awaits L.holds L.stands L.is_broken waiting.old waiting.new node.old node.new (S.view station.old) (S.view station.new) reference.now plain.items) }
    ensures stopped { IfErr result (λ e. StopsAwaiting L.holds L.stands L.is_broken waiting.old waiting.new node.old node.new (S.view station.old) (S.view station.new) reference.now e) }
    ensures up { OnOk result (IsUp L.holds L.size L.keeps_body L.is_broken node.new (S.view station.new)) }
    ensures faults { Faults (failed result) (S.view station.old) (S.view station.new) }
    ensures only { IfErr result IsOfPlace }
{
    let mut last = None;
    for made in 0..waiting.turns {
        let came = match make_round(alloc, node, station, waiting, reference, made) {
            Ok(came) => came,
            Err(fault) => return Err(fault),
        };
        match came {
            Brought::Nothing => {}
            Brought::Other(body) => last = Some(body),
            Brought::Plain(plain) => return Ok(plain),
        }
    }
    let name = reference.name;
    match last {
        None => Err(RestoreFault::Missing { name }),
        Some(got) => Err(RestoreFault::Altered { name, got }),
    }
}

/// The plain bytes of the node's own body of a place, where it has one that opens.
fn own_plain<L: Log, S: Station>(
    alloc: Global,
    node: &mut Node<L>,
    station: &mut S,
    reference: &Ref,
) -> Result<Option<Vec<u8>>, RestoreFault>
    requires up { IsUp L.holds L.size L.keeps_body L.is_broken node.old (S.view station.old) }
    ensures own { IfOk result (λ o. IsOwn L.holds node.old (S.view station.old) (S.view station.new) reference.now (option_map (λ plain. plain.items) o)) }
    ensures same { node.new ≡ node.old }
    ensures keeps { Keeps (S.view station.old) (S.view station.new) }
    ensures faults { Faults (failed result) (S.view station.old) (S.view station.new) }
    ensures only { IfErr result IsOfRead }
{
    let mut body = Vec::new(alloc);
    match node.body(station, &reference.name, &mut body) {
        Ok(true) => {}
        Ok(false) => return Ok(None),
        Err(fault) => return Err(RestoreFault::from(fault)),
    }
    match open(alloc, reference, &body) {
        Ok(plain) => Ok(Some(plain)),
        Err(OpenError::Altered) => Ok(None),
        Err(OpenError::Memory) => Err(RestoreFault::Memory),
    }
}

/// The plain bytes of a place: those of the node's own body where that opens, or else of the first that
/// comes and opens.
pub(crate) fn fetch<L: Log, S: Station>(
    alloc: Global,
    node: &mut Node<L>,
    station: &mut S,
    waiting: &mut Waiting,
    reference: &Ref,
) -> Result<Vec<u8>, RestoreFault>
    requires up { IsUp L.holds L.size L.keeps_body L.is_broken node.old (S.view station.old) }
    ensures taken { IfOk result (λ plain. (t : Taken) × (t.reference ≡ reference.now) × (plain.items ≡ opened t.reference t.body)
        × Takes L.holds L.stands L.is_broken waiting.old waiting.new node.old node.new (S.view station.old) (S.view station.new) (t ∷ [])) }
    ensures stopped { IfErr result (λ e. Stops L.holds L.stands L.is_broken waiting.old waiting.new node.old node.new (S.view station.old) (S.view station.new) [] (reference.now ∷ []) e) }
    ensures up { OnOk result (IsUp L.holds L.size L.keeps_body L.is_broken node.new (S.view station.new)) }
    ensures faults { Faults (failed result) (S.view station.old) (S.view station.new) }
    ensures only { IfErr result IsOfPlace }
{
    match own_plain(alloc, node, station, reference) {
        Ok(Some(plain)) => return Ok(plain),
        Ok(None) => {}
        Err(fault) => return Err(fault),
    }
    match await_plain(alloc, node, station, waiting, reference) {
        Ok(plain) => Ok(plain),
        Err(fault) => Err(fault),
    }
}
