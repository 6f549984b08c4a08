//! The saying of lines, each in one call.

ghost use Rattle.std.specs.Prelude.{◌≡◌, ℕ, List, [], map, Some, is_some, true, OnOk, OnErr};
ghost use Rattle.psb_station.specs.Calls.{Rose};
ghost use Rattle.psb_settings.specs.declared.settings.Settings.{Settings};
ghost use Rattle.node_serve.specs.Turns.{total_tally};
ghost use Rattle.said_lines.specs.Lines.{debt_line as debt_text, turns_line as turns_text, node_line as node_text, snapshot_line as snapshot_text, forgot_line as forgot_text, restored_line as restored_text};
ghost use Rattle.said_lines.specs.Says.{OnlySays, Utters, IsRefusal, SaysLines, line_of_row, lines_of_row, peer_lines, ledger_lines, lines_at};

use crate::lines::{debt_line, node_line, peer_line, restored_line, snapshot_line, turns_line};
use crate::short_line::ShortLine;
use crate::status::Status;
use node_serve::Total;
use psb_ledger::Ledger;
use psb_model::{DebtEntry, Snapshot};
use psb_settings::PeerRow;
use psb_station::{Failed, Station};
use snapshot_restore::Restored;
use std::alloc::Global;

/// Why the lines were not all said.
#[derive(Clone, Copy, Debug, PartialEq, Eq)]
pub enum SayError {
    /// A saying failed.
    Say,
    Memory,
}

/// Says a text in one call.
fn say_text<S: Station>(station: &mut S, text: &[u8]) -> Result<(), Failed>
    ensures ok { OnOk result (Utters (S.view station.old) (S.view station.new) 1 text.now) }
    ensures err { OnErr result (Utters (S.view station.old) (S.view station.new) 1 []) }
    ensures cause { OnErr result (Rose (S.view station.old).outside.say_faults (S.view station.new).outside.say_faults) }
    ensures steady { OnOk result ((S.view station.new).outside.say_faults ≡ (S.view station.old).outside.say_faults) }
{
    station.say(text)
}

/// Says the line of a refusal once, and passes over its failure.
pub fn refuse<S: Station>(station: &mut S, status: Status) -> Status
    ensures same { result ≡ status }
    ensures said { (text : List ℕ) × Utters (S.view station.old) (S.view station.new) 1 text × IsRefusal status text (S.view station.old) (S.view station.new) }
    ensures only_says { OnlySays (S.view station.old) (S.view station.new) }
{
    let _ = say_text(station, status.refusal().as_bytes());
    status
}

/// Says the line of a peer.
fn say_peer<S: Station>(
    alloc: Global,
    station: &mut S,
    ledger: &Ledger,
    peer: &PeerRow,
) -> Result<(), SayError>
    ensures ok { OnOk result (Utters (S.view station.old) (S.view station.new) 1 (line_of_row ledger.now.state peer.now)) }
    ensures say { result ≡ Err SayError.Say → Utters (S.view station.old) (S.view station.new) 1 []
        × Rose (S.view station.old).outside.say_faults (S.view station.new).outside.say_faults }
    ensures memory { result ≡ Err SayError.Memory → station.new ≡ station.old }
    ensures steady { OnOk result ((S.view station.new).outside.say_faults ≡ (S.view station.old).outside.say_faults) }
{
    let balance = ledger.balance(peer.id);
    let line = match peer_line(alloc, peer.id.0, balance.held, balance.back, balance.debt) {
        Ok(line) => line,
        Err(_) => return Err(SayError::Memory),
    };
    match say_text(station, line.as_bytes()) {
        Ok(()) => Ok(()),
        Err(_) => Err(SayError::Say),
    }
}

/// Says the line of the turns.
fn say_turns<S: Station>(alloc: Global, station: &mut S, total: &Total) -> Result<(), SayError>
    ensures ok { OnOk result (Utters (S.view station.old) (S.view station.new) 1 (turns_text total.now.turns total.now.taken total.now.dropped total.now.lost)) }
    ensures say { result ≡ Err SayError.Say → Utters (S.view station.old) (S.view station.new) 1 []
        × Rose (S.view station.old).outside.say_faults (S.view station.new).outside.say_faults }
    ensures memory { result ≡ Err SayError.Memory → station.new ≡ station.old }
    ensures steady { OnOk result ((S.view station.new).outside.say_faults ≡ (S.view station.old).outside.say_faults) }
{
    let line = match turns_line(alloc, total.turns, total.taken, total.dropped, total.lost) {
        Ok(line) => line,
        Err(_) => return Err(SayError::Memory),
    };
    match say_text(station, line.as_bytes()) {
        Ok(()) => Ok(()),
        Err(_) => Err(SayError::Say),
    }
}

/// Says the lines of the peers, in the order of the settings.
fn say_peers<S: Station>(alloc: Global, station: &mut S, ledger: &Ledger) -> Result<(), SayError>
    requires { is_some ledger.now.state.settings ≡ true }
    ensures says { (settings : Settings) → ledger.now.state.settings ≡ Some settings
        → SaysLines (peer_lines settings ledger.now.state) (S.view station.old) (S.view station.new) result }
    ensures steady { OnOk result ((S.view station.new).outside.say_faults ≡ (S.view station.old).outside.say_faults) }
    ensures only_says { OnlySays (S.view station.old) (S.view station.new) }
{
    let Some(settings) = ledger.settings() else {
        unreachable!()
    };
    for peer in settings.peers.as_slice() {
        match say_peer(alloc, station, ledger, peer) {
            Ok(()) => {}
            Err(error) => return Err(error),
        }
    }
    Ok(())
}

/// Says the line of a row of debt.
fn say_debt<S: Station>(alloc: Global, station: &mut S, debt: &DebtEntry) -> Result<(), SayError>
    ensures ok { OnOk result (Utters (S.view station.old) (S.view station.new) 1 (debt_text debt.now)) }
    ensures say { result ≡ Err SayError.Say → Utters (S.view station.old) (S.view station.new) 1 []
        × Rose (S.view station.old).outside.say_faults (S.view station.new).outside.say_faults }
    ensures memory { result ≡ Err SayError.Memory → station.new ≡ station.old }
    ensures steady { OnOk result ((S.view station.new).outside.say_faults ≡ (S.view station.old).outside.say_faults) }
{
    let line = match debt_line(alloc, debt) {
        Ok(line) => line,
        Err(_) => return Err(SayError::Memory),
    };
    match say_text(station, line.as_bytes()) {
        Ok(()) => Ok(()),
        Err(_) => Err(SayError::Say),
    }
}

/// Says the lines of rows of debt, in their order.
fn say_debts<S: Station>(
    alloc: Global,
    station: &mut S,
    debts: &[DebtEntry],
) -> Result<(), SayError>
    ensures says { SaysLines (map debt_text debts.now) (S.view station.old) (S.view station.new) result }
    ensures steady { OnOk result ((S.view station.new).outside.say_faults ≡ (S.view station.old).outside.say_faults) }
    ensures only_says { OnlySays (S.view station.old) (S.view station.new) }
{
    for debt in debts {
        match say_debt(alloc, station, debt) {
            Ok(()) => {}
            Err(error) => return Err(error),
        }
    }
    Ok(())
}

/// Says the lines of a peer: that of its numbers, and those of the rows of its debt.
fn say_account<S: Station>(
    alloc: Global,
    station: &mut S,
    ledger: &Ledger,
    peer: &PeerRow,
) -> Result<(), SayError>
    ensures says { SaysLines (lines_of_row ledger.now.state peer.now) (S.view station.old) (S.view station.new) result }
    ensures steady { OnOk result ((S.view station.new).outside.say_faults ≡ (S.view station.old).outside.say_faults) }
    ensures only_says { OnlySays (S.view station.old) (S.view station.new) }
{
    match say_peer(alloc, station, ledger, peer) {
        Ok(()) => say_debts(alloc, station, ledger.row(peer.id).debts()),
        Err(error) => Err(error),
    }
}

/// Says the lines of all peers with the rows of their debt, in the order of the settings.
pub fn say_ledger<S: Station>(
    alloc: Global,
    station: &mut S,
    ledger: &Ledger,
) -> Result<(), SayError>
    requires { is_some ledger.now.state.settings ≡ true }
    ensures says { (settings : Settings) → ledger.now.state.settings ≡ Some settings
        → SaysLines (ledger_lines settings ledger.now.state) (S.view station.old) (S.view station.new) result }
    ensures steady { OnOk result ((S.view station.new).outside.say_faults ≡ (S.view station.old).outside.say_faults) }
    ensures only_says { OnlySays (S.view station.old) (S.view station.new) }
{
    let Some(settings) = ledger.settings() else {
        unreachable!()
    };
    for peer in settings.peers.as_slice() {
        match say_account(alloc, station, ledger, peer) {
            Ok(()) => {}
            Err(error) => return Err(error),
        }
    }
    Ok(())
}

/// Says the line of a kept snapshot.
pub fn say_snapshot<S: Station>(
    alloc: Global,
    station: &mut S,
    snapshot: &Snapshot,
) -> Result<(), SayError>
    ensures ok { OnOk result (Utters (S.view station.old) (S.view station.new) 1 (snapshot_text snapshot.now)) }
    ensures say { result ≡ Err SayError.Say → Utters (S.view station.old) (S.view station.new) 1 []
        × Rose (S.view station.old).outside.say_faults (S.view station.new).outside.say_faults }
    ensures memory { result ≡ Err SayError.Memory → station.new ≡ station.old }
    ensures steady { OnOk result ((S.view station.new).outside.say_faults ≡ (S.view station.old).outside.say_faults) }
{
    let line = match snapshot_line(alloc, snapshot) {
        Ok(line) => line,
        Err(_) => return Err(SayError::Memory),
    };
    match say_text(station, line.as_bytes()) {
        Ok(()) => Ok(()),
        Err(_) => Err(SayError::Say),
    }
}

/// Says the lines of kept snapshots, in their order.
pub fn say_snapshots<S: Station>(
    alloc: Global,
    station: &mut S,
    kept: &[Snapshot],
) -> Result<(), SayError>
    ensures says { SaysLines (map snapshot_text kept.now) (S.view station.old) (S.view station.new) result }
    ensures steady { OnOk result ((S.view station.new).outside.say_faults ≡ (S.view station.old).outside.say_faults) }
    ensures only_says { OnlySays (S.view station.old) (S.view station.new) }
{
    for snapshot in kept {
        match say_snapshot(alloc, station, snapshot) {
            Ok(()) => {}
            Err(error) => return Err(error),
        }
    }
    Ok(())
}

/// Says the lines of a serving: those of the peers, and that of the turns.
pub fn say_lines<S: Station>(
    alloc: Global,
    station: &mut S,
    ledger: &Ledger,
    total: &Total,
) -> Result<(), SayError>
    requires { is_some ledger.now.state.settings ≡ true }
    ensures says { (settings : Settings) → ledger.now.state.settings ≡ Some settings
        → SaysLines (lines_at settings ledger.now.state total.now.turns (total_tally total.now)) (S.view station.old) (S.view station.new) result }
    ensures steady { OnOk result ((S.view station.new).outside.say_faults ≡ (S.view station.old).outside.say_faults) }
    ensures only_says { OnlySays (S.view station.old) (S.view station.new) }
{
    match say_peers(alloc, station, ledger) {
        Ok(()) => say_turns(alloc, station, total),
        Err(error) => Err(error),
    }
}

/// Says the line of a node that has begun.
pub fn say_node<S: Station>(
    alloc: Global,
    station: &mut S,
    id: u32,
    peers: usize,
) -> Result<(), SayError>
    ensures ok { OnOk result (Utters (S.view station.old) (S.view station.new) 1 (node_text id peers)) }
    ensures say { result ≡ Err SayError.Say → Utters (S.view station.old) (S.view station.new) 1 []
        × Rose (S.view station.old).outside.say_faults (S.view station.new).outside.say_faults }
    ensures memory { result ≡ Err SayError.Memory → station.new ≡ station.old }
    ensures steady { OnOk result ((S.view station.new).outside.say_faults ≡ (S.view station.old).outside.say_faults) }
{
    let line = match node_line(alloc, id, peers) {
        Ok(line) => line,
        Err(_) => return Err(SayError::Memory),
    };
    match say_text(station, line.as_bytes()) {
        Ok(()) => Ok(()),
        Err(_) => Err(SayError::Say),
    }
}

/// Says the line of a snapshot that was restored.
pub fn say_restored<S: Station>(
    alloc: Global,
    station: &mut S,
    restored: &Restored,
) -> Result<(), SayError>
    ensures ok { OnOk result (Utters (S.view station.old) (S.view station.new) 1 (restored_text restored.now.files restored.now.folders restored.now.bytes)) }
    ensures say { result ≡ Err SayError.Say → Utters (S.view station.old) (S.view station.new) 1 []
        × Rose (S.view station.old).outside.say_faults (S.view station.new).outside.say_faults }
    ensures memory { result ≡ Err SayError.Memory → station.new ≡ station.old }
    ensures steady { OnOk result ((S.view station.new).outside.say_faults ≡ (S.view station.old).outside.say_faults) }
{
    let line = match restored_line(alloc, restored.files, restored.folders, restored.bytes) {
        Ok(line) => line,
        Err(_) => return Err(SayError::Memory),
    };
    match say_text(station, line.as_bytes()) {
        Ok(()) => Ok(()),
        Err(_) => Err(SayError::Say),
    }
}

/// Says the line of a snapshot that was given up. Takes no memory.
pub fn say_forgot<S: Station>(station: &mut S, number: u32) -> Result<(), Failed>
    ensures ok { OnOk result (Utters (S.view station.old) (S.view station.new) 1 (forgot_text number)) }
    ensures err { OnErr result (Utters (S.view station.old) (S.view station.new) 1 []) }
    ensures cause { OnErr result (Rose (S.view station.old).outside.say_faults (S.view station.new).outside.say_faults) }
    ensures steady { OnOk result ((S.view station.new).outside.say_faults ≡ (S.view station.old).outside.say_faults) }
{
    let line = ShortLine::of_number(b"forgot ", number, b"\n");
    say_text(station, line.as_bytes())
}
