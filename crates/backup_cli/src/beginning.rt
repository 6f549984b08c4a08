//! The command `init FILE`.
ghost use Rattle.std.specs.Prelude.{◌≡◌, ◌≢◌, ◌⊎◌, [], Some, IfSome, IfOk, IfErr, OnOk, OnErr};
ghost use Rattle.psb_station.specs.Calls.{Rose};
ghost use Rattle.psb_station.specs.Span.{Keeps, DiskWorks, Tells_bytes};
ghost use Rattle.backup_cli.specs.Files.{OnlyReads};
ghost use Rattle.backup_cli.specs.Begun.{IsEmpty, HasBegun, Begins, Stops};
ghost use Rattle.said_lines.specs.Status.{IsElsewhere};

use crate::files::{ReadError, read_file};
use node_core::{Fault, Node};
use node_journal::Log;
use psb_station::{Folder, Station};
use said_lines::{SayError, Status, refuse, say_node};
use std::alloc::Global;

/// The most bytes that are read of a settings file: one more than a settings text may have.
const MOST_BYTES: usize = 65_537;

/// Looks whether the disk is empty.
fn expect_empty<S: Station>(station: &mut S) -> Result<(), Status>
    ensures ok { OnOk result (Tells_bytes (S.view station.new) → IsEmpty (S.view station.old)) }
    ensures already { result ≡ Err Status.Already → Tells_bytes (S.view station.new) → IfSome (S.view station.old).bytes (λ b. b ≢ []) }
    ensures cause { result ≡ Err Status.DiskFault → Rose (S.view station.old).disk_faults (S.view station.new).disk_faults }
    ensures steady { (result ≡ Err Status.DiskFault) ⊎ ((S.view station.new).disk_faults ≡ (S.view station.old).disk_faults) }
    ensures only { OnErr result ((result ≡ Err Status.Already) ⊎ (result ≡ Err Status.DiskFault)) }
    ensures keeps { Keeps (S.view station.old) (S.view station.new) }
{
    match station.len() {
        Ok(0) => Ok(()),
        Ok(_) => Err(Status::Already),
        Err(_) => Err(Status::DiskFault),
    }
}

/// Begins a node on the station's disk with the settings in a file. The disk is looked at first.
fn begin_from<L: Log, S: Station, F: Folder>(
    alloc: Global,
    station: &mut S,
    folder: &mut F,
    file: &str,
) -> Result<Node<L>, Status>
    ensures empty { OnOk result (Tells_bytes (S.view station.new) → IsEmpty (S.view station.old)) }
    ensures begun { IfOk result (λ node. (b : HasBegun L.stands file.now (S.view station.old) (S.view station.new) (F.view folder.new))
        × (node.ledger.state.settings ≡ Some b.has.settings)) }
    ensures stops { IfErr result (λ status. Stops file.now (S.view station.old) (S.view station.new) (F.view folder.old) (F.view folder.new) status) }
    ensures works { DiskWorks (S.view station.old) (S.view station.new) }
    ensures reads { OnlyReads file.now (F.view folder.old) (F.view folder.new) }
    ensures order { (folder.new ≡ folder.old) ⊎ (Tells_bytes (S.view station.new) → IsEmpty (S.view station.old)) }
    ensures unread { result ≡ Err Status.Already → folder.new ≡ folder.old }
    ensures disk { (result ≡ Err Status.DiskFault) ⊎ ((S.view station.new).disk_faults ≡ (S.view station.old).disk_faults) }
    ensures folder { (result ≡ Err Status.FolderFault) ⊎ ((F.view folder.new).folder_faults ≡ (F.view folder.old).folder_faults) }
{
    match expect_empty(station) {
        Ok(()) => {}
        Err(status) => return Err(status),
    }
    let text = match read_file(alloc, folder, file, MOST_BYTES) {
        Ok(text) => text,
        Err(ReadError::Failed) => return Err(Status::FolderFault),
        Err(ReadError::Memory) => return Err(Status::Memory),
    };
    match Node::<L>::begin(alloc, station, &text) {
        Ok(node) => Ok(node),
        Err(Fault::BadSettings) => Err(Status::BadSettings),
        Err(Fault::DiskFault) => Err(Status::DiskFault),
        Err(_) => Err(Status::Memory),
    }
}

/// Begins a node with the settings in a file, and says its line.
pub(crate) fn init_command<L: Log, S: Station, F: Folder>(
    alloc: Global,
    station: &mut S,
    folder: &mut F,
    file: &str,
) -> Status
    ensures begins { Begins L.stands file.now (S.view station.old) (S.view station.new) (F.view folder.old) (F.view folder.new) result }

    // A disk that is not empty is refused before the file is read.
    ensures order { (folder.new ≡ folder.old) ⊎ (Tells_bytes (S.view station.new) → IsEmpty (S.view station.old)) }
    ensures unread { result ≡ Status.Already → folder.new ≡ folder.old }

    // The first fault decides: of no other device was there one before.
    ensures disk { (result ≡ Status.DiskFault) ⊎ ((S.view station.new).disk_faults ≡ (S.view station.old).disk_faults) }
    ensures link { (S.view station.new).outside.link_faults ≡ (S.view station.old).outside.link_faults }
    ensures folder { (result ≡ Status.FolderFault) ⊎ ((F.view folder.new).folder_faults ≡ (F.view folder.old).folder_faults) }
    ensures said { result ≡ Status.Done → (S.view station.new).outside.say_faults ≡ (S.view station.old).outside.say_faults }
    ensures elsewhere { IsElsewhere result }
{
    let node = match begin_from::<L, S, F>(alloc, station, folder, file) {
        Ok(node) => node,
        Err(status) => return refuse(station, status),
    };
    let Some(settings) = node.ledger().settings() else {
        unreachable!()
    };
    match say_node(
        alloc,
        station,
        settings.id.0,
        settings.peers.as_slice().len(),
    ) {
        Ok(()) => Status::Done,
        Err(SayError::Say) => Status::SayFault,
        Err(SayError::Memory) => refuse(station, Status::Memory),
    }
}
