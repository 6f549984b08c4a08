//! The command `restore TICKET FOLDER TURNS`.
ghost use Rattle.std.specs.Prelude.{◌≡◌, ◌≢◌, ◌⊎◌, ℕ, Bool, List, [], None, Some, true, false, Err, IfSome, IfOk, IfErr, MatchResult, OnOk};
ghost use Rattle.psb_bytes.specs.declared.ids.Ticket.{Ticket as ATicket};
ghost use Rattle.psb_digest.specs.Clashes.{Pair};
ghost use Rattle.psb_station.specs.Calls.{Rose};
ghost use Rattle.psb_station.specs.Folder.{Lists, Tells_content};
ghost use Rattle.psb_station.specs.Span.{Tells_bytes};
ghost use Rattle.psb_settings.specs.declared.settings.Settings.{Settings};
ghost use Rattle.psb_model.specs.History.{state};
ghost use Rattle.psb_model.specs.Needed.{IsValid};
ghost use Rattle.psb_model.specs.declared.change.Change.{Change};
ghost use Rattle.psb_machine.specs.Machine.{fresh};
ghost use Rattle.node_history.specs.Stands.{HoldsHistory};
ghost use Rattle.node_core.specs.Stored.{Knows, Stored};
ghost use Rattle.node_serve.specs.Spans.{IsUp};
ghost use Rattle.snapshots.specs.Writing.{IsNotEmpty};
ghost use Rattle.backup_cli.specs.RestoredTo.{BackupsComeBack, Fares, HasBodies, IsSupplied, RestoresOn, RestoresTo, Stops, kept_ticket, status_of, ticket_at};
ghost use Rattle.said_lines.specs.Says.{Refuses};
ghost use Rattle.backup_cli.specs.Served.{IsNode};
ghost use Rattle.backup_cli.specs.declared.words.Which.TheVariants as named;

use crate::opening::open_or_refuse;
use crate::words::Which;
use node_core::Node;
use node_journal::Log;
use node_serve::join_all;
use psb_bytes::Ticket;
use psb_model::Snapshot;
use psb_station::{Folder, Station};
use said_lines::{SayError, Status, refuse, say_restored};
use snapshot_restore::{RestoreFault, Restored, restore};
use std::alloc::Global;

/// How the program ends for a fault of a restore.
fn status_of(fault: RestoreFault) -> Status
    ensures { result ≡ status_of fault }
{
    match fault {
        RestoreFault::Node(_) => Status::DiskFault,
        RestoreFault::Link => Status::LinkFault,
        RestoreFault::Folder => Status::FolderFault,
        RestoreFault::NotEmpty => Status::NotEmpty,
        RestoreFault::Missing { name } => Status::Missing(name),
        RestoreFault::Altered { name, got } => Status::Altered { name, got },
        RestoreFault::BadSkeleton { fault, place } => Status::BadSkeleton { fault, place },
        RestoreFault::Memory => Status::Memory,
    }
}

/// The ticket of the kept snapshot of a number.
fn kept_ticket(kept: &[Snapshot], number: u32) -> Option<Ticket>
    ensures { result ≡ kept_ticket kept.now number }
{
    for snapshot in kept {
        if snapshot.number == number {
            return Some(snapshot.ticket);
        }
    }
    None
}

/// The ticket of the snapshot that is named, or the number that no kept one has.
fn find_ticket(kept: &[Snapshot], which: &Which) -> Result<Ticket, u32>
    ensures found { IfOk result (λ t. ticket_at kept.now which.now ≡ Some t) }
    ensures absent { IfErr result (λ number. (which.now ≡ named.Number number) × (kept_ticket kept.now number ≡ None)) }
{
    match which {
        Which::Of(ticket) => Ok(*ticket),
        Which::Number(number) => match kept_ticket(kept, *number) {
            Some(ticket) => Ok(ticket),
            None => Err(*number),
        },
    }
}

/// Tells the link of the nodes, and restores the snapshot of a ticket.
fn restore_joined<L: Log, S: Station, F: Folder>(
    alloc: Global,
    node: &mut Node<L>,
    station: &mut S,
    folder: &mut F,
    ticket: &Ticket,
    path: &str,
    turns: u32,
) -> Result<Restored, Status>
    requires up { IsUp L.holds L.size L.keeps_body L.is_broken node.old (S.view station.old) }
    ensures tells { Tells_bytes (S.view station.new) → Tells_bytes (S.view station.old) }
    ensures fares { Tells_bytes (S.view station.new) → (h : List Change) (settings : Settings) → Knows node.old (fresh h) → (state h).settings ≡ Some settings
        → Stored L.holds node.old h (S.view station.old) → Fares L.holds L.stands L.is_broken node.old node.new h settings (S.view station.old) (S.view station.new) ticket.now path.now turns (F.view folder.old) (F.view folder.new) result }
    ensures empty { OnOk result (Tells_content (F.view folder.new) → IfSome (F.view folder.old).content (λ c. Lists c path.now [])) }
    ensures not_empty { result ≡ Err Status.NotEmpty → IfSome (F.view folder.new).content (λ c. IsNotEmpty c path.now) }
    ensures unbroken { (result ≡ Err Status.DiskFault) ⊎ (L.is_broken node.new.log ≡ false) }
    ensures unsaid { (S.view station.new).outside.say_faults ≡ (S.view station.old).outside.say_faults }
    ensures disk_cause { result ≡ Err Status.DiskFault → Rose (S.view station.old).disk_faults (S.view station.new).disk_faults }
    ensures disk { (result ≡ Err Status.DiskFault) ⊎ ((S.view station.new).disk_faults ≡ (S.view station.old).disk_faults) }
    ensures link_cause { result ≡ Err Status.LinkFault → Rose (S.view station.old).outside.link_faults (S.view station.new).outside.link_faults }
    ensures link { (result ≡ Err Status.LinkFault) ⊎ ((S.view station.new).outside.link_faults ≡ (S.view station.old).outside.link_faults) }
    ensures folder_cause { result ≡ Err Status.FolderFault → Rose (F.view folder.old).folder_faults (F.view folder.new).folder_faults }
    ensures folder { (result ≡ Err Status.FolderFault) ⊎ ((F.view folder.new).folder_faults ≡ (F.view folder.old).folder_faults) }
    ensures only { IfErr result Stops }
{
    match join_all(node, station) {
        Ok(()) => {}
        Err(_) => return Err(Status::LinkFault),
    }
    match restore(alloc, node, station, folder, ticket, path, turns) {
        Ok(restored) => Ok(restored),
        Err(fault) => Err(status_of(fault)),
    }
}

/// Restores a snapshot by a node that was opened, and says its line.
fn restore_opened<L: Log, S: Station, F: Folder>(
    alloc: Global,
    node: &mut Node<L>,
    station: &mut S,
    folder: &mut F,
    which: &Which,
    path: &str,
    turns: u32,
) -> Status
    requires up { IsUp L.holds L.size L.keeps_body L.is_broken node.old (S.view station.old) }
    ensures tells { Tells_bytes (S.view station.new) → Tells_bytes (S.view station.old) }
    ensures restores { Tells_bytes (S.view station.new) → (h : List Change) (settings : Settings) → Knows node.old (fresh h) → (state h).settings ≡ Some settings
        → Stored L.holds node.old h (S.view station.old) → RestoresOn L.stands h settings which.now path.now turns (S.view station.old) (S.view station.new) (F.view folder.old) (F.view folder.new) result }
    ensures empty { (result ≡ Status.Done) ⊎ (result ≡ Status.SayFault) → Tells_content (F.view folder.new) → IfSome (F.view folder.old).content (λ c. Lists c path.now []) }
    ensures not_empty { result ≡ Status.NotEmpty → IfSome (F.view folder.new).content (λ c. IsNotEmpty c path.now) }
    ensures disk_cause { result ≡ Status.DiskFault → Rose (S.view station.old).disk_faults (S.view station.new).disk_faults }
    ensures link_cause { result ≡ Status.LinkFault → Rose (S.view station.old).outside.link_faults (S.view station.new).outside.link_faults }
    ensures say_cause { result ≡ Status.SayFault → Rose (S.view station.old).outside.say_faults (S.view station.new).outside.say_faults }
    ensures folder_cause { result ≡ Status.FolderFault → Rose (F.view folder.old).folder_faults (F.view folder.new).folder_faults }
    ensures disk { (result ≡ Status.DiskFault) ⊎ ((S.view station.new).disk_faults ≡ (S.view station.old).disk_faults) }
    ensures link { (result ≡ Status.LinkFault) ⊎ ((S.view station.new).outside.link_faults ≡ (S.view station.old).outside.link_faults) }
    ensures folder { (result ≡ Status.FolderFault) ⊎ ((F.view folder.new).folder_faults ≡ (F.view folder.old).folder_faults) }
    ensures all_said { result ≡ Status.Done → (S.view station.new).outside.say_faults ≡ (S.view station.old).outside.say_faults }
    ensures only { (result ≢ Status.Usage) × (result ≢ Status.NotNode) × (result ≢ Status.Already) × (result ≢ Status.BadSettings) }
    ensures no_backup { (result ≢ Status.TooLarge) × ((c : Pair) → result ≢ Status.Clash c) }
    ensures number { (k : ℕ) → result ≡ Status.NoSnapshot k → which.now ≡ named.Number k }
{
    let ticket = match find_ticket(node.snapshots(), which) {
        Ok(ticket) => ticket,
        Err(number) => return refuse(station, Status::NoSnapshot(number)),
    };
    let restored = match restore_joined(alloc, node, station, folder, &ticket, path, turns) {
        Ok(restored) => restored,
        Err(status) => return refuse(station, status),
    };
    match say_restored(alloc, station, &restored) {
        Ok(()) => Status::Done,
        Err(SayError::Say) => Status::SayFault,
        Err(SayError::Memory) => refuse(station, Status::Memory),
    }
}

/// Restores a snapshot into an empty folder, by the node that the disk holds, and says its line.
pub(crate) fn restore_command<L: Log, S: Station, F: Folder>(
    alloc: Global,
    station: &mut S,
    folder: &mut F,
    which: &Which,
    path: &str,
    turns: u32,
) -> Status
    ensures restores { Tells_bytes (S.view station.new) → (h : List Change) (settings : Settings) → IsNode L.stands h (S.view station.old) → (state h).settings ≡ Some settings
        → (opened : Bool) × RestoresTo L.stands h settings which.now path.now turns opened (S.view station.old) (S.view station.new) (F.view folder.old) (F.view folder.new) result }
    ensures empty { (result ≡ Status.Done) ⊎ (result ≡ Status.SayFault) → Tells_content (F.view folder.new) → IfSome (F.view folder.old).content (λ c. Lists c path.now []) }
    ensures not_empty { result ≡ Status.NotEmpty → IfSome (F.view folder.new).content (λ c. IsNotEmpty c path.now) }

    // An answer for which the node was opened is no NotNode, so this is exact.
    ensures not_node { result ≡ Status.NotNode → Tells_bytes (S.view station.new) → IfSome (S.view station.old).bytes (λ b. (h : List Change) → IsValid h → ¬ HoldsHistory L.stands h b) }
    ensures opened { (result ≢ Status.NotNode) → (result ≢ Status.DiskFault) → (result ≢ Status.Memory)
        → Tells_bytes (S.view station.new) → IfSome (S.view station.old).bytes (λ b. (h : List Change) × IsValid h × HoldsHistory L.stands h b) }
    ensures unharmed { ((h : List Change) → ¬ IsNode L.stands h (S.view station.old)) → Tells_bytes (S.view station.new)
        → (c : List ℕ) (k : ℕ) → (S.view station.new).left_since (S.view station.old).moment c k → (S.view station.old).may_leave c }
    ensures refuses { ((h : List Change) → ¬ IsNode L.stands h (S.view station.old)) → Tells_bytes (S.view station.new)
        → Refuses result (S.view station.old) (S.view station.new) }
    ensures untouched { ((h : List Change) → ¬ IsNode L.stands h (S.view station.old)) → Tells_bytes (S.view station.new) → folder.new ≡ folder.old }
    ensures disk_cause { result ≡ Status.DiskFault → Rose (S.view station.old).disk_faults (S.view station.new).disk_faults }
    ensures link_cause { result ≡ Status.LinkFault → Rose (S.view station.old).outside.link_faults (S.view station.new).outside.link_faults }
    ensures say_cause { result ≡ Status.SayFault → Rose (S.view station.old).outside.say_faults (S.view station.new).outside.say_faults }
    ensures folder_cause { result ≡ Status.FolderFault → Rose (F.view folder.old).folder_faults (F.view folder.new).folder_faults }
    ensures disk { (result ≡ Status.DiskFault) ⊎ ((S.view station.new).disk_faults ≡ (S.view station.old).disk_faults) }
    ensures link { (result ≡ Status.LinkFault) ⊎ ((S.view station.new).outside.link_faults ≡ (S.view station.old).outside.link_faults) }
    ensures folder { (result ≡ Status.FolderFault) ⊎ ((F.view folder.new).folder_faults ≡ (F.view folder.old).folder_faults) }
    ensures all_said { result ≡ Status.Done → (S.view station.new).outside.say_faults ≡ (S.view station.old).outside.say_faults }
    ensures only { (result ≢ Status.Usage) × (result ≢ Status.Already) × (result ≢ Status.BadSettings) }
    ensures no_backup { (result ≢ Status.TooLarge) × ((c : Pair) → result ≢ Status.Clash c) }
    ensures number { (k : ℕ) → result ≡ Status.NoSnapshot k → which.now ≡ named.Number k }
{
    let mut node = match open_or_refuse::<L, S>(alloc, station) {
        Ok(node) => node,
        Err(status) => return status,
    };
    restore_opened(alloc, &mut node, station, folder, which, path, turns)
}

/// A restore is supplied where each place of its ticket has a body, of the node's own or among those that
/// come in its turns, and these form a skeleton.
pub fn bodies_supply<S: Station>(old: &S, new: &S)
    ensures { (h : List Change) (settings : Settings) (t : ATicket) (turns : ℕ) → HasBodies h settings t turns (S.view old.now) (S.view new.now)
        → IsSupplied h settings t turns (S.view old.now) (S.view new.now) }
{}

/// From folder to folder: what a backup said as its ticket, restored, is the folder's tree again, or
/// two unequal texts were met that share a SHA-256.
pub fn backups_come_back()
    ensures { BackupsComeBack }
{}
