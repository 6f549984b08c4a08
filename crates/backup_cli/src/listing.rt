//! The commands `ledger` and `snapshots`.
ghost use Rattle.std.specs.Prelude.{◌≡◌, ◌≢◌, ◌⊎◌, Bool, List, ℕ, true, is_some, Some, IfSome, OnOk};
ghost use Rattle.psb_digest.specs.Clashes.{Pair};
ghost use Rattle.psb_station.specs.Calls.{Rose};
ghost use Rattle.psb_station.specs.Span.{Tells_bytes};
ghost use Rattle.psb_settings.specs.declared.settings.Settings.{Settings};
ghost use Rattle.psb_model.specs.History.{state};
ghost use Rattle.psb_model.specs.Needed.{IsValid};
ghost use Rattle.psb_model.specs.declared.change.Change.{Change};
ghost use Rattle.node_history.specs.Stands.{HoldsHistory};
ghost use Rattle.said_lines.specs.Says.{OnlySays, SaysLines, Refuses};
ghost use Rattle.said_lines.specs.Status.{IsElsewhere};
ghost use Rattle.backup_cli.specs.Served.{IsNode};
ghost use Rattle.backup_cli.specs.Listed.{Lists, listed_lines};

use crate::opening::open_or_refuse;
use node_journal::Log;
use psb_ledger::Ledger;
use psb_station::Station;
use said_lines::{SayError, Status, refuse, say_ledger, say_snapshots};
use std::alloc::Global;

/// What is told of a node.
#[derive(Clone, Copy, Debug, PartialEq, Eq)]
pub(crate) enum Listing {
    /// Its peers, in the order of the settings, each with the rows of its debt.
    Peers,
    /// Its kept snapshots, by number.
    Snapshots,
}

/// Says the lines of a listing.
fn say_listing<S: Station>(
    alloc: Global,
    station: &mut S,
    ledger: &Ledger,
    listing: Listing,
) -> Result<(), SayError>
    requires { is_some ledger.now.state.settings ≡ true }
    ensures says { (settings : Settings) → ledger.now.state.settings ≡ Some settings
        → SaysLines (listed_lines listing settings ledger.now.state) (S.view station.old) (S.view station.new) result }
    ensures steady { OnOk result ((S.view station.new).outside.say_faults ≡ (S.view station.old).outside.say_faults) }
    ensures only_says { OnlySays (S.view station.old) (S.view station.new) }
{
    match listing {
        Listing::Peers => say_ledger(alloc, station, ledger),
        Listing::Snapshots => say_snapshots(alloc, station, ledger.kept()),
    }
}

/// Says the lines of a listing of the node that the disk holds. Nothing is changed, and the link is not used.
pub(crate) fn list_command<L: Log, S: Station>(
    alloc: Global,
    station: &mut S,
    listing: Listing,
) -> Status
    ensures lists { Tells_bytes (S.view station.new) → (h : List Change) (settings : Settings) → IsNode L.stands h (S.view station.old) → (state h).settings ≡ Some settings
        → (opened : Bool) × Lists L.stands h (listed_lines listing settings (state h)) opened (S.view station.old) (S.view station.new) result }

    // Whatever the disk is, nothing is joined, heard or sent, and the clock is not asked.
    ensures quiet { (S.view station.new).outside ≡ record (S.view station.old).outside { said = (S.view station.new).outside.said; say_faults = (S.view station.new).outside.say_faults } }

    // An answer for which the node was opened is no NotNode, so this is exact.
    ensures not_node { result ≡ Status.NotNode → Tells_bytes (S.view station.new) → IfSome (S.view station.old).bytes (λ b. (h : List Change) → IsValid h → ¬ HoldsHistory L.stands h b) }
    ensures opened { (result ≡ Status.Done) ⊎ (result ≡ Status.SayFault)
        → Tells_bytes (S.view station.new) → IfSome (S.view station.old).bytes (λ b. (h : List Change) × IsValid h × HoldsHistory L.stands h b) }
    ensures unharmed { Tells_bytes (S.view station.new) → (c : List ℕ) (k : ℕ) → (S.view station.new).left_since (S.view station.old).moment c k → (S.view station.old).may_leave c }
    ensures refuses { ((h : List Change) → ¬ IsNode L.stands h (S.view station.old)) → Tells_bytes (S.view station.new)
        → Refuses result (S.view station.old) (S.view station.new) }
    ensures disk_cause { result ≡ Status.DiskFault → Rose (S.view station.old).disk_faults (S.view station.new).disk_faults }
    ensures say_cause { result ≡ Status.SayFault → Rose (S.view station.old).outside.say_faults (S.view station.new).outside.say_faults }
    ensures disk { (result ≡ Status.DiskFault) ⊎ ((S.view station.new).disk_faults ≡ (S.view station.old).disk_faults) }
    ensures link { (S.view station.new).outside.link_faults ≡ (S.view station.old).outside.link_faults }
    ensures all_said { result ≡ Status.Done → (S.view station.new).outside.say_faults ≡ (S.view station.old).outside.say_faults }
    ensures only { (result ≢ Status.Usage) × (result ≢ Status.LinkFault) }
    ensures no_begin { (result ≢ Status.FolderFault) × (result ≢ Status.Already) × (result ≢ Status.BadSettings) }
    ensures no_backup { (result ≢ Status.TooLarge) × ((c : Pair) → result ≢ Status.Clash c) }
    ensures no_number { (k : ℕ) → result ≢ Status.NoSnapshot k }
    ensures elsewhere { IsElsewhere result }
{
    let node = match open_or_refuse::<L, S>(alloc, station) {
        Ok(node) => node,
        Err(status) => return status,
    };
    match say_listing(alloc, station, node.ledger(), listing) {
        Ok(()) => Status::Done,
        Err(SayError::Say) => Status::SayFault,
        Err(SayError::Memory) => refuse(station, Status::Memory),
    }
}
