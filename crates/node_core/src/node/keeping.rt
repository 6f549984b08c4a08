//! What a node makes of an input of its own. Nothing is written here.

ghost use Rattle.std.specs.Prelude.{◌≡◌, ◌⊎◌, ◌↔◌, ◌≤◌, ◌<◌, ◌+◌, ◌^◌, List, true, false, not, length, [], Some, None, IfSome, IfOk, OnOk, OnErr};
ghost use Rattle.psb_bytes.specs.Units.{longest_chunk};
ghost use Rattle.psb_digest.specs.Hashes.{sha as sha_of};
ghost use Rattle.psb_station.specs.Span.{Shows, Tells_bytes, Looked};
ghost use Rattle.node_journal.specs.Entry.{Entry};
ghost use Rattle.psb_model.specs.State.{State, is_held, snaps_made};
ghost use Rattle.psb_model.specs.History.{state};
ghost use Rattle.psb_model.specs.Needed.{IsValid};
ghost use Rattle.psb_model.specs.declared.change.Change.{Change};
ghost use Rattle.psb_machine.specs.Laws.{SnapFits};
ghost use Rattle.psb_machine.specs.Machine.{Situation, Keep, on_keep, on_snap, on_forget, kept_with, snapped_with, has_snapshot};
ghost use Rattle.chunk_store.specs.Store.{record_of};
ghost use Rattle.node_history.specs.Stands.{AreDecoded};
ghost use Rattle.node_history.specs.Names.{KnowsNames};
ghost use Rattle.node_core.specs.Refusing.{Compared, Refuses, when_taken};

use super::Node;
use crate::Fault;
use crate::reaction::{Reaction, made, no_letter, quiet};
use chunk_store::{Fit, Owner, Store, StoreError};
use node_journal::Log;
use psb_bytes::{Digest, Items, Memory};
use psb_ledger::Ledger;
use psb_machine::SnapNote;
use psb_model::{Change, Forgot, Kept, Snapped};
use psb_station::Disk;
use std::alloc::Global;

/// How bytes fit those that are held under their name. The disk is read only where some are held.
fn fits<L: Log, D: Disk>(
    alloc: Global,
    log: &mut L,
    disk: &mut D,
    names: &Store,
    name: &Digest,
    bytes: &[u8],
) -> Result<Fit, Fault>
    requires whole { L.is_broken log.old ≡ false }
    requires below { IfSome (record_of names.now name.now) (λ k. k < L.size log.old) }
    requires there { IfSome (record_of names.now name.now) (λ k. L.keeps_body log.old k ≡ true) }
    requires named { sha_of bytes.now ≡ name.now }
    ensures told { Tells_bytes (D.view disk.new) → (h : List Change) (es : List Entry) → IsValid h → KnowsNames names.now h → AreDecoded h es
        → Shows (L.holds log.old es) (D.view disk.old) → Compared h name.now bytes.now result }
    ensures new { (result ≡ Ok Fit.New) ↔ (record_of names.now name.now ≡ None) }
    ensures unread { result ≡ Ok Fit.New → disk.new ≡ disk.old }
    ensures log { log.new ≡ log.old }
    ensures looked { Looked (result ≡ Err Fault.DiskFault) (D.view disk.old) (D.view disk.new) }
    ensures reads { (D.view disk.new).write_faults ≡ (D.view disk.old).write_faults }
    ensures only { OnErr result ((result ≡ Err Fault.DiskFault) ⊎ (result ≡ Err Fault.Memory) ⊎ Refuses (Keep name.now bytes.now) result) }
{
    let mut scratch = Vec::new(alloc);
    match names.fit(log, disk, name, bytes, &mut scratch) {
        Ok(fit) => Ok(fit),
        Err(StoreError::Clash(clash)) => Err(Fault::Clash(clash)),
        Err(StoreError::Altered) => Err(Fault::Altered(*name)),
        Err(StoreError::DiskFault) => Err(Fault::DiskFault),
        Err(StoreError::Memory) => Err(Fault::Memory),
        Err(StoreError::Already) => unreachable!(),
    }
}

/// The change that keeps bytes under their name. `new` is whether none are held there.
fn kept(alloc: Global, name: &Digest, bytes: &[u8], new: bool) -> Result<Change, Memory>
    requires short { length bytes.now ≤ longest_chunk }
    ensures { IfOk result (λ c. (s : State) → new ≡ not (is_held s name.now) → c ≡ kept_with s name.now bytes.now) }
{
    let body = if new { bytes } else { &[] };
    Ok(Change::Kept(Kept {
        name: *name,
        len: bytes.len() as u32,
        new,
        body: Some(Items::copy(alloc, body)?),
    }))
}

/// The change that notes a snapshot.
fn snapped(alloc: Global, ledger: &Ledger, note: &SnapNote) -> Result<Change, Memory>
    requires more { snaps_made ledger.now.state < 4294967295 }
    ensures { IfOk result (λ c. c ≡ snapped_with ledger.now.state note.now) }
{
    let made = match ledger.snapped() {
        None => 0,
        Some(mark) => mark.number,
    };
    Ok(Change::Snapped(Snapped {
        number: made + 1,
        ticket: note.ticket,
        files: note.files,
        folders: note.folders,
        bytes: note.bytes,
        left: note.left,
        names: Items::copy(alloc, note.names.as_slice())?,
    }))
}

impl<L: Log> Node<L> {
    ghost use Rattle.node_core.specs.Stored.{Knows, Stored, IsCounted};
    ghost use Rattle.node_core.specs.Reacting.{Reacts, MayCome, IsSame};

    /// Keeps bytes under their name. Those that the node has for itself already change nothing.
    pub(super) fn on_keep<D: Disk>(
        &mut self,
        disk: &mut D,
        name: &Digest,
        bytes: &[u8],
    ) -> Result<Reaction, Fault>
        requires whole { L.is_broken self.old.log ≡ false }
        requires known { (n : Situation) × Knows self.old n }
        requires counted { IsCounted L.size L.keeps_body self.old }
        requires named { sha_of bytes.now ≡ name.now }
        requires some { 1 ≤ length bytes.now }
        requires short { length bytes.now ≤ longest_chunk }
        requires few { self.old.ledger.state.changes < 2 ^ 62 }
        ensures exact { IfOk result (λ r. Tells_bytes (D.view disk.new) → (n : Situation) → Knows self.old n → Stored L.holds self.old n.history (D.view disk.old) → Reacts r n (on_keep n name.now bytes.now)) }
        ensures compared { Tells_bytes (D.view disk.new) → (n : Situation) → Knows self.old n → Stored L.holds self.old n.history (D.view disk.old) → Compared n.history name.now bytes.now result }
        ensures unheld { IfOk result (λ r. (n : Situation) → Knows self.old n → is_held (state n.history) name.now ≡ false → Reacts r n (on_keep n name.now bytes.now)) }
        ensures taken { IfOk result (λ r. (n : Situation) → Knows self.old n → Reacts r n (when_taken n (Keep name.now bytes.now))) }
        ensures unread { (n : Situation) → Knows self.old n → is_held (state n.history) name.now ≡ false → disk.new ≡ disk.old }
        ensures dropped { IfOk result (λ r. r.dropped ≡ None) }
        ensures may { IfOk result (λ r. IfSome r.change (MayCome Knows self.old)) }
        ensures out { IfOk result (λ r. r.out ≡ []) }
        ensures same { IsSame self.old self.new }
        ensures looked { Looked (result ≡ Err Fault.DiskFault) (D.view disk.old) (D.view disk.new) }
        ensures reads { (D.view disk.new).write_faults ≡ (D.view disk.old).write_faults }
        ensures only { OnErr result ((result ≡ Err Fault.DiskFault) ⊎ (result ≡ Err Fault.Memory) ⊎ Refuses (Keep name.now bytes.now) result) }
    {
        let fit = match fits(self.alloc, &mut self.log, disk, &self.names, name, bytes) {
            Ok(fit) => fit,
            Err(fault) => return Err(fault),
        };
        if self.names.holds(Owner::Own, name) {
            return Ok(quiet(self.alloc, None));
        }
        let change = kept(self.alloc, name, bytes, fit == Fit::New)?;
        Ok(made(Some(change), no_letter(self.alloc)))
    }
    /// Notes a snapshot of chunks that the node keeps for itself.
    pub(super) fn on_snap(&self, note: &SnapNote) -> Result<Reaction, Fault>
        requires known { (n : Situation) × Knows self.now n }
        requires few { self.now.ledger.state.changes < 2 ^ 62 }
        requires fits { SnapFits self.now.ledger.state note.now }
        ensures exact { IfOk result (λ r. (n : Situation) → Knows self.now n → Reacts r n (on_snap n note.now)) }
        ensures may { IfOk result (λ r. IfSome r.change (MayCome Knows self.now)) }
        ensures out { IfOk result (λ r. r.out ≡ []) }
        ensures only { OnErr result (result ≡ Err Fault.Memory) }
    {
        let change = snapped(self.alloc, self.ledger.ledger(), note)?;
        Ok(made(Some(change), no_letter(self.alloc)))
    }

    /// Gives a snapshot up.
    pub(super) fn on_forget(&self, number: u32) -> Result<Reaction, Fault>
        requires known { (n : Situation) × Knows self.now n }
        requires few { self.now.ledger.state.changes < 2 ^ 62 }
        ensures exact { IfOk result (λ r. (n : Situation) → Knows self.now n → Reacts r n (on_forget n number)) }
        ensures there { OnOk result (has_snapshot self.now.ledger.state number ≡ true) }
        ensures absent { OnErr result (has_snapshot self.now.ledger.state number ≡ false) }
        ensures may { IfOk result (λ r. IfSome r.change (MayCome Knows self.now)) }
        ensures out { IfOk result (λ r. r.out ≡ []) }
        ensures only { OnErr result (result ≡ Err (Fault.NoSnapshot number)) }
    {
        if !self.ledger.ledger().has_snapshot(number) {
            return Err(Fault::NoSnapshot(number));
        }
        Ok(made(
            Some(Change::Forgot(Forgot { number })),
            no_letter(self.alloc),
        ))
    }
}
