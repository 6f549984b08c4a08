//! The records of a log as the changes of a history.

ghost use Rattle.std.specs.Prelude.{◌≡◌, ◌⊎◌, ◌<◌, ◌^◌, List, [], ℕ, Some, None, true, false, IfSome, IfOk, OnOk, OnErr, slice_get};
ghost use Rattle.std.specs.Option.{option_map};
ghost use Rattle.psb_station.specs.Calls.{Rose};
ghost use Rattle.psb_station.specs.Span.{Shows, Tells_bytes, Keeps};
ghost use Rattle.node_journal.specs.Entry.{Entry};
ghost use Rattle.psb_model.specs.Grammar.{in_grammar};
ghost use Rattle.psb_model.specs.Conditions.{allowed, peer_of};
ghost use Rattle.psb_model.specs.History.{state};
ghost use Rattle.psb_model.specs.Needed.{brings, brings_name, slots_given, is_body, body_is_right, IsValid};
ghost use Rattle.psb_model.specs.declared.change.Change.{Change};
ghost use Rattle.psb_ledger.specs.View.{HasRoom};
ghost use Rattle.slot_places.specs.Moves.{IsMoved};
ghost use Rattle.slot_places.specs.Slots.{slot_record, HasSlotRoom, KnowsSlots, AreBelow};
ghost use Rattle.chunk_store.specs.Store.{has_room};
ghost use Rattle.change_codec.specs.Records.{IsRecord};
ghost use Rattle.node_history.specs.Readable.{IsReadable};
ghost use Rattle.node_history.specs.Stands.{AreDecoded};
ghost use Rattle.node_history.specs.Names.{KnowsNames, AreThere};
ghost use Rattle.node_history.specs.Lacking.{NotesLacking};
ghost use Rattle.psb_model.specs.Heads.{body_of};

use crate::ReadFault;
use crate::entering::Entering;
use crate::lacking::Lacking;
use change_codec::{ChangeError, decode_change};
use chunk_store::Store;
use node_journal::Log;
use psb_bytes::{Digest, Memory, PeerId};
use psb_digest::sha;
use psb_ledger::Ledger;
use psb_model::Change;
use psb_station::Disk;
use slot_places::{SlotTables, SlotsMoved};
use std::alloc::Global;

/// The name whose bytes a change brings.
fn brought_name(change: &Change) -> Option<Digest>
    ensures { result ≡ brings change.now }
{
    match change {
        Change::Kept(x) if x.new => Some(x.name),
        Change::TookFresh(x) if x.new => Some(x.name),
        Change::TookSwap(x) if x.new => Some(x.name),
        _ => None,
    }
}

/// Whether a change has the bytes of this name.
fn has_bytes(change: &Change, name: &Digest) -> bool
    ensures { result ≡ is_body (Some name.now) (body_of change.now) }
{
    match change.body() {
        None => false,
        Some(body) => sha(body) == *name,
    }
}

/// The change that a record is.
fn change_of(alloc: Global, head: &[u8], body: Option<&[u8]>) -> Result<Change, ReadFault>
    ensures readable { IfOk result IsReadable }
    ensures record_is { IfOk result (λ c. IsRecord c head.now (option_map (λ b. b.now) body.entry)) }
    ensures not_node { result ≡ Err ReadFault.NotNode → (c : Change) → IsReadable c → ¬ IsRecord c head.now (option_map (λ b. b.now) body.entry) }
    ensures only { OnErr result ((result ≡ Err ReadFault.NotNode) ⊎ (result ≡ Err ReadFault.Memory)) }
{
    match decode_change(alloc, head, body) {
        Ok(change) => Ok(change),
        Err(ChangeError::BadHead) => Err(ReadFault::NotNode),
        Err(ChangeError::Memory) => Err(ReadFault::Memory),
    }
}

/// Reads a record of the log, its body where that was not given up.
fn read_change<L: Log, D: Disk>(
    alloc: Global,
    log: &mut L,
    disk: &mut D,
    number: u64,
    head: &mut Vec<u8>,
    body: &mut Vec<u8>,
) -> Result<Change, ReadFault>
    requires whole { L.is_broken log.old ≡ false }
    requires below { number < L.size log.old }
    ensures readable { IfOk result IsReadable }
    ensures record_is { IfOk result (λ c. Tells_bytes (D.view disk.new) → (es : List Entry) → Shows (L.holds log.old es) (D.view disk.old)
        → IfSome (slice_get es number) (λ e. IsRecord c e.head e.body)) }
    // Where it has the bytes of a name that it brings, the log keeps them.
    ensures there { IfOk result (λ c. (name : List ℕ) → brings_name name c ≡ true → body_is_right c ≡ true → L.keeps_body log.old number ≡ true) }
    ensures not_node { result ≡ Err ReadFault.NotNode → Tells_bytes (D.view disk.new) → (es : List Entry) → Shows (L.holds log.old es) (D.view disk.old)
        → IfSome (slice_get es number) (λ e. (c : Change) → IsReadable c → ¬ IsRecord c e.head e.body) }
    ensures log { log.new ≡ log.old }
    ensures keeps { Keeps (D.view disk.old) (D.view disk.new) }
    ensures disk_cause { result ≡ Err ReadFault.DiskFault → Rose (D.view disk.old).disk_faults (D.view disk.new).disk_faults }
    ensures steady { (result ≡ Err ReadFault.DiskFault) ⊎ ((D.view disk.new).disk_faults ≡ (D.view disk.old).disk_faults) }
    ensures only { OnErr result ((result ≡ Err ReadFault.NotNode) ⊎ (result ≡ Err ReadFault.DiskFault) ⊎ (result ≡ Err ReadFault.Memory)) }
{
    log.head(disk, number, head)?;
    if log.has_body(number) {
        log.body(disk, number, body)?;
        change_of(alloc, head, Some(body.as_slice()))
    } else {
        change_of(alloc, head, None)
    }
}

/// Slots of a peer whose bytes a change gives.
#[derive(Clone, Copy)]
pub(crate) struct Given<'a> {
    pub(crate) peer: PeerId,
    pub(crate) slots: &'a [u32],
}

/// The slots whose bytes a change gives.
pub(crate) fn given_slots(change: &Change) -> Option<Given<'_>>
    ensures some { IfSome result (λ g. (brings change.now ≡ None) × (peer_of change.now ≡ Some g.peer) × (slots_given change.now ≡ g.slots.now)) }
    ensures none { result ≡ None → slots_given change.now ≡ [] }
{
    match change {
        Change::LetGoBack(x) => Some(Given {
            peer: x.peer,
            slots: x.slots.as_slice(),
        }),
        Change::Settled(x) => Some(Given {
            peer: x.peer,
            slots: x.slots.as_slice(),
        }),
        Change::Replaced(x) if x.place == 0 => Some(Given {
            peer: x.peer,
            slots: std::slice::from_ref(&x.slot),
        }),
        _ => None,
    }
}

/// Notes whether a change has the bytes that it brings, where it brings some.
fn note_name(lacking: &mut Lacking, change: &Change) -> Result<(), Memory>
    requires { slots_given change.now ≡ [] }
    ensures { OnOk result (NotesLacking lacking.old lacking.new change.now) }
{
    match brought_name(change) {
        None => Ok(()),
        Some(name) => lacking.note(&name, has_bytes(change, &name)),
    }
}

/// Notes whether a change has the bytes that it brings under a name, or gives to slots, where it does either.
fn note_lacking(lacking: &mut Lacking, change: &Change) -> Result<(), Memory>
    ensures { OnOk result (NotesLacking lacking.old lacking.new change.now) }
{
    match given_slots(change) {
        Some(given) => { lacking.note_slots(given.peer, given.slots, change.body().is_some()) }
        None => note_name(lacking, change),
    }
}

/// What was read of the changes that a log has: the ledger of the state that they give, the names
/// that are held, and the records that gave slots their bytes.
#[derive(Drop)]
pub struct Tables {
    pub ledger: Ledger,
    pub names: Store,
    pub slots: SlotTables,
}

/// Reads a history up, record by record: what was read so far, the names and slots that lack their bytes,
/// and the parts of the record that was read last.
#[derive(Drop)]
struct Reader {
    tables: Tables,
    lacking: Lacking,
    head: Vec<u8>,
    body: Vec<u8>,
}

impl Reader {
    ghost use Rattle.node_history.specs.Names.{SameNames, IsEntering};
    ghost use Rattle.node_history.specs.Reading.{IsFresh, AreOfSome, TakesUp, Reading, NoneLacks, OneLacks};

    /// Nothing was read. Takes no memory.
    fn new(alloc: Global) -> Reader
        ensures { IsFresh result }
    {
        Reader {
            tables: Tables {
                ledger: Ledger::new(alloc),
                names: Store::new(alloc),
                slots: SlotTables::new(alloc),
            },
            lacking: Lacking::new(alloc),
            head: Vec::new(alloc),
            body: Vec::new(alloc),
        }
    }

    /// Works out what a change does to the names, where it may come next, notes what it lacks, and takes all
    /// the memory that it wants.
    fn prepare(&mut self, alloc: Global, change: &Change) -> Result<Entering, ReadFault>
        requires known { AreOfSome self.old.tables }
        ensures state { self.new.tables.ledger.state ≡ self.old.tables.ledger.state }
        ensures names { SameNames self.old.tables.names self.new.tables.names }
        ensures slots { self.new.tables.slots ≡ self.old.tables.slots }
        ensures noted { OnOk result (NotesLacking self.old.lacking self.new.lacking change.now) }
        ensures ledger_room { OnOk result (HasRoom self.new.tables.ledger change.now) }
        ensures names_room { OnOk result (has_room self.new.tables.names ≡ true) }
        ensures entering { IfOk result (IsEntering self.old.tables.ledger.state change.now) }
        ensures allowed { OnOk result (allowed self.old.tables.ledger.state change.now ≡ true) }
        ensures not_node { result ≡ Err ReadFault.NotNode → allowed self.old.tables.ledger.state change.now ≡ false }
        ensures only { OnErr result ((result ≡ Err ReadFault.NotNode) ⊎ (result ≡ Err ReadFault.Memory)) }
    {
        note_lacking(&mut self.lacking, change)?;
        self.tables.names.make_room()?;
        self.tables.ledger.make_room(change)?;
        if !self.tables.ledger.allows(change) {
            return Err(ReadFault::NotNode);
        }
        Ok(Entering::of(alloc, &self.tables.ledger, change)?)
    }

    /// Works out what a change does to the records of slots, and takes all the memory that it wants.
    fn place_slots(&mut self, alloc: Global, change: &Change) -> Result<SlotsMoved, ReadFault>
        ensures ledger { self.new.tables.ledger ≡ self.old.tables.ledger }
        ensures names { self.new.tables.names ≡ self.old.tables.names }
        ensures lacking { self.new.lacking ≡ self.old.lacking }
        ensures slots { (p n : ℕ) → slot_record self.new.tables.slots p n ≡ slot_record self.old.tables.slots p n }
        ensures room { IfOk result (HasSlotRoom self.new.tables.slots) }
        ensures moved { IfOk result (IsMoved self.old.tables.ledger.state change.now) }
        ensures only { OnErr result (result ≡ Err ReadFault.Memory) }
    {
        let moved = SlotsMoved::of(alloc, &self.tables.ledger, change)?;
        self.tables.slots.make_room(&moved)?;
        Ok(moved)
    }

    /// Takes up a change that was read, where it may come next. Its record has this number.
    fn take_up(&mut self, alloc: Global, number: u64, change: Change) -> Result<(), ReadFault>
        requires grammar { in_grammar change ≡ true }
        requires few { self.old.tables.ledger.state.changes < 2 ^ 62 }
        requires known { AreOfSome self.old.tables }
        ensures taken { OnOk result (TakesUp self.old.tables self.new.tables self.old.lacking self.new.lacking change number) }
        ensures not_node { result ≡ Err ReadFault.NotNode → allowed self.old.tables.ledger.state change ≡ false }
        ensures only { OnErr result ((result ≡ Err ReadFault.NotNode) ⊎ (result ≡ Err ReadFault.Memory)) }
    {
        let entering = self.prepare(alloc, &change)?;
        let moved = self.place_slots(alloc, &change)?;
        self.tables.ledger.apply(change);
        entering.enter(&mut self.tables.names, number, &self.tables.ledger);
        self.tables.slots.enter(&moved, number, &self.tables.ledger);
        Ok(())
    }

    /// Reads the record with this number, and takes up its change.
    fn read_next<L: Log, D: Disk>(
        &mut self,
        alloc: Global,
        log: &mut L,
        disk: &mut D,
        number: u64,
    ) -> Result<(), ReadFault>
        requires whole { L.is_broken log.old ≡ false }
        requires below { number < L.size log.old }
        requires few { self.old.tables.ledger.state.changes < 2 ^ 62 }
        requires known { AreOfSome self.old.tables }
        ensures read { OnOk result ((c : Change) × IsReadable c × TakesUp self.old.tables self.new.tables self.old.lacking self.new.lacking c number
            × (Tells_bytes (D.view disk.new) → (es : List Entry) → Shows (L.holds log.old es) (D.view disk.old) → IfSome (slice_get es number) (λ e. IsRecord c e.head e.body))
            × ((name : List ℕ) → brings_name name c ≡ true → body_is_right c ≡ true → L.keeps_body log.old number ≡ true)) }
        ensures not_node { result ≡ Err ReadFault.NotNode → Tells_bytes (D.view disk.new) → (es : List Entry) → Shows (L.holds log.old es) (D.view disk.old)
            → IfSome (slice_get es number) (λ e. (c : Change) → IsReadable c → allowed self.old.tables.ledger.state c ≡ true → ¬ IsRecord c e.head e.body) }
        ensures log { log.new ≡ log.old }
        ensures keeps { Keeps (D.view disk.old) (D.view disk.new) }
        ensures disk_cause { result ≡ Err ReadFault.DiskFault → Rose (D.view disk.old).disk_faults (D.view disk.new).disk_faults }
        ensures steady { (result ≡ Err ReadFault.DiskFault) ⊎ ((D.view disk.new).disk_faults ≡ (D.view disk.old).disk_faults) }
        ensures only { OnErr result ((result ≡ Err ReadFault.NotNode) ⊎ (result ≡ Err ReadFault.DiskFault) ⊎ (result ≡ Err ReadFault.Memory)) }
    {
        let change = read_change(alloc, log, disk, number, &mut self.head, &mut self.body)?;
        self.take_up(alloc, number, change)
    }

    /// Reads all records of a log, of which there is at least one.
    fn read_all<L: Log, D: Disk>(
        &mut self,
        alloc: Global,
        log: &mut L,
        disk: &mut D,
    ) -> Result<(), ReadFault>
        requires whole { L.is_broken log.old ≡ false }
        requires fresh { IsFresh self.old }
        ensures some { OnOk result (0 < L.size log.old) }
        ensures read { OnOk result (Reading (L.holds log.old) (L.keeps_body log.old) (L.size log.old) self.new.tables self.new.lacking (D.view disk.old) (D.view disk.new)) }
        ensures not_node { result ≡ Err ReadFault.NotNode → Tells_bytes (D.view disk.new) → (es : List Entry) → Shows (L.holds log.old es) (D.view disk.old)
            → (h : List Change) → IsValid h → ¬ AreDecoded h es }
        ensures log { log.new ≡ log.old }
        ensures keeps { Keeps (D.view disk.old) (D.view disk.new) }
        ensures disk_cause { result ≡ Err ReadFault.DiskFault → Rose (D.view disk.old).disk_faults (D.view disk.new).disk_faults }
        ensures steady { (result ≡ Err ReadFault.DiskFault) ⊎ ((D.view disk.new).disk_faults ≡ (D.view disk.old).disk_faults) }
        ensures only { OnErr result ((result ≡ Err ReadFault.NotNode) ⊎ (result ≡ Err ReadFault.DiskFault) ⊎ (result ≡ Err ReadFault.Memory)) }
    {
        let count = log.count();
        if count == 0 {
            return Err(ReadFault::NotNode);
        }
        for number in 0..count {
            self.read_next(alloc, log, disk, number)?;
        }
        Ok(())
    }

    /// Whether a name that is held lacks its bytes, or a slot that is to have them here.
    fn lacks_any(&self) -> bool
        ensures some { result ≡ true → OneLacks self.now.tables self.now.lacking }
        ensures none { result ≡ false → NoneLacks self.now.tables self.now.lacking }
    {
        self.lacking.any_held(&self.tables.names) || self.lacking.any_direct(&self.tables.ledger)
    }

    /// What was read, where nothing lacks its bytes.
    fn finish(self) -> Result<Tables, ReadFault>
        ensures read { IfOk result (λ t. (t ≡ self.tables) × NoneLacks self.tables self.lacking) }
        ensures not_node { OnErr result (OneLacks self.tables self.lacking) }
        ensures only { OnErr result (result ≡ Err ReadFault.NotNode) }
    {
        if self.lacks_any() {
            return Err(ReadFault::NotNode);
        }
        let Reader { tables, .. } = self;
        Ok(tables)
    }
}

/// Reads the history that the records of a log are, once through. Whether a body is needed shows only at
/// the end, so that which names and slots lack theirs is noted, and looked at then.
pub fn read_history<L: Log, D: Disk>(
    alloc: Global,
    log: &mut L,
    disk: &mut D,
) -> Result<Tables, ReadFault>
    requires whole { L.is_broken log.old ≡ false }
    ensures read { IfOk result (λ past. (h : List Change) × IsValid h × (past.ledger.state ≡ state h) × KnowsNames past.names h
        × (Tells_bytes (D.view disk.new) → (es : List Entry) → Shows (L.holds log.old es) (D.view disk.old) → AreDecoded h es)
        × KnowsSlots past.slots h) }
    ensures counted { IfOk result (λ past. past.ledger.state.changes ≡ L.size log.old) }
    ensures there { IfOk result (λ past. AreThere past.names (L.size log.old) (L.keeps_body log.old)) }
    ensures below { IfOk result (λ past. AreBelow past.slots (L.size log.old)) }
    ensures not_node { result ≡ Err ReadFault.NotNode → Tells_bytes (D.view disk.new) → (es : List Entry) → Shows (L.holds log.old es) (D.view disk.old)
        → (h : List Change) → IsValid h → ¬ AreDecoded h es }
    ensures log { log.new ≡ log.old }
    ensures keeps { Keeps (D.view disk.old) (D.view disk.new) }
    ensures disk_cause { result ≡ Err ReadFault.DiskFault → Rose (D.view disk.old).disk_faults (D.view disk.new).disk_faults }
    ensures steady { (result ≡ Err ReadFault.DiskFault) ⊎ ((D.view disk.new).disk_faults ≡ (D.view disk.old).disk_faults) }
    ensures only { OnErr result ((result ≡ Err ReadFault.NotNode) ⊎ (result ≡ Err ReadFault.DiskFault) ⊎ (result ≡ Err ReadFault.Memory)) }
{
    let mut reader = Reader::new(alloc);
    reader.read_all(alloc, log, disk)?;
    reader.finish()
}
