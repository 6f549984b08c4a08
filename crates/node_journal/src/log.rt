ghost use Rattle.std.specs.Prelude.{◌≡◌, ◌⊎◌, ◌≤◌, ◌<◌, ◌+◌, ◌^◌, ◌++◌, ◌↔◌, [], ◌∷◌, List, ℕ, Bool, Option, Some, true, false, is_some, length, slice_get, IfSome, IfOk, OnOk, OnErr};
ghost use Rattle.psb_station.specs.Calls.{Rose, Only};
ghost use Rattle.psb_station.specs.Span.{Shows, Tells_bytes, Leaves, DiskWorks, Keeps};
ghost use Rattle.node_journal.specs.declared.log.LogError.TheVariants.{DiskFault, Memory as OutOfMemory};
ghost use Rattle.node_journal.specs.Entry.{Entry, entry};
ghost use Rattle.node_journal.specs.Fits.{Fits};

use psb_bytes::Memory;
use psb_station::{Disk, Failed};
use std::alloc::{AllocError, AllocFailed, Global};
use thiserror::Error;

/// Why a call of a log failed.
#[derive(Clone, Copy, Debug, PartialEq, Eq, Error)]
pub enum LogError {
    /// The bytes of the disk are no log.
    #[error("the bytes are no log")]
    NotLog,
    /// The disk failed.
    #[error("the disk failed")]
    DiskFault,
    /// An earlier `append` of this log met a fault of the disk.
    #[error("the disk failed before: the log has to be opened again")]
    Broken,
    /// There was no memory.
    #[error("no memory")]
    Memory,
}

impl From<Failed> for LogError {
    ghost from_gives = { λ _ e. e ≡ DiskFault };

    fn from(_: Failed) -> Self {
        LogError::DiskFault
    }
}

impl From<AllocError> for LogError {
    ghost from_gives = { λ _ e. e ≡ OutOfMemory };

    fn from(_: AllocError) -> Self {
        LogError::Memory
    }
}

impl<T: Drop> From<AllocFailed<T>> for LogError {
    ghost from_gives = { λ _ e. e ≡ OutOfMemory };

    fn from(_: AllocFailed<T>) -> Self {
        LogError::Memory
    }
}

/// A list of records on a disk. Each has a head and a body, at most 67,108,864 bytes together, and
/// is counted from 0. The log does not keep the disk: each call is lent it.
pub trait Log: Sized + Drop {
    /// The image stands for these records.
    ghost stands: { List Entry → List ℕ → Type 0 };

    /// The image stands for these records, at the places that the log keeps.
    ghost holds: { Self → List Entry → List ℕ → Type 0 };

    /// How many records there are.
    ghost size: { Self → ℕ };

    /// The body of the record with this number was not given up.
    ghost keeps_body: { Self → ℕ → Bool };

    /// An append met a fault of the disk.
    ghost is_broken: { Self → Bool };

    /// Since the last append room was made for a record with a head and a body of these lengths.
    ghost has_room: { Self → ℕ → ℕ → Type 0 };

    /// Begins a log with one record on an empty disk. A crash within it may leave any bytes.
    fn create<D: Disk>(
        alloc: Global,
        disk: &mut D,
        head: &[u8],
        body: &[u8],
    ) -> Result<Self, LogError>
        requires empty { IfSome (D.view disk.old).bytes (λ b. b ≡ []) }
        requires limit { length head.now + length body.now ≤ 67108864 }
        ensures ok { IfOk result (λ log. Tells_bytes (D.view disk.new) → Shows (holds log (entry head.now body.now ∷ [])) (D.view disk.new)) }
        ensures whole { IfOk result (λ log. is_broken log ≡ false) }
        ensures size { IfOk result (λ log. size log ≡ 1) }
        ensures there { IfOk result (λ log. keeps_body log 0 ≡ true) }
        ensures works { DiskWorks (D.view disk.old) (D.view disk.new) }
        ensures disk_cause { result ≡ Err LogError.DiskFault → Rose (D.view disk.old).disk_faults (D.view disk.new).disk_faults }
        ensures steady { (result ≡ Err LogError.DiskFault) ⊎ ((D.view disk.new).disk_faults ≡ (D.view disk.old).disk_faults) }
        ensures only { OnErr result ((result ≡ Err LogError.DiskFault) ⊎ (result ≡ Err LogError.Memory)) }
        ensures memory { result ≡ Err LogError.Memory → disk.new ≡ disk.old };

    /// Opens the log on a disk. It syncs once before it reads, so that what it reads is what a
    /// later crash leaves.
    fn open<D: Disk>(alloc: Global, disk: &mut D) -> Result<Self, LogError>
        ensures ok { IfOk result (λ log. Fits (holds log) (D.view disk.new)) }
        ensures whole { IfOk result (λ log. is_broken log ≡ false) }
        ensures synced { OnOk result (IfSome (D.view disk.new).bytes (λ b. Only b (D.view disk.new))) }

        // An Ok is a list that the bytes stand for, so this is exact.
        ensures not_log { result ≡ Err LogError.NotLog → IfSome (D.view disk.new).bytes (λ b. (es : List Entry) → ¬ stands es b) }
        ensures keeps { Keeps (D.view disk.old) (D.view disk.new) }
        ensures disk_cause { result ≡ Err LogError.DiskFault → Rose (D.view disk.old).disk_faults (D.view disk.new).disk_faults }
        ensures steady { (result ≡ Err LogError.DiskFault) ⊎ ((D.view disk.new).disk_faults ≡ (D.view disk.old).disk_faults) }
        ensures only { OnErr result ((result ≡ Err LogError.NotLog) ⊎ (result ≡ Err LogError.DiskFault) ⊎ (result ≡ Err LogError.Memory)) };

    /// Makes the buffer from which a record of these lengths is written. Room made earlier stays.
    fn make_room(&mut self, head: usize, body: usize) -> Result<(), Memory>
        requires limit { head + body ≤ 67108864 }
        ensures room { OnOk result (has_room self.new head body) }
        ensures earlier { (h b : ℕ) → has_room self.old h b → has_room self.new h b }
        ensures holds { (es : List Entry) (c : List ℕ) → holds self.old es c → holds self.new es c }
        ensures size { size self.new ≡ size self.old }
        ensures bodies { (n : ℕ) → keeps_body self.new n ≡ keeps_body self.old n }
        ensures broken { is_broken self.new ≡ is_broken self.old };

    /// Adds a record at the end, and answers its number. It takes no memory. After its Ok each
    /// crash leaves the record. After a fault of the disk the log is broken.
    fn append<D: Disk>(&mut self, disk: &mut D, head: &[u8], body: &[u8]) -> Result<u64, LogError>
        requires room { is_broken self.old ≡ false → has_room self.old (length head.now) (length body.now) }
        requires fits { is_broken self.old ≡ false → Fits (holds self.old) (D.view disk.old) }

        ensures number { IfOk result (λ n. n ≡ size self.old) }
        ensures size { OnOk result (size self.new ≡ size self.old + 1) }
        ensures there { OnOk result (keeps_body self.new (size self.old) ≡ true) }
        ensures bodies { (n : ℕ) → n < size self.old → keeps_body self.new n ≡ keeps_body self.old n }
        ensures added { OnOk result (Tells_bytes (D.view disk.new) → (es : List Entry) → Shows (holds self.old es) (D.view disk.old)
            → Shows (holds self.new (es ++ entry head.now body.now ∷ [])) (D.view disk.new)) }
        ensures fits { is_broken self.new ≡ false → Fits (holds self.new) (D.view disk.new) }

        // A crash at any moment of the call leaves the records from before it, with the new one or without.
        ensures any_moment { is_broken self.old ≡ false → Tells_bytes (D.view disk.new) → (es : List Entry) → Shows (holds self.old es) (D.view disk.old)
            → Leaves (D.view disk.old) (D.view disk.new) (λ c k. (k ≡ (D.view disk.old).told) × (stands es c ⊎ stands (es ++ entry head.now body.now ∷ []) c)) }

        ensures works { DiskWorks (D.view disk.old) (D.view disk.new) }
        ensures disk_cause { result ≡ Err LogError.DiskFault → Rose (D.view disk.old).disk_faults (D.view disk.new).disk_faults }
        ensures steady { (result ≡ Err LogError.DiskFault) ⊎ ((D.view disk.new).disk_faults ≡ (D.view disk.old).disk_faults) }
        ensures write_cause { result ≡ Err LogError.DiskFault → Rose (D.view disk.old).write_faults (D.view disk.new).write_faults }
        ensures refused { (result ≡ Err LogError.Broken) ↔ (is_broken self.old ≡ true) }
        ensures untouched { is_broken self.old ≡ true → (disk.new ≡ disk.old) × (self.new ≡ self.old) }
        ensures breaks { (is_broken self.new ≡ true) ↔ ((is_broken self.old ≡ true) ⊎ (result ≡ Err LogError.DiskFault)) }
        ensures not_added { OnErr result (size self.new ≡ size self.old) }
        ensures only { OnErr result ((result ≡ Err LogError.DiskFault) ⊎ (result ≡ Err LogError.Broken)) };

    /// Reads the head of a record in place of what `into` held.
    fn head<D: Disk>(
        &mut self,
        disk: &mut D,
        number: u64,
        into: &mut Vec<u8>,
    ) -> Result<(), LogError>
        requires below { is_broken self.old ≡ false → number < size self.old }
        ensures bytes { OnOk result (Tells_bytes (D.view disk.new) → (es : List Entry) → Shows (holds self.old es) (D.view disk.old)
            → IfSome (slice_get es number) (λ e. into.new.items ≡ e.head)) }
        ensures log { self.new ≡ self.old }
        ensures keeps { Keeps (D.view disk.old) (D.view disk.new) }
        ensures reads { (D.view disk.new).write_faults ≡ (D.view disk.old).write_faults }
        ensures disk_cause { result ≡ Err LogError.DiskFault → Rose (D.view disk.old).disk_faults (D.view disk.new).disk_faults }
        ensures steady { (result ≡ Err LogError.DiskFault) ⊎ ((D.view disk.new).disk_faults ≡ (D.view disk.old).disk_faults) }
        ensures refused { (result ≡ Err LogError.Broken) ↔ (is_broken self.old ≡ true) }
        ensures untouched { is_broken self.old ≡ true → (disk.new ≡ disk.old) × (into.new ≡ into.old) }
        ensures only { OnErr result ((result ≡ Err LogError.Broken) ⊎ (result ≡ Err LogError.DiskFault) ⊎ (result ≡ Err LogError.Memory)) }
        ensures memory { result ≡ Err LogError.Memory → disk.new ≡ disk.old };

    /// Reads the body of a record in place of what `into` held.
    fn body<D: Disk>(
        &mut self,
        disk: &mut D,
        number: u64,
        into: &mut Vec<u8>,
    ) -> Result<(), LogError>
        requires below { is_broken self.old ≡ false → number < size self.old }
        requires there { is_broken self.old ≡ false → keeps_body self.old number ≡ true }
        ensures bytes { OnOk result (Tells_bytes (D.view disk.new) → (es : List Entry) → Shows (holds self.old es) (D.view disk.old)
            → IfSome (slice_get es number) (λ e. e.body ≡ Some into.new.items)) }
        ensures log { self.new ≡ self.old }
        ensures keeps { Keeps (D.view disk.old) (D.view disk.new) }
        ensures reads { (D.view disk.new).write_faults ≡ (D.view disk.old).write_faults }
        ensures disk_cause { result ≡ Err LogError.DiskFault → Rose (D.view disk.old).disk_faults (D.view disk.new).disk_faults }
        ensures steady { (result ≡ Err LogError.DiskFault) ⊎ ((D.view disk.new).disk_faults ≡ (D.view disk.old).disk_faults) }
        ensures refused { (result ≡ Err LogError.Broken) ↔ (is_broken self.old ≡ true) }
        ensures untouched { is_broken self.old ≡ true → (disk.new ≡ disk.old) × (into.new ≡ into.old) }
        ensures only { OnErr result ((result ≡ Err LogError.Broken) ⊎ (result ≡ Err LogError.DiskFault) ⊎ (result ≡ Err LogError.Memory)) }
        ensures memory { result ≡ Err LogError.Memory → disk.new ≡ disk.old };

    /// Whether the body of a record was not given up.
    fn has_body(&self, number: u64) -> bool
        requires below { number < size self.now }
        ensures { result ≡ keeps_body self.now number };

    /// Whether the log answers Broken.
    fn broken(&self) -> bool
        ensures { result ≡ is_broken self.now };

    /// How many records there are.
    fn count(&self) -> u64
        ensures value { result ≡ size self.now }
        ensures small { result < 2 ^ 62 };

    /// What an image holds it stands for.
    ghost holds_stands: { (log : Self) (es : List Entry) (c : List ℕ) → holds log es c → stands es c };

    /// The log has as many records as it counts.
    ghost holds_size: { (log : Self) (es : List Entry) (c : List ℕ) → holds log es c → size log ≡ length es };

    /// The bodies that were not given up are there, and the others are not.
    ghost holds_bodies: { (log : Self) (es : List Entry) (c : List ℕ) (n : ℕ) → holds log es c → IfSome (slice_get es n) (λ e. is_some e.body ≡ keeps_body log n) };

    /// An image stands for one list of records.
    ghost stands_one: { (c : List ℕ) (es fs : List Entry) → stands es c → stands fs c → es ≡ fs };

    /// A record takes at least 9 bytes of a disk of at most 2^62.
    ghost size_small: { (log : Self) → size log < 2 ^ 62 };

    /// Where there is room for a record there is room for a shorter one.
    ghost room_shorter: { (log : Self) (h b less_h less_b : ℕ) → less_h ≤ h → less_b ≤ b → has_room log h b → has_room log less_h less_b };
}
