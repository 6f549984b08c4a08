//! Bodies that are read from the log: whether one fits those that are held, and one by its name.

ghost use Rattle.std.specs.Prelude.{◌≡◌, ◌≢◌, ◌↔◌, ◌⊎◌, ◌<◌, ℕ, List, Some, None, true, false, slice_get, IsSome, IfSome, IfOk, OnOk, OnErr};
ghost use Rattle.psb_digest.specs.Hashes.{sha as sha_of};
ghost use Rattle.psb_digest.specs.Clashes.{Pair};
ghost use Rattle.psb_station.specs.Span.{Shows, Tells_bytes, Looked};
ghost use Rattle.node_journal.specs.Entry.{Entry};
ghost use Rattle.chunk_store.specs.Store.{record_of, is_owner};
ghost use Rattle.chunk_store.specs.Looks.{Compares, was_compared};

use crate::{Owner, Store, StoreError};
use node_journal::{Log, LogError};
use psb_bytes::Digest;
use psb_digest::Clash;
use psb_station::Disk;
use std::mem;

/// How a body fits what is held.
#[derive(Clone, Copy, PartialEq, Eq, Debug)]
pub enum Fit {
    /// Its name has no owner.
    New,
    /// Its bytes are held for another owner.
    Shared,
}

impl Store {
    /// Whether a body can be taken for an owner, who does not have its name yet: how it fits what is
    /// held.
    pub fn look<L: Log, D: Disk>(
        &self,
        log: &mut L,
        disk: &mut D,
        owner: Owner,
        name: &Digest,
        body: &[u8],
        scratch: &mut Vec<u8>,
    ) -> Result<Fit, StoreError>
        requires whole { L.is_broken log.old ≡ false }
        requires below { IfSome (record_of self.now name.now) (λ k. k < L.size log.old) }
        requires there { IfSome (record_of self.now name.now) (λ k. L.keeps_body log.old k ≡ true) }
        requires named { sha_of body.now ≡ name.now }
        ensures already { (result ≡ Err StoreError.Already) ↔ (is_owner self.now owner name.now ≡ true) }
        ensures new { (result ≡ Ok Fit.New) ↔ (record_of self.now name.now ≡ None) }
        ensures compared { Tells_bytes (D.view disk.new) → (es : List Entry) → Shows (L.holds log.old es) (D.view disk.old)
            → IfSome (record_of self.now name.now) (λ k. IfSome (slice_get es k) (λ e. IfSome e.body (λ held. Compares held body.now result))) }
        ensures shared { result ≡ Ok Fit.Shared → scratch.new.items ≡ body.now }
        ensures unread { (result ≡ Err StoreError.Already) ⊎ (result ≡ Ok Fit.New) → (disk.new ≡ disk.old) × (scratch.new ≡ scratch.old) }
        ensures log { log.new ≡ log.old }
        ensures looked { Looked (result ≡ Err StoreError.DiskFault) (D.view disk.old) (D.view disk.new) }
        ensures reads { (D.view disk.new).write_faults ≡ (D.view disk.old).write_faults }
    {
        if self.holds(owner, name) {
            return Err(StoreError::Already);
        }
        match self.fit(log, disk, name, body, scratch) {
            Ok(fit) => Ok(fit),
            Err(error) => Err(error),
        }
    }

    /// How a body fits what is held under its name, whoever owns that. Where the name is held, the
    /// held body is read into `scratch`, in place of what that held, and compared; a clash takes it
    /// from there. No more than one body is read. What a disk reads that was altered is no clash.
    pub fn fit<L: Log, D: Disk>(
        &self,
        log: &mut L,
        disk: &mut D,
        name: &Digest,
        body: &[u8],
        scratch: &mut Vec<u8>,
    ) -> Result<Fit, StoreError>
        requires whole { L.is_broken log.old ≡ false }
        requires below { IfSome (record_of self.now name.now) (λ k. k < L.size log.old) }
        requires there { IfSome (record_of self.now name.now) (λ k. L.keeps_body log.old k ≡ true) }
        requires named { sha_of body.now ≡ name.now }
        ensures new { (result ≡ Ok Fit.New) ↔ (record_of self.now name.now ≡ None) }
        ensures compared { Tells_bytes (D.view disk.new) → (es : List Entry) → Shows (L.holds log.old es) (D.view disk.old)
            → IfSome (record_of self.now name.now) (λ k. IfSome (slice_get es k) (λ e. IfSome e.body (λ held. Compares held body.now result))) }
        ensures clash { (c : Pair) → result ≡ Err (StoreError.Clash c) → c.second ≡ body.now }
        ensures shared { result ≡ Ok Fit.Shared → scratch.new.items ≡ body.now }
        ensures unread { result ≡ Ok Fit.New → (disk.new ≡ disk.old) × (scratch.new ≡ scratch.old) }
        ensures log { log.new ≡ log.old }
        ensures looked { Looked (result ≡ Err StoreError.DiskFault) (D.view disk.old) (D.view disk.new) }
        ensures reads { (D.view disk.new).write_faults ≡ (D.view disk.old).write_faults }
        ensures anyone { result ≢ Err StoreError.Already }
    {
        let Some(record_no) = self.record_of(name) else {
            return Ok(Fit::New);
        };
        read_body(log, disk, record_no, scratch)?;
        compare(scratch, body)
    }

    /// Reads the body of a name that has an owner into `into`, in place of what that held, and
    /// answers whether there is one.
    pub fn read<L: Log, D: Disk>(
        &self,
        log: &mut L,
        disk: &mut D,
        name: &Digest,
        into: &mut Vec<u8>,
    ) -> Result<bool, StoreError>
        requires whole { L.is_broken log.old ≡ false }
        requires below { IfSome (record_of self.now name.now) (λ k. k < L.size log.old) }
        requires there { IfSome (record_of self.now name.now) (λ k. L.keeps_body log.old k ≡ true) }
        ensures none { (result ≡ Ok false) ↔ (record_of self.now name.now ≡ None) }
        ensures bytes { OnOk result (Tells_bytes (D.view disk.new) → (es : List Entry) → Shows (L.holds log.old es) (D.view disk.old)
            → IfSome (record_of self.now name.now) (λ k. IfSome (slice_get es k) (λ e. e.body ≡ Some into.new.items))) }
        ensures unread { result ≡ Ok false → (disk.new ≡ disk.old) × (into.new ≡ into.old) }
        ensures log { log.new ≡ log.old }
        ensures looked { Looked (result ≡ Err StoreError.DiskFault) (D.view disk.old) (D.view disk.new) }
        ensures reads { (D.view disk.new).write_faults ≡ (D.view disk.old).write_faults }
        ensures only { OnErr result ((result ≡ Err StoreError.DiskFault) ⊎ (result ≡ Err StoreError.Memory)) }
        ensures memory { result ≡ Err StoreError.Memory → disk.new ≡ disk.old }
    {
        let Some(record_no) = self.record_of(name) else {
            return Ok(false);
        };
        read_body(log, disk, record_no, into)?;
        Ok(true)
    }
}

fn read_body<L: Log, D: Disk>(
    log: &mut L,
    disk: &mut D,
    record_no: u64,
    into: &mut Vec<u8>,
) -> Result<(), StoreError>
    requires whole { L.is_broken log.old ≡ false }
    requires below { record_no < L.size log.old }
    requires there { L.keeps_body log.old record_no ≡ true }
    ensures bytes { OnOk result (Tells_bytes (D.view disk.new) → (es : List Entry) → Shows (L.holds log.old es) (D.view disk.old)
        → IfSome (slice_get es record_no) (λ e. e.body ≡ Some into.new.items)) }
    ensures log { log.new ≡ log.old }
    ensures looked { Looked (result ≡ Err StoreError.DiskFault) (D.view disk.old) (D.view disk.new) }
    ensures reads { (D.view disk.new).write_faults ≡ (D.view disk.old).write_faults }
    ensures only { OnErr result ((result ≡ Err StoreError.DiskFault) ⊎ (result ≡ Err StoreError.Memory)) }
    ensures memory { result ≡ Err StoreError.Memory → disk.new ≡ disk.old }
{
    match log.body(disk, record_no, into) {
        Ok(()) => Ok(()),
        Err(LogError::DiskFault) => Err(StoreError::DiskFault),
        Err(LogError::Memory) => Err(StoreError::Memory),
        Err(LogError::NotLog | LogError::Broken) => unreachable!(),
    }
}

// Whether the offered body is the held one. A clash takes the held one over.
fn compare(held: &mut Vec<u8>, body: &[u8]) -> Result<Fit, StoreError>
    ensures compares { Compares held.old.items body.now result }
    ensures only { was_compared result ≡ true }
    ensures shared { result ≡ Ok Fit.Shared → held.new.items ≡ body.now }
    ensures clash { (c : Pair) → result ≡ Err (StoreError.Clash c) → c.second ≡ body.now }
{
    if held.as_slice() == body {
        return Ok(Fit::Shared);
    }
    let alloc = *held.allocator();
    let offered = body.to_vec(alloc)?;
    match Clash::of(mem::replace(held, Vec::new(alloc)), offered) {
        Some(clash) => Err(StoreError::Clash(clash)),
        None => Err(StoreError::Altered),
    }
}
