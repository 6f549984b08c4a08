ghost use Rattle.std.specs.Prelude.{◌≡◌, ◌≤◌, ◌<◌, ◌+◌, true, false, length, [], IfSome};
ghost use Rattle.psb_station.specs.Memory.{view_of, IsFresh};
ghost use Rattle.node_journal.specs.Fits.{Fits};
ghost use Rattle.chunk_store.specs.Store.{record_of};

use crate::{Fit, NotThere, Owner, Store, StoreError};
use node_journal::{Log, LogError, PlainLog};
use psb_bytes::{Digest, PeerId};
use psb_digest::sha;
use psb_station::{Disk, MemStation};
use std::alloc::Global;
use std::test::Fail;

const PEER: Owner = Owner::Peer(PeerId(2));

fn disk_with(alloc: Global, faults: Vec<u64>) -> MemStation
    ensures { IsFresh [] (view_of result) }
{
    let image = Vec::new(alloc);
    MemStation::new(alloc, image, Vec::new(alloc), Vec::new(alloc), faults)
}

/// Appends a record with this body, and answers its number.
fn append<L: Log, D: Disk>(log: &mut L, disk: &mut D, body: &[u8]) -> Result<u64, LogError>
    requires limit { length body.now + 1 ≤ 67108864 }
    requires fits { L.is_broken log.old ≡ false → Fits (L.holds log.old) (D.view disk.old) }
    ensures fits { L.is_broken log.new ≡ false → Fits (L.holds log.new) (D.view disk.new) }
{
    if log.make_room(1, body.len()).is_err() {
        return Err(LogError::Memory);
    }
    log.append(disk, &[1], body)
}

/// Makes room and adds an owner that is not listed.
fn add(store: &mut Store, owner: &Owner, name: &Digest, record_no: u64) -> bool {
    if store.make_room().is_err() || store.holds(*owner, name) {
        return false;
    }
    store.add(*owner, name, record_no);
    true
}

/// Whether the body of a name can be read, where the name is held.
fn can_read<L: Log>(store: &Store, log: &L, name: &Digest) -> bool
    ensures whole { result ≡ true → L.is_broken log.now ≡ false }
    ensures below { result ≡ true → IfSome (record_of store.now name.now) (λ k. k < L.size log.now) }
    ensures there { result ≡ true → IfSome (record_of store.now name.now) (λ k. L.keeps_body log.now k ≡ true) }
{
    match store.record_of(name) {
        Some(number) => !log.broken() && number < log.count() && log.has_body(number),
        None => !log.broken(),
    }
}

/// Looks a body up by its own name.
fn look<L: Log, D: Disk>(
    alloc: Global,
    store: &Store,
    log: &mut L,
    disk: &mut D,
    owner: Owner,
    body: &[u8],
) -> Result<Fit, StoreError> {
    let name = sha(body);
    let mut scratch = Vec::new(alloc);
    if !can_read(store, log, &name) {
        return Err(StoreError::Memory);
    }
    store.look(log, disk, owner, &name, body, &mut scratch)
}

/// The body of a name that is held.
fn read<L: Log, D: Disk>(
    alloc: Global,
    store: &Store,
    log: &mut L,
    disk: &mut D,
    name: &Digest,
) -> Result<Option<Vec<u8>>, StoreError> {
    let mut body = Vec::new(alloc);
    if !can_read(store, log, name) {
        return Err(StoreError::Memory);
    }
    match store.read(log, disk, name, &mut body) {
        Ok(true) => Ok(Some(body)),
        Ok(false) => Ok(None),
        Err(error) => Err(error),
    }
}

#[test]
fn a_shared_body_stays_while_one_owner_has_it(rt: HostRuntime) -> Result<(), Fail> {
    let alloc = rt.alloc();
    let name = sha(b"ab");
    let mut disk = disk_with(alloc, Vec::new(alloc));
    let mut log = PlainLog::create(alloc, &mut disk, &[0], b"").expect(&rt, "a new log");
    assert_eq!(rt; append(&mut log, &mut disk, b"ab"), Ok(1));
    let mut store = Store::new(alloc);
    let fit = look(alloc, &store, &mut log, &mut disk, Owner::Own, b"ab");
    assert!(rt; matches!(&fit, Ok(Fit::New)));
    assert!(rt; add(&mut store, &Owner::Own, &name, 1));
    let fit = look(alloc, &store, &mut log, &mut disk, PEER, b"ab");
    assert!(rt; matches!(&fit, Ok(Fit::Shared)));
    assert!(rt; add(&mut store, &PEER, &name, 7));

    assert_eq!(rt; store.remove(Owner::Own, &name), Ok(false));
    assert!(rt; !store.holds(Owner::Own, &name) && store.holds(PEER, &name));
    let body = read(alloc, &store, &mut log, &mut disk, &name).expect(&rt, "a body");
    assert_eq!(rt; body.expect(&rt, "the body").as_slice(), b"ab".as_slice());
    assert_eq!(rt; store.remove(PEER, &name), Ok(true));
    let body = read(alloc, &store, &mut log, &mut disk, &name).expect(&rt, "no fault");
    assert!(rt; body.is_none());
    assert_eq!(rt; store.remove(PEER, &name), Err(NotThere));
    Ok(())
}

#[test]
fn names_are_told_apart_in_each_order(rt: HostRuntime) -> Result<(), Fail> {
    let mut store = Store::new(rt.alloc());
    for i in 0..40u8 {
        let name = Digest([i.wrapping_mul(37); 32]);
        assert!(rt; add(&mut store, &Owner::Own, &name, u64::from(i)), "{i}");
        assert!(rt; add(&mut store, &PEER, &name, 100), "{i}");
    }
    for i in 0..40u8 {
        let name = Digest([i.wrapping_mul(37); 32]);
        assert_eq!(rt; store.record_of(&name), Some(u64::from(i)));
        let (first, last) = if i % 2 == 0 {
            (PEER, Owner::Own)
        } else {
            (Owner::Own, PEER)
        };
        assert_eq!(rt; store.remove(first, &name), Ok(false), "{i}");
        assert_eq!(rt; store.record_of(&name), Some(u64::from(i)));
        assert_eq!(rt; store.remove(last, &name), Ok(true), "{i}");
        assert_eq!(rt; store.record_of(&name), None);
    }
    Ok(())
}

#[test]
fn what_is_held_is_tested_before_the_disk_is_read(rt: HostRuntime) -> Result<(), Fail> {
    let alloc = rt.alloc();
    let mut disk = disk_with(alloc, Vec::new(alloc));
    let mut log = PlainLog::create(alloc, &mut disk, &[0], b"other").expect(&rt, "a new log");
    let mut store = Store::new(alloc);
    // The record has other bytes than those of the name.
    assert!(rt; add(&mut store, &Owner::Own, &sha(b"ab"), 0));
    let calls = disk.call_count();
    let fit = look(alloc, &store, &mut log, &mut disk, Owner::Own, b"ab");
    assert!(rt; matches!(&fit, Err(StoreError::Already)));
    let fit = look(alloc, &store, &mut log, &mut disk, Owner::Own, b"new");
    assert!(rt; matches!(&fit, Ok(Fit::New)));
    assert_eq!(rt; disk.call_count(), calls);
    let fit = look(alloc, &store, &mut log, &mut disk, PEER, b"ab");
    assert!(rt; matches!(&fit, Err(StoreError::Altered)));
    assert_eq!(rt; disk.call_count(), calls.saturating_add(1));
    Ok(())
}

#[test]
fn a_fault_of_the_disk_is_answered_and_passes(rt: HostRuntime) -> Result<(), Fail> {
    let alloc = rt.alloc();
    let name = sha(b"ab");
    // The calls of `create` are 1 to 4.
    let mut disk = disk_with(alloc, vec![in alloc; 5u64, 6]?);
    let mut log = PlainLog::create(alloc, &mut disk, &[0], b"ab").expect(&rt, "a new log");
    let mut store = Store::new(alloc);
    assert!(rt; add(&mut store, &Owner::Own, &name, 0));
    let fit = look(alloc, &store, &mut log, &mut disk, PEER, b"ab");
    assert!(rt; matches!(&fit, Err(StoreError::DiskFault)));
    let body = read(alloc, &store, &mut log, &mut disk, &name);
    assert!(rt; matches!(&body, Err(StoreError::DiskFault)));
    let fit = look(alloc, &store, &mut log, &mut disk, PEER, b"ab");
    assert!(rt; matches!(&fit, Ok(Fit::Shared)));
    Ok(())
}
