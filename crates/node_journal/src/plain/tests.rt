ghost use Rattle.std.specs.Prelude.{◌≡◌, ◌≤◌, ◌+◌, [], false, length, All};
ghost use Rattle.psb_station.specs.Memory.{view_of, IsFresh};
ghost use Rattle.node_journal.specs.Fits.{Fits};

use super::*;
use psb_station::{MemStation, Planned, StationCall, TornWrite};
use std::test::Fail;

const TWO_RECORDS: [u8; 39] = [
    0x50, 0x53, 0x42, 0x4c, 0x4f, 0x47, 0x30, 0x31, 0, 0, 0, 0, 0, 0, 0, 0, // the magic
    1, 0, 0, 0, 1, 0, 0, 0, 2, 1, 0x61, 0x62, // head 01, body "ab"
    1, 0, 0, 0, 1, 0, 0, 0, 0, 2, // head 02, no body
    0,
];

fn disk_with(alloc: Global, image: Vec<u8>, faults: Vec<u64>) -> MemStation
    ensures { IsFresh image.items (view_of result) }
{
    MemStation::new(alloc, image, Vec::new(alloc), Vec::new(alloc), faults)
}

/// Makes room for a record and appends it.
fn add<L: Log, D: Disk>(
    log: &mut L,
    disk: &mut D,
    head: &[u8],
    body: &[u8],
) -> Result<u64, LogError>
    requires limit { length head.now + length body.now ≤ 67108864 }
    requires fits { L.is_broken log.old ≡ false → Fits (L.holds log.old) (D.view disk.old) }
    ensures fits { L.is_broken log.new ≡ false → Fits (L.holds log.new) (D.view disk.new) }
{
    if log.make_room(head.len(), body.len()).is_err() {
        return Err(LogError::Memory);
    }
    log.append(disk, head, body)
}

/// Whether the log has a record of this number with this head and this body.
fn has_record(
    alloc: Global,
    log: &mut PlainLog,
    disk: &mut MemStation,
    number: u64,
    head: &[u8],
    body: &[u8],
) -> Result<bool, LogError> {
    if number >= log.count() {
        return Ok(false);
    }
    let mut into = Vec::new(alloc);
    log.head(disk, number, &mut into)?;
    let same = into.as_slice() == head;
    log.body(disk, number, &mut into)?;
    Ok(same && into.as_slice() == body)
}

/// What the disk reads.
fn bytes_of(alloc: Global, disk: &mut MemStation) -> Result<Vec<u8>, Fail> {
    let mut bytes = vec![in alloc; 0u8; 100]?;
    let count = disk.read(0, &mut bytes).unwrap_or(0);
    bytes.truncate(count);
    Ok(bytes)
}

#[test]
fn records_are_written_and_read(rt: HostRuntime) -> Result<(), Fail> {
    let alloc = rt.alloc();
    let mut first = TWO_RECORDS[..29].to_vec(alloc)?;
    first[28] = 0;
    let mut disk = disk_with(alloc, Vec::new(alloc), Vec::new(alloc));
    assert!(rt; PlainLog::create(alloc, &mut disk, &[1], b"ab").is_ok());
    assert_eq!(rt; bytes_of(alloc, &mut disk)?, first);

    let mut disk = disk_with(alloc, Vec::new(alloc), Vec::new(alloc));
    let mut log = PlainLog::create(alloc, &mut disk, &[1], b"ab").expect(&rt, "a new log");
    assert_eq!(rt; add(&mut log, &mut disk, &[2], &[]), Ok(1));
    assert_eq!(rt;
        bytes_of(alloc, &mut disk)?.as_slice(),
        TWO_RECORDS.as_slice()
    );
    assert_eq!(rt; log.count(), 2);

    let mut into = Vec::new(alloc);
    into.push(9)?;
    assert_eq!(rt; log.head(&mut disk, 1, &mut into), Ok(()));
    assert_eq!(rt; into.as_slice(), [2u8].as_slice());
    assert_eq!(rt; log.body(&mut disk, 0, &mut into), Ok(()));
    assert_eq!(rt; into.as_slice(), b"ab".as_slice());
    assert!(rt; log.has_body(1));
    Ok(())
}

#[test]
fn each_call_makes_its_calls_of_the_disk(rt: HostRuntime) -> Result<(), Fail> {
    let alloc = rt.alloc();
    let mut disk = disk_with(alloc, Vec::new(alloc), Vec::new(alloc));
    let mut log = PlainLog::create(alloc, &mut disk, &[1], b"ab").expect(&rt, "a new log");
    let created = disk.call_count();
    assert_eq!(rt; add(&mut log, &mut disk, &[2], &[]), Ok(1));
    let appended = disk.call_count();
    assert_eq!(rt;
        has_record(alloc, &mut log, &mut disk, 0, &[1], b"ab"),
        Ok(true)
    );
    let read = disk.call_count();
    // four calls for each record that is written, and one for each head or body that is read
    assert_eq!(rt; [created, appended, read], [4, 8, 10]);

    // the first of the calls of `open` is the sync: what was written before is safe after it
    let mut disk = disk_with(alloc, Vec::new(alloc), Vec::new(alloc));
    assert!(rt; disk.write_at(0, &TWO_RECORDS).is_ok());
    assert!(rt; PlainLog::open(alloc, &mut disk).is_ok());
    assert_eq!(rt; disk.call_count(), 7);
    assert!(rt; disk.left(2, 0)?.is_empty());
    assert_eq!(rt; disk.left(3, 0)?.as_slice(), TWO_RECORDS.as_slice());
    Ok(())
}

/// How many records a crash at the calls 5 to 8, which are those of an append to a log of one record,
/// leaves: where nothing, all, or other bytes of what is unsynced then are left.
const RECORDS_LEFT: [[u64; 3]; 4] = [[1, 1, 1], [1, 1, 1], [1, 2, 2], [1, 2, 2]];

#[test]
fn a_crash_leaves_an_append_whole_or_not_at_all(rt: HostRuntime) -> Result<(), Fail> {
    let alloc = rt.alloc();
    // as long as the record of a stored chunk of 512 bytes
    let (head, body) = (vec![in alloc; 0x34; 54]?, vec![in alloc; 0x61; 512]?);
    let mut disk = disk_with(alloc, Vec::new(alloc), Vec::new(alloc));
    let mut log = PlainLog::create(alloc, &mut disk, &[1], b"ab").expect(&rt, "a new log");
    assert_eq!(rt; add(&mut log, &mut disk, &head, &body), Ok(1));
    assert_eq!(rt; disk.call_count(), 8);
    for call in 5..9 {
        for outcome in 0..3 {
            let count = RECORDS_LEFT[call - 5][outcome];
            let image = disk.left(call as u64, outcome as u8)?;
            let mut left = disk_with(alloc, image, Vec::new(alloc));
            let mut log = PlainLog::open(alloc, &mut left).expect(&rt, "the log again");
            assert_eq!(rt; log.count(), count, "at {call}, {outcome}");
            assert_eq!(rt;
                has_record(alloc, &mut log, &mut left, 0, &[1], b"ab"),
                Ok(true),
                "at {call}, {outcome}"
            );
            assert_eq!(rt;
                has_record(alloc, &mut log, &mut left, 1, &head, &body),
                Ok(count == 2),
                "at {call}, {outcome}"
            );
        }
    }
    Ok(())
}

#[test]
fn bytes_behind_the_closed_gate_are_no_part_of_the_log(rt: HostRuntime) -> Result<(), Fail> {
    let alloc = rt.alloc();
    let records: [(&[u8], &[u8]); 3] = [(&[1], b"ab"), (&[2], b""), (&[3], b"c")];
    for len in [0, 1, 8, 9, 10, 100, 1000] {
        for byte in [0xff, 1] {
            let mut image = TWO_RECORDS.to_vec(alloc)?;
            image.extend_from_slice(&vec![in alloc; byte; len]?)?;
            let mut disk = disk_with(alloc, image, Vec::new(alloc));
            let mut log = PlainLog::open(alloc, &mut disk).expect(&rt, "a log");
            assert_eq!(rt; log.count(), 2, "{len} bytes {byte}");
            assert_eq!(rt;
                add(&mut log, &mut disk, &[3], b"c"),
                Ok(2),
                "{len} bytes {byte}"
            );
            let mut log = PlainLog::open(alloc, &mut disk).expect(&rt, "the log again");
            assert_eq!(rt; log.count(), 3, "{len} bytes {byte}");
            for (number, (head, body)) in records.iter().enumerate() {
                assert_eq!(rt;
                    has_record(alloc, &mut log, &mut disk, number as u64, head, body),
                    Ok(true),
                    "record {number} before {len} bytes {byte}"
                );
            }
        }
    }
    Ok(())
}

/// Has the call of a kind and a number fail, counted from here.
fn fail_call(
    alloc: Global,
    disk: &mut MemStation,
    kind: StationCall,
    number: u64,
) -> Result<(), Fail>
    ensures { IsFresh [] (view_of disk.old) → IsFresh [] (view_of disk.new) }
{
    disk.plan(vec![in alloc; Planned { kind, number }]?);
    Ok(())
}

/// How a disk fails. A log that is made writes twice and syncs twice, and so does each append.
#[derive(Clone, Copy, Debug)]
enum Failing {
    /// The write of this number does nothing.
    Write(u64),
    /// The write of this number puts down at most so many bytes.
    Torn(u64, u64),
    /// The sync of this number.
    Sync(u64),
    /// The sync of this number, and each after it.
    Forgets(u64),
}

/// Has the disk fail so from here on.
fn fail_next(alloc: Global, disk: &mut MemStation, failing: Failing) -> Result<(), Fail>
    ensures { IsFresh [] (view_of disk.old) → IsFresh [] (view_of disk.new) }
{
    match failing {
        Failing::Write(number) => fail_call(alloc, disk, StationCall::Write, number),
        Failing::Torn(number, put) => {
            disk.tear(vec![in alloc; TornWrite { number, put }]?);
            Ok(())
        }
        Failing::Sync(number) => fail_call(alloc, disk, StationCall::Sync, number),
        Failing::Forgets(number) => {
            disk.settle_until_a_fault();
            fail_call(alloc, disk, StationCall::Sync, number)
        }
    }
}

#[test]
fn a_fault_in_an_append_breaks_the_log(rt: HostRuntime) -> Result<(), Fail> {
    let alloc = rt.alloc();
    // what an opening finds after it
    let rows = [
        (Failing::Write(3), Ok(1)),
        (Failing::Write(4), Ok(1)),
        (Failing::Torn(3, 5), Ok(1)),
        (Failing::Torn(3, 100), Ok(1)),
        (Failing::Torn(4, 0), Ok(1)),
        (Failing::Torn(4, 1), Ok(2)),
        (Failing::Sync(3), Ok(1)),
        (Failing::Sync(4), Ok(2)),
        (Failing::Forgets(3), Err(LogError::DiskFault)),
        (Failing::Forgets(4), Err(LogError::DiskFault)),
    ];
    for (failing, found) in rows {
        let mut disk = disk_with(alloc, Vec::new(alloc), Vec::new(alloc));
        fail_next(alloc, &mut disk, failing)?;
        let mut log = PlainLog::create(alloc, &mut disk, &[1], b"ab").expect(&rt, "a new log");
        let added = add(&mut log, &mut disk, &[2], &[]);
        assert_eq!(rt; added, Err(LogError::DiskFault), "{failing:?}");
        assert!(rt; log.broken(), "{failing:?}");
        let added = add(&mut log, &mut disk, &[2], &[]);
        assert_eq!(rt; added, Err(LogError::Broken), "{failing:?}");
        let again = PlainLog::open(alloc, &mut disk).map(|log| log.count());
        assert_eq!(rt; again, found, "{failing:?}");
    }
    Ok(())
}

/// How many records are found in an image that begins with these bytes of the two records, with
/// one byte changed.
fn count_in(
    alloc: Global,
    len: usize,
    place: usize,
    byte: u8,
    faults: Vec<u64>,
) -> Result<Result<u64, LogError>, Fail> {
    let mut image = TWO_RECORDS[..len.min(39)].to_vec(alloc)?;
    if place < image.len() {
        image[place] = byte;
    }
    let mut disk = disk_with(alloc, image, faults);
    Ok(PlainLog::open(alloc, &mut disk).map(|log| log.count()))
}

/// Values of one byte, from a place with the least and the greatest, with which the two records are
/// still a log, and of how many records. With each other value they are none.
const STILL_A_LOG: [(usize, u8, u8, u64); 14] = [
    // the first gate closed, or open
    (16, 0, 0, 0),
    (16, 2, 255, 2),
    // another length of the first head, and a byte 0 where the next gate then stands
    (20, 2, 4, 1),
    (20, 6, 9, 1),
    (20, 11, 11, 1),
    // and of the first body
    (24, 3, 5, 1),
    (24, 7, 10, 1),
    (24, 12, 12, 1),
    // the first head and body
    (25, 0, 255, 2),
    (26, 0, 255, 2),
    (27, 0, 255, 2),
    // the second gate closed, or open
    (28, 0, 0, 1),
    (28, 2, 255, 2),
    // the second head
    (37, 0, 255, 2),
];

/// How many records there are with one byte changed.
fn count_with(place: usize, byte: u8) -> Result<u64, LogError> {
    for (at, least, greatest, count) in STILL_A_LOG {
        if at == place && least <= byte && byte <= greatest {
            return Ok(count);
        }
    }
    Err(LogError::NotLog)
}

#[test]
fn opening_reads_the_grammar(rt: HostRuntime) -> Result<(), Fail> {
    let alloc = rt.alloc();
    assert_eq!(rt; count_in(alloc, 39, 99, 0, Vec::new(alloc))?, Ok(2));
    for len in 0..39 {
        assert_eq!(rt;
            count_in(alloc, len, 99, 0, Vec::new(alloc))?,
            Err(LogError::NotLog),
            "{len} bytes"
        );
    }
    for (place, was) in TWO_RECORDS.iter().enumerate() {
        for byte in 0..=255 {
            if byte == *was {
                continue;
            }
            assert_eq!(rt;
                count_in(alloc, 39, place, byte, Vec::new(alloc))?,
                count_with(place, byte),
                "{byte} at {place}"
            );
        }
    }
    for call in 1..7 {
        let mut faults = Vec::new(alloc);
        faults.push(call)?;
        assert_eq!(rt;
            count_in(alloc, 39, 99, 0, faults)?,
            Err(LogError::DiskFault),
            "at {call}"
        );
    }
    Ok(())
}
