ghost use Rattle.std.specs.Prelude.{◌≤◌, length, vec_len, All, IfOk};
ghost use Rattle.psb_station.specs.Memory.{calls_made};

use crate::{Disk, Failed, MemStation, Planned, Station, StationCall, TornWrite};
use psb_bytes::Memory;
use std::alloc::{AllocError, Global};
use std::test::Fail;

/// A buffer for any frame.
fn frame_buffer(alloc: Global) -> Result<Vec<u8>, AllocError>
    ensures { IfOk result (λ v. 65507 ≤ vec_len v) }
{
    vec![in alloc; 0; 65507]
}

/// The arrivals of the tests: one frame of two bytes.
fn arrivals(alloc: Global) -> Result<Vec<Vec<u8>>, AllocError>
    ensures { IfOk result (λ v. All (λ a. length a.items ≤ 65507) v.items) }
{
    let mut arrivals = Vec::new(alloc);
    arrivals.push(vec![in alloc; 7, 8]?)?;
    Ok(arrivals)
}

fn station(alloc: Global, faults: Vec<u64>) -> Result<MemStation, AllocError> {
    let image = vec![in alloc; 1, 2, 3]?;
    let clock = vec![in alloc; 50, 40]?;
    Ok(MemStation::new(alloc, image, arrivals(alloc)?, clock, faults))
}

#[test]
fn a_disk_in_memory_reads_what_was_written(rt: HostRuntime) -> Result<(), Fail> {
    let alloc = rt.alloc();
    let mut disk = station(alloc, Vec::new(alloc))?;
    let mut into = [0; 4];
    assert_eq!(rt; disk.len(), Ok(3));
    assert_eq!(rt; disk.read(1, &mut into), Ok(2));
    assert_eq!(rt; into, [2, 3, 0, 0]);
    assert_eq!(rt; disk.write_at(0, &[9, 8, 7, 6]), Ok(()));
    assert_eq!(rt; disk.read(0, &mut into), Ok(4));
    assert_eq!(rt; into, [9, 8, 7, 6]);
    assert_eq!(rt; disk.read(4, &mut into), Ok(0));
    assert_eq!(rt; disk.sync(), Ok(()));
    assert_eq!(rt; disk.cut(0), Ok(()));
    assert_eq!(rt; disk.len(), Ok(0));
    Ok(())
}

#[test]
fn a_station_in_memory_hears_sends_and_says(rt: HostRuntime) -> Result<(), Fail> {
    let alloc = rt.alloc();
    let mut station = station(alloc, Vec::new(alloc))?;
    let mut into = frame_buffer(alloc)?;
    assert_eq!(rt; station.join(1, "here"), Ok(()));
    assert_eq!(rt; station.recv(&mut into), Ok(Some(2)));
    assert_eq!(rt; &into[..2], [7, 8].as_slice());
    assert_eq!(rt; station.recv(&mut into), Ok(None));
    assert_eq!(rt; [station.now(), station.now(), station.now()], [50, 40, 40]);
    assert_eq!(rt; station.send(2, &[5, 6]), Ok(()));
    assert_eq!(rt; station.say(b"one "), Ok(()));
    assert_eq!(rt; station.say(b"two"), Ok(()));
    assert_eq!(rt; station.said_bytes(), b"one two".as_slice());
    assert_eq!(rt; station.sent_count(), 1);
    assert_eq!(rt; station.sent_to(0), 2);
    assert_eq!(rt; station.sent_frame(0), [5, 6].as_slice());
    Ok(())
}

/// Makes each call but `now` once, and says which fail.
fn fail_each(alloc: Global, station: &mut MemStation) -> Result<[bool; 9], AllocError> {
    let mut into = frame_buffer(alloc)?;
    let mut piece = [0; 2];
    Ok([
        station.len().is_err(),
        station.read(0, &mut piece).is_err(),
        station.write_at(0, &[4]).is_err(),
        station.cut(0).is_err(),
        station.sync().is_err(),
        station.join(1, "here").is_err(),
        station.recv(&mut into).is_err(),
        station.send(2, &[5]).is_err(),
        station.say(b"six").is_err(),
    ])
}

#[test]
fn the_calls_that_write_are_numbered(rt: HostRuntime) -> Result<(), Fail> {
    let alloc = rt.alloc();
    let mut station = station(alloc, vec![in alloc; 4]?)?;
    assert_eq!(rt;
        fail_each(alloc, &mut station)?,
        [false, false, false, true, false, false, false, false, false]
    );
    let numbers = [0, 1, 2, 3, 4].map(|change| station.change_number(change));
    assert_eq!(rt; numbers, [None, Some(3), Some(4), Some(5), None]);
    Ok(())
}

#[test]
fn a_planned_call_fails(rt: HostRuntime) -> Result<(), Fail> {
    let alloc = rt.alloc();
    let mut station = station(alloc, Vec::new(alloc))?;
    let kind = StationCall::Say;
    station.plan(vec![in alloc; Planned { kind, number: 2 }]?);
    let said = [b"one", b"two", b"six"].map(|text| station.say(text));
    assert_eq!(rt; said, [Ok(()), Err(Failed), Ok(())]);
    assert_eq!(rt; station.said_bytes(), b"onesix".as_slice());
    Ok(())
}

/// The images that a crash at a call leaves, by outcome.
fn leaves(station: &MemStation, call: u64) -> Result<[Vec<u8>; 3], Memory>
    requires { (1 ≤ call) × (call ≤ calls_made station.now) }
{
    Ok([
        station.left(call, 0)?,
        station.left(call, 1)?,
        station.left(call, 2)?,
    ])
}

#[test]
fn a_crash_leaves_nothing_all_or_fillings_of_what_is_unsynced(rt: HostRuntime) -> Result<(), Fail> {
    let alloc = rt.alloc();
    let mut station = station(alloc, vec![in alloc; 5]?)?;
    assert_eq!(rt; station.write_at(0, &[9, 8, 7, 6]), Ok(()));
    assert_eq!(rt; station.sync(), Ok(()));
    assert_eq!(rt; station.now(), 50);
    assert_eq!(rt; station.write_at(0, &[5]), Ok(()));
    assert_eq!(rt; station.write_at(0, &[0]), Err(Failed));
    assert_eq!(rt; station.cut(0), Ok(()));
    assert_eq!(rt; station.call_count(), 6);
    let wants: [[&[u8]; 3]; 6] = [
        [&[1, 2, 3], &[9, 8, 7, 6], &[255, 255, 255, 255]],
        [&[1, 2, 3], &[9, 8, 7, 6], &[255, 255, 255, 255]],
        [&[9, 8, 7, 6], &[9, 8, 7, 6], &[9, 8, 7, 6]],
        [&[9, 8, 7, 6], &[5, 8, 7, 6], &[255, 8, 7, 6]],
        [&[9, 8, 7, 6], &[5, 8, 7, 6], &[255, 8, 7, 6]],
        [&[9, 8, 7, 6], &[], &[]],
    ];
    for (i, want) in wants.iter().enumerate() {
        let [nothing, all, filled] = leaves(&station, i as u64 + 1)?;
        assert_eq!(rt; nothing.as_slice(), want[0], "nothing at {i}");
        assert_eq!(rt; all.as_slice(), want[1], "all at {i}");
        assert_eq!(rt; filled.as_slice(), want[2], "filled at {i}");
    }
    Ok(())
}

#[test]
fn a_write_that_is_torn_puts_down_a_part_or_all(rt: HostRuntime) -> Result<(), Fail> {
    let alloc = rt.alloc();
    let mut station = station(alloc, Vec::new(alloc))?;
    let part = TornWrite { number: 1, put: 2 };
    let whole = TornWrite { number: 3, put: 9 };
    station.tear(vec![in alloc; part, whole]?);
    assert_eq!(rt; station.write_at(0, &[9, 8, 7, 6]), Err(Failed));
    assert_eq!(rt; station.image(), [9, 8, 3].as_slice());
    assert_eq!(rt; station.write_at(2, &[4]), Ok(()));
    assert_eq!(rt; station.image(), [9, 8, 4].as_slice());
    assert_eq!(rt; station.write_at(1, &[5, 5, 5]), Err(Failed));
    assert_eq!(rt; station.image(), [9, 5, 5, 5].as_slice());
    let wants: [[&[u8]; 3]; 3] = [
        [&[1, 2, 3], &[9, 8, 3], &[255, 255, 3]],
        [&[1, 2, 3], &[9, 8, 4], &[255, 255, 255]],
        [&[1, 2, 3], &[9, 5, 5, 5], &[255, 255, 255, 255]],
    ];
    assert_eq!(rt; station.call_count(), 3);
    for (i, want) in wants.iter().enumerate() {
        let [nothing, all, filled] = leaves(&station, i as u64 + 1)?;
        assert_eq!(rt; nothing.as_slice(), want[0], "nothing at {i}");
        assert_eq!(rt; all.as_slice(), want[1], "all at {i}");
        assert_eq!(rt; filled.as_slice(), want[2], "filled at {i}");
    }
    Ok(())
}

/// A write, two syncs, and one call more: which of the syncs succeed.
fn write_and_sync_twice(station: &mut MemStation) -> Result<[bool; 2], Failed> {
    station.write_at(0, &[9])?;
    let synced = [station.sync().is_ok(), station.sync().is_ok()];
    let _ = station.now();
    Ok(synced)
}

#[test]
fn a_sync_after_a_failed_one_settles_or_fails_too(rt: HostRuntime) -> Result<(), Fail> {
    let alloc = rt.alloc();
    let mut settles = station(alloc, vec![in alloc; 2]?)?;
    assert_eq!(rt; write_and_sync_twice(&mut settles)?, [false, true]);
    assert_eq!(rt; settles.call_count(), 4);
    assert_eq!(rt; settles.left(4, 0)?.as_slice(), [9, 2, 3].as_slice());
    let mut loses = station(alloc, vec![in alloc; 2]?)?;
    loses.settle_until_a_fault();
    assert_eq!(rt; write_and_sync_twice(&mut loses)?, [false, false]);
    assert_eq!(rt; loses.call_count(), 4);
    assert_eq!(rt; loses.left(4, 0)?.as_slice(), [1, 2, 3].as_slice());
    Ok(())
}

#[test]
fn a_disk_is_what_it_began_with_until_its_first_change(rt: HostRuntime) -> Result<(), Fail> {
    let alloc = rt.alloc();
    let mut station = station(alloc, Vec::new(alloc))?;
    assert_eq!(rt; station.len(), Ok(3));
    assert_eq!(rt; station.sync(), Ok(()));
    assert_eq!(rt; station.write_at(0, &[9]), Ok(()));
    assert_eq!(rt; station.call_count(), 3);
    let wants: [[&[u8]; 3]; 3] = [
        [&[1, 2, 3], &[1, 2, 3], &[1, 2, 3]],
        [&[1, 2, 3], &[1, 2, 3], &[1, 2, 3]],
        [&[1, 2, 3], &[9, 2, 3], &[255, 2, 3]],
    ];
    for (i, want) in wants.iter().enumerate() {
        let [nothing, all, filled] = leaves(&station, i as u64 + 1)?;
        assert_eq!(rt; nothing.as_slice(), want[0], "nothing at {i}");
        assert_eq!(rt; all.as_slice(), want[1], "all at {i}");
        assert_eq!(rt; filled.as_slice(), want[2], "filled at {i}");
    }
    Ok(())
}
