use super::*;
use crate::Unknown;
use std::os::unix::fs::MetadataExt;
use std::test::Fail;
use std::{env, fs, process};

type RealStation<'a> = HostStation<&'a HostRuntime, Unknown>;

/// A file that no other run of these tests has.
fn path_of(rt: &HostRuntime, name: &str) -> Result<String, Fail> {
    let folder = env::temp_dir(rt)?;
    let id = process::id(rt.process());
    Ok(format!(in rt.alloc(); "{}/psb-{id}-{name}", folder.as_str())?)
}

/// All bytes from a place on, as the disk reads them.
fn read_from(station: &mut RealStation<'_>, alloc: Global, at: u64) -> Result<Vec<u8>, Fail> {
    let mut bytes = vec![in alloc; 0; 100]?;
    let count = station.read(at, &mut bytes).ok().ok_or("a read")?;
    bytes.truncate(count);
    Ok(bytes)
}

/// The next datagram.
fn heard(station: &mut RealStation<'_>, alloc: Global) -> Result<Option<Vec<u8>>, Fail> {
    let mut bytes = Vec::new(alloc);
    bytes.resize(65_507, 0)?;
    let Some(count) = station.recv(&mut bytes).ok().ok_or("a recv")? else {
        return Ok(None);
    };
    bytes.truncate(count);
    Ok(Some(bytes))
}

/// Where the station's socket is.
fn address_of(station: &RealStation<'_>, alloc: Global) -> Result<String, Fail> {
    let socket = station.link.socket.as_ref().ok_or("a socket")?;
    let own = socket.local_addr()?;
    Ok(own.to_string(alloc)?)
}

#[test]
fn what_is_written_is_read_when_the_file_is_opened_again(rt: HostRuntime) -> Result<(), Fail> {
    let alloc = rt.alloc();
    let path = path_of(&rt, "disk")?;
    let mut station = HostStation::new(alloc, &rt, path.clone()?, Unknown);
    assert_eq!(rt; station.len(), Ok(0));
    assert_eq!(rt; station.write_at(0, b"one two three"), Ok(()));
    assert_eq!(rt; station.write_at(4, b"six"), Ok(()));
    assert_eq!(rt; station.cut(9), Ok(()));
    assert_eq!(rt; station.sync(), Ok(()));
    drop(station);
    let mut station = HostStation::new(alloc, &rt, path.clone()?, Unknown);
    assert_eq!(rt; station.len(), Ok(9));
    for (at, bytes) in [(0, "one six t"), (4, "six t"), (9, ""), (20, "")] {
        assert_eq!(rt;
            read_from(&mut station, alloc, at)?.as_slice(),
            bytes.as_bytes(),
            "at {at}"
        );
    }
    fs::remove_file(&rt, path.as_str())?;
    Ok(())
}

#[test]
fn a_file_that_can_not_be_opened_fails_each_call(rt: HostRuntime) -> Result<(), Fail> {
    let alloc = rt.alloc();
    let path = path_of(&rt, "missing/disk")?;
    let mut station = HostStation::new(alloc, &rt, path, Unknown);
    assert_eq!(rt; station.len(), Err(Failed));
    assert_eq!(rt; station.read(0, &mut [0]), Err(Failed));
    assert_eq!(rt; station.write_at(0, b"one"), Err(Failed));
    assert_eq!(rt; station.cut(0), Err(Failed));
    assert_eq!(rt; station.sync(), Err(Failed));
    Ok(())
}

#[test]
fn a_second_station_over_the_file_fails_and_changes_nothing(rt: HostRuntime) -> Result<(), Fail> {
    let alloc = rt.alloc();
    let path = path_of(&rt, "alone")?;
    let mut first = HostStation::new(alloc, &rt, path.clone()?, Unknown);
    assert_eq!(rt; first.write_at(0, b"one"), Ok(()));
    let mut second = HostStation::new(alloc, &rt, path.clone()?, Unknown);
    assert_eq!(rt; second.len(), Err(Failed));
    assert_eq!(rt; second.write_at(0, b"two"), Err(Failed));
    assert_eq!(rt; second.cut(0), Err(Failed));
    assert_eq!(rt;
        read_from(&mut first, alloc, 0)?.as_slice(),
        b"one".as_slice()
    );
    drop(first);
    assert_eq!(rt;
        read_from(&mut second, alloc, 0)?.as_slice(),
        b"one".as_slice()
    );
    let made = fs::metadata(&rt, path.as_str())?;
    assert_eq!(rt; made.mode() & 0o777, 0o600);
    fs::remove_file(&rt, path.as_str())?;
    Ok(())
}

#[test]
fn two_stations_send_each_other_datagrams(rt: HostRuntime) -> Result<(), Fail> {
    let alloc = rt.alloc();
    let mut one = HostStation::new(alloc, &rt, String::new(alloc), Unknown);
    let mut two = HostStation::new(alloc, &rt, String::new(alloc), Unknown);
    assert_eq!(rt; one.join(1, "127.0.0.1:0"), Ok(()));
    assert_eq!(rt; two.join(2, "127.0.0.1:0"), Ok(()));
    // The later address of a peer counts.
    assert_eq!(rt; one.join(2, "127.0.0.1:9"), Ok(()));
    assert_eq!(rt; one.join(2, address_of(&two, alloc)?.as_str()), Ok(()));
    assert_eq!(rt; two.join(1, address_of(&one, alloc)?.as_str()), Ok(()));
    assert_eq!(rt; one.send(2, b"to two"), Ok(()));
    assert_eq!(rt; two.send(1, b"to one"), Ok(()));
    assert_eq!(rt;
        heard(&mut two, alloc)?.as_deref(),
        Some(b"to two".as_slice())
    );
    assert_eq!(rt;
        heard(&mut one, alloc)?.as_deref(),
        Some(b"to one".as_slice())
    );
    assert_eq!(rt; heard(&mut one, alloc)?.as_deref(), None);
    Ok(())
}

#[test]
fn a_link_fails_for_strangers_and_addresses_that_are_none(rt: HostRuntime) -> Result<(), Fail> {
    let alloc = rt.alloc();
    let mut station = HostStation::new(alloc, &rt, String::new(alloc), Unknown);
    let mut bytes = Vec::new(alloc);
    bytes.resize(65_507, 0)?;
    assert_eq!(rt; station.recv(&mut bytes), Err(Failed));
    assert_eq!(rt; station.join(1, "no address"), Err(Failed));
    assert_eq!(rt; station.join(1, "127.0.0.1:0"), Ok(()));
    assert_eq!(rt; station.join(2, "127.0.0.1:no"), Err(Failed));
    assert_eq!(rt; station.join(2, "[::1]:9"), Err(Failed));
    assert_eq!(rt; station.send(2, b"one"), Err(Failed));
    Ok(())
}

#[test]
fn the_clock_gives_seconds_since_1970(rt: HostRuntime) -> Result<(), Fail> {
    let alloc = rt.alloc();
    let mut station = HostStation::new(alloc, &rt, String::new(alloc), Unknown);
    let now = station.now();
    // From the beginning of 2020 to that of 2100.
    assert!(rt; (1_577_836_800..4_102_444_800).contains(&now), "{now}");
    Ok(())
}
