//! Devices in memory.

use ep_disk_mem::{MemClock, MemDisk, MemDraws, MemSink, MemSource};
use ep_outside::{Clock, Crash, Device, Disk, Draws, Failed, Image, ReadBad, Sink, read_all};
use std::alloc::Global;
use std::test::Fail;

#[test]
fn clock_shows_its_moments(rt: HostRuntime) -> Result<(), Fail> {
    let clock = MemClock::new(vec![in rt.alloc(); 5, 9]?);
    for moment in [5, 9, 9] {
        assert_eq!(rt; clock.now_ms(), moment);
    }
    Ok(())
}

#[test]
fn draws_give_their_numbers(rt: HostRuntime) {
    let mut draws = MemDraws::new(&[7, 8]);
    assert_eq!(rt; draws.next(), 7);
    let mut fork = draws.fork();
    for number in [8, 0] {
        assert_eq!(rt; draws.next(), number);
        assert_eq!(rt; fork.next(), number);
    }
}

/// The source that gives three bytes, whose reads of these numbers fail.
fn source(alloc: Global, fails: &[u64]) -> Result<MemSource, Fail> {
    let bytes = Vec::from_slice(alloc, b"abc")?;
    let fails = Vec::from_slice(alloc, fails)?;
    Ok(MemSource::new(bytes, fails))
}

/// Whether it gives its three bytes.
fn is_whole(alloc: Global, fails: &[u64]) -> Result<bool, Fail> {
    let mut source = source(alloc, fails)?;
    let bytes = read_all(alloc, &mut source, 3)?;
    Ok(bytes.as_slice() == b"abc".as_slice())
}

fn refusal(alloc: Global, fails: &[u64]) -> Result<Option<ReadBad>, Fail> {
    let mut source = source(alloc, fails)?;
    Ok(read_all(alloc, &mut source, 3).err())
}

#[test]
fn source_gives_its_bytes(rt: HostRuntime) -> Result<(), Fail> {
    let alloc = rt.alloc();
    assert!(rt; is_whole(alloc, &[])?);
    assert_eq!(rt; refusal(alloc, &[2])?, Some(ReadBad::Fault));
    Ok(())
}

#[test]
fn sink_holds_what_was_written(rt: HostRuntime) -> Result<(), Fail> {
    let alloc = rt.alloc();
    let fails = Vec::from_slice(alloc, &[2])?;
    let mut out = MemSink::new(alloc, fails);
    assert_eq!(rt; out.write(b"ab"), Ok(()));
    assert_eq!(rt; out.write(b"cd"), Err(Failed));
    assert_eq!(rt; out.write(b"ef"), Ok(()));
    assert_eq!(rt; out.as_slice(), b"abef".as_slice());
    assert_eq!(rt; out.faults(), 1);
    Ok(())
}

/// A disk of four bytes, of which two are written over and behind which two more are written.
fn written(alloc: Global) -> Result<MemDisk, Fail> {
    let bytes = Vec::from_slice(alloc, b"abcd")?;
    let mut disk = MemDisk::new(alloc, bytes, Vec::new(alloc))?;
    disk.reserve(4)?;
    disk.write_at(1, b"BC")?;
    disk.write_at(4, b"EF")?;
    Ok(disk)
}

/// All that a disk holds.
fn contents(alloc: Global, disk: &mut MemDisk) -> Result<Vec<u8>, Fail> {
    let size = disk.length()?;
    let mut bytes = Vec::with_capacity(alloc, size as usize)?;
    bytes.resize(size as usize, 0)?;
    disk.read(0, &mut bytes)?;
    Ok(bytes)
}

/// What a restart leaves of the written disk.
fn left(alloc: Global, image: Image) -> Result<Vec<u8>, Fail> {
    let mut disk = written(alloc)?;
    disk.stop_after(0, image);
    disk.restart();
    contents(alloc, &mut disk)
}

fn is_left(alloc: Global, image: Image, bytes: &[u8]) -> Result<bool, Fail> {
    let left = left(alloc, image)?;
    Ok(left.as_slice() == bytes)
}

/// Whether the torn image of that length and fill has these bytes.
fn is_torn(alloc: Global, length: u64, fill: &[u8], bytes: &[u8]) -> Result<bool, Fail> {
    let fill = Vec::from_slice(alloc, fill)?;
    is_left(alloc, Image::Torn { length, fill }, bytes)
}

#[test]
fn images(rt: HostRuntime) -> Result<(), Fail> {
    let alloc = rt.alloc();
    assert!(rt; is_left(alloc, Image::Old, b"abcd")?);
    assert!(rt; is_left(alloc, Image::New, b"aBCdEF")?);
    // byte i of the fill stands at place i
    let rows: [(u64, &[u8], &[u8]); 3] = [
        (99, b"012", b"a12d12"),
        (5, b"012", b"a12d1"),
        (0, b"", b"a\x00\x00d"),
    ];
    for (length, fill, bytes) in rows {
        assert!(rt; is_torn(alloc, length, fill, bytes)?, "to {length}");
    }
    Ok(())
}

/// Whether each of five device calls on a disk failed: length, write, cut, sync, read.
fn failed(alloc: Global, fails: &[u64]) -> Result<[bool; 5], Fail> {
    let bytes = Vec::from_slice(alloc, b"abcd")?;
    let fails = Vec::from_slice(alloc, fails)?;
    let mut disk = MemDisk::new(alloc, bytes, fails)?;
    disk.reserve(4)?;
    let length = disk.length().is_err();
    let write = disk.write_at(0, b"ABCD").is_err();
    let cut = disk.cut(1).is_err();
    let sync = disk.sync().is_err();
    let mut none = [0u8; 0];
    let read = disk.read(0, &mut none).is_err();
    Ok([length, write, cut, sync, read])
}

#[test]
fn faults(rt: HostRuntime) -> Result<(), Fail> {
    let rows: [(&[u64], [bool; 5]); 3] = [
        (&[], [false, false, false, false, false]),
        (&[1, 3], [true, false, true, false, false]),
        (&[2, 4, 5], [false, true, false, true, true]),
    ];
    for (fails, are) in rows {
        assert_eq!(rt; failed(rt.alloc(), fails)?, are, "at {fails:?}");
    }
    Ok(())
}
