//! Files that are written anew after a sync that failed.

use crate::folders::{fresh_folder, pad};
use ep_edge::{FileDisk, FileShelf, Place};
use ep_outside::{Device, Disk, Failed, Shelf};
use std::alloc::Global;
use std::fs;
use std::fs::OpenOptions;
use std::os::unix::fs::MetadataExt;
use std::test::Fail;

type HostDisk = FileDisk<HostRuntime>;

const FOLDER: &str = "mended.shelf";

const FILE: &str = "mended.shelf/61.pad";

const MENDING: &str = "mended.shelf/61.pad.mending";

fn sync(disk: &mut HostDisk) -> Result<(), Fail> {
    disk.reserve(0)?;
    Ok(disk.sync()?)
}

// Bytes that are not the same at two places within 16,384.
fn bytes_of(alloc: Global, length: u64) -> Result<Vec<u8>, Fail> {
    let mut bytes = Vec::new(alloc);
    for i in 0..length {
        bytes.push((i % 251) as u8)?;
    }
    Ok(bytes)
}

// The disk of the pad in the folder.
fn open(rt: &HostRuntime) -> Result<HostDisk, Fail> {
    let mut shelf = FileShelf::open_at(rt, FOLDER)?;
    let id = pad(rt.alloc(), "a")?;
    Ok(shelf.open(&id)?)
}

// The pad's file holds these bytes, is its owner's alone, and no other stands beside it.
fn stands(rt: &HostRuntime, bytes: &[u8]) -> Result<bool, Fail> {
    let is_alone = !fs::exists(rt, MENDING)?;
    let mode = fs::metadata(rt, FILE)?.mode();
    Ok(is_alone && mode & 0o777 == 0o600 && fs::read(rt, FILE)?.as_slice() == bytes)
}

// Which file has the pad's name.
fn number(rt: &HostRuntime) -> Result<u64, Fail> {
    Ok(fs::metadata(rt, FILE)?.ino())
}

// A pad's file of these bytes, which a server left in doubt.
fn leave_in_doubt(rt: &HostRuntime, bytes: &[u8]) -> Result<(), Fail> {
    fresh_folder(rt, FOLDER)?;
    fs::write(rt, FILE, bytes)?;
    Ok(fs::write(rt, MENDING, "a part of it")?)
}

// The first sync puts another file in its place, and the second one none.
fn is_another_once(rt: &HostRuntime, disk: &mut HostDisk) -> Result<bool, Fail> {
    let old = number(rt)?;
    sync(disk)?;
    let new = number(rt)?;
    sync(disk)?;
    Ok(old != new && number(rt)? == new && disk.faults() == 0)
}

// It is written anew once, with the same bytes.
fn is_mended(rt: &HostRuntime, length: u64) -> Result<bool, Fail> {
    let bytes = bytes_of(rt.alloc(), length)?;
    leave_in_doubt(rt, bytes.as_slice())?;
    let mut disk = open(rt)?;
    let is_mended = is_another_once(rt, &mut disk)? && disk.length()? == length;
    Ok(is_mended && stands(rt, bytes.as_slice())?)
}

#[test]
fn as_it_reads(rt: HostRuntime) -> Result<(), Fail> {
    for length in [0, 1, 16_383, 16_384, 16_385, 40_000] {
        assert!(rt; is_mended(&rt, length)?, "at {length}");
    }
    Ok(fs::remove_dir_all(&rt, FOLDER)?)
}

// A device whose sync fails, in the place of the pad's file.
fn unsynced(rt: &HostRuntime) -> Result<HostDisk, Fail> {
    let place = Place::new(rt.alloc(), FOLDER, "61.pad")?;
    let file = OpenOptions::new()
        .read(true)
        .write(true)
        .open(rt, "/dev/null")?;
    Ok(FileDisk::new(*rt, place, file))
}

// The sync that fails is told, and leaves its mark. The next one makes the file.
fn goes_on(rt: &HostRuntime) -> Result<bool, Fail> {
    let mut disk = unsynced(rt)?;
    disk.reserve(3)?;
    let is_told = disk.sync() == Err(Failed) && disk.faults() == 1 && fs::exists(rt, MENDING)?;
    let is_made = disk.sync().is_ok() && stands(rt, b"")?;
    disk.write_at(0, b"abc")?;
    Ok(is_told && is_made && disk.sync().is_ok() && stands(rt, b"abc")? && disk.faults() == 1)
}

#[test]
fn the_next_sync(rt: HostRuntime) -> Result<(), Fail> {
    fresh_folder(&rt, FOLDER)?;
    assert!(rt; goes_on(&rt)?);
    Ok(fs::remove_dir_all(&rt, FOLDER)?)
}

// Two syncs fail, and all that reads from the file stays.
fn stays_in_doubt(disk: &mut HostDisk) -> Result<bool, Fail> {
    disk.reserve(0)?;
    let is_failed = disk.sync() == Err(Failed) && disk.sync() == Err(Failed);
    let mut bytes = [0; 3];
    disk.read(0, &mut bytes)?;
    Ok(is_failed && disk.faults() == 2 && bytes == *b"abc" && disk.length()? == 3)
}

#[test]
fn where_it_cannot_be(rt: HostRuntime) -> Result<(), Fail> {
    fresh_folder(&rt, FOLDER)?;
    fs::write(&rt, FILE, "abc")?;
    // A folder can't be taken away as a file.
    fs::create_dir(&rt, MENDING)?;
    let mut disk = open(&rt)?;
    assert!(rt; stays_in_doubt(&mut disk)?);
    fs::remove_dir_all(&rt, MENDING)?;
    sync(&mut disk)?;
    assert!(rt; stands(&rt, b"abc")?);
    Ok(fs::remove_dir_all(&rt, FOLDER)?)
}
