//! Files as disks.

use crate::folders::{fresh_folder, pad};
use ep_edge::{FileDisk, FileShelf, Place};
use ep_outside::{Device, Disk, Failed, Shelf};
use ep_units::PadId;
use std::fs;
use std::fs::File;
use std::test::Fail;

type HostDisk = FileDisk<HostRuntime>;

// Writes these bytes behind those that are there, and syncs.
fn append(disk: &mut HostDisk, bytes: &[u8]) -> Result<(), Fail> {
    disk.reserve(bytes.len() as u64)?;
    let end = disk.length()?;
    disk.write_at(end, bytes)?;
    Ok(disk.sync()?)
}

// Cuts a disk of six bytes to four, and writes two of these anew.
fn rewrite(disk: &mut HostDisk) -> Result<(), Fail> {
    disk.reserve(2)?;
    disk.cut(4)?;
    Ok(disk.write_at(1, b"XY")?)
}

// The disk of a pad, from a shelf without a fault.
fn open(rt: &HostRuntime, folder: &str, id: &PadId) -> Result<HostDisk, Fail> {
    let mut shelf = FileShelf::open_at(rt, folder)?;
    let disk = shelf.open(id)?;
    if shelf.faults() == 0 {
        Ok(disk)
    } else {
        Err(Fail::from("a fault"))
    }
}

fn write(rt: &HostRuntime, folder: &str, id: &PadId) -> Result<(), Fail> {
    let mut disk = open(rt, folder, id)?;
    append(&mut disk, b"abcdef")?;
    rewrite(&mut disk)
}

// What is read after one byte more.
fn holds(rt: &HostRuntime, folder: &str, id: &PadId, bytes: &[u8; 5]) -> Result<bool, Fail> {
    let mut disk = open(rt, folder, id)?;
    append(&mut disk, b"!")?;
    let mut read = [0; 5];
    disk.read(0, &mut read)?;
    Ok(read == *bytes && disk.length()? == 5 && disk.faults() == 0)
}

#[test]
fn keeps_what_was_written(rt: HostRuntime) -> Result<(), Fail> {
    fresh_folder(&rt, "kept.shelf")?;
    let id = pad(rt.alloc(), "pad")?;
    write(&rt, "kept.shelf", &id)?;
    assert!(rt; holds(&rt, "kept.shelf", &id, b"aXYd!")?);
    Ok(fs::remove_dir_all(&rt, "kept.shelf")?)
}

// Neither a read over the end nor a cut far behind it is done.
fn fails_past_the_end(disk: &mut HostDisk) -> Result<bool, Fail> {
    append(disk, b"abc")?;
    let is_unread = disk.read(2, &mut [0; 2]) == Err(Failed);
    disk.reserve(0)?;
    Ok(is_unread && disk.cut(u64::MAX) == Err(Failed) && disk.faults() == 2)
}

#[test]
fn past_the_end(rt: HostRuntime) -> Result<(), Fail> {
    fresh_folder(&rt, "short.shelf")?;
    let id = pad(rt.alloc(), "pad")?;
    let mut disk = open(&rt, "short.shelf", &id)?;
    assert!(rt; fails_past_the_end(&mut disk)?);
    Ok(fs::remove_dir_all(&rt, "short.shelf")?)
}

// Of a file of three bytes that is open for reading alone.
fn fails_to_write(disk: &mut HostDisk) -> Result<bool, Fail> {
    disk.reserve(1)?;
    let is_unwritten = disk.write_at(0, b"x") == Err(Failed);
    let is_uncut = disk.cut(0) == Err(Failed);
    Ok(is_unwritten && is_uncut && disk.faults() == 2 && disk.length()? == 3)
}

#[test]
fn where_it_cannot_write(rt: HostRuntime) -> Result<(), Fail> {
    fresh_folder(&rt, "read.shelf")?;
    fs::write(&rt, "read.shelf/file", "abc")?;
    let place = Place::new(rt.alloc(), "read.shelf", "file")?;
    let mut disk = FileDisk::new(rt, place, File::open(&rt, "read.shelf/file")?);
    assert!(rt; fails_to_write(&mut disk)?);
    Ok(fs::remove_dir_all(&rt, "read.shelf")?)
}
