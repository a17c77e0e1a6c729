//! What is kept of a file that is cut.

use crate::folders::{fresh_folder, pad};
use ep_edge::{FileDisk, FileShelf};
use ep_outside::{Device, Disk, Failed, Shelf};
use std::alloc::Global;
use std::fs;
use std::os::unix::fs::MetadataExt;
use std::test::Fail;

type HostDisk = FileDisk<HostRuntime>;

const FOLDER: &str = "cut.shelf";

const FILE: &str = "cut.shelf/61.pad";

const FIRST: &str = "cut.shelf/61.pad.cut-1";

const SECOND: &str = "cut.shelf/61.pad.cut-2";

// A header and a closed gate.
const HEAD: &[u8] = b"EPADJNL1\0";

// Behind a closed gate: a length, and so many bytes.
fn behind(alloc: Global, length: u32, bytes: usize) -> Result<Vec<u8>, Fail> {
    let mut file = Vec::from_slice(alloc, HEAD)?;
    file.extend_from_slice(&length.to_be_bytes())?;
    for i in 0..bytes {
        file.push((i % 251) as u8)?;
    }
    Ok(file)
}

// The disk of the pad in the folder.
fn open(rt: &HostRuntime) -> Result<HostDisk, Fail> {
    let mut shelf = FileShelf::open_at(rt, FOLDER)?;
    let id = pad(rt.alloc(), "a")?;
    Ok(shelf.open(&id)?)
}

fn cut(disk: &mut HostDisk) -> Result<(), Failed> {
    disk.reserve(0).map_err(|_| Failed)?;
    disk.cut(HEAD.len() as u64)
}

// The pad's file has these bytes, and is cut behind its gate.
fn cut_of(rt: &HostRuntime, bytes: &[u8]) -> Result<(), Fail> {
    fs::write(rt, FILE, bytes)?;
    let mut disk = open(rt)?;
    Ok(cut(&mut disk)?)
}

// A file with these bytes that is its owner's alone.
fn is_kept(rt: &HostRuntime, path: &str, bytes: &[u8]) -> Result<bool, Fail> {
    let mode = fs::metadata(rt, path)?.mode();
    Ok(mode & 0o777 == 0o600 && fs::read(rt, path)?.as_slice() == bytes)
}

// The file is cut, and kept as it was or not.
fn is_cut(rt: &HostRuntime, bytes: &[u8], keeps: bool) -> Result<bool, Fail> {
    fresh_folder(rt, FOLDER)?;
    cut_of(rt, bytes)?;
    let is_cut = fs::read(rt, FILE)?.as_slice() == HEAD;
    if fs::exists(rt, FIRST)? {
        return Ok(is_cut && keeps && is_kept(rt, FIRST, bytes)?);
    }
    Ok(is_cut && !keeps)
}

#[test]
fn more_than_one_append(rt: HostRuntime) -> Result<(), Fail> {
    for (length, bytes, keeps) in [
        // a whole frame, and parts of it
        (9, 10, false),
        (9, 9, false),
        (9, 0, false),
        (0, 1, false),
        (40_000, 40_001, false),
        // more
        (9, 11, true),
        (9, 40_000, true),
        (0, 2, true),
        // parts of a long record
        (67_108_864, 4_092, false),
        (67_108_864, 4_093, true),
        (67_108_865, 1, false),
        (67_108_865, 2, true),
    ] {
        let file = behind(rt.alloc(), length, bytes)?;
        assert!(rt;
            is_cut(&rt, file.as_slice(), keeps)?,
            "at {length}, {bytes}"
        );
    }
    Ok(fs::remove_dir_all(&rt, FOLDER)?)
}

// Each is kept under a number of its own, and listed as no pad.
fn keeps_both(rt: &HostRuntime) -> Result<bool, Fail> {
    let first = behind(rt.alloc(), 1, 7)?;
    let second = behind(rt.alloc(), 2, 8)?;
    cut_of(rt, first.as_slice())?;
    cut_of(rt, second.as_slice())?;
    let mut shelf = FileShelf::open_at(rt, FOLDER)?;
    let is_listed = shelf.names()?.len() == 1;
    Ok(
        is_listed
            && is_kept(rt, FIRST, first.as_slice())?
            && is_kept(rt, SECOND, second.as_slice())?,
    )
}

#[test]
fn the_first_free_number(rt: HostRuntime) -> Result<(), Fail> {
    fresh_folder(&rt, FOLDER)?;
    assert!(rt; keeps_both(&rt)?);
    Ok(fs::remove_dir_all(&rt, FOLDER)?)
}

// Where the file can't be kept, it isn't cut.
fn stays(rt: &HostRuntime, bytes: &[u8]) -> Result<bool, Fail> {
    fs::write(rt, FILE, bytes)?;
    let mut disk = open(rt)?;
    fs::remove_dir_all(rt, FOLDER)?;
    let is_told = cut(&mut disk) == Err(Failed) && disk.faults() == 1;
    let mut read = Vec::from_slice(rt.alloc(), bytes)?;
    read.fill(0);
    disk.read(0, &mut read)?;
    Ok(is_told && disk.length()? == bytes.len() as u64 && read.as_slice() == bytes)
}

#[test]
fn where_it_cannot_be_kept(rt: HostRuntime) -> Result<(), Fail> {
    fresh_folder(&rt, FOLDER)?;
    let file = behind(rt.alloc(), 1, 7)?;
    assert!(rt; stays(&rt, file.as_slice())?);
    Ok(())
}
