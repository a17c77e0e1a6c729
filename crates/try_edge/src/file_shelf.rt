//! Folders as shelves.

use crate::folders::{fresh_folder, pad};
use ep_edge::FileShelf;
use ep_outside::{Device, Disk, Failed, Shelf, ShelfBad};
use ep_units::PadId;
use std::alloc::Global;
use std::fs;
use std::os::unix::fs::{MetadataExt, symlink};
use std::test::Fail;

type HostShelf = FileShelf<HostRuntime>;

fn make(alloc: Global, shelf: &mut HostShelf, name: &str) -> Result<(), Fail> {
    let id = pad(alloc, name)?;
    let _disk = shelf.open(&id)?;
    Ok(())
}

fn is_pad(alloc: Global, found: &PadId, name: &str) -> Result<bool, Fail> {
    Ok(found.as_slice() == pad(alloc, name)?.as_slice())
}

// The shelf lists these pads in this order.
fn lists(alloc: Global, shelf: &mut HostShelf, names: &[&str]) -> Result<bool, Fail> {
    let found = shelf.names()?;
    if found.len() != names.len() {
        return Ok(false);
    }
    for (id, name) in found.iter().zip(names) {
        if !is_pad(alloc, id, name)? {
            return Ok(false);
        }
    }
    Ok(true)
}

// A fresh folder lists no pad, and then those that are made, but no other file.
fn lists_made(
    rt: &HostRuntime,
    folder: &str,
    made: &[&str],
    listed: &[&str],
) -> Result<bool, Fail> {
    let mut shelf = FileShelf::open_at(rt, folder)?;
    if !lists(rt.alloc(), &mut shelf, &[])? {
        return Ok(false);
    }
    for name in made {
        make(rt.alloc(), &mut shelf, name)?;
    }
    lists(rt.alloc(), &mut shelf, listed)
}

#[test]
fn names_of_pads_alone(rt: HostRuntime) -> Result<(), Fail> {
    for (made, listed) in [
        (["b", "é", "a"].as_slice(), ["a", "b", "é"].as_slice()),
        (
            ["b", "ab", "\u{FFFD}", "a", "😀"].as_slice(),
            ["a", "ab", "b", "😀", "\u{FFFD}"].as_slice(),
        ),
    ] {
        fresh_folder(&rt, "named.shelf")?;
        fs::write(&rt, "named.shelf/6A.pad", "")?;
        fs::write(&rt, "named.shelf/61.pad.mending", "")?;
        fs::write(&rt, "named.shelf/directory.db", "")?;
        assert!(rt;
            lists_made(&rt, "named.shelf", made, listed)?,
            "at {listed:?}"
        );
    }
    Ok(fs::remove_dir_all(&rt, "named.shelf")?)
}

#[test]
fn files_of_the_owner_alone(rt: HostRuntime) -> Result<(), Fail> {
    fresh_folder(&rt, "owned.shelf")?;
    let mut shelf = FileShelf::open_at(&rt, "owned.shelf")?;
    make(rt.alloc(), &mut shelf, "a")?;
    let made = fs::metadata(&rt, "owned.shelf/61.pad")?;
    assert_eq!(rt; made.mode() & 0o777, 0o600);
    Ok(fs::remove_dir_all(&rt, "owned.shelf")?)
}

fn opens(rt: &HostRuntime, folder: &str, id: &PadId) -> Result<bool, Fail> {
    let mut shelf = FileShelf::open_at(rt, folder)?;
    Ok(shelf.open(id).is_ok())
}

// Each call fails.
fn is_refused(rt: &HostRuntime, folder: &str, id: &PadId) -> Result<bool, Fail> {
    let mut shelf = FileShelf::open_at(rt, folder)?;
    let is_closed = matches!(shelf.open(id), Err(ShelfBad::Failed)) && shelf.faults() == 1;
    let is_unlisted = matches!(shelf.names(), Err(ShelfBad::Failed)) && shelf.faults() == 2;
    let is_unseen = matches!(shelf.has(id), Err(ShelfBad::Failed)) && shelf.faults() == 3;
    Ok(is_closed && is_unlisted && is_unseen)
}

#[test]
fn one_server_a_folder(rt: HostRuntime) -> Result<(), Fail> {
    fresh_folder(&rt, "locked.shelf")?;
    let id = pad(rt.alloc(), "pad")?;
    let first = FileShelf::open_at(&rt, "locked.shelf")?;
    assert!(rt; is_refused(&rt, "locked.shelf", &id)?);
    drop(first);
    assert!(rt; opens(&rt, "locked.shelf", &id)?);
    assert!(rt; is_refused(&rt, "no/such/folder", &id)?);
    Ok(fs::remove_dir_all(&rt, "locked.shelf")?)
}

#[test]
fn what_a_folder_has(rt: HostRuntime) -> Result<(), Fail> {
    fresh_folder(&rt, "having.shelf")?;
    fs::create_dir(&rt, "having.shelf/62.pad")?;
    symlink(&rt, "nowhere", "having.shelf/63.pad")?;
    let mut shelf = FileShelf::open_at(&rt, "having.shelf")?;
    make(rt.alloc(), &mut shelf, "a")?;
    for (name, there) in [("a", true), ("b", true), ("c", true), ("d", false)] {
        let id = pad(rt.alloc(), name)?;
        assert_eq!(rt; shelf.has(&id)?, there, "at {name}");
    }
    assert!(rt; lists(rt.alloc(), &mut shelf, &["a", "b", "c"])?);
    Ok(fs::remove_dir_all(&rt, "having.shelf")?)
}

// It reads as a file that is no journal, and takes nothing.
fn is_no_journal(shelf: &mut HostShelf, id: &PadId) -> Result<bool, Fail> {
    let mut disk = shelf.open(id)?;
    let mut bytes = [1; 16];
    disk.read(0, &mut bytes)?;
    let reads = disk.length()? == 16 && bytes == [0; 16] && disk.read(1, &mut bytes) == Err(Failed);
    disk.reserve(1)?;
    let is_unwritten = disk.write_at(0, b"E") == Err(Failed) && disk.cut(0) == Err(Failed);
    Ok(reads && is_unwritten && disk.sync().is_ok() && disk.faults() == 3)
}

#[test]
fn what_is_no_file(rt: HostRuntime) -> Result<(), Fail> {
    fresh_folder(&rt, "other.shelf")?;
    fs::create_dir(&rt, "other.shelf/61.pad")?;
    for (name, to) in [("62", "nowhere"), ("63", "63.pad"), ("64", ".")] {
        let link = format!(in rt.alloc(); "other.shelf/{name}.pad")?;
        symlink(&rt, to, link.as_str())?;
    }
    let mut shelf = FileShelf::open_at(&rt, "other.shelf")?;
    let names = ["a", "b", "c", "d"];
    assert!(rt; lists(rt.alloc(), &mut shelf, &names)?);
    for name in names {
        let id = pad(rt.alloc(), name)?;
        assert!(rt; is_no_journal(&mut shelf, &id)?, "at {name}");
    }
    Ok(fs::remove_dir_all(&rt, "other.shelf")?)
}
