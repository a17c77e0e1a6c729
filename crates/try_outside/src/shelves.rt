//! A shelf in memory, through its trait.

use ep_disk_mem::{MemFile, MemShelf};
use ep_outside::{Device, Disk, Failed, Shelf, ShelfBad};
use ep_units::{NoMemory, PadId, Units};
use std::alloc::Global;
use std::test::Fail;

fn id(alloc: Global, name: &str) -> Result<PadId, Fail> {
    let text = Units::from_str(alloc, name)?;
    let id = PadId::read(alloc, &text)?;
    Ok(id.ok_or(Failed)?)
}

fn file(alloc: Global, name: &str, text: &str, fails: &[u64]) -> Result<MemFile, Fail> {
    let name = id(alloc, name)?;
    let bytes = Vec::from_slice(alloc, text.as_bytes())?;
    let fails = Vec::from_slice(alloc, fails)?;
    Ok(MemFile { name, bytes, fails })
}

/// Four files, of which two have one name, in no order.
fn files(alloc: Global) -> Result<Vec<MemFile>, Fail> {
    let rows: [(&str, &str, &[u64]); 4] = [
        ("b", "bb", &[]),
        ("c", "ccc", &[1]),
        ("a", "", &[]),
        ("b", "bbbbb", &[]),
    ];
    let mut files = Vec::new(alloc);
    for (name, text, fails) in rows {
        let file = file(alloc, name, text, fails)?;
        files.push(file)?;
    }
    Ok(files)
}

/// A shelf of the four files, whose calls of these numbers fail.
fn shelf(alloc: Global, fails: &[u64]) -> Result<MemShelf, Fail> {
    let files = files(alloc)?;
    let fails = Vec::from_slice(alloc, fails)?;
    Ok(MemShelf::new(alloc, files, fails)?)
}

/// How long the disk of a name is; `None` where the shelf or the disk fails.
fn size<S: Shelf>(alloc: Global, shelf: &mut S, name: &str) -> Result<Option<u64>, Fail> {
    let id = id(alloc, name)?;
    match shelf.open(&id) {
        Ok(mut disk) => Ok(disk.length().ok()),
        Err(ShelfBad::Failed) => Ok(None),
        Err(ShelfBad::NoMemory) => Err(NoMemory)?,
    }
}

/// Whether there is a disk of the name; `None` where the shelf fails.
fn has<S: Shelf>(alloc: Global, shelf: &mut S, name: &str) -> Result<Option<bool>, Fail> {
    let id = id(alloc, name)?;
    Ok(shelf.has(&id).ok())
}

/// The names, each with a space behind it.
fn spelled(alloc: Global, names: &[PadId]) -> Result<Units, NoMemory> {
    let mut text = Units::new(alloc);
    for name in names {
        text.push_all(name.as_slice())?;
        text.push(32)?;
    }
    Ok(text)
}

/// Whether the names are these, each with a space behind it; `None` where the shelf fails.
fn are_names<S: Shelf>(alloc: Global, shelf: &mut S, names: &str) -> Result<Option<bool>, Fail> {
    let Ok(found) = shelf.names() else {
        return Ok(None);
    };
    let text = spelled(alloc, &found)?;
    let names = Units::from_str(alloc, names)?;
    Ok(Some(text == names))
}

#[test]
fn disks_by_name(rt: HostRuntime) -> Result<(), Fail> {
    let alloc = rt.alloc();
    let mut shelf = shelf(alloc, &[])?;
    for (name, length) in [
        ("b", Some(2)),
        ("new", Some(0)),
        ("a", Some(0)),
        ("b", Some(0)),
        ("c", None),
    ] {
        assert_eq!(rt; size(alloc, &mut shelf, name)?, length, "at {name}");
    }
    Ok(())
}

#[test]
fn names_in_order(rt: HostRuntime) -> Result<(), Fail> {
    let alloc = rt.alloc();
    let mut shelf = shelf(alloc, &[])?;
    assert_eq!(rt; are_names(alloc, &mut shelf, "a b c ")?, Some(true));
    assert_eq!(rt; size(alloc, &mut shelf, "aa")?, Some(0));
    assert_eq!(rt; are_names(alloc, &mut shelf, "a aa b c ")?, Some(true));
    Ok(())
}

#[test]
fn names_that_are_there(rt: HostRuntime) -> Result<(), Fail> {
    let alloc = rt.alloc();
    let mut shelf = shelf(alloc, &[2])?;
    for (name, there) in [
        ("b", Some(true)),
        ("b", None),
        ("aa", Some(false)),
        ("a", Some(true)),
    ] {
        assert_eq!(rt; has(alloc, &mut shelf, name)?, there, "at {name}");
    }
    assert_eq!(rt; are_names(alloc, &mut shelf, "a b c ")?, Some(true));
    Ok(())
}

#[test]
fn failing_calls(rt: HostRuntime) -> Result<(), Fail> {
    let alloc = rt.alloc();
    let mut shelf = shelf(alloc, &[1, 3])?;
    assert_eq!(rt; are_names(alloc, &mut shelf, "")?, None);
    assert_eq!(rt; size(alloc, &mut shelf, "b")?, Some(2));
    assert_eq!(rt; size(alloc, &mut shelf, "a")?, None);
    assert_eq!(rt; shelf.faults(), 2);
    Ok(())
}
