//! The names on a shelf in memory, with their files.

ghost use Rattle.std.specs.Prelude.{◌≡◌, ◌∷◌, [], true, ℕ, List, None, bytes_eq, length, ◌==◌, ◌&&◌, IsTrue, IfOk, OnOk, OnErr};
ghost use Rattle.ep_units.specs.Text.{text_cmp};
ghost use Rattle.ep_outside.specs.Shelf.{Holds, rises};
ghost use Rattle.ep_disk_mem.specs.Files.{are_sure, names_in, told_in};
ghost use Rattle.ep_disk_mem.specs.Slots.{all_sure, has_name, is_sure, names_of, put_in, slot_of, told_file, told_of};

use crate::mem_disk::MemDisk;
use crate::mem_file::MemFile;
use ep_outside::{Device, Disk};
use ep_units::{NoMemory, PadId};
use std::alloc::Global;
use std::cmp::Ordering;

/// The bytes of a file, and the numbers of the device calls of its disk that fail.
#[derive(Drop)]
pub struct Stored {
    pub bytes: Vec<u8>,
    pub fails: Vec<u64>,
}

/// A name, with its file until it is opened.
#[derive(Drop)]
pub struct Slot {
    pub name: PadId,
    pub file: Option<Stored>,
}

fn is_same(a: &PadId, b: &PadId) -> bool
    ensures { result ≡ bytes_eq a.now b.now }
{
    a.as_slice() == b.as_slice()
}

fn order(a: &PadId, b: &PadId) -> Ordering
    ensures { result ≡ text_cmp a.now b.now }
{
    a.as_slice().cmp(&b.as_slice())
}

/// The disk of a file; an empty one where the file was opened before.
fn disk_of(alloc: Global, file: &Option<Stored>) -> Result<MemDisk, NoMemory>
    ensures holds { IfOk result (λ disk. Holds (told_file file.now) (⟦<MemDisk as Disk>⟧.told disk)) }
    ensures failures { IfOk result (λ disk. ⟦<MemDisk as Device>⟧.failures disk ≡ 0) }
    ensures stop { IfOk result (λ disk. ⟦<MemDisk as Disk>⟧.left disk ≡ None) }
    ensures steady { IfOk result (λ disk. IsTrue (is_sure file.now) → ⟦<MemDisk as Device>⟧.is_steady disk ≡ true) }
{
    match file {
        Some(file) => {
            let bytes = Vec::from_slice(alloc, &file.bytes)?;
            let fails = Vec::from_slice(alloc, &file.fails)?;
            MemDisk::new(alloc, bytes, fails)
        }
        None => MemDisk::new(alloc, Vec::new(alloc), Vec::new(alloc)),
    }
}

/// The disk of a name.
pub fn disk_at(alloc: Global, slots: &[Slot], name: &PadId) -> Result<MemDisk, NoMemory>
    ensures holds { IfOk result (λ disk. Holds (told_of slots.now name.now) (⟦<MemDisk as Disk>⟧.told disk)) }
    ensures failures { IfOk result (λ disk. ⟦<MemDisk as Device>⟧.failures disk ≡ 0) }
    ensures stop { IfOk result (λ disk. ⟦<MemDisk as Disk>⟧.left disk ≡ None) }
    ensures steady { IfOk result (λ disk. IsTrue (all_sure slots.now) → ⟦<MemDisk as Device>⟧.is_steady disk ≡ true) }
{
    for slot in slots {
        if is_same(name, &slot.name) {
            return disk_of(alloc, &slot.file);
        }
    }
    MemDisk::new(alloc, Vec::new(alloc), Vec::new(alloc))
}

/// Whether one has this name.
pub fn has_slot(slots: &[Slot], name: &PadId) -> bool
    ensures { result ≡ has_name slots.now name.now }
{
    for slot in slots {
        if is_same(name, &slot.name) {
            return true;
        }
    }
    false
}

/// Puts a slot in its place, in place of one of its name.
pub fn put_slot(slots: &mut Vec<Slot>, slot: Slot) -> Result<(), NoMemory>
    ensures ok { OnOk result (slots.new.items ≡ put_in slots.old.items slot) }
    ensures err { OnErr result (slots.new.items ≡ slots.old.items) }
{
    let mut at = 0;
    while at < slots.len() {
        match order(&slot.name, &slots[at].name) {
            Ordering::Less => break,
            Ordering::Equal => {
                slots[at] = slot;
                return Ok(());
            }
            Ordering::Greater => {}
        }
        at += 1;
    }
    slots.insert(at, slot)?;
    Ok(())
}

/// The names.
pub fn slot_names(alloc: Global, slots: &[Slot]) -> Result<Vec<PadId>, NoMemory>
    ensures { IfOk result (λ names. names.items ≡ names_of slots.now) }
{
    let mut names = Vec::new(alloc);
    for slot in slots {
        names.push(slot.name.copy(alloc)?)?;
    }
    Ok(names)
}

/// Whether neither a call of the shelf nor a device call of its disks is to fail.
pub fn are_sure(files: &[MemFile], fails: &[u64]) -> bool
    ensures { result ≡ ((length fails.now == 0) && are_sure files.now) }
{
    fails.is_empty() && have_sure_disks(files)
}

fn have_sure_disks(files: &[MemFile]) -> bool
    ensures { result ≡ are_sure files.now }
{
    files.iter().all(|file| file.fails.is_empty())
}

fn slot_of(file: MemFile) -> Slot
    ensures { result ≡ slot_of file }
{
    Slot {
        name: file.name,
        file: Some(Stored {
            bytes: file.bytes,
            fails: file.fails,
        }),
    }
}

/// Some files, of which the first of a name counts.
pub fn file_slots(alloc: Global, files: Vec<MemFile>) -> Result<Vec<Slot>, NoMemory>
    ensures told { IfOk result (λ slots. (name : List ℕ) → told_of slots.items name ≡ told_in files.items name) }
    ensures names { IfOk result (λ slots. names_of slots.items ≡ names_in files.items) }
    ensures rising { IfOk result (λ slots. IsTrue (rises (names_of slots.items))) }
    ensures sure { IfOk result (λ slots. are_sure files.items ≡ true → IsTrue (all_sure slots.items)) }
{
    let mut files = files;
    let mut slots = Vec::new(alloc);
    while let Some(file) = files.pop() {
        put_slot(&mut slots, slot_of(file))?;
    }
    Ok(slots)
}
