//! Shelves in memory.

ghost use Rattle.std.specs.Prelude.{◌≡◌, ◌==◌, ◌&&◌, true, [], ℕ, List, Some, None, IsTrue, IfOk, length};
ghost use Rattle.ep_outside.specs.Disk.{Contents, settled};
ghost use Rattle.ep_outside.specs.Shelf.{rises};
ghost use Rattle.ep_outside.specs.Planned.{planned};
ghost use Rattle.ep_disk_mem.specs.Faults.{fails_never, plan_of};
ghost use Rattle.ep_disk_mem.specs.Files.{are_sure, names_in, told_in};
ghost use Rattle.ep_disk_mem.specs.Slots.{all_sure, names_of, told_of};

use crate::faults::Faults;
use crate::mem_disk::MemDisk;
use crate::mem_file::MemFile;
use crate::slots::{Slot, are_sure, disk_at, file_slots, has_slot, put_slot, slot_names};
use ep_outside::{Device, Disk, Shelf, ShelfBad};
use ep_units::{NoMemory, PadId};
use std::alloc::Global;

/// A shelf of disks in memory. A call that fails does nothing but raise the count.
///
/// The disk of a new name never fails. The disk of a name that was opened before is empty: what the first
/// one holds, it holds for itself.
pub struct MemShelf {
    alloc: Global,
    slots: Vec<Slot>,
    faults: Faults,
    // no call of it or of its disks is to fail
    is_sure: bool,
    ghost rising: { IsTrue (rises (names_of slots.items)) },
    ghost sure: { is_sure ≡ true → (fails_never faults ≡ true) × (faults.failures ≡ 0) × IsTrue (all_sure slots.items) },
}

impl Drop for MemShelf {
    fn drop(self) {
        let MemShelf {
            alloc: _,
            slots: _,
            faults: _,
            is_sure: _,
        } = self;
    }
}

impl MemShelf {
    /// A shelf with these files, of which the first of a name counts. Its calls of these numbers, counted
    /// from 1, fail.
    pub fn new(alloc: Global, files: Vec<MemFile>, fails: Vec<u64>) -> Result<MemShelf, NoMemory>
        ensures told { IfOk result (λ s. (name : List ℕ) → ⟦<MemShelf as Shelf>⟧.told s name ≡ told_in files.items name) }
        ensures names { IfOk result (λ s. ⟦<MemShelf as Shelf>⟧.names s ≡ Some (names_in files.items)) }
        ensures failures { IfOk result (λ s. ⟦<MemShelf as Device>⟧.failures s ≡ 0) }
        ensures plan { IfOk result (λ s. ⟦<MemShelf as Device>⟧.plan s ≡ Some (planned fails.items)) }
        ensures steady { IfOk result (λ s. ⟦<MemShelf as Device>⟧.is_steady s ≡ ((length fails.items == 0) && are_sure files.items)) }
    {
        let is_sure = are_sure(&files, &fails);
        let slots = file_slots(alloc, files)?;
        Ok(MemShelf {
            alloc,
            slots,
            faults: Faults::new(fails),
            is_sure,
        })
    }
}

impl Device for MemShelf {
    ghost failures = { λ s. s.faults.failures };

    ghost is_steady = { λ s. s.is_sure };

    ghost plan = { λ s. Some (plan_of s.faults) };

    ghost never_fails = { λ s steady. (s.sure steady).1 };

    fn faults(&self) -> u64 {
        self.faults.failures
    }
}

impl Shelf for MemShelf {
    type D = MemDisk;

    ghost names = { λ s. Some (names_of s.slots.items) };

    ghost told = { λ s name. told_of s.slots.items name };

    fn names(&mut self) -> Result<Vec<PadId>, ShelfBad> {
        if self.faults.call().is_err() {
            return Err(ShelfBad::Failed);
        }
        Ok(slot_names(self.alloc, &self.slots)?)
    }

    fn has(&mut self, name: &PadId) -> Result<bool, ShelfBad> {
        if self.faults.call().is_err() {
            return Err(ShelfBad::Failed);
        }
        Ok(has_slot(&self.slots, name))
    }

    fn open(&mut self, name: &PadId) -> Result<MemDisk, ShelfBad> {
        if self.faults.call().is_err() {
            return Err(ShelfBad::Failed);
        }
        let disk = disk_at(self.alloc, &self.slots, name)?;
        let name = name.copy(self.alloc)?;
        put_slot(&mut self.slots, Slot { name, file: None })?;
        Ok(disk)
    }
}
