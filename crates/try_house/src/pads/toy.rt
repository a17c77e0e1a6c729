//! A toy in the place of a pad: a counter over a disk.

ghost use Rattle.std.specs.Prelude.{◌≡◌};

use ep_house::PadOver;
use ep_outside::{Disk, Limits, Machine};
use std::alloc::Global;

/// Why a call did nothing.
#[derive(Clone, Copy, Debug, PartialEq, Eq)]
pub enum ToyBad {
    Store(u64),
    NoMemory,
}

/// A call of the toy.
#[derive(Clone, Copy, Debug, Drop)]
pub enum ToyEntry {
    Add(u64),
    Read,
}

/// A counter. Its first call finds its total, which is the length of its disk, and each addition syncs twice.
pub struct Toy<D> {
    disk: D,
    limits: Limits,
    total: Option<u64>,
}

impl<D: Drop> Drop for Toy<D> {
    fn drop(self) {
        let Toy {
            disk: _,
            limits: _,
            total: _,
        } = self;
    }
}

impl<D: Disk> Toy<D> {
    fn read(&mut self) -> Result<u64, ToyBad> {
        if let Some(total) = self.total {
            return Ok(total);
        }
        match self.disk.length() {
            Ok(total) => {
                self.total = Some(total);
                Ok(total)
            }
            Err(_) => Err(ToyBad::Store(self.disk.faults())),
        }
    }

    fn add(&mut self, n: u64) -> Result<u64, ToyBad> {
        let total = self.read()?;
        if self.disk.reserve(0).is_err() {
            return Err(ToyBad::NoMemory);
        }
        if self.disk.sync().is_err() || self.disk.sync().is_err() {
            return Err(ToyBad::Store(self.disk.faults()));
        }
        let total = total.wrapping_add(n);
        self.total = Some(total);
        Ok(total)
    }
}

impl<D: Disk + Drop> Machine for Toy<D> {
    type Entry = ToyEntry;

    type Reply = Result<u64, ToyBad>;

    ghost allows = { λ _. Unit {0} };

    ghost stands = { λ _ _ _. Unit {0} };

    ghost legal = { λ _ _. Unit {0} };

    ghost stands_legal = { λ _ _ _ all. all };

    fn call(&mut self, entry: ToyEntry) -> Result<u64, ToyBad> {
        match entry {
            ToyEntry::Add(n) => self.add(n),
            ToyEntry::Read => self.read(),
        }
    }
}

impl<D: Disk + Drop> PadOver<D> for Toy<D> {
    ghost use Rattle.std.specs.Prelude.{◌≡◌};

    ghost limits_of = { λ toy. toy.limits };

    ghost is_shut = { λ toy disk. toy.disk ≡ disk };

    fn shut(_alloc: Global, disk: D, limits: Limits) -> Toy<D> {
        Toy {
            disk,
            limits,
            total: None,
        }
    }

    fn into_disk(self) -> D {
        let Toy {
            disk,
            limits: _,
            total: _,
        } = self;
        disk
    }
}
