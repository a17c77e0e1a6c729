//! The shelf of a folder of this machine.

use ep_edge::{FileDisk, FileShelf, Lacking};
use ep_outside::{Device, Disk, Failed, Shelf, ShelfBad};
use ep_units::{NoMemory, PadId};

/// The shelf of a folder. It is the shelf within; its type names no runtime, so that those that stand on it are short.
pub struct RealShelf {
    shelf: FileShelf<HostRuntime>,
}

impl Drop for RealShelf {
    fn drop(self) {
        let RealShelf { shelf: _ } = self;
    }
}

impl RealShelf {
    /// The shelf over a folder. Where it cannot be opened, each call fails.
    pub fn open_at(rt: &HostRuntime, path: &str) -> Result<RealShelf, NoMemory> {
        Ok(RealShelf {
            shelf: FileShelf::open_at(rt, path)?,
        })
    }

    /// What was not to be had, where each call fails for it.
    pub fn lacking(&self) -> Option<Lacking> {
        self.shelf.lacking()
    }
}

/// A file of the folder. It is the disk within; its type names no runtime either.
pub struct RealDisk {
    disk: FileDisk<HostRuntime>,
}

impl Drop for RealDisk {
    fn drop(self) {
        let RealDisk { disk: _ } = self;
    }
}

impl Device for RealDisk {
    ghost use Rattle.std.specs.Prelude.{false};
    ghost use Rattle.std.proofs.Common.{sym, true≢false};

    ghost failures = { λ d. ⟦<FileDisk<HostRuntime> as Device>⟧.failures d.disk };

    ghost is_steady = { λ _. false };

    ghost never_fails = { λ _ h. absurd (true≢false (sym h)) };

    fn faults(&self) -> u64 {
        self.disk.faults()
    }
}

impl Disk for RealDisk {
    ghost use Rattle.std.specs.Prelude.{None};

    ghost told = { λ _. None };

    ghost moment = { λ _. 0 };

    ghost since = { λ _ _ _. Unit {0} };

    ghost room = { λ d. ⟦<FileDisk<HostRuntime> as Disk>⟧.room d.disk };

    ghost counts_now = { λ _ _ _ _ _. tt };

    ghost only_now = { λ _ _ _. tt };

    ghost reads_as_left = { λ _. tt };

    fn length(&mut self) -> Result<u64, Failed> {
        self.disk.length()
    }

    fn read(&mut self, at: u64, into: &mut [u8]) -> Result<(), Failed> {
        self.disk.read(at, into)
    }

    fn write_at(&mut self, at: u64, bytes: &[u8]) -> Result<(), Failed> {
        self.disk.write_at(at, bytes)
    }

    fn cut(&mut self, to: u64) -> Result<(), Failed> {
        self.disk.cut(to)
    }

    fn sync(&mut self) -> Result<(), Failed> {
        self.disk.sync()
    }

    fn reserve(&mut self, bytes: u64) -> Result<(), NoMemory> {
        self.disk.reserve(bytes)
    }
}

impl Device for RealShelf {
    ghost use Rattle.std.specs.Prelude.{false};
    ghost use Rattle.std.proofs.Common.{sym, true≢false};

    ghost failures = { λ s. ⟦<FileShelf<HostRuntime> as Device>⟧.failures s.shelf };

    ghost is_steady = { λ _. false };

    ghost never_fails = { λ _ h. absurd (true≢false (sym h)) };

    fn faults(&self) -> u64 {
        self.shelf.faults()
    }
}

impl Shelf for RealShelf {
    ghost use Rattle.std.specs.Prelude.{None};

    type D = RealDisk;

    ghost names = { λ _. None };

    ghost told = { λ _ _. None };

    fn names(&mut self) -> Result<Vec<PadId>, ShelfBad> {
        self.shelf.names()
    }

    fn has(&mut self, name: &PadId) -> Result<bool, ShelfBad> {
        self.shelf.has(name)
    }

    fn open(&mut self, name: &PadId) -> Result<RealDisk, ShelfBad> {
        match self.shelf.open(name) {
            Ok(disk) => Ok(RealDisk { disk }),
            Err(why) => Err(why),
        }
    }
}
