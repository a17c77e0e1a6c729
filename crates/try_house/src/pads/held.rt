//! A shelf whose first disk holds a sync, and a look at its length, until it is let go.

ghost use Rattle.std.specs.Prelude.{◌≡◌, None, true, refl};

use ep_outside::{Device, Disk, Failed, Shelf, ShelfBad};
use ep_units::{NoMemory, PadId};
use std::alloc::Global;
use std::sync::Arc;
use std::sync::atomic::{AtomicBool, Ordering};
use std::thread;

pub const TURNS: u32 = 1_000_000;

/// Where a call that is held stands.
#[derive(Drop)]
pub struct Gate {
    pub armed: AtomicBool,
    pub begun: AtomicBool,
    pub opened: AtomicBool,
    pub late: AtomicBool,
}

impl Gate {
    pub fn new() -> Gate {
        Gate {
            armed: AtomicBool::new(false),
            begun: AtomicBool::new(false),
            opened: AtomicBool::new(false),
            late: AtomicBool::new(false),
        }
    }
}

// Waits for so many turns, and says whether the flag was raised.
pub fn waits(flag: &AtomicBool) -> bool {
    for _ in 0..TURNS {
        if flag.load(Ordering::SeqCst) {
            return true;
        }
        thread::yield_now();
    }
    false
}

/// An empty disk, which tells nothing, forgets what is written, and may hold a sync and a look at its length.
pub struct HeldDisk {
    // the calls and the bytes for which there is room
    calls: u64,
    bytes: u64,
    gate: Option<Arc<Gate, Global>>,
}

impl Drop for HeldDisk {
    fn drop(self) {
        let HeldDisk {
            calls: _,
            bytes: _,
            gate: _,
        } = self;
    }
}

/// Who holds a gate waits until it is opened, where it is armed.
fn hold(gate: &Gate) {
    if !gate.armed.load(Ordering::SeqCst) {
        return;
    }
    gate.begun.store(true, Ordering::SeqCst);
    if !waits(&gate.opened) {
        gate.late.store(true, Ordering::SeqCst);
    }
}

impl Device for HeldDisk {
    ghost failures = { λ _. 0 };

    ghost is_steady = { λ _. true };

    ghost never_fails = { λ _ _. refl };

    fn faults(&self) -> u64 {
        0
    }
}

impl Disk for HeldDisk {
    ghost told = { λ _. None };

    ghost moment = { λ _. 0 };

    ghost since = { λ _ _ _. Unit {0} };

    ghost room = { λ d. record { calls = d.calls; bytes = d.bytes } };

    ghost counts_now = { λ _ _ _ _ _. tt };

    ghost only_now = { λ _ _ _. tt };

    ghost reads_as_left = { λ _. tt };

    fn length(&mut self) -> Result<u64, Failed> {
        if let Some(gate) = &self.gate {
            hold(gate);
        }
        Ok(0)
    }

    fn read(&mut self, _at: u64, _into: &mut [u8]) -> Result<(), Failed> {
        Ok(())
    }

    fn write_at(&mut self, _at: u64, bytes: &[u8]) -> Result<(), Failed> {
        self.calls -= 1;
        self.bytes -= bytes.len() as u64;
        Ok(())
    }

    fn cut(&mut self, _to: u64) -> Result<(), Failed> {
        self.calls -= 1;
        Ok(())
    }

    fn sync(&mut self) -> Result<(), Failed> {
        self.calls -= 1;
        if let Some(gate) = &self.gate {
            hold(gate);
        }
        Ok(())
    }

    fn reserve(&mut self, bytes: u64) -> Result<(), NoMemory> {
        self.calls = 4;
        self.bytes = bytes;
        Ok(())
    }
}

/// A shelf of such disks, of which the first has the gate.
pub struct HeldShelf {
    alloc: Global,
    gate: Option<Arc<Gate, Global>>,
}

impl Drop for HeldShelf {
    fn drop(self) {
        let HeldShelf { alloc: _, gate: _ } = self;
    }
}

impl HeldShelf {
    pub fn new(alloc: Global, gate: Arc<Gate, Global>) -> HeldShelf {
        HeldShelf {
            alloc,
            gate: Some(gate),
        }
    }
}

impl Device for HeldShelf {
    ghost failures = { λ _. 0 };

    ghost is_steady = { λ _. true };

    ghost never_fails = { λ _ _. refl };

    fn faults(&self) -> u64 {
        0
    }
}

impl Shelf for HeldShelf {
    type D = HeldDisk;

    ghost names = { λ _. None };

    ghost told = { λ _ _. None };

    fn names(&mut self) -> Result<Vec<PadId>, ShelfBad> {
        Ok(Vec::new(self.alloc))
    }

    fn has(&mut self, _name: &PadId) -> Result<bool, ShelfBad> {
        Ok(true)
    }

    fn open(&mut self, _name: &PadId) -> Result<HeldDisk, ShelfBad> {
        Ok(HeldDisk {
            calls: 0,
            bytes: 0,
            gate: self.gate.take(),
        })
    }
}
