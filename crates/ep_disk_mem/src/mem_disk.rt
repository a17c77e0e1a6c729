//! Disks in memory.

ghost use Rattle.std.specs.Prelude.{◌≡◌, Bool, true, false, ◌==◌, ◌≤◌, ◌+◌, ◌<◌, ◌⊎◌, ◌∷◌, ◌++◌, [], List, ℕ, Option, Some, None, length, drop, vec_len, vec_capacity, OnOk, IfOk};
ghost use Rattle.std.proofs.Common.{inl};
ghost use Rattle.ep_disk_mem.specs.Held.{contents_of, HadImage, only_here, HasSpace, Since};
ghost use Rattle.ep_disk_mem.specs.DiskCalls.{is_sure, never, plan_till};
ghost use Rattle.ep_disk_mem.specs.Faults.{fails_never};
ghost use Rattle.ep_outside.specs.Planned.{planned};
ghost use Rattle.ep_outside.specs.Disk.{MayLeave, settled, Moves, Syncs};

use crate::disk_calls::DiskCalls;
use crate::faults::Faults;
use crate::held::Held;
use ep_outside::{Crash, Device, Disk, Failed, Image};
use ep_units::NoMemory;
use std::alloc::{AllocError, Global};
use std::snapshot::Snapshot;

/// A disk in memory. A call that fails does nothing but raise the count.
///
/// Beside its bytes it keeps those of the last sync; a sync copies what was written since.
pub struct MemDisk {
    held: Held,
    // ghosts alone
    past: Vec<Snapshot<Held>>,
    calls: DiskCalls,
    room_calls: u64,
    room_bytes: u64,
    // made or restarted, with no room since
    is_fresh: bool,
    asked: Image,
    bytes_read: u64,
    ghost roomy: { HasSpace held room_calls room_bytes },
    ghost times: { is_fresh ≡ false → vec_len past + room_calls + 1 ≤ vec_capacity past },
    ghost in_sync: { is_fresh ≡ true → (contents_of held ≡ settled held.bytes.items) × (room_calls ≡ 0) },
    ghost sound: { MayLeave (contents_of held) held.bytes.items },
}

impl Drop for MemDisk {
    fn drop(self) {
        let MemDisk {
            held: _,
            past: _,
            calls: _,
            room_calls: _,
            room_bytes: _,
            is_fresh: _,
            asked: _,
            bytes_read: _,
        } = self;
    }
}

impl MemDisk {
    /// A disk that holds these bytes, in sync. Its device calls of these numbers, counted from 1, fail.
    pub fn new(alloc: Global, bytes: Vec<u8>, fails: Vec<u64>) -> Result<MemDisk, NoMemory>
        ensures told { IfOk result (λ d. ⟦<MemDisk as Disk>⟧.told d ≡ Some (settled bytes.items)) }
        ensures failures { IfOk result (λ d. ⟦<MemDisk as Device>⟧.failures d ≡ 0) }
        ensures plan { IfOk result (λ d. ⟦<MemDisk as Device>⟧.plan d ≡ Some (planned fails.items)) }
        ensures steady { IfOk result (λ d. ⟦<MemDisk as Device>⟧.is_steady d ≡ (length fails.items == 0)) }
        ensures alone { IfOk result (λ d. ⟦<MemDisk as Disk>⟧.stops_alone d ≡ (length fails.items == 0)) }
        ensures stop { IfOk result (λ d. ⟦<MemDisk as Disk>⟧.left d ≡ None) }
        ensures bytes_read { IfOk result (λ d. ⟦<MemDisk as Disk>⟧.bytes_read d ≡ Some 0) }
    {
        let synced = Vec::from_slice(alloc, &bytes)?;
        let length = bytes.len() as u64;
        Ok(MemDisk {
            held: Held {
                bytes,
                synced,
                ranges: Vec::new(alloc),
                least: length,
                most: length,
            },
            past: Vec::new(alloc),
            calls: DiskCalls {
                faults: Faults::new(fails),
                left: None,
            },
            room_calls: 0,
            room_bytes: 0,
            is_fresh: true,
            asked: Image::Old,
            bytes_read: 0,
        })
    }
}

impl Device for MemDisk {
    ghost failures = { λ d. d.calls.faults.failures };

    ghost is_steady = { λ d. is_sure d.calls };

    ghost plan = { λ d. plan_till d.calls.left d.calls.faults };

    ghost never_fails = { λ d steady. never d.calls steady };

    fn faults(&self) -> u64 {
        self.calls.faults.failures
    }
}

impl Disk for MemDisk {
    ghost told = { λ d. Some (contents_of d.held) };

    ghost moment = { λ d. length d.past.items };

    ghost since = { λ d t c. Since d.past.items d.held t c };

    ghost room = { λ d. record { calls = d.room_calls; bytes = d.room_bytes } };

    ghost left = { λ d. d.calls.left };

    ghost stops_alone = { λ d. fails_never d.calls.faults };

    ghost bytes_read = { λ d. Some d.bytes_read };

    ghost counts_now = { λ d t c le now. inl now };

    ghost only_now = { λ d c left. only_here d.past.items (contents_of d.held) c left };

    ghost reads_as_left = { λ d. d.sound };

    fn length(&mut self) -> Result<u64, Failed> {
        self.calls.call()?;
        Ok(self.held.bytes.len() as u64)
    }

    fn read(&mut self, at: u64, into: &mut [u8]) -> Result<(), Failed> {
        self.calls.call()?;
        let from = at as usize;
        into.copy_from_slice(&self.held.bytes[from..from + into.len()]);
        self.bytes_read = self.bytes_read.saturating_add(into.len() as u64);
        Ok(())
    }

    #[tactic(auto, using(crate::proofs::Kept::slot))]
    fn write_at(&mut self, at: u64, bytes: &[u8]) -> Result<(), Failed> {
        self.room_calls -= 1;
        self.room_bytes -= bytes.len() as u64;
        self.calls.call()?;
        let was = Snapshot::of(&self.held);
        self.held.write_at(at, bytes);
        self.past.push_reserved(was);
        Ok(())
    }

    #[tactic(auto, using(crate::proofs::Kept::slot))]
    fn cut(&mut self, to: u64) -> Result<(), Failed> {
        self.room_calls -= 1;
        self.calls.call()?;
        let was = Snapshot::of(&self.held);
        self.held.cut(to);
        self.past.push_reserved(was);
        Ok(())
    }

    #[tactic(auto, using(crate::proofs::Kept::slot))]
    fn sync(&mut self) -> Result<(), Failed> {
        self.room_calls -= 1;
        self.calls.call()?;
        let was = Snapshot::of(&self.held);
        self.held.sync();
        self.past.push_reserved(was);
        Ok(())
    }

    fn reserve(&mut self, bytes: u64) -> Result<(), NoMemory> {
        if self.held.reserve(bytes as usize).is_err() {
            return Err(NoMemory);
        }
        if self.past.reserve(5).is_err() {
            return Err(NoMemory);
        }
        self.is_fresh = false;
        self.room_calls = 4;
        self.room_bytes = bytes;
        Ok(())
    }
}

impl Crash for MemDisk {
    ghost image = { λ d. d.asked };

    fn stop_after(&mut self, calls: u64, asked: Image) {
        self.calls.left = Some(calls);
        self.asked = asked;
    }

    fn restart(&mut self) {
        if self.is_fresh {
            self.calls.left = None;
            return;
        }
        let was = Snapshot::of(&self.held);
        self.held.restart(self.calls.left, &self.asked);
        self.past.push_reserved(was);
        self.room_calls = 0;
        self.room_bytes = 0;
        self.is_fresh = true;
        self.calls.left = None;
    }
}
