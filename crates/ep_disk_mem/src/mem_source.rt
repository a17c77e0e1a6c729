//! Sources in memory.

ghost use Rattle.std.specs.Prelude.{◌≡◌, ◌≤◌, ◌<◌, ◌&&◌, ◌==◌, ℕ, length, min, Some};
ghost use Rattle.ep_outside.specs.Planned.{Follows, planned};
ghost use Rattle.ep_outside.specs.Outside.{HasCause, Reads};
ghost use Rattle.ep_disk_mem.specs.Faults.{fails_never, none_failed, plan_of};

use crate::faults::Faults;
use ep_outside::{Device, Got, Source};

/// A source that gives these bytes, as many a read as the room has.
#[derive(Drop)]
pub struct MemSource {
    bytes: Vec<u8>,
    at: usize,
    faults: Faults,
    ghost within: { at ≤ length bytes.items },
}

impl MemSource {
    /// Its reads of these numbers, counted from 1, fail.
    pub fn new(bytes: Vec<u8>, fails: Vec<u64>) -> MemSource
        ensures left { ⟦<MemSource as Source>⟧.left result ≡ Some bytes.items }
        ensures failures { ⟦<MemSource as Device>⟧.failures result ≡ 0 }
        ensures plan { ⟦<MemSource as Device>⟧.plan result ≡ Some (planned fails.items) }
        ensures steady { ⟦<MemSource as Device>⟧.is_steady result ≡ (length fails.items == 0) }
    {
        MemSource {
            bytes,
            at: 0,
            faults: Faults::new(fails),
        }
    }
}

impl Device for MemSource {
    ghost failures = { λ s. s.faults.failures };

    ghost is_steady = { λ s. fails_never s.faults && (s.faults.failures == 0) };

    ghost plan = { λ s. Some (plan_of s.faults) };

    ghost never_fails = { λ s steady. none_failed s.faults steady };

    fn faults(&self) -> u64 {
        self.faults.failures
    }
}

impl Source for MemSource {
    ghost use Rattle.ep_disk_mem.specs.Source.{bytes_left};

    ghost left = { λ s. Some (bytes_left s) };

    fn read(&mut self, room: &mut [u8]) -> Got
        requires { 0 < length room.old }
        ensures bytes { Reads (Some (bytes_left self.old)) (Some (bytes_left self.new)) result room.new }
        ensures most { (n : ℕ) → result ≡ Got.Bytes n → n ≡ min (length room.old) (length (bytes_left self.old)) }
        ensures cause { HasCause self.old.faults.failures self.new.faults.failures (fails_never self.old.faults && (self.old.faults.failures == 0)) (fails_never self.new.faults && (self.new.faults.failures == 0)) (result ≡ Got.Failed) }
        ensures plan { Follows (Some (plan_of self.old.faults)) (Some (plan_of self.new.faults)) (result ≡ Got.Failed) }
    {
        if self.faults.call().is_err() {
            return Got::Failed;
        }
        let n = room.len().min(self.bytes.len() - self.at);
        if n == 0 {
            return Got::End;
        }
        room[..n].copy_from_slice(&self.bytes[self.at..self.at + n]);
        self.at += n;
        Got::Bytes(n)
    }
}
