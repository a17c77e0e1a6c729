//! A spawner that starts no thread.

ghost use Rattle.std.specs.Prelude.{◌≡◌, ◌&&◌, ◌==◌, length, Some, OnOk, OnErr, IsErr};
ghost use Rattle.ep_outside.specs.Outside.{HasCause, risen};
ghost use Rattle.ep_outside.specs.Planned.{Follows, planned};
ghost use Rattle.ep_disk_mem.specs.Faults.{fails_never, none_failed, plan_of};

use crate::spawner::{Job, Spawner};
use ep_disk_mem::Faults;
use ep_outside::Device;
use std::sync::Wait;

/// Does each job before it says that it has started it.
#[derive(Drop)]
pub struct MemSpawner {
    started: u64,
    faults: Faults,
}

impl MemSpawner {
    /// The starts of these numbers, counted from 1, fail.
    pub fn new(fails: Vec<u64>) -> MemSpawner
        ensures failures { ⟦<MemSpawner as Device>⟧.failures result ≡ 0 }
        ensures plan { ⟦<MemSpawner as Device>⟧.plan result ≡ Some (planned fails.items) }
        ensures steady { ⟦<MemSpawner as Device>⟧.is_steady result ≡ (length fails.items == 0) }
    {
        MemSpawner {
            started: 0,
            faults: Faults::new(fails),
        }
    }
}

impl Device for MemSpawner {
    ghost failures = { λ s. s.faults.failures };

    ghost is_steady = { λ s. fails_never s.faults && (s.faults.failures == 0) };

    ghost plan = { λ s. Some (plan_of s.faults) };

    ghost never_fails = { λ s steady. none_failed s.faults steady };

    fn faults(&self) -> u64 {
        self.faults.failures
    }
}

impl<J: Job> Spawner<J> for MemSpawner {
    ghost count = { λ s. s.started };

    fn started(&self) -> u64 {
        self.started
    }

    fn start<R: Wait>(&mut self, rt: &R, job: J) -> Result<(), J>
        ensures ok { OnOk result (self.new.started ≡ risen self.old.started) }
        ensures err { OnErr result (self.new.started ≡ self.old.started) }
        ensures cause { HasCause self.old.faults.failures self.new.faults.failures (fails_never self.old.faults && (self.old.faults.failures == 0)) (fails_never self.new.faults && (self.new.faults.failures == 0)) (IsErr result) }
        ensures plan { Follows (Some (plan_of self.old.faults)) (Some (plan_of self.new.faults)) (IsErr result) }
    {
        if self.faults.call().is_err() {
            return Err(job);
        }
        self.started = self.started.saturating_add(1);
        job.go(rt);
        Ok(())
    }
}
