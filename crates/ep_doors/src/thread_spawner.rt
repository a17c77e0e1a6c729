//! A spawner of threads.

ghost use Rattle.std.specs.Prelude.{◌≡◌, ◌≤◌, IsErr};
ghost use Rattle.ep_outside.specs.Outside.{HasRisen};

use crate::spawner::{Job, Spawner};
use crossbeam_channel::{Receiver, Sender, bounded};
use ep_outside::Device;
use ep_units::NoMemory;
use std::alloc::Global;
use std::sync::Wait;
use std::thread;
use std::thread::Threads;

/// Hands each job to a starter, and hears from it whether a thread has begun. A job that comes back is a fault.
#[derive(Drop)]
pub struct ThreadSpawner<J: Drop> {
    to: Sender<J>,
    back: Receiver<Option<J>>,
    started: u64,
    faults: u64,
}

/// The other end of a spawner: whoever has it starts the threads (`start_all`).
#[derive(Drop)]
pub struct Starter<J: Drop> {
    alloc: Global,
    jobs: Receiver<J>,
    back: Sender<Option<J>>,
}

impl<J: Drop> ThreadSpawner<J> {
    /// A spawner and its starter.
    pub fn new(alloc: Global) -> Result<(ThreadSpawner<J>, Starter<J>), NoMemory> {
        let (to, jobs) = bounded(alloc, 1)?;
        let (tell, back) = bounded(alloc, 1)?;
        let spawner = ThreadSpawner {
            to,
            back,
            started: 0,
            faults: 0,
        };
        let starter = Starter {
            alloc,
            jobs,
            back: tell,
        };
        Ok((spawner, starter))
    }

    // A job comes back.
    fn fail(&mut self, job: J) -> Result<(), J>
        ensures err { IsErr result }
        ensures started { self.new.started ≡ self.old.started }
        ensures later { self.old.faults ≤ self.new.faults }
        ensures risen { HasRisen self.old.faults self.new.faults }
    {
        self.faults = self.faults.saturating_add(1);
        Err(job)
    }
}

impl<J: Drop> Device for ThreadSpawner<J> {
    ghost use Rattle.std.specs.Prelude.{◌≡◌, true, false};

    ghost failures = { λ s. s.faults };

    ghost is_steady = { λ s. false };

    ghost never_fails = { λ s e. let c : false ≡ true = e in Prim.cc };

    fn faults(&self) -> u64 {
        self.faults
    }
}

impl<J: Job + Drop> Spawner<J> for ThreadSpawner<J> {
    ghost count = { λ s. s.started };

    fn started(&self) -> u64 {
        self.started
    }

    fn start<R: Wait>(&mut self, rt: &R, job: J) -> Result<(), J> {
        if let Err(failed) = self.to.send(rt, job) {
            return self.fail(failed.into_inner());
        }
        if let Ok(Some(job)) = self.back.recv(rt) {
            return self.fail(job);
        }
        self.started = self.started.saturating_add(1);
        Ok(())
    }
}

fn go_sent<R: Wait, J: Job + Drop>(rt: &R, from: Receiver<J>) {
    if let Ok(job) = from.recv(rt) {
        job.go(rt);
    }
}

// A thread for a job, which comes back where none could be made.
fn begin<J: Job + Send + Drop + 'static, R: Threads + Wait + Copy + Send + Drop + 'static>(
    rt: &R,
    alloc: Global,
    job: J,
) -> Option<J> {
    let Ok((to, from)) = bounded::<J, _>(alloc, 1) else {
        return Some(job);
    };
    let theirs = *rt;
    if thread::spawn(rt, move || go_sent(&theirs, from)).is_err() {
        return Some(job);
    }
    match to.send(rt, job) {
        Ok(()) => None,
        Err(failed) => Some(failed.into_inner()),
    }
}

/// Starts a thread for each job that comes, until the spawner is gone.
pub fn start_all<J: Job + Send + Drop + 'static, R: Threads + Wait + Copy + Send + Drop + 'static>(
    rt: &R,
    starter: Starter<J>,
) {
    for _ in rt.forever() {
        let Ok(job) = starter.jobs.recv(rt) else {
            return;
        };
        let left = begin(rt, starter.alloc, job);
        if starter.back.send(rt, left).is_err() {
            return;
        }
    }
}
