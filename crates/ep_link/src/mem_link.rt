//! A link in memory.

ghost use Rattle.std.specs.Prelude.{◌≡◌, ◌∷◌, ◌++◌, ◌&&◌, ◌==◌, [], length, Some, IfOk, OnOk, OnErr, IsErrOf};
ghost use Rattle.ep_outside.specs.Outside.{HasCause};
ghost use Rattle.ep_outside.specs.Planned.{Follows, planned};
ghost use Rattle.ep_disk_mem.specs.Faults.{fails_never, none_failed, plan_of};
ghost use Rattle.ep_link.specs.Held.{Comes, GivesNext, to_come};
ghost use Rattle.ep_link.specs.Traffic.{Adds, came};
ghost use Rattle.ep_link.specs.declared.passed.Passed.TheVariants as passed;

use crate::ear::NoEar;
use crate::link::Link;
use crate::passed::{Coming, LinkBad, LinkGot, Passed};
use ep_disk_mem::Faults;
use ep_outside::{Device, Text};
use ep_units::NoMemory;
use std::alloc::Global;
use std::collections::VecDeque;
use std::sync::Wait;

/// A link that gives what is to come, one a receive, and then that the other side is gone. It keeps all that passed.
pub struct MemLink {
    alloc: Global,
    coming: VecDeque<Coming>,
    passed: Vec<Passed>,
    faults: Faults,
}

impl Drop for MemLink {
    fn drop(self) {
        let MemLink {
            alloc: _,
            coming: _,
            passed: _,
            faults: _,
        } = self;
    }
}

impl MemLink {
    /// Its calls of these numbers, counted from 1, fail: receives and sends are counted together.
    pub fn new(alloc: Global, coming: VecDeque<Coming>, fails: Vec<u64>) -> MemLink
        ensures to_come { to_come result ≡ coming.items }
        ensures traffic { ⟦<MemLink as Link>⟧.traffic result ≡ Some [] }
        ensures failures { ⟦<MemLink as Device>⟧.failures result ≡ 0 }
        ensures plan { ⟦<MemLink as Device>⟧.plan result ≡ Some (planned fails.items) }
        ensures steady { ⟦<MemLink as Device>⟧.is_steady result ≡ (length fails.items == 0) }
    {
        MemLink {
            alloc,
            coming,
            passed: Vec::new(alloc),
            faults: Faults::new(fails),
        }
    }

    /// All that passed, in order.
    pub fn passed(&self) -> &[Passed]
        ensures { ⟦<MemLink as Link>⟧.traffic self.now ≡ Some result.now }
    {
        &self.passed
    }

    // Keeps what was sent with what passed.
    fn keep(&mut self, text: &str) -> Result<(), NoMemory>
        ensures ok { OnOk result (self.new.passed.items ≡ self.old.passed.items ++ passed.Sent text.now ∷ []) }
        ensures err { OnErr result (self.new.passed.items ≡ self.old.passed.items) }
        ensures stays { (to_come self.new ≡ to_come self.old) × (self.new.faults ≡ self.old.faults) }
    {
        let text = Text::from_str(self.alloc, text)?;
        self.passed.push(Passed::Sent(text))?;
        Ok(())
    }

    // Takes the next of what is to come, and keeps it with what passed.
    fn take(&mut self) -> Result<Coming, NoMemory>
        ensures ok { IfOk result (λ c. Comes (to_come self.old) (to_come self.new) c) }
        ensures passed { IfOk result (λ c. self.new.passed.items ≡ self.old.passed.items ++ passed.Got c ∷ []) }
        ensures err { OnErr result ((to_come self.new ≡ to_come self.old) × (self.new.passed.items ≡ self.old.passed.items)) }
        ensures faults { self.new.faults ≡ self.old.faults }
    {
        self.passed.reserve(1)?;
        let kept = match self.coming.front() {
            Some(next) => next.copy(self.alloc)?,
            None => Coming::Closed,
        };
        let next = match self.coming.pop_front() {
            Some(next) => next,
            None => Coming::Closed,
        };
        self.passed.push_reserved(Passed::Got(kept));
        Ok(next)
    }
}

impl Device for MemLink {
    ghost failures = { λ l. l.faults.failures };

    ghost is_steady = { λ l. fails_never l.faults && (l.faults.failures == 0) };

    ghost plan = { λ l. Some (plan_of l.faults) };

    ghost never_fails = { λ l steady. none_failed l.faults steady };

    fn faults(&self) -> u64 {
        self.faults.failures
    }
}

impl Link for MemLink {
    type Ear = NoEar;

    ghost traffic = { λ l. Some l.passed.items };

    fn recv<R: Wait>(&mut self, _rt: &R) -> LinkGot
        ensures next { GivesNext (to_come self.old) (to_come self.new) result }
        ensures traffic { Adds (Some self.old.passed.items) (Some self.new.passed.items) (came result) }
        ensures cause { HasCause self.old.faults.failures self.new.faults.failures (fails_never self.old.faults && (self.old.faults.failures == 0)) (fails_never self.new.faults && (self.new.faults.failures == 0)) (result ≡ LinkGot.Failed) }
        ensures plan { Follows (Some (plan_of self.old.faults)) (Some (plan_of self.new.faults)) (result ≡ LinkGot.Failed) }
    {
        if self.faults.call().is_err() {
            return LinkGot::Failed;
        }
        match self.take() {
            Ok(next) => next.got(),
            Err(_) => LinkGot::NoMemory,
        }
    }

    fn send<R: Wait>(&mut self, _rt: &R, text: &str) -> Result<(), LinkBad>
        ensures stays { to_come self.new ≡ to_come self.old }
        ensures ok { OnOk result (Adds (Some self.old.passed.items) (Some self.new.passed.items) (passed.Sent text.now ∷ [])) }
        ensures err { OnErr result (Adds (Some self.old.passed.items) (Some self.new.passed.items) []) }
        ensures cause { HasCause self.old.faults.failures self.new.faults.failures (fails_never self.old.faults && (self.old.faults.failures == 0)) (fails_never self.new.faults && (self.new.faults.failures == 0)) (IsErrOf result LinkBad.Failed) }
        ensures plan { Follows (Some (plan_of self.old.faults)) (Some (plan_of self.new.faults)) (IsErrOf result LinkBad.Failed) }
    {
        if self.faults.call().is_err() {
            return Err(LinkBad::Failed);
        }
        match self.keep(text) {
            Ok(()) => Ok(()),
            Err(_) => Err(LinkBad::NoMemory),
        }
    }

    fn ear(&self) -> Option<NoEar> {
        Some(NoEar)
    }
}
