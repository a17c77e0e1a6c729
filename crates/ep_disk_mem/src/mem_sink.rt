//! Sinks in memory.

ghost use Rattle.std.specs.Prelude.{◌≡◌, [], false, Some, Contains, IsErr, OnOk, OnErr};
ghost use Rattle.ep_outside.specs.Outside.{HasCause, Takes, TakesPart, risen};
ghost use Rattle.ep_outside.specs.Planned.{planned, with_call};
ghost use Rattle.ep_disk_mem.specs.Sink.{plan_of_sink};
ghost use Rattle.std.proofs.Common.{true≢false, sym};

use crate::faults::Faults;
use ep_outside::{Device, Failed, Sink};
use std::alloc::Global;

/// A sink that holds what was written. A write that fails writes nothing; one for which there is no
/// memory fails too.
#[derive(Drop)]
pub struct MemSink {
    bytes: Vec<u8>,
    faults: Faults,
}

impl MemSink {
    /// An empty one. Its writes of these numbers, counted from 1, fail.
    pub fn new(alloc: Global, fails: Vec<u64>) -> MemSink
        ensures held { ⟦<MemSink as Sink>⟧.held result ≡ Some [] }
        ensures plan { plan_of_sink result ≡ planned fails.items }
        ensures failures { ⟦<MemSink as Device>⟧.failures result ≡ 0 }
    {
        MemSink {
            bytes: Vec::new(alloc),
            faults: Faults::new(fails),
        }
    }

    /// What was written.
    pub fn as_slice(&self) -> &[u8]
        ensures { ⟦<MemSink as Sink>⟧.held self.now ≡ Some result.now }
    {
        &self.bytes
    }
}

impl Device for MemSink {
    ghost failures = { λ s. s.faults.failures };

    ghost is_steady = { λ s. false };

    ghost never_fails = { λ s steady. absurd (true≢false (sym steady)) };

    fn faults(&self) -> u64 {
        self.faults.failures
    }
}

impl Sink for MemSink {
    ghost held = { λ s. Some s.bytes.items };

    fn write(&mut self, bytes: &[u8]) -> Result<(), Failed>
        ensures ok { OnOk result (Takes (Some self.old.bytes.items) (Some self.new.bytes.items) bytes.now) }
        ensures err { OnErr result (TakesPart (Some self.old.bytes.items) (Some self.new.bytes.items) bytes.now) }
        ensures nothing { OnErr result (self.new.bytes.items ≡ self.old.bytes.items) }
        ensures listed { Contains (plan_of_sink self.old).fails (risen (plan_of_sink self.old).made) → IsErr result }
        ensures counts { plan_of_sink self.new ≡ with_call (plan_of_sink self.old) }
        ensures cause { HasCause self.old.faults.failures self.new.faults.failures false false (IsErr result) }
    {
        if self.faults.call().is_err() {
            return Err(Failed);
        }
        if self.bytes.extend_from_slice(bytes).is_err() {
            self.faults.fail();
            return Err(Failed);
        }
        Ok(())
    }
}
