//! A sink within the test.

use ep_outside::{Device, Failed, Sink};
use std::alloc::Global;

/// A page that keeps what is written on it.
pub struct Page {
    held: Vec<u8>,
    /// The write that fails, counted from 1. Half of its bytes go out.
    broken: Option<u64>,
    writes: u64,
    faults: u64,
}

impl Drop for Page {
    fn drop(self) {
        let Page {
            held: _,
            broken: _,
            writes: _,
            faults: _,
        } = self;
    }
}

impl Page {
    pub fn new(alloc: Global, broken: Option<u64>) -> Page {
        Page {
            held: Vec::new(alloc),
            broken,
            writes: 0,
            faults: 0,
        }
    }

    /// What was written.
    pub fn as_slice(&self) -> &[u8] {
        &self.held
    }
}

impl Device for Page {
    ghost use Rattle.std.specs.Prelude.{false};
    ghost use Rattle.std.proofs.Common.{true≢false, sym};

    ghost failures = { λ p. p.faults };

    ghost is_steady = { λ _. false };

    ghost never_fails = { λ _ steady. absurd (true≢false (sym steady)) };

    fn faults(&self) -> u64 {
        self.faults
    }
}

impl Sink for Page {
    ghost use Rattle.std.specs.Prelude.{Some};

    ghost held = { λ p. Some p.held.items };

    fn write(&mut self, bytes: &[u8]) -> Result<(), Failed> {
        self.writes = self.writes.saturating_add(1);
        if self.broken == Some(self.writes) {
            self.faults = self.faults.saturating_add(1);
            let _is_full = self.held.extend_from_slice(&bytes[..bytes.len() / 2]);
            return Err(Failed);
        }
        if self.held.extend_from_slice(bytes).is_err() {
            self.faults = self.faults.saturating_add(1);
            return Err(Failed);
        }
        Ok(())
    }
}
