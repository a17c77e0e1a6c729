//! A source within the test.

use ep_outside::{Device, Got, Source};

/// A text that gives at most three bytes a read.
#[derive(Drop)]
pub struct Text<'a> {
    left: &'a [u8],
    /// The read that fails, counted from 1.
    broken: Option<u64>,
    reads: u64,
    faults: u64,
}

impl<'a> Text<'a> {
    pub fn new(left: &'a [u8], broken: Option<u64>) -> Text<'a> {
        Text {
            left,
            broken,
            reads: 0,
            faults: 0,
        }
    }
}

impl<'a> Device for Text<'a> {
    ghost use Rattle.std.specs.Prelude.{false};
    ghost use Rattle.std.proofs.Common.{true≢false, sym};

    ghost failures = { λ t. t.faults };

    ghost is_steady = { λ _. false };

    ghost never_fails = { λ _ steady. absurd (true≢false (sym steady)) };

    fn faults(&self) -> u64 {
        self.faults
    }
}

impl<'a> Source for Text<'a> {
    ghost use Rattle.std.specs.Prelude.{Some};

    ghost left = { λ t. Some t.left.now };

    fn read(&mut self, room: &mut [u8]) -> Got {
        self.reads = self.reads.saturating_add(1);
        if self.broken == Some(self.reads) {
            self.faults = self.faults.saturating_add(1);
            return Got::Failed;
        }
        let n = self.left.len().min(room.len()).min(3);
        if n == 0 {
            return Got::End;
        }
        room[..n].copy_from_slice(&self.left[..n]);
        self.left = &self.left[n..];
        Got::Bytes(n)
    }
}
