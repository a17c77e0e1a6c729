//! What all sessions came to.

use std::sync::atomic::{AtomicU64, Ordering};

/// Counts that all sessions share.
#[derive(Drop)]
pub struct Tally {
    entered: AtomicU64,
    acknowledged: AtomicU64,
    told_all: AtomicU64,
}

impl Tally {
    /// Nobody is in yet.
    pub fn new() -> Tally {
        Tally {
            entered: AtomicU64::new(0),
            acknowledged: AtomicU64::new(0),
            told_all: AtomicU64::new(0),
        }
    }

    /// One more is in.
    pub fn enter(&self) {
        self.entered.fetch_add(1, Ordering::SeqCst);
    }

    /// How many are in, or were.
    pub fn entered(&self) -> u64 {
        self.entered.load(Ordering::SeqCst)
    }

    /// One goes, of whose edits so many were acknowledged.
    pub fn go(&self, acknowledged: u64, was_told_all: bool) {
        self.acknowledged.fetch_add(acknowledged, Ordering::SeqCst);
        self.told_all
            .fetch_add(u64::from(was_told_all), Ordering::SeqCst);
    }

    /// How many edits of those that went were acknowledged.
    pub fn acknowledged(&self) -> u64 {
        self.acknowledged.load(Ordering::SeqCst)
    }

    /// How many of those that went were told of all revisions.
    pub fn told_all(&self) -> u64 {
        self.told_all.load(Ordering::SeqCst)
    }
}
