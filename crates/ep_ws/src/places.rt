//! What all connections of a server have together.

ghost use Rattle.std.specs.Prelude.{◌≡◌};

use std::alloc::{AllocError, Global};
use std::sync::Arc;
use std::sync::atomic::{AtomicU64, Ordering};

/// The most bytes of messages that have begun to come, of all connections together.
const UNFINISHED_BYTES: u64 = 268_435_456;

/// So many of them each connection may have, whatever the others hold.
const OWN_BYTES: u64 = 16_384;

/// How much all connections may have together.
#[derive(Clone, Copy, Debug)]
pub struct Bounds {
    pub connections: u64,
    /// Bytes of messages that have begun to come.
    pub unfinished: u64,
}

impl Bounds {
    /// So many connections, and 256 MiB of unfinished messages.
    pub fn of_connections(connections: u64) -> Bounds
        ensures { result.connections ≡ connections }
    {
        Bounds {
            connections,
            unfinished: UNFINISHED_BYTES,
        }
    }
}

#[derive(Drop)]
struct Counts {
    bounds: Bounds,
    connections: AtomicU64,
    // bytes beyond each connection's own
    unfinished: AtomicU64,
}

impl Counts {
    // What is left for all beside what each may have.
    fn most(&self) -> u64 {
        let Bounds {
            connections,
            unfinished,
        } = self.bounds;
        unfinished.saturating_sub(connections.saturating_mul(OWN_BYTES))
    }
}

/// Counts connections, and what they hold.
#[derive(Drop)]
pub struct Places {
    counts: Arc<Counts, Global>,
}

impl Places {
    pub fn new(alloc: Global, bounds: Bounds) -> Result<Places, AllocError> {
        let counts = Counts {
            bounds,
            connections: AtomicU64::new(0),
            unfinished: AtomicU64::new(0),
        };
        Ok(Places {
            counts: Arc::new(alloc, counts)?,
        })
    }

    /// There are as many connections as there may be.
    pub fn are_taken(&self) -> bool {
        self.counts.connections.load(Ordering::SeqCst) >= self.counts.bounds.connections
    }

    /// A place for one more connection.
    pub fn take(&self) -> Result<Place, AllocError> {
        let counts = Arc::try_clone(&self.counts)?;
        counts.connections.fetch_add(1, Ordering::SeqCst);
        Ok(Place { counts })
    }
}

/// One connection's, until it is dropped.
pub struct Place {
    counts: Arc<Counts, Global>,
}

impl Drop for Place {
    fn drop(self) {
        let Place { counts } = self;
        counts.connections.fetch_sub(1, Ordering::SeqCst);
    }
}

impl Place {
    /// Its share of what all may hold.
    pub fn share(&self) -> Result<Share, AllocError> {
        Ok(Share {
            counts: Arc::try_clone(&self.counts)?,
            held: 0,
        })
    }
}

/// What one connection holds of unfinished messages.
pub struct Share {
    counts: Arc<Counts, Global>,
    // bytes beyond its own
    held: u64,
}

impl Drop for Share {
    fn drop(self) {
        let Share { counts, held } = self;
        counts.unfinished.fetch_sub(held, Ordering::SeqCst);
    }
}

impl Share {
    /// It holds so many bytes now. False where that is more than before, more than its own, and too much beside what the
    /// others hold.
    pub fn holds(&mut self, bytes: u64) -> bool {
        let before = self.held;
        self.held = bytes.saturating_sub(OWN_BYTES);
        if self.held <= before {
            let less = before - self.held;
            self.counts.unfinished.fetch_sub(less, Ordering::SeqCst);
            return true;
        }
        let more = self.held - before;
        let all = self.counts.unfinished.fetch_add(more, Ordering::SeqCst);
        all.saturating_add(more) <= self.counts.most()
    }
}
