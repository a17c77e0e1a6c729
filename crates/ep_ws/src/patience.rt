//! How long a peer is waited for.

use ep_edge::whole_ms;
use std::time::{Clock, Instant};

/// Turns of a wait, which ends by the clock long before.
pub const MOST_TURNS: u32 = 1_073_741_824;

/// How long a caller is waited for, each in milliseconds.
#[derive(Clone, Copy, Debug)]
pub struct Patience {
    /// A handshake is made, a message is taken, and a caller of the API is done.
    pub call: u64,
    /// Behind the handshake the first message has come whole.
    pub first: u64,
    /// A message that has begun to come has come whole.
    pub message: u64,
    /// A caller who says nothing is sent a ping each so long.
    pub ping: u64,
    /// A ping is answered.
    pub answer: u64,
}

impl Patience {
    /// A server's.
    pub const USUAL: Patience = Patience {
        call: 10_000,
        first: 10_000,
        message: 30_000,
        ping: 30_000,
        answer: 60_000,
    };
}

/// A moment from which a peer is waited for.
#[derive(Clone, Copy)]
pub struct Since {
    // none where the clock could not be read
    begun: Option<Instant>,
}

impl Since {
    pub fn now<C: Clock>(clock: &C) -> Since {
        Since {
            begun: Instant::now(clock).ok(),
        }
    }

    /// How many of so many milliseconds are left, one at least; none where the time is up or cannot be told.
    pub fn left_of<C: Clock>(&self, ms: u64, clock: &C) -> Option<u64> {
        let passed = self.begun?.elapsed(clock).ok()?;
        ms.checked_sub(whole_ms(passed)).filter(|left| *left > 0)
    }

    /// The time is up, or cannot be told.
    pub fn is_over<C: Clock>(&self, ms: u64, clock: &C) -> bool {
        self.left_of(ms, clock).is_none()
    }
}
