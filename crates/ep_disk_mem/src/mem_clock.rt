//! A clock that shows moments of a list.

ghost use Rattle.std.specs.Prelude.{◌≡◌, ◌<◌, ◌-◌, length, get_or, min, Contains};

use ep_outside::Clock;
use std::sync::atomic::{AtomicU64, Ordering};

/// A clock that shows the moments of a list one after the other, and then the last one.
#[derive(Drop)]
pub struct MemClock {
    moments: Vec<u64>,
    shown: AtomicU64,
    ghost some: { 0 < length moments.items },
}

impl MemClock {
    pub fn new(moments: Vec<u64>) -> MemClock
        requires { 0 < length moments.items }
        ensures { result.moments.items ≡ moments.items }
    {
        MemClock {
            moments,
            shown: AtomicU64::new(0),
        }
    }

    // What is shown after so many moments.
    fn moment(&self, shown: u64) -> u64
        ensures moment { result ≡ get_or self.now.moments.items (min shown (length self.now.moments.items - 1)) 0 }
        ensures among { Contains self.now.moments.items result }
    {
        let last = self.moments.len() - 1;
        self.moments[(shown as usize).min(last)]
    }
}

impl Clock for MemClock {
    ghost may_show = { λ c moment. Contains c.moments.items moment };

    fn now_ms(&self) -> u64 {
        self.moment(self.shown.fetch_add(1, Ordering::SeqCst))
    }
}
