//! The system's clock.

ghost use Rattle.std.specs.Prelude.{◌≡◌, ◌/◌, ◌^◌, ◌-◌, min};
ghost use Rattle.std.specs.Duration.{as_nanos};

use ep_outside::Clock;
use std::sync::atomic::{AtomicU64, Ordering};
use std::time;
use std::time::Duration;

/// The system's clock. Where it stands before 1970, or cannot be read, it stands still at the moment that it showed
/// last, 0 at first.
#[derive(Drop)]
pub struct SysClock<R> {
    clock: R,
    shown: AtomicU64,
}

impl<R: time::Clock> SysClock<R> {
    pub fn new(clock: R) -> SysClock<R> {
        SysClock {
            clock,
            shown: AtomicU64::new(0),
        }
    }
}

impl<R: time::Clock> Clock for SysClock<R> {
    ghost may_show = { λ _ _. Unit {0} };

    fn now_ms(&self) -> u64 {
        match self.clock.since_1970() {
            Ok(time) => {
                let now = whole_ms(time);
                self.shown.store(now, Ordering::SeqCst);
                now
            }
            Err(_) => self.shown.load(Ordering::SeqCst),
        }
    }
}

/// So many whole milliseconds, and no more than the greatest `u64`.
pub fn whole_ms(time: Duration) -> u64
    ensures { result ≡ min (as_nanos time / 1_000_000) (2 ^ 64 - 1) }
{
    time.as_secs()
        .saturating_mul(1000)
        .saturating_add(u64::from(time.subsec_millis()))
}
