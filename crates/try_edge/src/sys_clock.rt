//! The system's clock.

use ep_edge::SysClock;
use ep_outside::Clock;
use std::cell::Cell;
use std::io::ErrorKind;
use std::time::Duration;
use std::{io, time};

// The beginning of 2020.
const LATE: u64 = 1_577_836_800_000;

/// A clock that can be read once.
#[derive(Drop)]
struct Once {
    is_read: Cell<bool>,
}

impl time::Clock for Once {
    fn monotonic(&self) -> io::Result<Duration> {
        self.since_1970()
    }

    fn since_1970(&self) -> io::Result<Duration> {
        if self.is_read.replace(true) {
            return Err(io::Error::from(ErrorKind::Other));
        }
        Ok(Duration::from_nanos(2_345_678_901))
    }
}

#[test]
fn shows_the_time(rt: HostRuntime) {
    let clock = SysClock::new(rt);
    let first = clock.now_ms();
    assert!(rt; first > LATE);
    assert!(rt; clock.now_ms() >= first);
}

#[test]
fn stands_still(rt: HostRuntime) {
    let clock = SysClock::new(Once {
        is_read: Cell::new(false),
    });
    for _ in 0..3u8 {
        assert_eq!(rt; clock.now_ms(), 2345);
    }
}
