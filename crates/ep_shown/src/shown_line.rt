//! A line that is written again and again in its place.

ghost use Rattle.std.specs.Prelude.{◌↔◌, ◌-◌, ◌≤◌, IsTrue, MatchOption, ⊤};
ghost use Rattle.std.specs.Duration.{as_nanos};

use std::io::Eprint;
use std::time::{Clock, Duration};

// At most ten a second.
const PAUSE_NANOS: u128 = 100_000_000;

/// A line on standard error, where a person watches. It is erased when it is dropped.
pub(crate) struct ShownLine<R: Eprint + Clock + Drop> {
    rt: R,
    is_watched: bool,
    // when it was written last, where it stands there
    written: Option<Duration>,
}

// Whether the line may be written again.
fn is_due(written: Option<Duration>, now: Duration) -> bool
    ensures { IsTrue result ↔ MatchOption written ⊤ (λ then. 100_000_000 ≤ as_nanos now - as_nanos then) }
{
    match written {
        None => true,
        Some(then) => now.saturating_sub(then).as_nanos() >= PAUSE_NANOS,
    }
}

impl<R: Eprint + Clock + Drop> ShownLine<R> {
    pub(crate) fn new(rt: R, is_watched: bool) -> ShownLine<R> {
        ShownLine {
            rt,
            is_watched,
            written: None,
        }
    }

    /// Shows that this is the file of so many, if the last time was long enough ago. What can't be shown is left out.
    pub(crate) fn show(&mut self, file: u64, of: u64) {
        if !self.is_watched {
            return;
        }
        let Ok(now) = self.rt.monotonic() else {
            return;
        };
        if is_due(self.written, now) {
            let _shown = eprint!(self.rt; "\rfile {file} of {of}\x1b[K").is_ok();
            self.written = Some(now);
        }
    }

    /// Takes the line away, where it stands there.
    pub(crate) fn erase(&mut self) {
        if self.written.take().is_some() {
            let _erased = eprint!(self.rt; "\r\x1b[K").is_ok();
        }
    }
}

impl<R: Eprint + Clock + Drop> Drop for ShownLine<R> {
    fn drop(mut self) {
        self.erase();
        let ShownLine {
            rt: _,
            is_watched: _,
            written: _,
        } = self;
    }
}
