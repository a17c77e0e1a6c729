//! Numbers from the system's random source.

use ep_outside::Draws;
use std::random::RandomSource;
use std::sync::Wait;

/// Numbers from the system's random source, and from nothing else: where the source fails a draw asks again, and gives
/// no number until it has one.
#[derive(Clone, Copy)]
pub struct SysDraws<R> {
    source: R,
}

impl<R: RandomSource> SysDraws<R> {
    pub fn new(source: R) -> SysDraws<R> {
        SysDraws { source }
    }
}

impl<R: RandomSource + Wait + Copy> Draws for SysDraws<R> {
    ghost use Rattle.std.specs.Prelude.{None};

    ghost to_come = { λ _. None };

    fn next(&mut self) -> u64 {
        drawn(&self.source)
    }

    fn fork(&mut self) -> SysDraws<R> {
        *self
    }
}

fn drawn<R: RandomSource + Wait>(source: &R) -> u64 {
    let mut number = [0; 8];
    for _ in source.forever() {
        if source.fill_bytes(&mut number).is_ok() {
            break;
        }
    }
    u64::from_le_bytes(number)
}
