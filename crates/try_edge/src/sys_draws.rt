//! Numbers from the system's random source.

use ep_edge::SysDraws;
use ep_outside::Draws;
use std::cell::Cell;
use std::io;
use std::io::ErrorKind;
use std::random::RandomSource;
use std::sync::Wait;
use std::test::Fail;

/// A source that fails so many times, and then gives sevens.
#[derive(Drop)]
struct Failing<R> {
    rt: R,
    times: Cell<u8>,
}

impl<R: Wait> Wait for Failing<R> {}

impl<R> RandomSource for Failing<R> {
    fn fill_bytes(&self, buf: &mut [u8]) -> io::Result<()> {
        let times = self.times.get();
        if times > 0 {
            self.times.set(times - 1);
            return Err(io::Error::from(ErrorKind::Other));
        }
        buf.fill(7);
        Ok(())
    }
}

#[test]
fn draws_differ(rt: HostRuntime) -> Result<(), Fail> {
    let mut draws = SysDraws::new(rt);
    let mut fork = draws.fork();
    let mut drawn = Vec::new(rt.alloc());
    for _ in 0..8u8 {
        drawn.push(draws.next())?;
        drawn.push(fork.next())?;
    }
    drawn.sort()?;
    drawn.dedup();
    assert_eq!(rt; drawn.len(), 16);
    Ok(())
}

#[test]
fn asks_again(rt: HostRuntime) {
    let source = Failing {
        rt,
        times: Cell::new(3),
    };
    let mut draws = SysDraws::new(&source);
    assert_eq!(source.rt; draws.next(), u64::from_le_bytes([7; 8]));
    assert_eq!(source.rt; source.times.get(), 0);
}
