//! A keeper that is opened anew after it failed.

use crate::keepers::{get_fails, is_got, put_all};
use ep_keep::MapKeeper;
use ep_keep_again::{AgainKeeper, Opener};
use ep_outside::{Device, KeepBad};
use std::alloc::{AllocError, Global};
use std::test::Fail;

/// Opens so many keepers in memory, of each of which the third call fails.
#[derive(Drop)]
struct Opens {
    alloc: Global,
    left: u64,
}

fn failing(alloc: Global) -> Result<MapKeeper, AllocError> {
    Ok(MapKeeper::new(alloc, vec![in alloc; 3]?))
}

impl Opener for Opens {
    type Kept = MapKeeper;

    fn open(&mut self) -> Option<MapKeeper> {
        self.left = self.left.checked_sub(1)?;
        failing(self.alloc).ok()
    }
}

/// Whether each keeper serves two calls and fails at the third, and the next call asks the next keeper, until none is left.
fn is_opened_anew(alloc: Global, keeper: &mut AgainKeeper<Opens>) -> Result<bool, KeepBad> {
    for turn in 1..3u64 {
        put_all(alloc, keeper, &[("a", Some("1"))])?;
        let is_served = is_got(keeper, "a", Some("1"))?;
        if !is_served || !get_fails(keeper, "a") || keeper.faults() != turn {
            return Ok(false);
        }
    }
    Ok(get_fails(keeper, "a") && keeper.faults() == 3)
}

#[test]
fn a_keeper_that_failed_is_opened_anew(rt: HostRuntime) -> Result<(), Fail> {
    let alloc = rt.alloc();
    let first = failing(alloc)?;
    let mut keeper = AgainKeeper::new(Opens { alloc, left: 1 }, first);
    assert!(rt; is_opened_anew(alloc, &mut keeper)?);
    Ok(())
}
