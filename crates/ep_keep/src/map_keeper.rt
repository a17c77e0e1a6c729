//! The keeper in memory.

ghost use Rattle.std.specs.Prelude.{◌≡◌, ◌==◌, ◌&&◌, true, [], Some, IsTrue, IfOk, IsErrOf, length};
ghost use Rattle.ep_outside.specs.Kept.{after, rises};
ghost use Rattle.ep_outside.specs.Planned.{planned};
ghost use Rattle.ep_disk_mem.specs.Faults.{fails_never, none_failed, plan_of};

use crate::pairs::{copy_pairs, pairs_with, put_pairs, value_of};
use ep_disk_mem::Faults;
use ep_outside::{Device, KeepBad, Keeper, Pair, Pairs, Put, Text};
use std::alloc::Global;

/// A keeper in memory.
pub struct MapKeeper {
    pairs: Vec<Pair>,
    faults: Faults,
    alloc: Global,
    ghost rising: { IsTrue (rises pairs.items) },
}

impl Drop for MapKeeper {
    fn drop(self) {
        let MapKeeper {
            pairs: _,
            faults: _,
            alloc: _,
        } = self;
    }
}

impl MapKeeper {
    /// It holds nothing. Its calls of these numbers fail, counted from 1.
    pub fn new(alloc: Global, fails: Vec<u64>) -> MapKeeper
        ensures told { ⟦<MapKeeper as Keeper>⟧.told result ≡ Some [] }
        ensures always { ⟦<MapKeeper as Keeper>⟧.always_tells result ≡ true }
        ensures failures { ⟦<MapKeeper as Device>⟧.failures result ≡ 0 }
        ensures plan { ⟦<MapKeeper as Device>⟧.plan result ≡ Some (planned fails.items) }
        ensures steady { ⟦<MapKeeper as Device>⟧.is_steady result ≡ (length fails.items == 0) }
    {
        MapKeeper {
            pairs: Vec::new(alloc),
            faults: Faults::new(fails),
            alloc,
        }
    }

    fn after(&self, puts: &[Put]) -> Result<Vec<Pair>, KeepBad>
        ensures pairs { IfOk result (λ pairs. pairs.items ≡ after self.now.pairs.items puts.now) }
        ensures rising { IfOk result (λ pairs. IsTrue (rises pairs.items)) }
        ensures no_fault { IsErrOf result KeepBad.Failed → ⊥ }
    {
        let mut pairs = copy_pairs(self.alloc, self.pairs.as_slice())?;
        put_pairs(self.alloc, &mut pairs, puts)?;
        Ok(pairs)
    }
}

impl Device for MapKeeper {
    ghost failures = { λ k. k.faults.failures };

    ghost is_steady = { λ k. fails_never k.faults && (k.faults.failures == 0) };

    ghost plan = { λ k. Some (plan_of k.faults) };

    ghost never_fails = { λ k steady. none_failed k.faults steady };

    fn faults(&self) -> u64 {
        self.faults.failures
    }
}

impl Keeper for MapKeeper {
    ghost told = { λ k. Some k.pairs.items };

    ghost always_tells = { λ k. true };

    ghost tells = { λ k always. tt };

    ghost in_order = { λ k. k.rising };

    fn get(&mut self, key: &str) -> Result<Option<Text>, KeepBad> {
        if self.faults.call().is_err() {
            return Err(KeepBad::Failed);
        }
        Ok(value_of(self.alloc, self.pairs.as_slice(), key)?)
    }

    fn put_all(&mut self, puts: &[Put]) -> Result<(), KeepBad> {
        if self.faults.call().is_err() {
            return Err(KeepBad::Failed);
        }
        self.pairs = self.after(puts)?;
        Ok(())
    }

    fn list_prefix(&mut self, prefix: &str) -> Result<Pairs, KeepBad> {
        if self.faults.call().is_err() {
            return Err(KeepBad::Failed);
        }
        Ok(pairs_with(self.alloc, self.pairs.as_slice(), prefix)?)
    }
}
