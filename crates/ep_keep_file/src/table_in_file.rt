//! A table in a file.

ghost use Rattle.std.specs.Prelude.{◌≡◌, IfOk};

use ep_keep_sql::{FileKeeper, SqlKeeper};
use ep_outside::{Device, KeepBad, Keeper, Pairs, Put, Text};
use ep_units::NoMemory;

/// A keeper over one table of a database in a file.
pub struct TableInFile {
    keeper: FileKeeper,
}

impl Drop for TableInFile {
    fn drop(self) {
        let TableInFile { keeper: _ } = self;
    }
}

impl TableInFile {
    /// The keeper over this file, which is made where it is not there. Where it cannot be opened, each
    /// call fails.
    pub fn open(rt: &HostRuntime, path: &str) -> Result<TableInFile, NoMemory>
        ensures failures { IfOk result (λ k. ⟦<TableInFile as Device>⟧.failures k ≡ 0) }
    {
        Ok(TableInFile {
            keeper: SqlKeeper::open(rt, path)?,
        })
    }
}

impl Device for TableInFile {
    ghost use Rattle.std.proofs.Common.{true≢false, sym};

    ghost failures = { λ k. ⟦<FileKeeper as Device>⟧.failures k.keeper };

    ghost is_steady = { λ k. ⟦<FileKeeper as Device>⟧.is_steady k.keeper };

    ghost plan = { λ k. ⟦<FileKeeper as Device>⟧.plan k.keeper };

    ghost never_fails = { λ k steady. absurd (true≢false (sym steady)) };

    fn faults(&self) -> u64 {
        self.keeper.faults()
    }
}

impl Keeper for TableInFile {
    ghost use Rattle.ep_keep_sql.specs.Keeps.{always_told};

    ghost told = { λ k. ⟦<FileKeeper as Keeper>⟧.told k.keeper };

    ghost always_tells = { λ k. ⟦<FileKeeper as Keeper>⟧.always_tells k.keeper };

    ghost tells = { λ k always. always_told k.keeper.always.value _ k.keeper.telling always };

    ghost in_order = { λ k. k.keeper.rising };

    fn get(&mut self, key: &str) -> Result<Option<Text>, KeepBad> {
        self.keeper.get(key)
    }

    fn put_all(&mut self, puts: &[Put]) -> Result<(), KeepBad> {
        self.keeper.put_all(puts)
    }

    fn list_prefix(&mut self, prefix: &str) -> Result<Pairs, KeepBad> {
        self.keeper.list_prefix(prefix)
    }
}
