//! The directory of a server, behind a lock.

ghost use Rattle.std.specs.Prelude.{◌≡◌, IfOk};
ghost use Rattle.ep_house.specs.Directory.{begun_of};

use ep_cell::{Cell, Pass};
use ep_groups::DirMachine;
use ep_outside::Keeper;
use ep_units::NoMemory;
use std::alloc::Global;

/// The one cell of the directory.
pub struct Directory<K: Keeper + Drop> {
    pub(crate) alloc: Global,
    pub(crate) cell: Cell<DirMachine<K>>,
}

impl<K: Keeper + Drop> Drop for Directory<K> {
    fn drop(self) {
        let Directory { alloc: _, cell: _ } = self;
    }
}

/// A pass of the directory.
#[derive(Drop)]
pub struct DirPass<K: Keeper + Drop> {
    pub(crate) pass: Pass<DirMachine<K>>,
}

impl<K: Keeper + Drop> Directory<K> {
    /// The directory that stands in this keeper. No call is made yet.
    pub fn open(alloc: Global, keeper: K) -> Result<Directory<K>, NoMemory>
        ensures begun { IfOk result (λ directory. begun_of directory ≡ record { told = K.told keeper; always_tells = K.always_tells keeper; failures = K.failures keeper; is_steady = K.is_steady keeper }) }
    {
        match Cell::new(alloc, DirMachine::new(alloc, keeper)) {
            Ok(cell) => Ok(Directory { alloc, cell }),
            Err(refused) => Err(refused.why),
        }
    }
}
