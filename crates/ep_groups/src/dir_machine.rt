//! The directory.

ghost use Rattle.std.specs.Prelude.{◌≡◌, []};
ghost use Rattle.ep_groups.specs.History.{Stands};

use ep_dir_records::Records;
use ep_outside::Keeper;
use std::alloc::Global;
use std::marker::Model;

/// The directory over a keeper.
pub struct DirMachine<K: Keeper> {
    pub(crate) records: Records<K>,
    pub(crate) alloc: Global,
}

impl<K: Keeper + Drop> Drop for DirMachine<K> {
    fn drop(self) {
        let DirMachine {
            records: _,
            alloc: _,
        } = self;
    }
}

impl<K: Keeper> Model for DirMachine<K> {
    ghost use Rattle.ep_dir_records.specs.Answers.{Seen};

    ghost Value = { Seen };

    ghost view = { λ d. d.records };
}

impl<K: Keeper> DirMachine<K> {
    /// The directory that stands in this keeper. No call is made yet.
    pub fn new(alloc: Global, keeper: K) -> DirMachine<K>
        ensures seen { result ≡ record { told = K.told keeper; always_tells = K.always_tells keeper; failures = K.failures keeper; is_steady = K.is_steady keeper } }
        ensures begun { Stands K.always_tells result result [] }
    {
        let records = Records::new(alloc, keeper);
        records.tells();
        DirMachine { records, alloc }
    }
}
