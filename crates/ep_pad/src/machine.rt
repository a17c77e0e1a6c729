//! The machine: a pad in memory, and the file of its records.

ghost use Rattle.std.specs.Prelude.{◌≡◌};

use ep_outside::{Disk, Limits};
use ep_pad_file::PadFile;
use ep_pad_state::Pad;
use std::alloc::Global;
use std::marker::Model;

/// A pad on its file.
///
/// While it is open its file holds the pad's records, and the pad in memory is what they tell, with the sessions of this
/// opening. A closed one stands for the records of its file alone, among them the one at which its store failed or not.
pub struct PadMachine<D: Disk> {
    pub(crate) alloc: Global,
    pub(crate) limits: Limits,
    pub(crate) file: PadFile<D>,
    pub(crate) pad: Pad,
    pub(crate) is_open: bool,
}

impl<D: Disk + Drop> Drop for PadMachine<D> {
    fn drop(self) {
        let PadMachine {
            alloc: _,
            limits: _,
            file: _,
            pad: _,
            is_open: _,
        } = self;
    }
}

impl<D: Disk> Model for PadMachine<D> {
    ghost use Rattle.std.specs.Prelude.{◌≡◌, true};
    ghost use Rattle.ep_pad_file.specs.PadFile.{disk_of, limit_of, IsReady};
    ghost use Rattle.ep_pad.specs.Held.{Held, longest_of};

    ghost Value = { Held D };

    ghost view = { λ m. record { disk = disk_of m.file; limits = m.limits; pad = m.pad; is_open = m.is_open } };

    ghost invariant = { λ m. (m.is_open ≡ true → IsReady D.told m.file) × (limit_of m.file ≡ longest_of m.limits) };
}

impl<D: Disk> PadMachine<D> {
    /// The disk. No more calls are made.
    pub fn into_disk(self) -> D
        ensures { result ≡ self.disk }
    {
        let PadMachine {
            alloc: _,
            limits: _,
            file,
            pad: _,
            is_open: _,
        } = self;
        file.into_disk()
    }
}
