//! Shelves of disks.

ghost use Rattle.std.specs.Prelude.{◌≡◌, ◌≢◌, ◌≤◌, ℕ, List, Bool, true, Option, None, length, option_map, IsTrue, IfOk, OnOk, OnErr, IsErrOf};
ghost use Rattle.ep_outside.specs.Planned.{Follows};
ghost use Rattle.ep_outside.specs.Outside.{HasCause};
ghost use Rattle.ep_outside.specs.Disk.{Contents};
ghost use Rattle.ep_outside.specs.Shelf.{AreTold, IsAmong, IsNew, Holds, IsEmpty, rises, with_name};

use crate::device::Device;
use crate::disk::Disk;
use ep_units::{NoMemory, PadId};
use thiserror::Error;

/// Why a shelf did not do what it was asked.
#[derive(Clone, Copy, Debug, Error, PartialEq, Eq)]
pub enum ShelfBad {
    #[error("the shelf failed")]
    Failed,
    #[error("out of memory")]
    NoMemory,
}

impl From<NoMemory> for ShelfBad {
    ghost use Rattle.ep_outside.specs.declared.shelf.ShelfBad.TheVariants as bad;

    ghost from_gives = { λ _ e. e ≡ bad.NoMemory };

    fn from(_error: NoMemory) -> ShelfBad {
        ShelfBad::NoMemory
    }
}

/// Disks, each under the id of a pad.
///
/// A shelf tells what the disk of a name holds until that disk is opened; from then on the disk tells.
pub trait Shelf: Device {
    type D: Disk + Drop;

    /// The names of its disks, by rising name, where it tells.
    ghost names: { Self → Option (List (List ℕ)) };

    /// What the disk of a name holds, where it tells.
    ghost told: { Self → List ℕ → Option Contents };

    /// The names of its disks, by rising name.
    fn names(&mut self) -> Result<Vec<PadId>, ShelfBad>
        ensures value { IfOk result (λ found. AreTold (names self.old) found.items) }
        ensures sorted { IfOk result (λ found. IsTrue (rises found.items)) }
        ensures names { names self.new ≡ names self.old }
        ensures told { (name : List ℕ) → told self.new name ≡ told self.old name }
        ensures cause { HasCause (Self.failures self.old) (Self.failures self.new) (Self.is_steady self.old) (Self.is_steady self.new) (IsErrOf result ShelfBad.Failed) }
        ensures plan { Follows (Self.plan self.old) (Self.plan self.new) (IsErrOf result ShelfBad.Failed) };

    /// Whether it has a disk of this name. None is made.
    fn has(&mut self, name: &PadId) -> Result<bool, ShelfBad>
        ensures value { IfOk result (λ there. IsAmong (names self.old) name.now there) }
        ensures names { names self.new ≡ names self.old }
        ensures told { (other : List ℕ) → told self.new other ≡ told self.old other }
        ensures cause { HasCause (Self.failures self.old) (Self.failures self.new) (Self.is_steady self.old) (Self.is_steady self.new) (IsErrOf result ShelfBad.Failed) }
        ensures plan { Follows (Self.plan self.old) (Self.plan self.new) (IsErrOf result ShelfBad.Failed) };

    /// The disk of a name, which is empty where the name is new.
    fn open(&mut self, name: &PadId) -> Result<Self::D, ShelfBad>
        ensures holds { IfOk result (λ disk. Holds (told self.old name.now) (Self.D.told disk)) }
        ensures empty { IfOk result (λ disk. IsNew (names self.old) name.now → IsEmpty (Self.D.told disk)) }
        ensures opened { OnOk result (told self.new name.now ≡ None) }
        ensures others { (other : List ℕ) → other ≢ name.now → told self.new other ≡ told self.old other }
        ensures names { OnOk result (names self.new ≡ option_map (λ ns. with_name ns name.now) (names self.old)) }
        ensures err { OnErr result ((names self.new ≡ names self.old) × (told self.new name.now ≡ told self.old name.now)) }
        ensures no_faults { IfOk result (λ disk. Self.D.failures disk ≡ 0) }
        ensures no_stop { IfOk result (λ disk. Self.D.left disk ≡ None) }
        ensures disk_steady { IfOk result (λ disk. Self.is_steady self.old ≡ true → Self.D.is_steady disk ≡ true) }
        ensures cause { HasCause (Self.failures self.old) (Self.failures self.new) (Self.is_steady self.old) (Self.is_steady self.new) (IsErrOf result ShelfBad.Failed) }
        ensures plan { Follows (Self.plan self.old) (Self.plan self.new) (IsErrOf result ShelfBad.Failed) };
}
