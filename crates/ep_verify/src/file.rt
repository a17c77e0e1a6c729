//! Reading the files of a shelf.

ghost use Rattle.std.specs.Prelude.{◌≡◌, ◌≢◌, ◌≤◌, ◌<◌, ◌^◌, ℕ, List, Option, Some, None, true, length, IfOk, IfErr, OnOk};
ghost use Rattle.ep_outside.specs.Outside.{HasRisen};
ghost use Rattle.ep_outside.specs.Disk.{HasLength};
ghost use Rattle.ep_outside.specs.Shelf.{Holds};
ghost use Rattle.ep_verify.specs.Files.{IsFile, MayPut};
ghost use Rattle.ep_verify.specs.Refusals.{IsCause};

use crate::verify_bad::VerifyBad;
use ep_outside::{Disk, Failed, Shelf, ShelfBad};
use ep_units::PadId;
use std::alloc::Global;

/// A disk that tells how long it is, and this length.
#[derive(Drop)]
pub struct Measured<D> {
    pub disk: D,
    pub size: u64,
}

/// The disk of a name.
pub fn open_disk<H: Shelf>(shelf: &mut H, name: &PadId) -> Result<H::D, VerifyBad<H::D>>
    ensures holds { IfOk result (λ disk. Holds (H.told shelf.old name.now) (H.D.told disk)) }
    ensures no_faults { IfOk result (λ disk. H.D.failures disk ≡ 0) }
    ensures disk_steady { IfOk result (λ disk. H.is_steady shelf.old ≡ true → H.D.is_steady disk ≡ true) }
    ensures others { (other : List ℕ) → other ≢ name.now → H.told shelf.new other ≡ H.told shelf.old other }
    ensures shelf { MayPut name.now (H.names shelf.old) (H.names shelf.new) }
    ensures refused { IfErr result (IsCause (λ n. (n ≡ H.failures shelf.new) × HasRisen (H.failures shelf.old) (H.failures shelf.new)) (λ d. ⊥)) }
    ensures later { H.failures shelf.old ≤ H.failures shelf.new }
    ensures steady { H.is_steady shelf.new ≡ H.is_steady shelf.old }
{
    match shelf.open(name) {
        Ok(disk) => Ok(disk),
        Err(ShelfBad::Failed) => Err(VerifyBad::Shelf(shelf.faults())),
        Err(ShelfBad::NoMemory) => Err(VerifyBad::NoMemory),
    }
}

/// How long a disk is.
pub fn measure<D: Disk + Drop>(disk: D) -> Result<Measured<D>, VerifyBad<D>>
    ensures told { IfOk result (λ measured. D.told measured.disk ≡ D.told disk) }
    ensures size { IfOk result (λ measured. HasLength (D.told disk) measured.size) }
    ensures bound { IfOk result (λ measured. measured.size < 2 ^ 63) }
    ensures steady { IfOk result (λ measured. D.is_steady measured.disk ≡ D.is_steady disk) }
    ensures refused { IfErr result (IsCause (λ n. ⊥) (λ d. (D.told d ≡ D.told disk) × (D.is_steady d ≡ D.is_steady disk) × (1 ≤ D.failures d))) }
{
    let mut disk = disk;
    match disk.length() {
        Ok(size) => Ok(Measured { disk, size }),
        Err(Failed) => Err(VerifyBad::Disk(disk)),
    }
}

/// All bytes of a disk.
pub fn read_whole<D: Disk + Drop>(
    alloc: Global,
    measured: Measured<D>,
) -> Result<Vec<u8>, VerifyBad<D>>
    requires size { HasLength (D.told measured.disk) measured.size }
    requires bound { measured.size < 2 ^ 63 }
    ensures value { IfOk result (λ bytes. IsFile (D.told measured.disk) bytes.items) }
    ensures size { IfOk result (λ bytes. length bytes.items ≡ measured.size) }
    ensures refused { IfErr result (IsCause (λ n. ⊥) (λ d. (D.told d ≡ D.told measured.disk) × (D.is_steady d ≡ D.is_steady measured.disk) × (1 ≤ D.failures d))) }
{
    let Measured { disk, size } = measured;
    let mut disk = disk;
    let Ok(mut bytes) = vec![in alloc; 0u8; size as usize] else {
        return Err(VerifyBad::NoMemory);
    };
    match disk.read(0, &mut bytes) {
        Ok(()) => Ok(bytes),
        Err(Failed) => Err(VerifyBad::Disk(disk)),
    }
}
