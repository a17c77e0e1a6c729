//! A pad's file, read.

ghost use Rattle.std.specs.Prelude.{◌≡◌, ◌⊎◌, ◌≤◌, ℕ, List, true, bytes_eq, option_map, IfOk, IsErrOf, IsTrue, OnErr, OnOk};
ghost use Rattle.ep_outside.specs.Outside.{HasCause, HasRisen};
ghost use Rattle.ep_outside.specs.Shelf.{AreTold, Holds, rises, with_name};
ghost use Rattle.ep_verify.specs.Files.{IsFile};
ghost use Rattle.ep_move.specs.Moving.{FailsBy, IsFound, is_among};

use ep_outside::{Disk, Failed, Shelf, ShelfBad};
use ep_units::PadId;
use std::alloc::Global;

/// Why a file isn't read.
#[derive(Clone, Copy, Debug, PartialEq, Eq)]
pub enum Unread {
    /// The shelf failed, or the disk.
    Fault,
    NoMemory,
}

fn is_same(a: &PadId, b: &PadId) -> bool
    ensures { result ≡ bytes_eq a.now b.now }
{
    a.as_slice() == b.as_slice()
}

/// Whether an id is among some names.
fn is_among(names: &[PadId], pad: &PadId) -> bool
    ensures { result ≡ is_among names.now pad.now }
{
    names.iter().any(|name| is_same(name, pad))
}

/// The names of a shelf.
fn find_names<H: Shelf>(shelf: &mut H) -> Result<Vec<PadId>, Unread>
    ensures value { IfOk result (λ found. AreTold (H.names shelf.old) found.items) }
    ensures sorted { IfOk result (λ found. IsTrue (rises found.items)) }
    ensures told { (name : List ℕ) → H.told shelf.new name ≡ H.told shelf.old name }
    ensures names { H.names shelf.new ≡ H.names shelf.old }
    ensures cause { HasCause (H.failures shelf.old) (H.failures shelf.new) (H.is_steady shelf.old) (H.is_steady shelf.new) (IsErrOf result Unread.Fault) }
{
    match shelf.names() {
        Ok(names) => Ok(names),
        Err(ShelfBad::Failed) => Err(Unread::Fault),
        Err(ShelfBad::NoMemory) => Err(Unread::NoMemory),
    }
}

/// The disk of a name.
pub fn open_disk<H: Shelf>(shelf: &mut H, pad: &PadId) -> Result<H::D, Unread>
    ensures holds { IfOk result (λ disk. Holds (H.told shelf.old pad.now) (H.D.told disk)) }
    ensures no_faults { IfOk result (λ disk. H.D.failures disk ≡ 0) }
    ensures disk_steady { IfOk result (λ disk. H.is_steady shelf.old ≡ true → H.D.is_steady disk ≡ true) }
    ensures named { OnOk result (H.names shelf.new ≡ option_map (λ ns. with_name ns pad.now) (H.names shelf.old)) }
    ensures unnamed { OnErr result (H.names shelf.new ≡ H.names shelf.old) }
    ensures cause { HasCause (H.failures shelf.old) (H.failures shelf.new) (H.is_steady shelf.old) (H.is_steady shelf.new) (IsErrOf result Unread.Fault) }
{
    match shelf.open(pad) {
        Ok(disk) => Ok(disk),
        Err(ShelfBad::Failed) => Err(Unread::Fault),
        Err(ShelfBad::NoMemory) => Err(Unread::NoMemory),
    }
}

/// All bytes of a disk.
#[tactic(auto, using(crate::proofs::Causes::risen_since))]
fn read_disk<D: Disk>(alloc: Global, disk: &mut D) -> Result<Vec<u8>, Unread>
    ensures file { IfOk result (λ bytes. IsFile (D.told disk.old) bytes.items) }
    ensures cause { HasCause (D.failures disk.old) (D.failures disk.new) (D.is_steady disk.old) (D.is_steady disk.new) (IsErrOf result Unread.Fault) }
{
    let Ok(size) = disk.length() else {
        return Err(Unread::Fault);
    };
    let Ok(mut bytes) = vec![in alloc; 0u8; size as usize] else {
        return Err(Unread::NoMemory);
    };
    match disk.read(0, &mut bytes) {
        Ok(()) => Ok(bytes),
        Err(Failed) => Err(Unread::Fault),
    }
}

/// All bytes of a shelf's file, which is there.
fn read_file<H: Shelf>(alloc: Global, shelf: &mut H, pad: &PadId) -> Result<Vec<u8>, Unread>
    requires { option_map (λ ns. with_name ns pad.now) (H.names shelf.old) ≡ H.names shelf.old }
    ensures file { IfOk result (λ bytes. IsFile (H.told shelf.old pad.now) bytes.items) }
    ensures names { H.names shelf.new ≡ H.names shelf.old }
    ensures fault { IsErrOf result Unread.Fault → HasRisen (H.failures shelf.old) (H.failures shelf.new) ⊎ FailsBy H.D.told H.D.failures (H.told shelf.old pad.now) }
    ensures sure { H.is_steady shelf.old ≡ true → IsErrOf result Unread.Fault → ⊥ }
{
    match open_disk(shelf, pad) {
        Ok(disk) => {
            let mut disk = disk;
            read_disk(alloc, &mut disk)
        }
        Err(why) => Err(why),
    }
}

/// All bytes of a pad's file; none where the shelf has no file of that name, which it isn't asked for then.
pub fn file_of<H: Shelf>(
    alloc: Global,
    shelf: &mut H,
    pad: &PadId,
) -> Result<Option<Vec<u8>>, Unread>
    ensures found { IfOk result (λ found. IsFound (H.names shelf.old) (H.told shelf.old pad.now) pad.now (option_map (λ bytes. bytes.items) found)) }
    ensures names { H.names shelf.new ≡ H.names shelf.old }
    ensures fault { IsErrOf result Unread.Fault → HasRisen (H.failures shelf.old) (H.failures shelf.new) ⊎ FailsBy H.D.told H.D.failures (H.told shelf.old pad.now) }
    ensures sure { H.is_steady shelf.old ≡ true → IsErrOf result Unread.Fault → ⊥ }
{
    let names = match find_names(shelf) {
        Ok(names) => names,
        Err(why) => return Err(why),
    };
    if !is_among(&names, pad) {
        return Ok(None);
    }
    match read_file(alloc, shelf, pad) {
        Ok(bytes) => Ok(Some(bytes)),
        Err(why) => Err(why),
    }
}
