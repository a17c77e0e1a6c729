//! From gate to gate.

ghost use Rattle.std.specs.Prelude.{◌≡◌, ◌+◌, ◌-◌, ◌*◌, ◌≤◌, ◌<◌, ◌^◌, [], ◌∷◌, ◌++◌, length, drop, List, ℕ, Option, Some, None, OnOk, OnErr, IfOk, IfSome, IsErrOf, IsOk, true};
ghost use Rattle.ep_outside.specs.Outside.{HasRisen};
ghost use Rattle.ep_outside.specs.Disk.{KeepsMarks, Contents, IsImage, Reaches};
ghost use Rattle.ep_outside.specs.Moments.{LeavesOnly};
ghost use Rattle.ep_journal.specs.File.{records_of};
ghost use Rattle.ep_journal.specs.Reads.{ReadsUpTo};
ghost use Rattle.ep_journal.specs.Walking.{AreSpaced, IsFound, SizeOn, ByteOn};

use crate::head::size_of_head;
use ep_outside::{Disk, Failed};
use std::alloc::{AllocError, AllocFailed, Global};

/// Why the gates of a disk were not found, or not mended.
#[derive(Clone, Copy, Debug, PartialEq, Eq)]
pub enum DiskBad {
    Failed,
    NoMemory,
}

impl From<Failed> for DiskBad {
    ghost use Rattle.ep_journal.specs.declared.walking.DiskBad.TheVariants as bad;

    ghost from_gives = { λ _ e. e ≡ bad.Failed };

    fn from(_e: Failed) -> DiskBad {
        DiskBad::Failed
    }
}

/// The gates of a file, and the closed one behind them.
#[derive(Drop)]
pub struct Found {
    pub gates: Vec<u64>,
    pub gate: u64,
}

/// The length of the record behind the gate, on a disk of that length.
#[tactic(auto, using(crate::proofs::Counting::at_most))]
pub fn size_on<D: Disk>(disk: &mut D, gate: u64, total: u64) -> Result<Option<u64>, Failed>
    requires inside { Reaches (D.told disk.old) total }
    requires within { gate < total }
    ensures size { IfOk result (λ size. SizeOn (D.told disk.old) gate total size) }
    ensures whole { IfOk result (λ size. IfSome size (λ n. gate + (n + 5) < total)) }
    ensures same { D.told disk.new ≡ D.told disk.old }
    ensures room { D.room disk.new ≡ D.room disk.old }
    ensures reads { ReadsUpTo (D.bytes_read disk.old) (D.bytes_read disk.new) 5 }
    ensures images { LeavesOnly D.moment D.since disk.old disk.new (IsImage (D.told disk.old)) }
    ensures marks { KeepsMarks D.is_steady D.stops_alone D.left disk.old disk.new }
    ensures later { D.failures disk.old ≤ D.failures disk.new }
    ensures failed { OnErr result (HasRisen (D.failures disk.old) (D.failures disk.new)) }
    ensures sure { D.stops_alone disk.old ≡ true → D.left disk.old ≡ None → IsOk result }
{
    let left = total - gate;
    if left < 6 {
        return Ok(None);
    }
    let mut head = [0u8; 5];
    disk.read(gate, &mut head)?;
    Ok(size_of_head(&head, left))
}

/// Goes from gate to gate up to the first closed one.
pub fn find_gates<D: Disk>(alloc: Global, disk: &mut D, total: u64) -> Result<Found, DiskBad>
    requires inside { Reaches (D.told disk.old) total }
    requires long { 8 < total }
    ensures found { IfOk result (λ found. IsFound (D.told disk.old) total found.gates.items found.gate) }
    ensures spaced { IfOk result (λ found. AreSpaced found.gates.items found.gate) }
    ensures within { IfOk result (λ found. (8 ≤ found.gate) × (found.gate < total)) }
    ensures same { D.told disk.new ≡ D.told disk.old }
    ensures room { D.room disk.new ≡ D.room disk.old }
    ensures reads { IfOk result (λ found. ReadsUpTo (D.bytes_read disk.old) (D.bytes_read disk.new) (5 * (length found.gates.items + 1))) }
    ensures reads_of_file { (c : Contents) → D.told disk.old ≡ Some c → total ≡ length c.seen → ReadsUpTo (D.bytes_read disk.old) (D.bytes_read disk.new) (5 * (length (records_of c.seen) + 1)) }
    ensures images { LeavesOnly D.moment D.since disk.old disk.new (IsImage (D.told disk.old)) }
    ensures marks { KeepsMarks D.is_steady D.stops_alone D.left disk.old disk.new }
    ensures later { D.failures disk.old ≤ D.failures disk.new }
    ensures failed { IsErrOf result DiskBad.Failed → HasRisen (D.failures disk.old) (D.failures disk.new) }
    ensures sure { D.stops_alone disk.old ≡ true → D.left disk.old ≡ None → IsErrOf result DiskBad.Failed → ⊥ }
{
    let mut gates = Vec::new(alloc);
    let mut gate = 8;
    while let Some(size) = size_on(disk, gate, total)? {
        gates.push(gate)?;
        gate += 5 + size;
    }
    Ok(Found { gates, gate })
}

/// One byte of the disk.
#[tactic(auto, using(crate::proofs::Counting::at_most))]
pub fn byte_on<D: Disk>(disk: &mut D, at: u64) -> Result<u8, Failed>
    requires fits { at + 1 < 2 ^ 64 }
    requires inside { Reaches (D.told disk.old) (at + 1) }
    ensures byte { IfOk result (λ byte. ByteOn (D.told disk.old) at byte) }
    ensures same { D.told disk.new ≡ D.told disk.old }
    ensures room { D.room disk.new ≡ D.room disk.old }
    ensures reads { ReadsUpTo (D.bytes_read disk.old) (D.bytes_read disk.new) 1 }
    ensures images { LeavesOnly D.moment D.since disk.old disk.new (IsImage (D.told disk.old)) }
    ensures marks { KeepsMarks D.is_steady D.stops_alone D.left disk.old disk.new }
    ensures later { D.failures disk.old ≤ D.failures disk.new }
    ensures failed { OnErr result (HasRisen (D.failures disk.old) (D.failures disk.new)) }
    ensures sure { D.stops_alone disk.old ≡ true → D.left disk.old ≡ None → IsOk result }
{
    let mut bytes = [0u8; 1];
    disk.read(at, &mut bytes)?;
    Ok(bytes[0])
}

impl From<AllocError> for DiskBad {
    ghost use Rattle.ep_journal.specs.declared.walking.DiskBad.TheVariants as bad;

    ghost from_gives = { λ _ e. e ≡ bad.NoMemory };

    fn from(_e: AllocError) -> DiskBad {
        DiskBad::NoMemory
    }
}

impl<T: Drop> From<AllocFailed<T>> for DiskBad {
    ghost use Rattle.ep_journal.specs.declared.walking.DiskBad.TheVariants as bad;

    ghost from_gives = { λ _ e. e ≡ bad.NoMemory };

    fn from(_e: AllocFailed<T>) -> DiskBad {
        DiskBad::NoMemory
    }
}
