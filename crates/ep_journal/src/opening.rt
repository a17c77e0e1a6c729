//! Opening: nothing is left behind the records but a gate 00.

ghost use Rattle.std.specs.Prelude.{IsOk, false, MatchResult, ◌≡◌, ◌+◌, ◌-◌, ◌*◌, ◌≤◌, ◌<◌, ◌^◌, ◌⊎◌, [], ◌∷◌, ◌++◌, length, drop, take, List, ℕ, Option, Some, None, Ok, true, OnOk, OnErr, IfOk, IfSome, IfNone, OnSome, is_none, IfErr, IsErr, IsErrOf, bytes_eq, IsTrue};
ghost use Rattle.ep_outside.specs.Outside.{HasRisen};
ghost use Rattle.ep_outside.specs.Disk.{HasRoom, KeepsMarks, IsSure, Contents, IsImage, Reaches, settled};
ghost use Rattle.ep_outside.specs.Moments.{LeavesOnly, LeavesFirst, MayLeaveFirst};
ghost use Rattle.ep_journal.specs.File.{IsMending, mended, is_foreign, gates_of, records_of, closed_gate, header};
ghost use Rattle.ep_journal.specs.Held.{IsHeld, IsForeign};
ghost use Rattle.ep_journal.specs.Refusals.{OpenRefused};
ghost use Rattle.ep_journal.specs.Reads.{ReadsUpTo};
ghost use Rattle.ep_journal.specs.Repair.{zeroed, IsClosing, IsLongJournal};
ghost use Rattle.ep_journal.specs.Walking.{AreSpaced};

use crate::journal_bad::JournalBad;
use crate::scanning::{HEADER, is_header};
use crate::steps::{clip, put, settle};
use crate::walking::{DiskBad, Found, byte_on, find_gates};
use ep_outside::{Disk, Failed};
use std::alloc::Global;

/// Writes 00 at the closed gate where another byte stands there.
fn close_gate<D: Disk>(disk: &mut D, gate: u64) -> Result<(), Failed>
    requires fits { gate + 1 < 2 ^ 64 }
    requires inside { Reaches (D.told disk.old) (gate + 1) }
    requires room { HasRoom (D.room disk.old) 2 1 }
    ensures crash { (file : List ℕ) → IsClosing file gate → D.told disk.old ≡ Some (settled file) → LeavesOnly D.moment D.since disk.old disk.new (IsMending file) }
    ensures done { (file : List ℕ) → IsClosing file gate → D.told disk.old ≡ Some (settled file) → OnOk result (D.told disk.new ≡ Some (settled (zeroed file))) }
    ensures longer { OnOk result (Reaches (D.told disk.new) (gate + 1)) }
    ensures room { ((D.room disk.old).calls ≤ (D.room disk.new).calls + 2) }
    ensures synced { (file : List ℕ) (d : Contents) → IsClosing file gate → D.told disk.old ≡ Some (settled file) → D.told disk.new ≡ Some d → OnErr result (IsMending file d.synced) }
    ensures tells { D.told disk.old ≡ None → D.told disk.new ≡ None }
    ensures marks { KeepsMarks D.is_steady D.stops_alone D.left disk.old disk.new }
    ensures reads { ReadsUpTo (D.bytes_read disk.old) (D.bytes_read disk.new) 1 }
    ensures later { D.failures disk.old ≤ D.failures disk.new }
    ensures failed { OnErr result (HasRisen (D.failures disk.old) (D.failures disk.new)) }
    ensures sure { D.stops_alone disk.old ≡ true → D.left disk.old ≡ None → IsOk result }
{
    if byte_on(disk, gate)? != 0 {
        put(disk, gate, &[0])?;
    }
    Ok(())
}

/// Cuts off what stands behind the closed gate.
fn cut_rest<D: Disk>(disk: &mut D, gate: u64, total: u64) -> Result<(), Failed>
    requires within { gate < total }
    requires inside { Reaches (D.told disk.old) (gate + 1) }
    requires room { HasRoom (D.room disk.old) 2 0 }
    ensures crash { (file : List ℕ) → IsClosing file gate → total ≡ length file → D.told disk.old ≡ Some (settled (zeroed file)) → LeavesOnly D.moment D.since disk.old disk.new (IsMending file) }
    ensures done { (file : List ℕ) → IsClosing file gate → total ≡ length file → D.told disk.old ≡ Some (settled (zeroed file)) → OnOk result (D.told disk.new ≡ Some (settled (mended file))) }
    ensures synced { (file : List ℕ) (d : Contents) → IsClosing file gate → D.told disk.old ≡ Some (settled (zeroed file)) → D.told disk.new ≡ Some d → OnErr result (IsMending file d.synced) }
    ensures tells { D.told disk.old ≡ None → D.told disk.new ≡ None }
    ensures marks { KeepsMarks D.is_steady D.stops_alone D.left disk.old disk.new }
    ensures reads { ReadsUpTo (D.bytes_read disk.old) (D.bytes_read disk.new) 0 }
    ensures later { D.failures disk.old ≤ D.failures disk.new }
    ensures failed { OnErr result (HasRisen (D.failures disk.old) (D.failures disk.new)) }
    ensures sure { D.stops_alone disk.old ≡ true → D.left disk.old ≡ None → IsOk result }
{
    if gate + 1 < total {
        clip(disk, gate + 1)?;
    }
    Ok(())
}

/// Writes a new journal over a file of at most 9 bytes that isn't one.
fn make_fresh<D: Disk>(disk: &mut D, total: u64) -> Result<(), Failed>
    requires short { total ≤ 9 }
    requires inside { Reaches (D.told disk.old) total }
    requires room { HasRoom (D.room disk.old) 2 9 }
    ensures crash { (file : List ℕ) → total ≡ length file → D.told disk.old ≡ Some (settled file) → LeavesOnly D.moment D.since disk.old disk.new (IsMending file) }
    ensures done { (file : List ℕ) → total ≡ length file → D.told disk.old ≡ Some (settled file) → OnOk result (D.told disk.new ≡ Some (settled (mended file))) }
    ensures synced { (file : List ℕ) (d : Contents) → total ≡ length file → D.told disk.old ≡ Some (settled file) → D.told disk.new ≡ Some d → OnErr result (IsMending file d.synced) }
    ensures tells { D.told disk.old ≡ None → D.told disk.new ≡ None }
    ensures marks { KeepsMarks D.is_steady D.stops_alone D.left disk.old disk.new }
    ensures reads { ReadsUpTo (D.bytes_read disk.old) (D.bytes_read disk.new) 9 }
    ensures later { D.failures disk.old ≤ D.failures disk.new }
    ensures failed { OnErr result (HasRisen (D.failures disk.old) (D.failures disk.new)) }
    ensures sure { D.stops_alone disk.old ≡ true → D.left disk.old ≡ None → IsOk result }
{
    if is_fresh(disk, total)? {
        return Ok(());
    }
    put(disk, 0, &FRESH)
}

/// Whether the file is a new journal.
#[tactic(auto, using(crate::proofs::Counting::at_most))]
fn is_fresh<D: Disk>(disk: &mut D, total: u64) -> Result<bool, Failed>
    requires { Reaches (D.told disk.old) total }
    ensures fresh { (file : List ℕ) → total ≡ length file → length file ≤ 9 → D.told disk.old ≡ Some (settled file) → IfOk result (λ fresh. fresh ≡ true → file ≡ mended file) }
    ensures known { (file : List ℕ) → total ≡ length file → D.told disk.old ≡ Some (settled file) → IfOk result (λ fresh. file ≡ header ++ 0 ∷ [] → fresh ≡ true) }
    ensures same { D.told disk.new ≡ D.told disk.old }
    ensures room { D.room disk.new ≡ D.room disk.old }
    ensures images { LeavesOnly D.moment D.since disk.old disk.new (IsImage (D.told disk.old)) }
    ensures marks { KeepsMarks D.is_steady D.stops_alone D.left disk.old disk.new }
    ensures reads { ReadsUpTo (D.bytes_read disk.old) (D.bytes_read disk.new) 9 }
    ensures later { D.failures disk.old ≤ D.failures disk.new }
    ensures failed { OnErr result (HasRisen (D.failures disk.old) (D.failures disk.new)) }
    ensures sure { D.stops_alone disk.old ≡ true → D.left disk.old ≡ None → IsOk result }
{
    if total != 9 {
        return Ok(false);
    }
    let mut bytes = [0u8; 9];
    disk.read(0, &mut bytes)?;
    Ok(bytes == FRESH)
}

const FRESH: [u8; 9] = [69, 80, 65, 68, 74, 78, 76, 49, 0];

/// Whether the disk's file begins as a journal.
#[tactic(auto, using(crate::proofs::Counting::at_most))]
fn begins_well<D: Disk>(disk: &mut D, total: u64) -> Result<bool, Failed>
    requires inside { Reaches (D.told disk.old) total }
    requires long { 8 ≤ total }
    ensures begins { (c : Contents) → D.told disk.old ≡ Some c → IfOk result (λ well. well ≡ bytes_eq (take 8 c.seen) header) }
    ensures same { D.told disk.new ≡ D.told disk.old }
    ensures room { D.room disk.new ≡ D.room disk.old }
    ensures images { LeavesOnly D.moment D.since disk.old disk.new (IsImage (D.told disk.old)) }
    ensures marks { KeepsMarks D.is_steady D.stops_alone D.left disk.old disk.new }
    ensures reads { ReadsUpTo (D.bytes_read disk.old) (D.bytes_read disk.new) 8 }
    ensures later { D.failures disk.old ≤ D.failures disk.new }
    ensures failed { OnErr result (HasRisen (D.failures disk.old) (D.failures disk.new)) }
    ensures sure { D.stops_alone disk.old ≡ true → D.left disk.old ≡ None → IsOk result }
{
    let mut front = [0u8; 8];
    disk.read(0, &mut front)?;
    Ok(is_header(&front))
}

/// Finds the gates of a journal, and leaves nothing behind its records but a gate 00.
fn mend<D: Disk>(alloc: Global, disk: &mut D, total: u64) -> Result<Found, DiskBad>
    requires inside { Reaches (D.told disk.old) total }
    requires long { 9 < total }
    requires room { HasRoom (D.room disk.old) 4 1 }
    ensures crash { (file : List ℕ) → IsLongJournal file total → D.told disk.old ≡ Some (settled file) → LeavesOnly D.moment D.since disk.old disk.new (IsMending file) }
    ensures done { (file : List ℕ) → IsLongJournal file total → D.told disk.old ≡ Some (settled file) → OnOk result (D.told disk.new ≡ Some (settled (mended file))) }
    ensures gates { (file : List ℕ) → IsLongJournal file total → D.told disk.old ≡ Some (settled file) → IfOk result (λ found. (found.gates.items ≡ gates_of 8 (records_of file)) × (found.gate ≡ closed_gate file)) }
    ensures spaced { IfOk result (λ found. AreSpaced found.gates.items found.gate) }
    ensures synced { (file : List ℕ) (d : Contents) → IsLongJournal file total → D.told disk.old ≡ Some (settled file) → D.told disk.new ≡ Some d → OnErr result (IsMending file d.synced) }
    ensures tells { D.told disk.old ≡ None → D.told disk.new ≡ None }
    ensures marks { KeepsMarks D.is_steady D.stops_alone D.left disk.old disk.new }
    ensures reads { IfOk result (λ found. ReadsUpTo (D.bytes_read disk.old) (D.bytes_read disk.new) (5 * length found.gates.items + 6)) }
    ensures reads_of_file { (file : List ℕ) → IsLongJournal file total → D.told disk.old ≡ Some (settled file) → ReadsUpTo (D.bytes_read disk.old) (D.bytes_read disk.new) (5 * length (records_of file) + 6) }
    ensures later { D.failures disk.old ≤ D.failures disk.new }
    ensures failed { IsErrOf result DiskBad.Failed → HasRisen (D.failures disk.old) (D.failures disk.new) }
    ensures sure { D.stops_alone disk.old ≡ true → D.left disk.old ≡ None → IsErrOf result DiskBad.Failed → ⊥ }
{
    let found = find_gates(alloc, disk, total)?;
    close_gate(disk, found.gate)?;
    cut_rest(disk, found.gate, total)?;
    Ok(found)
}

/// Opens a disk that is in sync; `None` where its file is no journal.
#[tactic(auto, using(crate::proofs::Counting::none_read))]
fn find_journal<D: Disk>(alloc: Global, disk: &mut D) -> Result<Option<Found>, DiskBad>
    ensures crash { (file : List ℕ) → D.told disk.old ≡ Some (settled file) → LeavesOnly D.moment D.since disk.old disk.new (IsMending file) }
    ensures done { (file : List ℕ) → D.told disk.old ≡ Some (settled file) → IfOk result (λ found. OnSome found (D.told disk.new ≡ Some (settled (mended file)))) }
    ensures gates { (file : List ℕ) → D.told disk.old ≡ Some (settled file) → IfOk result (λ found. IfSome found (λ f. (f.gates.items ≡ gates_of 8 (records_of (mended file))) × (f.gate ≡ closed_gate (mended file)))) }
    ensures spaced { IfOk result (λ found. IfSome found (λ f. AreSpaced f.gates.items f.gate)) }
    ensures foreign { (file : List ℕ) → D.told disk.old ≡ Some (settled file) → IfOk result (λ found. is_none found ≡ is_foreign file) }
    ensures untouched { IfOk result (λ found. IfNone found (D.told disk.new ≡ D.told disk.old)) }
    ensures synced { (file : List ℕ) (d : Contents) → D.told disk.old ≡ Some (settled file) → D.told disk.new ≡ Some d → OnErr result (IsMending file d.synced) }
    ensures tells { D.told disk.old ≡ None → D.told disk.new ≡ None }
    ensures marks { KeepsMarks D.is_steady D.stops_alone D.left disk.old disk.new }
    ensures reads { IfOk result (λ found. IfSome found (λ f. ReadsUpTo (D.bytes_read disk.old) (D.bytes_read disk.new) (5 * length f.gates.items + 14))) }
    ensures reads_of_file { (file : List ℕ) → D.told disk.old ≡ Some (settled file) → ReadsUpTo (D.bytes_read disk.old) (D.bytes_read disk.new) (5 * length (records_of file) + 14) }
    ensures later { D.failures disk.old ≤ D.failures disk.new }
    ensures failed { IsErrOf result DiskBad.Failed → HasRisen (D.failures disk.old) (D.failures disk.new) }
    ensures sure { D.stops_alone disk.old ≡ true → D.left disk.old ≡ None → IsErrOf result DiskBad.Failed → ⊥ }
{
    if disk.reserve(9).is_err() {
        return Err(DiskBad::NoMemory);
    }
    let total = disk.length()?;
    if total <= 9 {
        make_fresh(disk, total)?;
        return Ok(Some(Found {
            gates: Vec::new(alloc),
            gate: 8,
        }));
    }
    if !begins_well(disk, total)? {
        return Ok(None);
    }
    Ok(Some(mend(alloc, disk, total)?))
}

/// Syncs a disk, and opens it.
#[tactic(auto, using(crate::proofs::Counting::none_read))]
pub fn open_disk<D: Disk>(alloc: Global, disk: &mut D) -> Result<Found, JournalBad>
    ensures crash { (c : Contents) → D.told disk.old ≡ Some c → MatchResult result
        (λ _. LeavesFirst D.moment D.since disk.old disk.new (IsImage (D.told disk.old)) (IsMending c.seen))
        (λ _. MayLeaveFirst D.moment D.since disk.old disk.new (IsImage (D.told disk.old)) (IsMending c.seen)) }
    ensures held { IfOk result (λ found. IsHeld (D.told disk.new) found.gates.items found.gate) }
    ensures file { (c : Contents) → D.told disk.old ≡ Some c → OnOk result (D.told disk.new ≡ Some (settled (mended c.seen))) }
    ensures native { (c : Contents) → D.told disk.old ≡ Some c → OnOk result (is_foreign c.seen ≡ false) }
    ensures spaced { IfOk result (λ found. AreSpaced found.gates.items found.gate) }
    ensures refused { IfErr result (OpenRefused (IsForeign (D.told disk.old)) (IsSure D.is_steady D.stops_alone D.left disk.old) (D.failures disk.old) (D.failures disk.new)) }
    ensures synced { (c d : Contents) → D.told disk.old ≡ Some c → D.told disk.new ≡ Some d → OnErr result ((d.synced ≡ c.synced) ⊎ IsMending c.seen d.synced) }
    ensures untouched { (c : Contents) → D.told disk.old ≡ Some c → IsErrOf result JournalBad.Foreign → D.told disk.new ≡ Some (settled c.seen) }
    ensures marks { KeepsMarks D.is_steady D.stops_alone D.left disk.old disk.new }
    ensures reads { IfOk result (λ found. ReadsUpTo (D.bytes_read disk.old) (D.bytes_read disk.new) (5 * length found.gates.items + 14)) }
    ensures reads_of_file { (c : Contents) → D.told disk.old ≡ Some c → ReadsUpTo (D.bytes_read disk.old) (D.bytes_read disk.new) (5 * length (records_of c.seen) + 14) }
    ensures later { D.failures disk.old ≤ D.failures disk.new }
{
    if disk.reserve(0).is_err() {
        return Err(JournalBad::NoMemory);
    }
    match settle(disk) {
        Err(Failed) => return Err(JournalBad::Disk(disk.faults())),
        Ok(()) => {}
    }
    match find_journal(alloc, disk) {
        Ok(Some(found)) => Ok(found),
        Ok(None) => Err(JournalBad::Foreign),
        Err(DiskBad::Failed) => Err(JournalBad::Disk(disk.faults())),
        Err(DiskBad::NoMemory) => Err(JournalBad::NoMemory),
    }
}
