//! Changes of a disk that are synced before they return.

ghost use Rattle.std.specs.Prelude.{[], ◌∷◌, ◌^◌, ◌≡◌, ◌+◌, ◌≤◌, ◌<◌, length, take, List, ℕ, Option, Some, None, true, OnOk, OnErr, IsOk, IsErr};
ghost use Rattle.ep_outside.specs.Disk.{HasRoom, KeepsMarks, Contents, IsImage, Reaches, settled, written, wrote};
ghost use Rattle.ep_outside.specs.Images.{Torn, Front};
ghost use Rattle.ep_outside.specs.Outside.{HasCause};
ghost use Rattle.ep_outside.specs.Moments.{LeavesOnly};
ghost use Rattle.ep_journal.specs.File.{records_of, stands_for, IsByGate, IsUnfinished};
ghost use Rattle.ep_journal.specs.Repair.{grown_file, IsStored};
ghost use Rattle.ep_journal.specs.Held.{IsHalfway};
ghost use Rattle.ep_journal.specs.Reads.{ReadsUpTo};

use ep_outside::{Disk, Failed};

/// Writes a range and waits until it is on the disk.
#[tactic(auto, using(crate::proofs::Counting::none_read))]
pub fn put<D: Disk>(disk: &mut D, at: u64, bytes: &[u8]) -> Result<(), Failed>
    requires inside { Reaches (D.told disk.old) at }
    requires room { HasRoom (D.room disk.old) 2 (length bytes.now) }
    ensures crash { (s : List ℕ) → D.told disk.old ≡ Some (settled s) → at ≤ length s → LeavesOnly D.moment D.since disk.old disk.new (Torn at (length bytes.now) s) }
    ensures done { (s : List ℕ) → D.told disk.old ≡ Some (settled s) → OnOk result (D.told disk.new ≡ Some (settled (written s at bytes.now))) }
    ensures synced { (s : List ℕ) (d : Contents) → D.told disk.old ≡ Some (settled s) → D.told disk.new ≡ Some d → OnErr result (d.synced ≡ s) }
    ensures longer { (n : ℕ) → Reaches (D.told disk.old) n → OnOk result (Reaches (D.told disk.new) n) }
    ensures tells { D.told disk.old ≡ None → D.told disk.new ≡ None }
    ensures room { ((D.room disk.old).calls ≤ (D.room disk.new).calls + 2) × ((D.room disk.old).bytes ≤ (D.room disk.new).bytes + length bytes.now) }
    ensures cause { HasCause (D.failures disk.old) (D.failures disk.new) (D.is_steady disk.old) (D.is_steady disk.new) (IsErr result) }
    ensures reads { ReadsUpTo (D.bytes_read disk.old) (D.bytes_read disk.new) 0 }
    ensures marks { KeepsMarks D.is_steady D.stops_alone D.left disk.old disk.new }
    ensures sure { D.stops_alone disk.old ≡ true → D.left disk.old ≡ None → IsOk result }
    ensures stopped_early { (k : ℕ) → k < 2 → D.left disk.old ≡ Some k → IsErr result }
    ensures stopped_first { D.left disk.old ≡ Some 0 → D.told disk.new ≡ D.told disk.old }
    ensures stopped_between { (s : List ℕ) → D.stops_alone disk.old ≡ true → D.left disk.old ≡ Some 1 → D.told disk.old ≡ Some (settled s) → D.told disk.new ≡ Some (wrote (settled s) at bytes.now (written s at bytes.now)) }
    ensures counts { (k : ℕ) → D.left disk.old ≡ Some (k + 2) → OnOk result (D.left disk.new ≡ Some k) }
    ensures goes_through { (k : ℕ) → D.stops_alone disk.old ≡ true → D.left disk.old ≡ Some (k + 2) → IsOk result }
{
    disk.write_at(at, bytes)?;
    disk.sync()
}

/// Shortens the file and waits until that is on the disk.
#[tactic(auto, using(crate::proofs::Counting::none_read))]
pub fn clip<D: Disk>(disk: &mut D, to: u64) -> Result<(), Failed>
    requires inside { Reaches (D.told disk.old) to }
    requires room { HasRoom (D.room disk.old) 2 0 }
    ensures crash { (s : List ℕ) → D.told disk.old ≡ Some (settled s) → to ≤ length s → LeavesOnly D.moment D.since disk.old disk.new (Front to s) }
    ensures done { (s : List ℕ) → D.told disk.old ≡ Some (settled s) → OnOk result (D.told disk.new ≡ Some (settled (take to s))) }
    ensures synced { (s : List ℕ) (d : Contents) → D.told disk.old ≡ Some (settled s) → D.told disk.new ≡ Some d → OnErr result (d.synced ≡ s) }
    ensures tells { D.told disk.old ≡ None → D.told disk.new ≡ None }
    ensures cause { HasCause (D.failures disk.old) (D.failures disk.new) (D.is_steady disk.old) (D.is_steady disk.new) (IsErr result) }
    ensures reads { ReadsUpTo (D.bytes_read disk.old) (D.bytes_read disk.new) 0 }
    ensures marks { KeepsMarks D.is_steady D.stops_alone D.left disk.old disk.new }
    ensures sure { D.stops_alone disk.old ≡ true → D.left disk.old ≡ None → IsOk result }
{
    disk.cut(to)?;
    disk.sync()
}

/// Waits until all that a read gives is on the disk.
#[tactic(auto, using(crate::proofs::Counting::none_read))]
pub fn settle<D: Disk>(disk: &mut D) -> Result<(), Failed>
    requires { HasRoom (D.room disk.old) 1 0 }
    ensures crash { LeavesOnly D.moment D.since disk.old disk.new (IsImage (D.told disk.old)) }
    ensures done { (c : Contents) → D.told disk.old ≡ Some c → OnOk result (D.told disk.new ≡ Some (settled c.seen)) }
    ensures synced { (c d : Contents) → D.told disk.old ≡ Some c → D.told disk.new ≡ Some d → OnErr result (d.synced ≡ c.synced) }
    ensures tells { D.told disk.old ≡ None → D.told disk.new ≡ None }
    ensures cause { HasCause (D.failures disk.old) (D.failures disk.new) (D.is_steady disk.old) (D.is_steady disk.new) (IsErr result) }
    ensures reads { ReadsUpTo (D.bytes_read disk.old) (D.bytes_read disk.new) 0 }
    ensures marks { KeepsMarks D.is_steady D.stops_alone D.left disk.old disk.new }
    ensures sure { D.stops_alone disk.old ≡ true → D.left disk.old ≡ None → IsOk result }
{
    disk.sync()
}

/// Writes a frame behind a closed gate, and opens the gate once the frame is on the disk.
pub fn store<D: Disk>(disk: &mut D, gate: u64, bytes: &[u8]) -> Result<(), Failed>
    requires fits { gate + 1 < 2 ^ 64 }
    requires inside { Reaches (D.told disk.old) (gate + 1) }
    requires room { HasRoom (D.room disk.old) 4 (length bytes.now + 1) }
    ensures crash { (file rec : List ℕ) → IsStored file rec gate bytes.now → D.told disk.old ≡ Some (settled file) → LeavesOnly D.moment D.since disk.old disk.new (IsByGate gate (records_of file) rec) }
    ensures unfinished { (file rec : List ℕ) → IsStored file rec gate bytes.now → D.told disk.old ≡ Some (settled file) → LeavesOnly D.moment D.since disk.old disk.new (IsUnfinished file rec) }
    ensures synced { (file rec : List ℕ) (d : Contents) → IsStored file rec gate bytes.now → D.told disk.old ≡ Some (settled file) → D.told disk.new ≡ Some d → OnErr result ((stands_for d.synced ≡ Some (records_of file)) × IsUnfinished file rec d.synced) }
    ensures done { (file rec : List ℕ) → IsStored file rec gate bytes.now → D.told disk.old ≡ Some (settled file) → OnOk result (D.told disk.new ≡ Some (settled (grown_file file rec))) }
    ensures stopped_early { (file rec : List ℕ) (k : ℕ) → IsStored file rec gate bytes.now → D.told disk.old ≡ Some (settled file) → k < 3 → D.left disk.old ≡ Some k → (image : List ℕ) → IsImage (D.told disk.new) image → stands_for image ≡ Some (records_of file) }
    ensures halfway { (file rec : List ℕ) → IsStored file rec gate bytes.now → D.told disk.old ≡ Some (settled file) → D.stops_alone disk.old ≡ true → D.left disk.old ≡ Some 3 → IsHalfway (D.told disk.new) (records_of file) rec }
    ensures goes_through { (k : ℕ) → D.stops_alone disk.old ≡ true → D.left disk.old ≡ Some (k + 4) → IsOk result }
    ensures tells { D.told disk.old ≡ None → D.told disk.new ≡ None }
    ensures cause { HasCause (D.failures disk.old) (D.failures disk.new) (D.is_steady disk.old) (D.is_steady disk.new) (IsErr result) }
    ensures marks { KeepsMarks D.is_steady D.stops_alone D.left disk.old disk.new }
    ensures sure { D.stops_alone disk.old ≡ true → D.left disk.old ≡ None → IsOk result }
{
    put(disk, gate + 1, bytes)?;
    put(disk, gate, &[1])
}
