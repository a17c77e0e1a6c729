//! Writing a whole file, which counts once all of it is on the disk.

ghost use Rattle.std.specs.Prelude.{◌≡◌, ◌⊎◌, ◌+◌, ◌≤◌, ◌<◌, ◌∷◌, ◌++◌, [], List, ℕ, Option, Some, None, true, length, IsErr, IsOk, OnOk};
ghost use Rattle.ep_outside.specs.Disk.{HasRoom, KeepsMarks, Reaches, settled, written};
ghost use Rattle.ep_outside.specs.Images.{Torn};
ghost use Rattle.ep_outside.specs.Moments.{LeavesOnly};
ghost use Rattle.ep_outside.specs.Outside.{HasCause};
ghost use Rattle.ep_journal.specs.File.{header};
ghost use Rattle.ep_put.specs.Steps.{IsWholeOrNone, new_file};

use ep_outside::{Disk, Failed};

/// Writes a range and waits until it is on the disk.
fn write<D: Disk>(disk: &mut D, at: u64, bytes: &[u8]) -> Result<(), Failed>
    requires inside { Reaches (D.told disk.old) at }
    requires room { HasRoom (D.room disk.old) 2 (length bytes.now) }
    ensures crash { (s : List ℕ) → D.told disk.old ≡ Some (settled s) → at ≤ length s → LeavesOnly D.moment D.since disk.old disk.new (Torn at (length bytes.now) s) }
    ensures done { (s : List ℕ) → D.told disk.old ≡ Some (settled s) → OnOk result (D.told disk.new ≡ Some (settled (written s at bytes.now))) }
    ensures longer { (n : ℕ) → Reaches (D.told disk.old) n → OnOk result (Reaches (D.told disk.new) n) }
    ensures room { ((D.room disk.old).calls ≤ (D.room disk.new).calls + 2) × ((D.room disk.old).bytes ≤ (D.room disk.new).bytes + length bytes.now) }
    ensures cause { HasCause (D.failures disk.old) (D.failures disk.new) (D.is_steady disk.old) (D.is_steady disk.new) (IsErr result) }
    ensures marks { KeepsMarks D.is_steady D.stops_alone D.left disk.old disk.new }
    ensures sure { D.stops_alone disk.old ≡ true → D.left disk.old ≡ None → IsOk result }
    ensures counts { (k : ℕ) → D.left disk.old ≡ Some (k + 2) → OnOk result (D.left disk.new ≡ Some k) }
    ensures goes_through { (k : ℕ) → D.stops_alone disk.old ≡ true → D.left disk.old ≡ Some (k + 2) → IsOk result }
{
    disk.write_at(at, bytes)?;
    disk.sync()
}

/// Writes records and a closed gate behind the header of a new file: first all but the first gate, and once that is on the
/// disk the first gate.
pub fn store<D: Disk>(disk: &mut D, gated: &[u8]) -> Result<(), Failed>
    requires some { 1 ≤ length gated.now }
    requires inside { Reaches (D.told disk.old) 9 }
    requires room { HasRoom (D.room disk.old) 4 (length gated.now) }
    ensures crash { (body : List ℕ) → gated.now ≡ 1 ∷ body → D.told disk.old ≡ Some (settled new_file) → LeavesOnly D.moment D.since disk.old disk.new (IsWholeOrNone body) }
    ensures done { (body : List ℕ) → gated.now ≡ 1 ∷ body → D.told disk.old ≡ Some (settled new_file) → OnOk result (D.told disk.new ≡ Some (settled (header ++ 1 ∷ body))) }
    ensures goes_through { (k : ℕ) → D.stops_alone disk.old ≡ true → D.left disk.old ≡ Some (k + 4) → IsOk result }
    ensures cause { HasCause (D.failures disk.old) (D.failures disk.new) (D.is_steady disk.old) (D.is_steady disk.new) (IsErr result) }
    ensures marks { KeepsMarks D.is_steady D.stops_alone D.left disk.old disk.new }
    ensures sure { D.stops_alone disk.old ≡ true → D.left disk.old ≡ None → IsOk result }
{
    write(disk, 9, &gated[1..])?;
    write(disk, 8, &gated[..1])
}
