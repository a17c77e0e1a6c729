//! Journals.

ghost use Rattle.std.specs.Prelude.{get_or, false, ◌⊎◌, ◌≡◌, ◌+◌, ◌*◌, ◌≤◌, ◌<◌, length, List, ℕ, Some, None, true, ◌∷◌, ◌++◌, [], OnOk, OnErr, IfOk, IfErr, IsOk, IsErr, IsErrOf, MatchResult};
ghost use Rattle.ep_outside.specs.Disk.{Contents, IsImage, IsSure, KeepsMarks, settled};
ghost use Rattle.ep_outside.specs.Moments.{LeavesOnly, LeavesFirst, MayLeaveFirst};
ghost use Rattle.ep_outside.specs.Crash.{IsAsked, image_at};
ghost use Rattle.ep_journal.specs.File.{records_of, stands_for, closed_gate, mended, is_foreign, IsMending, IsBeforeOrAfter, IsByGate, IsUnfinished};
ghost use Rattle.ep_journal.specs.Held.{Adds, Stands, HasCount, IsRecord, IsHalfway, IsForeign};
ghost use Rattle.ep_journal.specs.Reads.{ReadsUpTo};
ghost use Rattle.ep_journal.specs.Refusals.{OpenRefused, AppendRefused, ReadRefused};
ghost use Rattle.ep_journal.specs.Journal.{disk_of, limit_of, count_of, length_of, length_with, IsReady, IsClosed, HasRoomFor, IsSameOver, IsImageOr, Reopens};
ghost use Rattle.ep_journal.specs.Walking.{AreSpaced};

use crate::framed::Framed;
use crate::journal_bad::JournalBad;
use crate::opening::open_disk;
use crate::steps::store;
use ep_outside::{Crash, Disk, Failed, Image, Refused};
use ep_units::NoMemory;
use std::alloc::{AllocError, Global};

/// Records in the file of a disk.
///
/// It keeps the places of its records and none of them. After `JournalBad::Disk` it is closed.
pub struct Journal<D: Disk> {
    disk: D,
    // the open gates, and the closed one
    gates: Vec<u64>,
    gate: u64,
    limit: u64,
    is_open: bool,
}

impl<D: Disk + Drop> Drop for Journal<D> {
    fn drop(self) {
        let Journal {
            disk: _,
            gates: _,
            gate: _,
            limit: _,
            is_open: _,
        } = self;
    }
}

impl<D: Disk> Journal<D> {
    /// Opens the disk of a journal whose file may have so many bytes. A refusal hands the disk back.
    pub fn open(alloc: Global, disk: D, limit: u64) -> Result<Journal<D>, Refused<D, JournalBad>>
        // Until the first sync a crash leaves what it could have left before the call, and from then on
        // what stands for the file's records, or for those with its first closed gate opened; what is right
        // already is not written again.
        ensures crash { (c : Contents) → D.told disk ≡ Some c → MatchResult result
            (λ journal. LeavesFirst D.moment D.since disk (disk_of journal) (IsImage (D.told disk)) (IsMending c.seen))
            (λ refused. MayLeaveFirst D.moment D.since disk refused.back (IsImage (D.told disk)) (IsMending c.seen)) }

        ensures ready { IfOk result (IsReady D.told) }
        ensures records { (c : Contents) → D.told disk ≡ Some c → IfOk result (λ journal. Stands (D.told (disk_of journal)) (stands_for c.seen)) }
        ensures file { (c : Contents) → D.told disk ≡ Some c → IfOk result (λ journal. D.told (disk_of journal) ≡ Some (settled (mended c.seen))) }
        ensures limit { IfOk result (λ journal. limit_of journal ≡ limit) }

        ensures refused { IfErr result (λ refused. OpenRefused (IsForeign (D.told disk)) (IsSure D.is_steady D.stops_alone D.left disk) (D.failures disk) (D.failures refused.back) refused.why) }
        ensures foreign { (c : Contents) → D.told disk ≡ Some c → is_foreign c.seen ≡ true → IsErr result }
        ensures untouched { (c : Contents) → D.told disk ≡ Some c → IfErr result (λ refused. refused.why ≡ JournalBad.Foreign → D.told refused.back ≡ Some (settled c.seen)) }
        ensures synced { (c d : Contents) → D.told disk ≡ Some c → IfErr result (λ refused. D.told refused.back ≡ Some d → (d.synced ≡ c.synced) ⊎ IsMending c.seen d.synced) }
        // Five bytes are read for each record, and at most fourteen beside them.
        ensures reads { IfOk result (λ journal. ReadsUpTo (D.bytes_read disk) (D.bytes_read (disk_of journal)) (5 * count_of journal + 14)) }
        ensures reads_of_file { (c : Contents) → D.told disk ≡ Some c → MatchResult result
            (λ journal. ReadsUpTo (D.bytes_read disk) (D.bytes_read (disk_of journal)) (5 * length (records_of c.seen) + 14))
            (λ refused. ReadsUpTo (D.bytes_read disk) (D.bytes_read refused.back) (5 * length (records_of c.seen) + 14)) }

        ensures marks { MatchResult result (λ journal. KeepsMarks D.is_steady D.stops_alone D.left disk (disk_of journal)) (λ refused. KeepsMarks D.is_steady D.stops_alone D.left disk refused.back) }
        ensures later { MatchResult result (λ journal. D.failures disk ≤ D.failures (disk_of journal)) (λ refused. D.failures disk ≤ D.failures refused.back) }
    {
        let mut disk = disk;
        match open_disk(alloc, &mut disk) {
            Ok(found) => Ok(Journal {
                disk,
                gates: found.gates,
                gate: found.gate,
                limit,
                is_open: true,
            }),
            Err(why) => Err(Refused { back: disk, why }),
        }
    }

    /// Opens the disk again. After an `Err` the journal is closed.
    pub fn reopen(&mut self, alloc: Global) -> Result<(), JournalBad>
        ensures crash { (c : Contents) → D.told (disk_of self.old) ≡ Some c → MatchResult result
            (λ _. LeavesFirst D.moment D.since (disk_of self.old) (disk_of self.new) (IsImage (D.told (disk_of self.old))) (IsMending c.seen))
            (λ _. MayLeaveFirst D.moment D.since (disk_of self.old) (disk_of self.new) (IsImage (D.told (disk_of self.old))) (IsMending c.seen)) }

        ensures ready { OnOk result (IsReady D.told self.new) }
        ensures closed { OnErr result (IsClosed self.new) }
        ensures records { (c : Contents) → D.told (disk_of self.old) ≡ Some c → OnOk result (Stands (D.told (disk_of self.new)) (stands_for c.seen)) }
        ensures file { (c : Contents) → D.told (disk_of self.old) ≡ Some c → OnOk result (D.told (disk_of self.new) ≡ Some (settled (mended c.seen))) }
        ensures limit { limit_of self.new ≡ limit_of self.old }

        ensures refused { IfErr result (OpenRefused (IsForeign (D.told (disk_of self.old))) (IsSure D.is_steady D.stops_alone D.left (disk_of self.old)) (D.failures (disk_of self.old)) (D.failures (disk_of self.new))) }
        ensures foreign { (c : Contents) → D.told (disk_of self.old) ≡ Some c → is_foreign c.seen ≡ true → IsErr result }
        ensures untouched { (c : Contents) → D.told (disk_of self.old) ≡ Some c → IsErrOf result JournalBad.Foreign → D.told (disk_of self.new) ≡ Some (settled c.seen) }
        // What was synced is what it was, or what an opening may leave of the file.
        ensures synced { (c d : Contents) → D.told (disk_of self.old) ≡ Some c → D.told (disk_of self.new) ≡ Some d → OnErr result ((d.synced ≡ c.synced) ⊎ IsMending c.seen d.synced) }
        ensures reads { OnOk result (ReadsUpTo (D.bytes_read (disk_of self.old)) (D.bytes_read (disk_of self.new)) (5 * count_of self.new + 14)) }
        ensures reads_of_file { (c : Contents) → D.told (disk_of self.old) ≡ Some c → ReadsUpTo (D.bytes_read (disk_of self.old)) (D.bytes_read (disk_of self.new)) (5 * length (records_of c.seen) + 14) }

        ensures marks { KeepsMarks D.is_steady D.stops_alone D.left (disk_of self.old) (disk_of self.new) }
        ensures later { D.failures (disk_of self.old) ≤ D.failures (disk_of self.new) }
    {
        self.is_open = false;
        match open_disk(alloc, &mut self.disk) {
            Ok(found) => {
                self.gates = found.gates;
                self.gate = found.gate;
                self.is_open = true;
                Ok(())
            }
            Err(why) => Err(why),
        }
    }

    /// Makes room to append one record.
    pub fn reserve(&mut self, framed: &Framed) -> Result<(), NoMemory>
        ensures room { OnOk result (HasRoomFor D.room self.new framed.now) }
        ensures same { IsSameOver self.old self.new }
        ensures ready { IsReady D.told self.old → IsReady D.told self.new }
        ensures told { D.told (disk_of self.new) ≡ D.told (disk_of self.old) }
        ensures images { LeavesOnly D.moment D.since (disk_of self.old) (disk_of self.new) (IsImage (D.told (disk_of self.old))) }
        ensures failures { D.failures (disk_of self.new) ≡ D.failures (disk_of self.old) }
        ensures stop { D.left (disk_of self.new) ≡ D.left (disk_of self.old) }
        ensures marks { KeepsMarks D.is_steady D.stops_alone D.left (disk_of self.old) (disk_of self.new) }
    {
        if self.gates.reserve(1).is_err() {
            return Err(NoMemory);
        }
        self.disk.reserve(framed.as_slice().len() as u64 + 1)
    }
}

impl<D: Disk> Journal<D> {
    /// Adds a record, and answers its index. It takes no memory.
    pub fn append(&mut self, framed: &Framed) -> Result<u64, JournalBad>
        requires ready { IsReady D.told self.old }
        requires room { HasRoomFor D.room self.old framed.now }

        ensures index { IfOk result (λ i. i ≡ count_of self.old) }
        ensures ready { OnOk result (IsReady D.told self.new) }
        ensures adds { OnOk result (Adds (D.told (disk_of self.old)) (D.told (disk_of self.new)) framed.now) }
        ensures grows { OnOk result ((count_of self.new ≡ count_of self.old + 1) × (length_of self.new ≡ length_with self.old framed.now)) }

        // A crash at any moment of the call leaves the old records, or these and the new one; which, the
        // byte at the old closed gate tells.
        ensures any_moment { (c : Contents) → D.told (disk_of self.old) ≡ Some c
            → LeavesOnly D.moment D.since (disk_of self.old) (disk_of self.new) (IsBeforeOrAfter (records_of c.seen) framed.now) }
        ensures by_gate { (c : Contents) → D.told (disk_of self.old) ≡ Some c
            → LeavesOnly D.moment D.since (disk_of self.old) (disk_of self.new) (IsByGate (closed_gate c.seen) (records_of c.seen) framed.now) }
        // Whatever it leaves, an opening that stops half-way finds no other record behind the gate.
        ensures unfinished { (c : Contents) → D.told (disk_of self.old) ≡ Some c
            → LeavesOnly D.moment D.since (disk_of self.old) (disk_of self.new) (IsUnfinished c.seen framed.now) }
        // What was synced stands for the old records until it has answered Ok.
        ensures synced { (c d : Contents) → D.told (disk_of self.old) ≡ Some c → D.told (disk_of self.new) ≡ Some d → OnErr result ((stands_for d.synced ≡ Some (records_of c.seen)) × IsUnfinished c.seen framed.now d.synced) }
        // Once it has answered Ok each crash leaves the new one.
        ensures acknowledged { (c : Contents) → D.told (disk_of self.old) ≡ Some c
            → OnOk result ((image : List ℕ) → IsImage (D.told (disk_of self.new)) image → stands_for image ≡ Some (records_of c.seen ++ framed.now ∷ [])) }

        // Stopped after up to two calls it leaves the old records; after three the last sync has these, and
        // what a read gives has the new one; four are enough.
        ensures stopped_early { (c : Contents) (calls : ℕ) → D.told (disk_of self.old) ≡ Some c → calls < 3 → D.left (disk_of self.old) ≡ Some calls
            → (image : List ℕ) → IsImage (D.told (disk_of self.new)) image → stands_for image ≡ Some (records_of c.seen) }
        ensures stopped_late { (c : Contents) → D.told (disk_of self.old) ≡ Some c → length_with self.old framed.now ≤ limit_of self.old
            → D.stops_alone (disk_of self.old) ≡ true → D.left (disk_of self.old) ≡ Some 3 → IsHalfway (D.told (disk_of self.new)) (records_of c.seen) framed.now }
        ensures goes_through { (calls : ℕ) → length_with self.old framed.now ≤ limit_of self.old
            → D.stops_alone (disk_of self.old) ≡ true → D.left (disk_of self.old) ≡ Some (calls + 4) → IsOk result }

        ensures refused { IfErr result (AppendRefused (length_with self.old framed.now) (limit_of self.old) (IsSure D.is_steady D.stops_alone D.left (disk_of self.old)) (D.failures (disk_of self.old)) (D.failures (disk_of self.new))) }
        ensures full { limit_of self.old < length_with self.old framed.now → IsErr result × (self.new ≡ self.old) }
        ensures closed { OnErr result (length_with self.old framed.now ≤ limit_of self.old → IsClosed self.new) }

        ensures limit { limit_of self.new ≡ limit_of self.old }
        ensures marks { KeepsMarks D.is_steady D.stops_alone D.left (disk_of self.old) (disk_of self.new) }
        ensures later { D.failures (disk_of self.old) ≤ D.failures (disk_of self.new) }
    {
        let bytes = framed.as_slice();
        let end = match self.gate.checked_add(bytes.len() as u64 + 1) {
            None => return Err(JournalBad::Full(u64::MAX)),
            Some(end) => end,
        };
        if self.limit < end {
            return Err(JournalBad::Full(end));
        }
        self.is_open = false;
        match store(&mut self.disk, self.gate, bytes) {
            Err(Failed) => return Err(JournalBad::Disk(self.disk.faults())),
            Ok(()) => {}
        }
        let index = self.gates.len() as u64;
        self.gates.push_reserved(self.gate);
        self.gate = end - 1;
        self.is_open = true;
        Ok(index)
    }

    /// The count of records.
    pub fn count(&self) -> u64
        requires { IsReady D.told self.now }
        ensures value { result ≡ count_of self.now }
        ensures records { HasCount (D.told (disk_of self.now)) result }
    {
        self.gates.len() as u64
    }

    /// A record.
    pub fn read(&mut self, alloc: Global, i: u64) -> Result<Vec<u8>, JournalBad>
        requires ready { IsReady D.told self.old }
        requires below { i < count_of self.old }
        ensures value { IfOk result (λ rec. IsRecord (D.told (disk_of self.old)) i rec.items) }
        ensures ready { OnOk result (IsReady D.told self.new) }
        ensures refused { IfErr result (ReadRefused (IsClosed self.new) (IsSure D.is_steady D.stops_alone D.left (disk_of self.old)) (D.failures (disk_of self.old)) (D.failures (disk_of self.new)) (IsReady D.told self.new)) }
        ensures told { D.told (disk_of self.new) ≡ D.told (disk_of self.old) }
        ensures same { (count_of self.new ≡ count_of self.old) × (length_of self.new ≡ length_of self.old) × (limit_of self.new ≡ limit_of self.old) }
        ensures images { LeavesOnly D.moment D.since (disk_of self.old) (disk_of self.new) (IsImage (D.told (disk_of self.old))) }
        ensures marks { KeepsMarks D.is_steady D.stops_alone D.left (disk_of self.old) (disk_of self.new) }
        ensures later { D.failures (disk_of self.old) ≤ D.failures (disk_of self.new) }
    {
        let (at, size) = place_of(&self.gates, self.gate, i as usize);
        let Ok(mut rec) = zeros(alloc, size as usize) else {
            return Err(JournalBad::NoMemory);
        };
        match self.disk.read(at, &mut rec) {
            Ok(()) => Ok(rec),
            Err(Failed) => {
                self.is_open = false;
                Err(JournalBad::Disk(self.disk.faults()))
            }
        }
    }

    /// The greatest length of its file.
    pub fn limit(&self) -> u64
        ensures { result ≡ limit_of self.now }
    {
        self.limit
    }

    /// The place of the closed gate, which is the file's last byte.
    pub fn gate(&self) -> u64
        ensures { result + 1 ≡ length_of self.now }
    {
        self.gate
    }

    pub fn is_open(&self) -> bool
        ensures ready { IsReady D.told self.now → result ≡ true }
        ensures closed { IsClosed self.now → result ≡ false }
    {
        self.is_open
    }

    /// How often the disk has failed.
    pub fn faults(&self) -> u64
        ensures { result ≡ D.failures (disk_of self.now) }
    {
        self.disk.faults()
    }

    pub fn into_disk(self) -> D
        ensures { result ≡ disk_of self }
    {
        let Journal {
            disk,
            gates: _,
            gate: _,
            limit: _,
            is_open: _,
        } = self;
        disk
    }
}

impl<D: Crash> Journal<D> {
    ghost use Rattle.ep_outside.specs.declared.image.Image.{Image};

    /// From now, after so many device calls, each call of the disk fails.
    pub fn stop_after(&mut self, calls: u64, asked: Image)
        ensures stop { D.left (disk_of self.new) ≡ Some calls }
        ensures image { D.image (disk_of self.new) ≡ asked }
        ensures same { IsSameOver self.old self.new }
        ensures ready { IsReady D.told self.old → IsReady D.told self.new }
        ensures told { D.told (disk_of self.new) ≡ D.told (disk_of self.old) }
        ensures room { (rec : List ℕ) → HasRoomFor D.room self.old rec → HasRoomFor D.room self.new rec }
        ensures images { LeavesOnly D.moment D.since (disk_of self.old) (disk_of self.new) (IsImage (D.told (disk_of self.old))) }
        ensures failures { D.failures (disk_of self.new) ≡ D.failures (disk_of self.old) }
        ensures alone { D.stops_alone (disk_of self.new) ≡ D.stops_alone (disk_of self.old) }
    {
        self.disk.stop_after(calls, asked);
    }

    /// Restarts the disk, which then holds the image that was asked for, and opens it again.
    pub fn restart(&mut self, alloc: Global) -> Result<(), JournalBad>
        ensures opens { (c : Contents) → D.told (disk_of self.old) ≡ Some c
            → (image : List ℕ) × IsAsked c (image_at (D.left (disk_of self.old)) (D.image (disk_of self.old))) image × Reopens image (D.told (disk_of self.new)) result }
        // Until the first sync of the opening a crash leaves what it could have left before the call, or the
        // image; from then on as an opening of the image.
        ensures crash { (c : Contents) → D.told (disk_of self.old) ≡ Some c
            → (image : List ℕ) × IsAsked c (image_at (D.left (disk_of self.old)) (D.image (disk_of self.old))) image × MatchResult result
            (λ _. LeavesFirst D.moment D.since (disk_of self.old) (disk_of self.new) (IsImageOr (D.told (disk_of self.old)) image) (IsMending image))
            (λ _. MayLeaveFirst D.moment D.since (disk_of self.old) (disk_of self.new) (IsImageOr (D.told (disk_of self.old)) image) (IsMending image)) }
        ensures reads { OnOk result (ReadsUpTo (D.bytes_read (disk_of self.old)) (D.bytes_read (disk_of self.new)) (5 * count_of self.new + 14)) }
        ensures refused { IfErr result (OpenRefused (Unit {0}) ((D.is_steady (disk_of self.old) ≡ true) ⊎ (D.stops_alone (disk_of self.old) ≡ true)) (D.failures (disk_of self.old)) (D.failures (disk_of self.new))) }
        ensures ready { OnOk result (IsReady D.told self.new) }
        ensures closed { OnErr result (IsClosed self.new) }
        ensures limit { limit_of self.new ≡ limit_of self.old }
        ensures stop { D.left (disk_of self.new) ≡ None }
        ensures steady { D.is_steady (disk_of self.old) ≡ true → D.is_steady (disk_of self.new) ≡ true }
        ensures alone { D.stops_alone (disk_of self.new) ≡ D.stops_alone (disk_of self.old) }
        ensures later { D.failures (disk_of self.old) ≤ D.failures (disk_of self.new) }
    {
        self.disk.restart();
        self.reopen(alloc)
    }
}

/// Where a record begins, and its length.
fn place_of(gates: &[u64], gate: u64, i: usize) -> (u64, u64)
    requires spaced { AreSpaced gates.now gate }
    requires below { i < length gates.now }
    ensures { (result.0 ≡ get_or gates.now i 0 + 5) × (result.0 + result.1 ≡ get_or (gates.now ++ gate ∷ []) (i + 1) 0) }
{
    let next = if i + 1 < gates.len() {
        gates[i + 1]
    } else {
        gate
    };
    let at = gates[i] + 5;
    (at, next - at)
}

fn zeros(alloc: Global, size: usize) -> Result<Vec<u8>, AllocError>
    ensures { IfOk result (λ v. length v.items ≡ size) }
{
    let mut v = Vec::with_capacity(alloc, size)?;
    v.resize(size, 0)?;
    Ok(v)
}
