//! The file of a pad.

ghost use Rattle.std.specs.Prelude.{◌≡◌, ◌⊎◌, ◌+◌, ◌*◌, ◌-◌, ◌≤◌, ◌<◌, ◌∷◌, ◌++◌, [], List, ℕ, length, Option, Some, None, true, false, OnOk, OnErr, IfOk, IfErr, IsOk, IsErr, MatchResult};
ghost use Rattle.ep_outside.specs.Disk.{Contents, IsImage, IsSure, KeepsMarks, settled};
ghost use Rattle.ep_outside.specs.Moments.{LeavesOnly, LeavesFirst, MayLeaveFirst};
ghost use Rattle.ep_outside.specs.Crash.{IsAsked, image_at};
ghost use Rattle.ep_journal.specs.File.{closed_gate, mended, is_foreign, IsMending};
ghost use Rattle.ep_journal.specs.Journal.{IsImageOr};
ghost use Rattle.ep_journal.specs.Reads.{ReadsUpTo};
ghost use Rattle.ep_record.specs.Bytes.{IsRecord, IsEncoding, bytes_of};
ghost use Rattle.ep_history.specs.Lists.{at};
ghost use Rattle.ep_history.specs.Machine.{MachineState, journal_fault, longest_with};
ghost use Rattle.ep_history.specs.declared.record.Record.{Record};
ghost use Rattle.ep_pad_file.specs.Standing.{size, StandsFor, Holds, HoldsSynced, MayHold, IsLeft, IsOldOrMore, IsByGate, IsHalfway, IsRecordAt};
ghost use Rattle.ep_pad_file.specs.PadFile.{disk_of, limit_of, count_of, length_of, length_with, file_fault, saturated, size_fault, IsReady, IsClosed, HasRoomFor, IsSameOver, Reopens};
ghost use Rattle.ep_pad_file.specs.Refusals.{OpenRefused, AppendRefused, ReadRefused};
ghost use Rattle.ep_pad_file.specs.Stopping.{IsStopped};

use crate::prepared::Prepared;
use crate::refusals::pad_bad;
use ep_history::PadBad;
use ep_journal::{FRONT, Framed, Journal, RECORD_MAX, frame_behind};
use ep_outside::{Crash, Disk, Image, Refused};
use ep_record::{Record, decode, encode_behind};
use std::alloc::Global;

/// The records of a pad in the file of a disk.
///
/// After `PadBad::Store` it is closed, until it is opened again.
pub struct PadFile<D: Disk> {
    journal: Journal<D>,
    // memory for the next record's bytes
    spare: Option<Vec<u8>>,
}

impl<D: Disk + Drop> Drop for PadFile<D> {
    fn drop(self) {
        let PadFile {
            journal: _,
            spare: _,
        } = self;
    }
}

impl<D: Disk> PadFile<D> {
    /// Opens the file of a disk, which may have so many bytes at most. A refusal hands the disk back.
    pub fn open(alloc: Global, disk: D, limit: u64) -> Result<PadFile<D>, Refused<D, PadBad>>
        ensures ready { IfOk result (IsReady D.told) }
        ensures records { (rs : List Record) → Holds (D.told disk) rs → IfOk result (λ file. Holds (D.told (disk_of file)) rs) }
        ensures file { (c : Contents) → D.told disk ≡ Some c → IfOk result (λ file. D.told (disk_of file) ≡ Some (settled (mended c.seen))) }
        ensures limit { IfOk result (λ file. limit_of file ≡ limit) }

        // Until the first sync a crash leaves what it could have left before the call, and from then on what stands for the
        // file's records, or for those with its first closed gate opened.
        ensures crash { (c : Contents) → D.told disk ≡ Some c → MatchResult result
            (λ file. LeavesFirst D.moment D.since disk (disk_of file) (IsImage (D.told disk)) (IsMending c.seen))
            (λ refused. MayLeaveFirst D.moment D.since disk refused.back (IsImage (D.told disk)) (IsMending c.seen)) }
        // What an append left stays so at every moment and after the call; Ok has settled what it holds.
        ensures left { (rs pending : List Record) → MayHold (D.told disk) rs pending → MatchResult result
            (λ file. LeavesOnly D.moment D.since disk (disk_of file) (IsLeft rs pending) × MayHold (D.told (disk_of file)) rs pending)
            (λ refused. LeavesOnly D.moment D.since disk refused.back (IsLeft rs pending) × MayHold (D.told refused.back) rs pending) }
        ensures settled { (rs pending : List Record) → MayHold (D.told disk) rs pending
            → IfOk result (λ file. Holds (D.told (disk_of file)) rs ⊎ Holds (D.told (disk_of file)) (rs ++ pending)) }

        ensures refused { IfErr result (λ refused. OpenRefused (D.told disk) (IsSure D.is_steady D.stops_alone D.left disk) (D.failures disk) (D.failures refused.back) refused.why) }
        // A file that stands for records is never foreign.
        ensures own { (rs : List Record) → Holds (D.told disk) rs → IfErr result (λ refused. refused.why ≡ PadBad.Foreign → ⊥) }
        ensures own_left { (rs pending : List Record) → MayHold (D.told disk) rs pending → IfErr result (λ refused. refused.why ≡ PadBad.Foreign → ⊥) }
        ensures foreign { (c : Contents) → D.told disk ≡ Some c → is_foreign c.seen ≡ true → IsErr result }
        ensures untouched { (c : Contents) → D.told disk ≡ Some c → IfErr result (λ refused. refused.why ≡ PadBad.Foreign → D.told refused.back ≡ Some (settled c.seen)) }

        // Five bytes are read for each record, and at most fourteen beside them.
        ensures reads { IfOk result (λ file. ReadsUpTo (D.bytes_read disk) (D.bytes_read (disk_of file)) (5 * count_of file + 14)) }
        ensures marks { MatchResult result (λ file. KeepsMarks D.is_steady D.stops_alone D.left disk (disk_of file)) (λ refused. KeepsMarks D.is_steady D.stops_alone D.left disk refused.back) }
        ensures later { MatchResult result (λ file. D.failures disk ≤ D.failures (disk_of file)) (λ refused. D.failures disk ≤ D.failures refused.back) }
    {
        match Journal::open(alloc, disk, limit) {
            Ok(journal) => Ok(PadFile {
                journal,
                spare: None,
            }),
            Err(refused) => Err(Refused {
                back: refused.back,
                why: pad_bad(refused.why),
            }),
        }
    }

    /// Opens the file again. After an `Err` it is closed.
    pub fn reopen(&mut self, alloc: Global) -> Result<(), PadBad>
        ensures ready { OnOk result (IsReady D.told self.new) }
        ensures closed { OnErr result (IsClosed self.new) }
        ensures records { (rs : List Record) → Holds (D.told (disk_of self.old)) rs → OnOk result (Holds (D.told (disk_of self.new)) rs) }
        ensures file { (c : Contents) → D.told (disk_of self.old) ≡ Some c → OnOk result (D.told (disk_of self.new) ≡ Some (settled (mended c.seen))) }
        ensures limit { limit_of self.new ≡ limit_of self.old }

        ensures crash { (c : Contents) → D.told (disk_of self.old) ≡ Some c → MatchResult result
            (λ _. LeavesFirst D.moment D.since (disk_of self.old) (disk_of self.new) (IsImage (D.told (disk_of self.old))) (IsMending c.seen))
            (λ _. MayLeaveFirst D.moment D.since (disk_of self.old) (disk_of self.new) (IsImage (D.told (disk_of self.old))) (IsMending c.seen)) }
        // What an append left stays so at every moment and after the call; Ok has settled what it holds.
        ensures left { (rs pending : List Record) → MayHold (D.told (disk_of self.old)) rs pending
            → LeavesOnly D.moment D.since (disk_of self.old) (disk_of self.new) (IsLeft rs pending) × MayHold (D.told (disk_of self.new)) rs pending }
        ensures settled { (rs pending : List Record) → MayHold (D.told (disk_of self.old)) rs pending
            → OnOk result (Holds (D.told (disk_of self.new)) rs ⊎ Holds (D.told (disk_of self.new)) (rs ++ pending)) }

        ensures refused { IfErr result (OpenRefused (D.told (disk_of self.old)) (IsSure D.is_steady D.stops_alone D.left (disk_of self.old)) (D.failures (disk_of self.old)) (D.failures (disk_of self.new))) }
        ensures own { (rs : List Record) → Holds (D.told (disk_of self.old)) rs → IfErr result (λ why. why ≡ PadBad.Foreign → ⊥) }
        ensures own_left { (rs pending : List Record) → MayHold (D.told (disk_of self.old)) rs pending → IfErr result (λ why. why ≡ PadBad.Foreign → ⊥) }
        ensures foreign { (c : Contents) → D.told (disk_of self.old) ≡ Some c → is_foreign c.seen ≡ true → IsErr result }
        ensures reads { OnOk result (ReadsUpTo (D.bytes_read (disk_of self.old)) (D.bytes_read (disk_of self.new)) (5 * count_of self.new + 14)) }
        ensures marks { KeepsMarks D.is_steady D.stops_alone D.left (disk_of self.old) (disk_of self.new) }
        ensures later { D.failures (disk_of self.old) ≤ D.failures (disk_of self.new) }
    {
        match self.journal.reopen(alloc) {
            Ok(()) => Ok(()),
            Err(why) => Err(pad_bad(why)),
        }
    }
}

impl<D: Disk> PadFile<D> {
    /// The count of records.
    pub fn count(&self) -> u64
        requires { IsReady D.told self.now }
        ensures value { result ≡ count_of self.now }
        ensures records { (rs : List Record) → Holds (D.told (disk_of self.now)) rs → result ≡ length rs }
        // What an open file holds is settled.
        ensures settled { (rs : List Record) → Holds (D.told (disk_of self.now)) rs → MayHold (D.told (disk_of self.now)) rs [] }
    {
        self.journal.count()
    }

    /// A record, by its index. `BadRecord` says that its bytes are no record's.
    #[tactic(auto, using(crate::proofs::Telling::holds_still))]
    pub fn read(&mut self, alloc: Global, i: u64) -> Result<Record, PadBad>
        requires ready { IsReady D.told self.old }
        requires below { i < count_of self.old }
        ensures value { IfOk result (IsRecordAt (D.told (disk_of self.old)) i) }
        ensures records { (rs : List Record) → Holds (D.told (disk_of self.old)) rs → IfOk result (λ r. at rs i ≡ Some r) }
        ensures ready { OnOk result (IsReady D.told self.new) }
        ensures refused { IfErr result (ReadRefused (D.told (disk_of self.old)) i (IsClosed self.new) (IsReady D.told self.new) (IsSure D.is_steady D.stops_alone D.left (disk_of self.old)) (D.failures (disk_of self.old)) (D.failures (disk_of self.new))) }
        // Of a file that stands for records none is bad.
        ensures own { (rs : List Record) (k : ℕ) → Holds (D.told (disk_of self.old)) rs → IfErr result (λ why. why ≡ PadBad.BadRecord k → ⊥) }
        ensures settled { (rs : List Record) → Holds (D.told (disk_of self.old)) rs → MayHold (D.told (disk_of self.new)) rs [] }
        ensures told { D.told (disk_of self.new) ≡ D.told (disk_of self.old) }
        ensures same { (count_of self.new ≡ count_of self.old) × (length_of self.new ≡ length_of self.old) × (limit_of self.new ≡ limit_of self.old) }
        ensures images { LeavesOnly D.moment D.since (disk_of self.old) (disk_of self.new) (IsImage (D.told (disk_of self.old))) }
        ensures marks { KeepsMarks D.is_steady D.stops_alone D.left (disk_of self.old) (disk_of self.new) }
        ensures later { D.failures (disk_of self.old) ≤ D.failures (disk_of self.new) }
    {
        let bytes = match self.journal.read(alloc, i) {
            Ok(bytes) => bytes,
            Err(why) => return Err(pad_bad(why)),
        };
        match decode(alloc, &bytes)? {
            Some(entry) => Ok(entry),
            None => Err(PadBad::BadRecord(i)),
        }
    }

    /// Makes all ready to append a record, with which the file may have so many bytes: its bytes, and room for it.
    ///
    /// A record that has no bytes is answered as for want of memory, and so is one with which the file would have 2^64 bytes
    /// or more.
    #[inline(always)]
    pub fn prepare(
        &mut self,
        alloc: Global,
        entry: &Record,
        longest: u64,
    ) -> Result<Prepared, PadBad>
        requires ready { IsReady D.told self.old }
        requires below { longest ≤ limit_of self.old }
        ensures prepared { IfOk result (λ prepared. prepared ≡ entry.now) }
        ensures bytes { OnOk result (IsRecord entry.now) }
        ensures room { IfOk result (HasRoomFor D.room self.new) }
        ensures fits { (most : ℕ) → longest ≡ saturated most → OnOk result (file_fault (length_of self.old) most entry.now ≡ None) }
        ensures refused { (most : ℕ) → longest ≡ saturated most → IfErr result (λ why. (why ≡ PadBad.NoMemory) ⊎ (file_fault (length_of self.old) most entry.now ≡ Some why)) }
        // It is the journal's refusal of a machine whose records the file holds.
        ensures machine { (st : MachineState) (most : ℕ) → Holds (D.told (disk_of self.old)) st.records → longest_with st.pad.limits entry.now ≡ most
            → file_fault (length_of self.old) most entry.now ≡ journal_fault size st entry.now }
        ensures ready { IsReady D.told self.new }
        ensures same { IsSameOver self.old self.new }
        ensures told { D.told (disk_of self.new) ≡ D.told (disk_of self.old) }
        ensures images { LeavesOnly D.moment D.since (disk_of self.old) (disk_of self.new) (IsImage (D.told (disk_of self.old))) }
        ensures failures { D.failures (disk_of self.new) ≡ D.failures (disk_of self.old) }
        ensures stop { D.left (disk_of self.new) ≡ D.left (disk_of self.old) }
        ensures marks { KeepsMarks D.is_steady D.stops_alone D.left (disk_of self.old) (disk_of self.new) }
    {
        let bytes = encode_behind(alloc, &[0; FRONT], entry, self.spare.take())?;
        self.takes((bytes.len() - FRONT) as u64, longest)?;
        let framed = frame_behind(bytes)?;
        self.journal.reserve(&framed)?;
        Ok(Prepared::new(framed, entry))
    }

    /// Whether the file takes a record of so many bytes, with which it may have so many.
    fn takes(&self, size: u64, longest: u64) -> Result<(), PadBad>
        ensures fault { (most : ℕ) → longest ≡ saturated most → MatchResult result
            (λ _. size_fault (length_of self.now) most size ≡ None)
            (λ why. (why ≡ PadBad.NoMemory) ⊎ (size_fault (length_of self.now) most size ≡ Some why)) }
        ensures below { OnOk result ((size ≤ 67108864) × (length_of self.now + (size + 5) ≤ longest)) }
    {
        if RECORD_MAX < size {
            return Err(PadBad::JournalFull(size));
        }
        match self.journal.gate().checked_add(size + 6) {
            None => Err(PadBad::NoMemory),
            Some(length) => {
                if longest < length {
                    Err(PadBad::JournalFull(length))
                } else {
                    Ok(())
                }
            }
        }
    }

    /// Adds a record. It takes no memory.
    #[inline(always)]
    pub fn append(&mut self, prepared: Prepared) -> Result<(), PadBad>
        requires ready { IsReady D.told self.old }
        requires room { HasRoomFor D.room self.old prepared }

        ensures ready { OnOk result (IsReady D.told self.new) }
        ensures adds { (rs : List Record) → Holds (D.told (disk_of self.old)) rs → OnOk result (Holds (D.told (disk_of self.new)) (rs ++ prepared ∷ [])) }
        ensures settled { (rs : List Record) → Holds (D.told (disk_of self.old)) rs → OnOk result (MayHold (D.told (disk_of self.new)) (rs ++ prepared ∷ []) []) }
        // A disk that tells of it told before.
        ensures told { (c : Contents) → D.told (disk_of self.new) ≡ Some c → OnOk result ((d : Contents) × (D.told (disk_of self.old) ≡ Some d)) }
        ensures grows { OnOk result ((count_of self.new ≡ count_of self.old + 1) × (length_of self.new ≡ length_with (length_of self.old) prepared)) }

        // A crash at any moment of the call leaves the old records, or these and the new one; which, the byte at the old
        // closed gate tells.
        ensures any_moment { (rs : List Record) → Holds (D.told (disk_of self.old)) rs
            → LeavesOnly D.moment D.since (disk_of self.old) (disk_of self.new) (IsOldOrMore rs (prepared ∷ [])) }
        ensures by_gate { (c : Contents) (rs : List Record) → D.told (disk_of self.old) ≡ Some c → StandsFor rs c.seen
            → LeavesOnly D.moment D.since (disk_of self.old) (disk_of self.new) (IsByGate (closed_gate c.seen) rs prepared) }
        ensures left { (rs : List Record) → Holds (D.told (disk_of self.old)) rs
            → LeavesOnly D.moment D.since (disk_of self.old) (disk_of self.new) (IsLeft rs (prepared ∷ [])) × MayHold (D.told (disk_of self.new)) rs (prepared ∷ []) }
        // Once it has answered Ok each crash leaves the new one, and what was synced stands for the old ones until then.
        ensures acknowledged { (rs : List Record) → Holds (D.told (disk_of self.old)) rs
            → OnOk result ((image : List ℕ) → IsImage (D.told (disk_of self.new)) image → StandsFor (rs ++ prepared ∷ []) image) }
        ensures synced { (rs : List Record) → Holds (D.told (disk_of self.old)) rs → OnErr result (HoldsSynced (D.told (disk_of self.new)) rs) }

        // Stopped after up to two calls it leaves the old records; after three the last sync has these, and what a read gives
        // has the new one; four are enough.
        ensures stopped_early { (rs : List Record) (calls : ℕ) → Holds (D.told (disk_of self.old)) rs → calls < 3 → D.left (disk_of self.old) ≡ Some calls
            → (image : List ℕ) → IsImage (D.told (disk_of self.new)) image → StandsFor rs image }
        ensures stopped_late { (rs : List Record) → Holds (D.told (disk_of self.old)) rs → D.stops_alone (disk_of self.old) ≡ true → D.left (disk_of self.old) ≡ Some 3
            → IsHalfway (D.told (disk_of self.new)) rs prepared }
        ensures goes_through { (calls : ℕ) → D.stops_alone (disk_of self.old) ≡ true → D.left (disk_of self.old) ≡ Some (calls + 4) → IsOk result }
        // Whatever image is then asked for, it has the record exactly where the count of calls and the image say so.
        ensures stopped { (rs : List Record) (calls : ℕ) → Holds (D.told (disk_of self.old)) rs → D.stops_alone (disk_of self.old) ≡ true
            → D.left (disk_of self.old) ≡ Some calls → IsStopped (D.told (disk_of self.new)) rs prepared calls }

        ensures refused { IfErr result (AppendRefused (IsSure D.is_steady D.stops_alone D.left (disk_of self.old)) (D.failures (disk_of self.old)) (D.failures (disk_of self.new))) }
        ensures closed { OnErr result (IsClosed self.new) }
        ensures limit { limit_of self.new ≡ limit_of self.old }
        ensures marks { KeepsMarks D.is_steady D.stops_alone D.left (disk_of self.old) (disk_of self.new) }
        ensures later { D.failures (disk_of self.old) ≤ D.failures (disk_of self.new) }
    {
        match self.journal.append(prepared.framed()) {
            Ok(_) => {
                self.spare = prepared.into_spare();
                Ok(())
            }
            Err(why) => Err(pad_bad(why)),
        }
    }

    pub fn is_open(&self) -> bool
        ensures ready { IsReady D.told self.now → result ≡ true }
        ensures closed { IsClosed self.now → result ≡ false }
    {
        self.journal.is_open()
    }

    /// How often the disk has failed.
    pub fn faults(&self) -> u64
        ensures { result ≡ D.failures (disk_of self.now) }
    {
        self.journal.faults()
    }

    pub fn into_disk(self) -> D
        ensures { result ≡ disk_of self }
    {
        let PadFile { journal, spare: _ } = self;
        journal.into_disk()
    }
}

impl<D: Crash> PadFile<D> {
    ghost use Rattle.ep_outside.specs.declared.image.Image.{Image};

    /// From now, after so many device calls, each call of the disk fails.
    pub fn stop_after(&mut self, calls: u64, asked: Image)
        ensures stop { D.left (disk_of self.new) ≡ Some calls }
        ensures image { D.image (disk_of self.new) ≡ asked }
        ensures same { IsSameOver self.old self.new }
        ensures ready { IsReady D.told self.old → IsReady D.told self.new }
        ensures told { D.told (disk_of self.new) ≡ D.told (disk_of self.old) }
        ensures settled { (rs : List Record) → IsReady D.told self.old → Holds (D.told (disk_of self.old)) rs → MayHold (D.told (disk_of self.new)) rs [] }
        ensures room { (r : Record) → HasRoomFor D.room self.old r → HasRoomFor D.room self.new r }
        ensures images { LeavesOnly D.moment D.since (disk_of self.old) (disk_of self.new) (IsImage (D.told (disk_of self.old))) }
        ensures failures { D.failures (disk_of self.new) ≡ D.failures (disk_of self.old) }
        ensures alone { D.stops_alone (disk_of self.new) ≡ D.stops_alone (disk_of self.old) }
    {
        self.journal.stop_after(calls, asked);
    }

    /// Restarts the disk, which then holds the image that was asked for, and opens the file again.
    pub fn restart(&mut self, alloc: Global) -> Result<(), PadBad>
        ensures opens { (c : Contents) → D.told (disk_of self.old) ≡ Some c
            → (image : List ℕ) × IsAsked c (image_at (D.left (disk_of self.old)) (D.image (disk_of self.old))) image × Reopens image (D.told (disk_of self.new)) result }
        // Until the first sync of the opening a crash leaves what it could have left before the call, or the image; from then
        // on as an opening of the image.
        ensures crash { (c : Contents) → D.told (disk_of self.old) ≡ Some c
            → (image : List ℕ) × IsAsked c (image_at (D.left (disk_of self.old)) (D.image (disk_of self.old))) image × MatchResult result
            (λ _. LeavesFirst D.moment D.since (disk_of self.old) (disk_of self.new) (IsImageOr (D.told (disk_of self.old)) image) (IsMending image))
            (λ _. MayLeaveFirst D.moment D.since (disk_of self.old) (disk_of self.new) (IsImageOr (D.told (disk_of self.old)) image) (IsMending image)) }
        // What an append left stays so at every moment and after the call; Ok has settled what it holds.
        ensures left { (rs pending : List Record) → MayHold (D.told (disk_of self.old)) rs pending
            → LeavesOnly D.moment D.since (disk_of self.old) (disk_of self.new) (IsLeft rs pending) × MayHold (D.told (disk_of self.new)) rs pending }
        ensures settled { (rs pending : List Record) → MayHold (D.told (disk_of self.old)) rs pending
            → OnOk result (Holds (D.told (disk_of self.new)) rs ⊎ Holds (D.told (disk_of self.new)) (rs ++ pending)) }
        ensures own_left { (rs pending : List Record) → MayHold (D.told (disk_of self.old)) rs pending → IfErr result (λ why. why ≡ PadBad.Foreign → ⊥) }
        ensures refused { IfErr result (OpenRefused None ((D.is_steady (disk_of self.old) ≡ true) ⊎ (D.stops_alone (disk_of self.old) ≡ true)) (D.failures (disk_of self.old)) (D.failures (disk_of self.new))) }
        ensures ready { OnOk result (IsReady D.told self.new) }
        ensures closed { OnErr result (IsClosed self.new) }
        ensures limit { limit_of self.new ≡ limit_of self.old }
        ensures stop { D.left (disk_of self.new) ≡ None }
        ensures steady { D.is_steady (disk_of self.old) ≡ true → D.is_steady (disk_of self.new) ≡ true }
        ensures alone { D.stops_alone (disk_of self.new) ≡ D.stops_alone (disk_of self.old) }
        ensures reads { OnOk result (ReadsUpTo (D.bytes_read (disk_of self.old)) (D.bytes_read (disk_of self.new)) (5 * count_of self.new + 14)) }
        ensures later { D.failures (disk_of self.old) ≤ D.failures (disk_of self.new) }
    {
        match self.journal.restart(alloc) {
            Ok(()) => Ok(()),
            Err(why) => Err(pad_bad(why)),
        }
    }
}
