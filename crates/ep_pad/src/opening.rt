//! Opening: the records of the file are read back, and the opening's own is appended.

ghost use Rattle.std.specs.Prelude.{◌≡◌, ◌≤◌, ◌++◌, ◌∷◌, [], List, ℕ, true, false, Some, None, OnOk, IsOk, IfErr, IfOk, MatchResult};
ghost use Rattle.ep_history.specs.Machine.{MachineState, IsFirst, IsKeptState};
ghost use Rattle.ep_history.specs.Records.{AreLegal, told};
ghost use Rattle.ep_history.specs.declared.record.Record.{Record};
ghost use Rattle.ep_journal.specs.File.{mended};
ghost use Rattle.ep_outside.specs.Disk.{Contents, IsImage, KeepsMarks, settled};
ghost use Rattle.ep_outside.specs.Crash.{IsAsked, image_at};
ghost use Rattle.ep_outside.specs.Moments.{LeavesOnly};
ghost use Rattle.ep_pad_file.specs.PadFile.{disk_of, limit_of, IsReady as IsFileReady};
ghost use Rattle.ep_pad_file.specs.Standing.{Holds, IsOldOrMore, MayHold, StandsFor};
ghost use Rattle.ep_pad_state.specs.Held.{IsPad};
ghost use Rattle.ep_pad.specs.Held.{longest_of};
ghost use Rattle.ep_pad.specs.Histories.{HasMade};
ghost use Rattle.ep_pad.specs.Standing.{opening, Stands};
ghost use Rattle.ep_pad.specs.Crashes.{Comes, MayRemain};
ghost use Rattle.ep_pad.specs.Opening.{appended, found, stopped, BeginRefused, Begins, BeginsNot, IsBadAt, IsFullAt, IsFullThen, IsLegalFile, IsReadFault, IsRefused, IsWoken, MayFind, Sleeps};

use crate::lengths::{longest_file, longest_file_with};
use crate::machine::PadMachine;
use ep_history::{PadBad, Record};
use ep_outside::{Crash, Disk, Image, Limits, Refused};
use ep_pad_file::PadFile;
use ep_pad_state::Pad;
use std::alloc::Global;

/// The pad that the records of a file tell, which nobody has entered.
fn reread<D: Disk>(alloc: Global, file: &mut PadFile<D>, limits: Limits) -> Result<Pad, PadBad>
    requires { IsFileReady D.told file.old }
    ensures pad { (rs : List Record) → Holds (D.told (disk_of file.old)) rs → AreLegal limits rs → IfOk result (λ pad. IsPad pad (told limits rs)) }
    ensures own { (rs : List Record) → Holds (D.told (disk_of file.old)) rs → AreLegal limits rs
        → IfErr result (λ bad. IsReadFault (D.failures (disk_of file.old)) (D.failures (disk_of file.new)) bad) }
    ensures found { (c : Contents) → D.told (disk_of file.old) ≡ Some c → IfOk result (λ _. IsLegalFile limits c.seen) }
    ensures bad { (c : Contents) (k : ℕ) → D.told (disk_of file.old) ≡ Some c → IfErr result (λ why. why ≡ PadBad.BadRecord k → IsBadAt limits c.seen k) }
    ensures refused { IfErr result (BeginRefused (D.failures (disk_of file.old)) (D.failures (disk_of file.new))) }
    ensures unfilled { (n : ℕ) → IfErr result (λ why. why ≡ PadBad.JournalFull n → ⊥) }
    ensures settled { (rs : List Record) → Holds (D.told (disk_of file.old)) rs → MayHold (D.told (disk_of file.old)) rs [] }
    ensures told { D.told (disk_of file.new) ≡ D.told (disk_of file.old) }
    ensures images { LeavesOnly D.moment D.since (disk_of file.old) (disk_of file.new) (IsImage (D.told (disk_of file.old))) }
    ensures ready { OnOk result (IsFileReady D.told file.new) }
    ensures limit { limit_of file.new ≡ limit_of file.old }
    ensures marks { KeepsMarks D.is_steady D.stops_alone D.left (disk_of file.old) (disk_of file.new) }
    ensures later { D.failures (disk_of file.old) ≤ D.failures (disk_of file.new) }
{
    let mut pad = Pad::unopened(alloc, limits);
    for i in 0..file.count() {
        let record = file.read(alloc, i)?;
        if !pad.next(alloc, record)? {
            return Err(PadBad::BadRecord(i));
        }
    }
    Ok(pad)
}

/// Reads the records of a file back, and keeps the opening's own behind them: the pad then, in its next opening.
fn begin<D: Disk>(alloc: Global, file: &mut PadFile<D>, limits: Limits) -> Result<Pad, PadBad>
    requires file { IsFileReady D.told file.old }
    requires limit { limit_of file.old ≡ longest_of limits }
    ensures begins { (rs : List Record) → Holds (D.told (disk_of file.old)) rs → AreLegal limits rs → MatchResult result
        (λ pad. Begins D.told D.failures limits rs (disk_of file.old) (disk_of file.new) pad
        × LeavesOnly D.moment D.since (disk_of file.old) (disk_of file.new) (IsOldOrMore rs (opening (told limits rs) ∷ [])))
        (λ bad. (b : BeginsNot D.told D.failures limits rs (disk_of file.old) bad (disk_of file.new))
        × LeavesOnly D.moment D.since (disk_of file.old) (disk_of file.new) (IsOldOrMore rs (appended D.told D.failures limits rs b.cause))) }
    ensures refused { IfErr result (BeginRefused (D.failures (disk_of file.old)) (D.failures (disk_of file.new))) }
    ensures found { (c : Contents) → D.told (disk_of file.old) ≡ Some c → IfOk result (λ _. IsLegalFile limits c.seen) }
    ensures bad { (c : Contents) (k : ℕ) → D.told (disk_of file.old) ≡ Some c → IfErr result (λ why. why ≡ PadBad.BadRecord k → IsBadAt limits c.seen k) }
    ensures alone { (k : ℕ) → IfErr result (λ why. why ≡ PadBad.BadRecord k → D.told (disk_of file.new) ≡ D.told (disk_of file.old)) }
    ensures full { (c : Contents) (n : ℕ) → D.told (disk_of file.old) ≡ Some c
        → IfErr result (λ why. why ≡ PadBad.JournalFull n → IsFullAt limits c.seen n × (D.told (disk_of file.new) ≡ D.told (disk_of file.old))) }
    ensures told { (c : Contents) → D.told (disk_of file.new) ≡ Some c → OnOk result ((d : Contents) × (D.told (disk_of file.old) ≡ Some d)) }
    ensures ready { OnOk result (IsFileReady D.told file.new) }
    ensures limit { limit_of file.new ≡ limit_of file.old }
    ensures marks { KeepsMarks D.is_steady D.stops_alone D.left (disk_of file.old) (disk_of file.new) }
    ensures later { D.failures (disk_of file.old) ≤ D.failures (disk_of file.new) }
{
    let mut pad = reread(alloc, file, limits)?;
    let Some(epoch) = pad.epoch().checked_add(1) else {
        return Err(PadBad::NoMemory);
    };
    let record = Record::Open { epoch };
    let longest = longest_file_with(limits, &record);
    let prepared = file.prepare(alloc, &record, longest)?;
    pad.next(alloc, record)?;
    file.append(prepared)?;
    Ok(pad)
}

impl<D: Disk> PadMachine<D> {
    /// Opens a closed machine again.
    pub(crate) fn wake(&mut self) -> Result<(), PadBad>
        ensures wakes { (st : MachineState) → IsKeptState st → Stands D.told D.failures self.old st → MatchResult result
            (λ _. (mid : MachineState) × IsWoken st mid × Comes D.told D.failures D.moment D.since D.is_steady D.stops_alone D.left self.old st self.new mid)
            (λ bad. (new : MachineState) × Sleeps st bad new × Comes D.told D.failures D.moment D.since D.is_steady D.stops_alone D.left self.old st self.new new) }
        ensures open { OnOk result (self.new.is_open ≡ true) }
        ensures awake { self.old.is_open ≡ true → IsOk result × (self.new ≡ self.old) }
        ensures settled { (st : MachineState) → OnOk result (Stands D.told D.failures self.new st → MayHold (D.told self.new.disk) st.records st.pending) }
    {
        if self.is_open {
            return Ok(());
        }
        self.open_again()
    }

    /// It is closed. Apart from `wake`, so that a call of an open machine makes no room for what opening one needs.
    #[cold]
    #[inline(never)]
    fn open_again(&mut self) -> Result<(), PadBad>
        requires { self.old.is_open ≡ false }
        ensures wakes { (st : MachineState) → IsKeptState st → Stands D.told D.failures self.old st → MatchResult result
            (λ _. (mid : MachineState) × IsWoken st mid × Comes D.told D.failures D.moment D.since D.is_steady D.stops_alone D.left self.old st self.new mid)
            (λ bad. (new : MachineState) × Sleeps st bad new × Comes D.told D.failures D.moment D.since D.is_steady D.stops_alone D.left self.old st self.new new) }
        ensures open { OnOk result (self.new.is_open ≡ true) }
        ensures settled { (st : MachineState) → OnOk result (Stands D.told D.failures self.new st → MayHold (D.told self.new.disk) st.records st.pending) }
    {
        self.file.reopen(self.alloc)?;
        self.pad = begin(self.alloc, &mut self.file, self.limits)?;
        self.is_open = true;
        Ok(())
    }

    /// Opens the pad of a disk. A refusal hands the disk back.
    pub fn open(alloc: Global, disk: D, limits: Limits) -> Result<PadMachine<D>, Refused<D, PadBad>>
        // It has made no call yet since it began so, and is held to these limits.
        ensures begun { IfOk result (λ m. HasMade D.told D.failures m m []) }
        ensures limits { IfOk result (λ m. m.limits ≡ limits) }
        // A disk that tells a legal list of records.
        ensures first { (rs : List Record) → Holds (D.told disk) rs → AreLegal limits rs
            → IfOk result (λ m. (st : MachineState) × IsFirst st × (st.records ≡ rs ++ opening (told limits rs) ∷ []) × Stands D.told D.failures m st) }
        // Where a disk tells, its records are such a list; and else the refusal says which is the first that can't come there.
        ensures found { (c : Contents) → D.told disk ≡ Some c → IfOk result (λ _. IsLegalFile limits (mended c.seen)) }
        ensures bad { (c : Contents) (k : ℕ) → D.told disk ≡ Some c → IfErr result (λ refused. refused.why ≡ PadBad.BadRecord k → IsBadAt limits (mended c.seen) k) }
        // Neither then nor where the file is no journal is anything of it lost.
        ensures untouched { (c : Contents) → D.told disk ≡ Some c → IfErr result (λ refused. refused.why ≡ PadBad.Foreign → D.told refused.back ≡ Some (settled c.seen)) }
        ensures alone { (c : Contents) (k : ℕ) → D.told disk ≡ Some c
            → IfErr result (λ refused. refused.why ≡ PadBad.BadRecord k → D.told refused.back ≡ Some (settled (mended c.seen))) }
        // Nor where its records are such a list and the opening's has no room behind them, which alone is refused as full.
        ensures full { (c : Contents) (n : ℕ) → D.told disk ≡ Some c → IfErr result (λ refused. refused.why ≡ PadBad.JournalFull n
            → IsFullAt limits (mended c.seen) n × (D.told refused.back ≡ Some (settled (mended c.seen)))) }
        // A disk that was left while a record was being appended, or none.
        ensures opens { (rs pending : List Record) → MayHold (D.told disk) rs pending → AreLegal limits (rs ++ pending)
            → IfOk result (λ m. (n : ℕ) × (D.failures disk ≤ n) × ((mid : MachineState) × IsWoken (found limits rs pending n) mid × Stands D.told D.failures m mid)) }
        // A crash on the way leaves the records, or these and the pending one, and then what the opening appends or not.
        ensures crash { (rs pending : List Record) → MayHold (D.told disk) rs pending → AreLegal limits (rs ++ pending) → MatchResult result
            (λ m. (mid : MachineState) × Stands D.told D.failures m mid × LeavesOnly D.moment D.since disk m.disk (MayRemain (found limits rs pending (D.failures disk)) mid))
            (λ refused. (next : MachineState) × MayHold (D.told refused.back) next.records next.pending
            × LeavesOnly D.moment D.since disk refused.back (MayRemain (found limits rs pending (D.failures disk)) next)) }
        ensures marks { MatchResult result (λ m. KeepsMarks D.is_steady D.stops_alone D.left disk m.disk) (λ refused. KeepsMarks D.is_steady D.stops_alone D.left disk refused.back) }
        ensures refused { IfErr result (λ r. IsRefused D.told D.failures limits disk r.back r.why) }
    {
        let mut file = match PadFile::open(alloc, disk, longest_file(limits)) {
            Ok(file) => file,
            Err(refused) => return Err(refused),
        };
        match begin(alloc, &mut file, limits) {
            Ok(pad) => Ok(PadMachine {
                alloc,
                limits,
                file,
                pad,
                is_open: true,
            }),
            Err(why) => Err(Refused {
                back: file.into_disk(),
                why,
            }),
        }
    }

    /// What was answered stays: whatever a crash leaves now stands for the records, or where the machine is closed for these
    /// and the pending one.
    pub fn survives(&self)
        ensures { (st : MachineState) → Stands D.told D.failures self.now st → (image : List ℕ) → IsImage (D.told self.now.disk) image
            → IsOldOrMore st.records st.pending image }
    {
        let _file = &self.file;
    }

    /// The number of the opening.
    pub fn epoch(&self) -> u64
        ensures { (st : MachineState) → Stands D.told D.failures self.now st → st.is_open ≡ true → result ≡ st.pad.epoch }
    {
        self.pad.epoch()
    }
}

impl<D: Crash> PadMachine<D> {
    ghost use Rattle.ep_outside.specs.declared.image.Image.{Image};

    /// From now, after so many device calls, each call of the disk fails.
    pub fn stop_after(&mut self, calls: u64, asked: Image)
        ensures stop { D.left self.new.disk ≡ Some calls }
        ensures image { D.image self.new.disk ≡ asked }
        ensures told { D.told self.new.disk ≡ D.told self.old.disk }
        ensures images { LeavesOnly D.moment D.since self.old.disk self.new.disk (IsImage (D.told self.old.disk)) }
        ensures failures { D.failures self.new.disk ≡ D.failures self.old.disk }
        ensures alone { D.stops_alone self.new.disk ≡ D.stops_alone self.old.disk }
        ensures limits { self.new.limits ≡ self.old.limits }
        ensures open { self.new.is_open ≡ self.old.is_open }
        ensures stands { (st : MachineState) → Stands D.told D.failures self.old st → Stands D.told D.failures self.new st }
    {
        self.file.stop_after(calls, asked);
    }

    /// Restarts the disk, which then holds the image that was asked for, and opens the machine again: its sessions are of
    /// an older opening.
    pub fn restart(&mut self) -> Result<(), PadBad>
        // It opens the image that was asked for.
        ensures image { (c : Contents) → D.told self.old.disk ≡ Some c → (image : List ℕ) × IsAsked c (image_at (D.left self.old.disk) (D.image self.old.disk)) image
            × ((rs : List Record) → StandsFor rs image → AreLegal self.old.limits rs
            → OnOk result ((st : MachineState) × IsFirst st × (st.records ≡ rs ++ opening (told self.old.limits rs) ∷ []) × Stands D.told D.failures self.new st)) }
        // Of a state all of whose records stand in that image.
        ensures finds { (c : Contents) → D.told self.old.disk ≡ Some c → (image : List ℕ) × IsAsked c (image_at (D.left self.old.disk) (D.image self.old.disk)) image
            × ((at : MachineState) → MayFind self.old.limits (D.failures self.old.disk) image at
            → OnOk result ((mid : MachineState) × IsWoken at mid × Stands D.told D.failures self.new mid)) }
        // Also where the journal has no room for its next opening.
        ensures full { (c : Contents) → D.told self.old.disk ≡ Some c → (image : List ℕ) × IsAsked c (image_at (D.left self.old.disk) (D.image self.old.disk)) image
            × ((at : MachineState) (n : ℕ) → MayFind self.old.limits (D.failures self.old.disk) image at
            → IfErr result (λ bad. bad ≡ PadBad.JournalFull n → (next : MachineState) × IsFullThen at bad next × Stands D.told D.failures self.new next)) }
        ensures works { D.left self.new.disk ≡ None }
        ensures steady { D.is_steady self.old.disk ≡ true → D.is_steady self.new.disk ≡ true }
        ensures alone { D.stops_alone self.new.disk ≡ D.stops_alone self.old.disk }
        ensures restarts { (st : MachineState) → IsKeptState st → Stands D.told D.failures self.old st → MatchResult result
            (λ _. (mid : MachineState) × IsWoken (stopped st) mid × Stands D.told D.failures self.new mid)
            (λ bad. (next : MachineState) × Sleeps (stopped st) bad next × Stands D.told D.failures self.new next) }
        ensures crash { (st : MachineState) → IsKeptState st → Stands D.told D.failures self.old st → (next : MachineState)
            × Stands D.told D.failures self.new next
            × LeavesOnly D.moment D.since self.old.disk self.new.disk (MayRemain st next) }
    {
        self.is_open = false;
        self.file.restart(self.alloc)?;
        self.pad = begin(self.alloc, &mut self.file, self.limits)?;
        self.is_open = true;
        Ok(())
    }
}
