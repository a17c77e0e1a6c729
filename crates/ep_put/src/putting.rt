//! Putting a history into a file.

ghost use Rattle.std.specs.Prelude.{◌≡◌, ◌+◌, ◌≤◌, List, ℕ, Some, true, IfErr, IfOk, MatchResult, OnOk};
ghost use Rattle.ep_outside.specs.Disk.{Contents, IsImage, IsSure, KeepsMarks, Reaches, settled};
ghost use Rattle.ep_outside.specs.Moments.{LeavesOnly};
ghost use Rattle.ep_journal.specs.Journal.{IsReady, count_of, disk_of, limit_of};
ghost use Rattle.ep_past.specs.Revisions.{AreRevisions};
ghost use Rattle.ep_put.specs.Putting.{HoldsHistory, IsAllOrNone, IsNoFault, IsTaken, Leaves, PutRefused, StandsForHistory, TellsHistory, history_records};
ghost use Rattle.ep_put.specs.Steps.{HistoryRefused, new_file};
ghost use Rattle.ep_put.specs.Whole.{gated_all, whole_file};

use crate::bad::PutBad;
use crate::framing::gated_all;
use crate::records::history_records;
use crate::storing::store;
use ep_history::Rev;
use ep_journal::Journal;
use ep_outside::{Disk, Failed, Refused};
use ep_past::records_tell_revisions;
use std::alloc::Global;

/// All that is written of a history behind a file's header, which may have so many bytes.
fn history_bytes(alloc: Global, limit: u64, revs: &[Rev], public: bool) -> Result<Vec<u8>, PutBad>
    requires { AreRevisions revs.now }
    ensures bytes { IfOk result (λ bytes. bytes.items ≡ gated_all (history_records revs.now public)) }
    ensures stands { OnOk result (StandsForHistory revs.now public (whole_file (history_records revs.now public))) }
    ensures taken { OnOk result (IsTaken limit revs.now public) }
    ensures refused { IfErr result (HistoryRefused limit revs.now public) }
{
    let records = history_records(alloc, revs, public)?;
    let bytes = gated_all(alloc, &records)?;
    let Some(length) = (bytes.len() as u64).checked_add(8) else {
        return Err(PutBad::NoMemory);
    };
    if length > limit {
        return Err(PutBad::Full(length));
    }
    Ok(bytes)
}

/// Puts a history into the file of a new journal, which may have so many bytes.
fn put_on<D: Disk>(
    alloc: Global,
    disk: &mut D,
    limit: u64,
    revs: &[Rev],
    public: bool,
) -> Result<(), PutBad>
    requires revisions { AreRevisions revs.now }
    requires inside { Reaches (D.told disk.old) 9 }
    ensures crash { D.told disk.old ≡ Some (settled new_file) → LeavesOnly D.moment D.since disk.old disk.new (IsAllOrNone revs.now public) }
    ensures file { D.told disk.old ≡ Some (settled new_file) → OnOk result (D.told disk.new ≡ Some (settled (whole_file (history_records revs.now public)))) }
    ensures stands { OnOk result (StandsForHistory revs.now public (whole_file (history_records revs.now public))) }
    ensures taken { OnOk result (IsTaken limit revs.now public) }
    ensures refused { IfErr result (PutRefused 0 limit revs.now public (IsSure D.is_steady D.stops_alone D.left disk.old) (D.failures disk.old) (D.failures disk.new)) }
    ensures untouched { IfErr result (Leaves (D.told disk.new ≡ D.told disk.old)) }
    ensures goes_through { (calls : ℕ) → D.stops_alone disk.old ≡ true → D.left disk.old ≡ Some (calls + 4) → IfErr result IsNoFault }
    ensures marks { KeepsMarks D.is_steady D.stops_alone D.left disk.old disk.new }
    ensures later { D.failures disk.old ≤ D.failures disk.new }
{
    let bytes = history_bytes(alloc, limit, revs, public)?;
    disk.reserve(bytes.len() as u64)?;
    match store(disk, &bytes) {
        Ok(()) => Ok(()),
        Err(Failed) => Err(PutBad::Disk(disk.faults())),
    }
}

/// Puts all revisions of a birth, and whether anybody may enter, into the file of a journal that holds no record: all of it,
/// or nothing. The disk comes back with the file, or with why it has none of this.
pub fn put<D: Disk>(
    alloc: Global,
    journal: Journal<D>,
    revs: &[Rev],
    public: bool,
) -> Result<D, Refused<D, PutBad>>
    requires ready { IsReady D.told journal }
    requires revisions { AreRevisions revs.now }

    // The records are a legal list that tells just these revisions. After Ok the file stands for it, and so does each crash.
    ensures tells { TellsHistory (history_records revs.now public) revs.now public }
    ensures holds { (c : Contents) → D.told (disk_of journal) ≡ Some c → IfOk result (λ disk. HoldsHistory (D.told disk) revs.now public) }
    ensures acknowledged { (c : Contents) → D.told (disk_of journal) ≡ Some c
        → IfOk result (λ disk. (image : List ℕ) → IsImage (D.told disk) image → StandsForHistory revs.now public image) }
    // A crash at any moment of the call leaves all of the history or no record.
    ensures any_moment { (c : Contents) → D.told (disk_of journal) ≡ Some c → count_of journal ≡ 0 → MatchResult result
        (λ disk. LeavesOnly D.moment D.since (disk_of journal) disk (IsAllOrNone revs.now public))
        (λ refused. LeavesOnly D.moment D.since (disk_of journal) refused.back (IsAllOrNone revs.now public)) }

    ensures taken { OnOk result ((count_of journal ≡ 0) × IsTaken (limit_of journal) revs.now public) }
    ensures refused { IfErr result (λ refused. PutRefused (count_of journal) (limit_of journal) revs.now public (IsSure D.is_steady D.stops_alone D.left (disk_of journal)) (D.failures (disk_of journal)) (D.failures refused.back) refused.why) }
    // A refusal that isn't the disk's leaves the file as it was, and a disk that stops after four calls refuses nothing.
    ensures untouched { IfErr result (λ refused. Leaves (D.told refused.back ≡ D.told (disk_of journal)) refused.why) }
    ensures goes_through { (calls : ℕ) → D.stops_alone (disk_of journal) ≡ true → D.left (disk_of journal) ≡ Some (calls + 4) → IfErr result (λ refused. IsNoFault refused.why) }

    ensures marks { MatchResult result (λ disk. KeepsMarks D.is_steady D.stops_alone D.left (disk_of journal) disk) (λ refused. KeepsMarks D.is_steady D.stops_alone D.left (disk_of journal) refused.back) }
    ensures later { MatchResult result (λ disk. D.failures (disk_of journal) ≤ D.failures disk) (λ refused. D.failures (disk_of journal) ≤ D.failures refused.back) }
{
    records_tell_revisions();
    let count = journal.count();
    let limit = journal.limit();
    let mut disk = journal.into_disk();
    if count > 0 {
        return Err(Refused {
            back: disk,
            why: PutBad::Exists,
        });
    }
    match put_on(alloc, &mut disk, limit, revs, public) {
        Ok(()) => Ok(disk),
        Err(why) => Err(Refused { back: disk, why }),
    }
}
