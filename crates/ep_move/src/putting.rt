//! A history that is put into its pad's file.

ghost use Rattle.std.specs.Prelude.{◌≡◌, Some, IfErr, IfOk};
ghost use Rattle.ep_outside.specs.Disk.{Contents};
ghost use Rattle.ep_past.specs.Revisions.{AreRevisions};
ghost use Rattle.ep_import.specs.Imported.{Said};
ghost use Rattle.ep_import.specs.Seen.{said};
ghost use Rattle.ep_put.specs.Putting.{HoldsHistory};
ghost use Rattle.ep_move.specs.Moving.{Fails, IsUntaken};
ghost use Rattle.ep_move.specs.Stopped.{IsOver, StopsBy, stop_by_journal, stop_by_put};

use crate::lines::Reason;
use crate::stop::Stop;
use ep_import::History;
use ep_journal::{Journal, JournalBad};
use ep_outside::{Disk, Refused};
use ep_put::{PutBad, put};
use std::alloc::Global;

/// So many bytes a pad's file may have.
pub const MOST_FILE: u64 = 268_435_456;

fn stop_of_journal(why: JournalBad) -> Stop
    ensures { result ≡ stop_by_journal why }
{
    match why {
        JournalBad::Foreign => Stop::Refused(Reason::Foreign),
        JournalBad::Disk(_) => Stop::DiskFault,
        JournalBad::Full(_) | JournalBad::NoMemory => Stop::NoMemory,
    }
}

fn stop_of_put(why: PutBad) -> Stop
    ensures { result ≡ stop_by_put why }
{
    match why {
        PutBad::Exists => Stop::Refused(Reason::Exists),
        PutBad::TooLong(units) => Stop::Refused(Reason::TooLong(units)),
        PutBad::Full(bytes) => Stop::Refused(Reason::Full(bytes)),
        PutBad::Disk(_) => Stop::DiskFault,
        PutBad::NoMemory => Stop::NoMemory,
    }
}

/// The journal of a disk, opened.
fn journal_on<D: Disk>(alloc: Global, disk: D) -> Result<Journal<D>, Refused<D, Stop>>
    ensures over { IfOk result (IsOver D.told D.is_steady D.failures disk) }
    ensures stops { IfErr result (λ refused. StopsBy (λ why. (s : Said) → IsUntaken (D.told disk) s why) ⊥ (Fails (D.is_steady disk) (D.failures disk) (D.failures refused.back)) refused.why) }
{
    match Journal::open(alloc, disk, MOST_FILE) {
        Ok(journal) => Ok(journal),
        Err(refused) => Err(Refused {
            back: refused.back,
            why: stop_of_journal(refused.why),
        }),
    }
}

/// Puts a history into the file of a disk: all of it, or nothing.
pub fn put_into<D: Disk>(alloc: Global, disk: D, history: &History) -> Result<D, Refused<D, Stop>>
    requires { AreRevisions history.now.revs.items }
    ensures holds { (c : Contents) → D.told disk ≡ Some c → IfOk result (λ d. HoldsHistory (D.told d) history.now.revs.items history.now.public) }
    ensures stops { IfErr result (λ refused. StopsBy (IsUntaken (D.told disk) (said history.now)) ⊥ (Fails (D.is_steady disk) (D.failures disk) (D.failures refused.back)) refused.why) }
{
    let journal = match journal_on(alloc, disk) {
        Ok(journal) => journal,
        Err(refused) => return Err(refused),
    };
    match put(alloc, journal, &history.revs, history.public) {
        Ok(disk) => Ok(disk),
        Err(refused) => Err(Refused {
            back: refused.back,
            why: stop_of_put(refused.why),
        }),
    }
}
