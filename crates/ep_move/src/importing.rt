//! A history that comes in and is put into its pad's file.

ghost use Rattle.std.specs.Prelude.{◌≡◌, ◌≢◌, ◌⊎◌, ⊤, Some, Ok, true, IfErr, IfOk, IfSome, IsErrOf, IsSome, MatchOption};
ghost use Rattle.ep_outside.specs.Disk.{Contents};
ghost use Rattle.ep_outside.specs.Outside.{HasCause, HasRisen, IsAtEnd};
ghost use Rattle.ep_past.specs.Revisions.{AreRevisions};
ghost use Rattle.ep_import.specs.Imported.{Imports, Said};
ghost use Rattle.ep_import.specs.Seen.{said};
ghost use Rattle.ep_put.specs.Putting.{HoldsHistory};
ghost use Rattle.ep_verify.specs.Files.{MayPut};
ghost use Rattle.ep_move.specs.Moving.{ComesIn, Fails, FailsBy, IsNone, Says, SaysNone};
ghost use Rattle.ep_move.specs.Stopped.{PutsAndSays, SaysLine, StopsBy};

use crate::file::{Unread, open_disk};
use crate::lines::{Reason, imported_line};
use crate::moved::Moved;
use crate::putting::put_into;
use crate::stop::{Stop, stop_of_import, write_stop};
use crate::text::read_text;
use ep_import::{History, import};
use ep_outside::{Disk, Shelf, Sink, Source};
use ep_units::PadId;
use std::alloc::Global;

/// How an import into a disk ended, and the disk where all of the history is in its file.
#[derive(Drop)]
pub struct Imported<D> {
    pub moved: Moved,
    pub disk: Option<D>,
}

/// The history that bytes say. Bytes that aren't UTF-8 are no JSON.
fn history_in(alloc: Global, pad: &PadId, bytes: &[u8]) -> Result<History, Stop>
    ensures says { IfOk result (λ h. Imports pad.now bytes.now (Ok (said h))) }
    ensures revisions { IfOk result (λ h. AreRevisions h.revs.items) }
    ensures stops { IfErr result (StopsBy (IsNone pad.now bytes.now) ⊥ ⊥) }
{
    let Ok(text) = std::str::from_utf8(bytes) else {
        return Err(Stop::Refused(Reason::NotJson));
    };
    match import(alloc, pad, text) {
        Ok(history) => Ok(history),
        Err(why) => Err(stop_of_import(why)),
    }
}

/// The history that a source says.
fn history_from<S: Source>(alloc: Global, source: &mut S, pad: &PadId) -> Result<History, Stop>
    ensures says { IfOk result (λ h. Says pad.now (S.left source.old) (S.left source.new) (said h)) }
    ensures revisions { IfOk result (λ h. AreRevisions h.revs.items) }
    ensures stops { IfErr result (StopsBy (SaysNone pad.now (S.left source.old) (S.left source.new)) ⊤ ⊥) }
    ensures cause { HasCause (S.failures source.old) (S.failures source.new) (S.is_steady source.old) (S.is_steady source.new) (IsErrOf result Stop.SourceFault) }
{
    match read_text(alloc, source) {
        Ok(bytes) => history_in(alloc, pad, &bytes),
        Err(stop) => Err(stop),
    }
}

/// Writes the line of a history that was put into the file of this disk.
fn say_imported<K: Sink, D: Drop>(sink: &mut K, disk: D, line: &str) -> Imported<D>
    ensures says { SaysLine line.now (K.held sink.old) (K.held sink.new) result.moved }
    ensures disk { MatchOption result.disk (result.moved ≡ Moved.SinkFault) (λ d. d ≡ disk) }
    ensures done { result.moved ≡ Moved.All → IsSome result.disk }
    ensures sink { HasCause (K.failures sink.old) (K.failures sink.new) (K.is_steady sink.old) (K.is_steady sink.new) (result.moved ≡ Moved.SinkFault) }
{
    match sink.write(line.as_bytes()) {
        Ok(()) => Imported {
            moved: Moved::All,
            disk: Some(disk),
        },
        Err(_) => Imported {
            moved: Moved::SinkFault,
            disk: None,
        },
    }
}

/// Puts a history into the file of a disk, and writes the line that says so, or why not. That line's memory is taken before.
fn put_and_say<K: Sink, D: Disk + Drop>(
    alloc: Global,
    sink: &mut K,
    pad: &PadId,
    disk: D,
    history: &History,
) -> Imported<D>
    requires { AreRevisions history.now.revs.items }
    ensures says { PutsAndSays pad.now (D.told disk) (said history.now) (K.held sink.old) (K.held sink.new) result.moved }
    ensures done { result.moved ≡ Moved.All → IsSome result.disk }
    ensures holds { (c : Contents) → D.told disk ≡ Some c → IfSome result.disk (λ d. HoldsHistory (D.told d) history.now.revs.items history.now.public) }
    ensures sink { HasCause (K.failures sink.old) (K.failures sink.new) (K.is_steady sink.old) (K.is_steady sink.new) (result.moved ≡ Moved.SinkFault) }
    ensures disk_fault { result.moved ≡ Moved.DiskFault → (last : D) × Fails (D.is_steady disk) (D.failures disk) (D.failures last) }
{
    let head = history.revs.len().saturating_sub(1) as u64;
    let Ok(line) = imported_line(alloc, head) else {
        return Imported {
            moved: Moved::NoMemory,
            disk: None,
        };
    };
    match put_into(alloc, disk, history) {
        Ok(disk) => say_imported(sink, disk, line.as_str()),
        Err(refused) => Imported {
            moved: write_stop(alloc, sink, pad, refused.why),
            disk: None,
        },
    }
}

/// Reads the source to its end, puts the history that it says into the file of the disk, and writes a line that says so. A
/// text that is refused leaves the disk as it was.
pub fn import_into<S: Source, K: Sink, D: Disk + Drop>(
    alloc: Global,
    source: &mut S,
    sink: &mut K,
    pad: &PadId,
    disk: D,
) -> Imported<D>
    ensures comes_in { ComesIn pad.now (S.left source.old) (S.left source.new) (D.told disk) (K.held sink.old) (K.held sink.new) result.moved }
    ensures done { result.moved ≡ Moved.All → IsSome result.disk }
    ensures holds { (c : Contents) → D.told disk ≡ Some c → IfSome result.disk (λ d. (h : Said) × Says pad.now (S.left source.old) (S.left source.new) h × HoldsHistory (D.told d) h.revs h.public) }
    ensures source { HasCause (S.failures source.old) (S.failures source.new) (S.is_steady source.old) (S.is_steady source.new) (result.moved ≡ Moved.SourceFault) }
    ensures sink { HasCause (K.failures sink.old) (K.failures sink.new) (K.is_steady sink.old) (K.is_steady sink.new) (result.moved ≡ Moved.SinkFault) }
    ensures disk_fault { result.moved ≡ Moved.DiskFault → (last : D) × Fails (D.is_steady disk) (D.failures disk) (D.failures last) }
{
    match history_from(alloc, source, pad) {
        Ok(history) => put_and_say(alloc, sink, pad, disk, &history),
        Err(stop) => Imported {
            moved: write_stop(alloc, sink, pad, stop),
            disk: None,
        },
    }
}

/// Puts a history into the file of a shelf's pad, and writes the line that says so, or why not.
fn put_on<K: Sink, H: Shelf>(
    alloc: Global,
    sink: &mut K,
    shelf: &mut H,
    pad: &PadId,
    history: &History,
) -> Moved
    requires { AreRevisions history.now.revs.items }
    ensures says { PutsAndSays pad.now (H.told shelf.old pad.now) (said history.now) (K.held sink.old) (K.held sink.new) result }
    ensures names { MayPut pad.now (H.names shelf.old) (H.names shelf.new) }
    ensures sink { HasCause (K.failures sink.old) (K.failures sink.new) (K.is_steady sink.old) (K.is_steady sink.new) (result ≡ Moved.SinkFault) }
    ensures disk_fault { result ≡ Moved.DiskFault → HasRisen (H.failures shelf.old) (H.failures shelf.new) ⊎ FailsBy H.D.told H.D.failures (H.told shelf.old pad.now) }
    ensures disk_sure { H.is_steady shelf.old ≡ true → result ≢ Moved.DiskFault }
{
    match open_disk(shelf, pad) {
        Ok(disk) => put_and_say(alloc, sink, pad, disk, history).moved,
        Err(Unread::Fault) => Moved::DiskFault,
        Err(Unread::NoMemory) => Moved::NoMemory,
    }
}

/// The same on a shelf. Of a text that is refused the shelf isn't asked for a disk, so that it makes no file.
pub fn import_to<S: Source, K: Sink, H: Shelf>(
    alloc: Global,
    source: &mut S,
    sink: &mut K,
    shelf: &mut H,
    pad: &PadId,
) -> Moved
    ensures comes_in { ComesIn pad.now (S.left source.old) (S.left source.new) (H.told shelf.old pad.now) (K.held sink.old) (K.held sink.new) result }
    ensures names { MayPut pad.now (H.names shelf.old) (H.names shelf.new) }
    ensures read { result ≡ Moved.All → IsAtEnd (S.left source.new) }
    ensures source { HasCause (S.failures source.old) (S.failures source.new) (S.is_steady source.old) (S.is_steady source.new) (result ≡ Moved.SourceFault) }
    ensures sink { HasCause (K.failures sink.old) (K.failures sink.new) (K.is_steady sink.old) (K.is_steady sink.new) (result ≡ Moved.SinkFault) }
    ensures disk_fault { result ≡ Moved.DiskFault → HasRisen (H.failures shelf.old) (H.failures shelf.new) ⊎ FailsBy H.D.told H.D.failures (H.told shelf.old pad.now) }
    ensures disk_sure { H.is_steady shelf.old ≡ true → result ≢ Moved.DiskFault }
{
    match history_from(alloc, source, pad) {
        Ok(history) => put_on(alloc, sink, shelf, pad, &history),
        Err(stop) => write_stop(alloc, sink, pad, stop),
    }
}
