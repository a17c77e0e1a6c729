//! A history that goes out of its pad's file.

ghost use Rattle.std.specs.Prelude.{◌≡◌, ◌≢◌, ◌⊎◌, ℕ, List, Option, true, false, option_map, IfOk, IfSome, IsErrOf};
ghost use Rattle.std.specs.String.{string_bytes};
ghost use Rattle.ep_outside.specs.Disk.{Contents};
ghost use Rattle.ep_outside.specs.Outside.{HasCause, HasRisen};
ghost use Rattle.ep_history.specs.Pad.{PadState};
ghost use Rattle.ep_past.specs.Revisions.{AreRevisions};
ghost use Rattle.ep_move.specs.Reread.{IsReread};
ghost use Rattle.ep_verify.specs.Verdicts.{Tells};
ghost use Rattle.ep_move.specs.Lines.{line as with_end, refusal};
ghost use Rattle.ep_move.specs.Moving.{FailsBy, GoesOut, IsFound, IsSaid, WritesLine};
ghost use Rattle.ep_move.specs.Told.{HasPast, IsWritten};

use crate::file::{Unread, file_of};
use crate::lines::Reason;
use crate::moved::Moved;
use crate::rereading::Reread;
use crate::told::{Untold, told_by};
use ep_export::{ExportBad, export};
use ep_history::Rev;
use ep_import::births_can_be_exported;
use ep_outside::{Shelf, Sink};
use ep_units::{NoMemory, PadId};
use std::alloc::Global;

/// What is to be written of a pad.
#[derive(Drop)]
pub struct Line {
    pub text: String,
    /// It says why nothing else is written.
    pub refuses: bool,
}

/// The line of a refusal.
fn refused(alloc: Global, pad: &PadId, why: Reason) -> Result<Line, NoMemory>
    ensures { IfOk result (λ line. (line.refuses ≡ true) × (string_bytes line.text ≡ refusal pad.now why)) }
{
    let text = why.line(alloc, pad)?;
    Ok(Line {
        text,
        refuses: true,
    })
}

/// The text of a history, with a line's end.
fn whole(text: String) -> Result<Line, NoMemory>
    ensures { IfOk result (λ line. (line.refuses ≡ false) × (string_bytes line.text ≡ with_end (string_bytes text))) }
{
    let mut text = text;
    text.push('\n')?;
    Ok(Line {
        text,
        refuses: false,
    })
}

/// What is to be written of a birth's revisions.
fn line_of(alloc: Global, pad: &PadId, revs: &[Rev], public: bool) -> Result<Line, NoMemory>
    requires { AreRevisions revs.now }
    ensures { (file : List ℕ) → HasPast file revs.now public → IfOk result (λ line. IsWritten pad.now file line.refuses (string_bytes line.text)) }
{
    births_can_be_exported();
    match export(alloc, pad, revs, public) {
        Ok(text) => whole(text),
        Err(ExportBad::Time(n)) => refused(alloc, pad, Reason::Time(n)),
        Err(ExportBad::NoMemory) => Err(NoMemory),
    }
}

/// What is to be written of a pad that a file tells.
fn line_on(alloc: Global, pad: &PadId, told: &Reread) -> Result<Line, NoMemory>
    requires { IfSome told.now.last (λ last. AreRevisions last.revs.items) }
    ensures { (file : List ℕ) (p : PadState) → Tells file p → IsReread told.now p → IfOk result (λ line. IsWritten pad.now file line.refuses (string_bytes line.text)) }
{
    match &told.last {
        Some(last) => line_of(alloc, pad, &last.revs, told.public),
        None => refused(alloc, pad, Reason::Gone),
    }
}

/// What is to be written of a pad's file.
fn line_in(alloc: Global, pad: &PadId, bytes: &[u8]) -> Result<Line, NoMemory>
    ensures { IfOk result (λ line. IsWritten pad.now bytes.now line.refuses (string_bytes line.text)) }
{
    match told_by(alloc, bytes) {
        Ok(told) => line_on(alloc, pad, &told),
        Err(Untold::Foreign) => refused(alloc, pad, Reason::Foreign),
        Err(Untold::Record(k)) => refused(alloc, pad, Reason::Record(k)),
        Err(Untold::NoMemory) => Err(NoMemory),
    }
}

/// What is to be written of a pad whose file was found, or not.
fn line_for(alloc: Global, pad: &PadId, found: &Option<Vec<u8>>) -> Result<Line, NoMemory>
    ensures { (names : Option (List (List ℕ))) (told : Option Contents) → IsFound names told pad.now (option_map (λ bytes. bytes.items) found.now)
        → IfOk result (λ line. IsSaid names told pad.now line.refuses (string_bytes line.text)) }
{
    match found {
        Some(bytes) => line_in(alloc, pad, bytes),
        None => refused(alloc, pad, Reason::Gone),
    }
}

/// What is to be written of a shelf's pad.
fn line_from<H: Shelf>(alloc: Global, shelf: &mut H, pad: &PadId) -> Result<Line, Unread>
    ensures said { IfOk result (λ line. IsSaid (H.names shelf.old) (H.told shelf.old pad.now) pad.now line.refuses (string_bytes line.text)) }
    ensures names { H.names shelf.new ≡ H.names shelf.old }
    ensures fault { IsErrOf result Unread.Fault → HasRisen (H.failures shelf.old) (H.failures shelf.new) ⊎ FailsBy H.D.told H.D.failures (H.told shelf.old pad.now) }
    ensures sure { H.is_steady shelf.old ≡ true → IsErrOf result Unread.Fault → ⊥ }
{
    let found = match file_of(alloc, shelf, pad) {
        Ok(found) => found,
        Err(why) => return Err(why),
    };
    match line_for(alloc, pad, &found) {
        Ok(line) => Ok(line),
        Err(NoMemory) => Err(Unread::NoMemory),
    }
}

/// Writes a line, and answers how moving the pad ended.
fn write_line<K: Sink>(sink: &mut K, line: &Line) -> Moved
    ensures writes { WritesLine line.now.refuses (string_bytes line.now.text) (K.held sink.old) (K.held sink.new) result }
    ensures cause { HasCause (K.failures sink.old) (K.failures sink.new) (K.is_steady sink.old) (K.is_steady sink.new) (result ≡ Moved.SinkFault) }
{
    match sink.write(line.text.as_bytes()) {
        Ok(()) if line.refuses => Moved::Refused,
        Ok(()) => Moved::All,
        Err(_) => Moved::SinkFault,
    }
}

/// Writes the whole history of a pad of a shelf, or why there is none. Its file is read, and nothing is written to it.
pub fn export_to<H: Shelf, K: Sink>(
    alloc: Global,
    shelf: &mut H,
    sink: &mut K,
    pad: &PadId,
) -> Moved
    ensures goes_out { GoesOut (H.names shelf.old) (H.told shelf.old pad.now) pad.now (K.held sink.old) (K.held sink.new) result }
    ensures names { H.names shelf.new ≡ H.names shelf.old }
    ensures sink { HasCause (K.failures sink.old) (K.failures sink.new) (K.is_steady sink.old) (K.is_steady sink.new) (result ≡ Moved.SinkFault) }
    ensures disk_fault { result ≡ Moved.DiskFault → HasRisen (H.failures shelf.old) (H.failures shelf.new) ⊎ FailsBy H.D.told H.D.failures (H.told shelf.old pad.now) }
    ensures disk_sure { H.is_steady shelf.old ≡ true → result ≢ Moved.DiskFault }
{
    match line_from(alloc, shelf, pad) {
        Ok(line) => write_line(sink, &line),
        Err(Unread::Fault) => Moved::DiskFault,
        Err(Unread::NoMemory) => Moved::NoMemory,
    }
}
