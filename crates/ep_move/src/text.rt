//! A text that comes in, up to its limit.

ghost use Rattle.std.specs.Prelude.{◌<◌, ◌≡◌, ⊤, length, IfErr, IfOk, IsErrOf};
ghost use Rattle.ep_outside.specs.Outside.{HasCause, IsWhole};
ghost use Rattle.ep_move.specs.Stopped.{StopsBy, StopsLong};
ghost use Rattle.ep_move.specs.Text.{ReadsOn, most_read};

use crate::lines::Reason;
use crate::stop::Stop;
use ep_import::MOST_BYTES;
use ep_outside::{Got, Source};
use std::alloc::Global;

/// So many bytes are read at once.
const ROOM: usize = 4096;

/// So many bytes are read at most: one more than a text may have.
const MOST_READ: usize = MOST_BYTES as usize + 1;

/// Reads some bytes behind others, as many as there is room for. Whether there were any.
fn read_on<S: Source>(source: &mut S, room: &mut [u8], text: &mut Vec<u8>) -> Result<bool, Stop>
    requires { 0 < length room.old }
    ensures reads { IfOk result (ReadsOn (S.left source.old) (S.left source.new) text.old.items text.new.items (length room.old)) }
    ensures cause { HasCause (S.failures source.old) (S.failures source.new) (S.is_steady source.old) (S.is_steady source.new) (IsErrOf result Stop.SourceFault) }
    ensures stops { IfErr result (StopsBy (λ why. ⊥) ⊤ ⊥) }
{
    match source.read(room) {
        Got::Bytes(n) => match text.extend_from_slice(&room[..n]) {
            Ok(()) => Ok(true),
            Err(_) => Err(Stop::NoMemory),
        },
        Got::End => Ok(false),
        Got::Failed => Err(Stop::SourceFault),
    }
}

/// All bytes of a source, which are fewer than are read at most.
pub fn read_text<S: Source>(alloc: Global, source: &mut S) -> Result<Vec<u8>, Stop>
    ensures whole { IfOk result (λ text. IsWhole (S.left source.old) (S.left source.new) text.items) }
    ensures short { IfOk result (λ text. length text.items < most_read) }
    ensures stops { IfErr result (StopsBy (StopsLong (S.left source.old) (S.left source.new)) ⊤ ⊥) }
    ensures cause { HasCause (S.failures source.old) (S.failures source.new) (S.is_steady source.old) (S.is_steady source.new) (IsErrOf result Stop.SourceFault) }
{
    let mut text = Vec::new(alloc);
    let mut room = [0u8; ROOM];
    while text.len() < MOST_READ {
        let want = ROOM.min(MOST_READ - text.len());
        match read_on(source, &mut room[..want], &mut text) {
            Ok(true) => {}
            Ok(false) => return Ok(text),
            Err(stop) => return Err(stop),
        }
    }
    Err(Stop::Refused(Reason::TooBig(MOST_BYTES + 1)))
}
