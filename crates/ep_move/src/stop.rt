//! Why nothing came in.

ghost use Rattle.std.specs.Prelude.{◌≡◌};
ghost use Rattle.ep_outside.specs.Outside.{HasCause};
ghost use Rattle.ep_move.specs.Stopped.{WritesStop, stop_by_import};

use crate::lines::Reason;
use crate::moved::Moved;
use ep_import::ImportBad;
use ep_outside::Sink;
use ep_units::PadId;
use std::alloc::{AllocError, Global};

/// Why nothing came in.
#[derive(Clone, Copy, Debug, PartialEq, Eq)]
pub enum Stop {
    /// A line says why.
    Refused(Reason),
    SourceFault,
    DiskFault,
    NoMemory,
}

/// What a refused text comes to.
pub fn stop_of_import(why: ImportBad) -> Stop
    ensures { result ≡ stop_by_import why }
{
    match why {
        ImportBad::TooBig(bytes) => Stop::Refused(Reason::TooBig(bytes)),
        ImportBad::NotJson => Stop::Refused(Reason::NotJson),
        ImportBad::Shape(place) => Stop::Refused(Reason::Shape(place)),
        ImportBad::Revision(n) => Stop::Refused(Reason::Revision(n)),
        ImportBad::Replay => Stop::Refused(Reason::Replay),
        ImportBad::NoMemory => Stop::NoMemory,
    }
}

impl From<AllocError> for Stop {
    ghost use Rattle.std.specs.Prelude.{◌≡◌};
    ghost use Rattle.ep_move.specs.declared.stop.Stop.TheVariants as stop;

    ghost from_gives = { λ _ e. e ≡ stop.NoMemory };

    fn from(_error: AllocError) -> Stop {
        Stop::NoMemory
    }
}

/// Writes why a pad or a text is refused, in one line.
fn write_reason<K: Sink>(alloc: Global, sink: &mut K, pad: &PadId, why: Reason) -> Moved
    ensures writes { WritesStop pad.now (K.held sink.old) (K.held sink.new) (Stop.Refused why) result }
    ensures cause { HasCause (K.failures sink.old) (K.failures sink.new) (K.is_steady sink.old) (K.is_steady sink.new) (result ≡ Moved.SinkFault) }
{
    let Ok(line) = why.line(alloc, pad) else {
        return Moved::NoMemory;
    };
    match sink.write(line.as_bytes()) {
        Ok(()) => Moved::Refused,
        Err(_) => Moved::SinkFault,
    }
}

/// Writes why nothing came in, where a line says that.
pub fn write_stop<K: Sink>(alloc: Global, sink: &mut K, pad: &PadId, stop: Stop) -> Moved
    ensures writes { WritesStop pad.now (K.held sink.old) (K.held sink.new) stop result }
    ensures cause { HasCause (K.failures sink.old) (K.failures sink.new) (K.is_steady sink.old) (K.is_steady sink.new) (result ≡ Moved.SinkFault) }
{
    match stop {
        Stop::Refused(why) => write_reason(alloc, sink, pad, why),
        Stop::SourceFault => Moved::SourceFault,
        Stop::DiskFault => Moved::DiskFault,
        Stop::NoMemory => Moved::NoMemory,
    }
}
