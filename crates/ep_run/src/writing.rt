//! A writer of a server's pad.

ghost use Rattle.std.specs.Prelude.{◌≡◌, ◌∷◌, [], true, Contains};
ghost use Rattle.ep_outside.specs.Outside.{HasRisen, IsAtEnd};
ghost use Rattle.ep_run.specs.Writing.{WritesPad, code_of};

use crate::status::Status;
use ep_doors::Doors;
use ep_link::LinkBad;
use ep_outside::{Sink, Source};
use ep_units::Units;
use ep_written::{Wrote, write_to};
use std::alloc::Global;
use std::sync::Wait;

// The status of each end.
fn status_of(wrote: Wrote) -> Status
    ensures { result.code ≡ code_of wrote }
{
    match wrote {
        Wrote::All => Status { code: 0 },
        Wrote::BadLine => Status { code: 3 },
        Wrote::SourceFault => Status { code: 4 },
        Wrote::SinkFault => Status { code: 5 },
        Wrote::NoMemory => Status { code: 7 },
        Wrote::LinkFault => Status { code: 8 },
        Wrote::Refused => Status { code: 10 },
        Wrote::LinkClosed => Status { code: 11 },
    }
}

/// Writes the lines of the source to a pad of the server that the doors call at.
pub fn write_pad<R: Wait, S: Source, K: Sink, N: Doors>(
    rt: &R,
    alloc: Global,
    source: &mut S,
    sink: &mut K,
    doors: &mut N,
    pad: &str,
    token: &str,
) -> Status
where
    N::Pad: Drop,
    ensures writes { WritesPad N.Pad.traffic N.Pad.failures pad.now token.now (S.left source.old) (K.held sink.old) (K.held sink.new) result.code (N.failures doors.old) (N.failures doors.new) }
    ensures read { result.code ≡ 0 → IsAtEnd (S.left source.new) }
    ensures known { Contains (0 ∷ 3 ∷ 4 ∷ 5 ∷ 7 ∷ 8 ∷ 10 ∷ 11 ∷ []) result.code }
    ensures source_fault { result.code ≡ 4 → HasRisen (S.failures source.old) (S.failures source.new) }
    ensures sink_fault { result.code ≡ 5 → HasRisen (K.failures sink.old) (K.failures sink.new) }
    ensures sink_sure { K.is_steady sink.old ≡ true → result.code ≡ 5 → ⊥ }
{
    let (Ok(pad), Ok(token)) = (Units::from_str(alloc, pad), Units::from_str(alloc, token)) else {
        return Status { code: 7 };
    };
    match doors.connect(rt) {
        Ok(mut link) => status_of(write_to(rt, alloc, &mut link, source, sink, &pad, &token)),
        Err(LinkBad::Failed) => Status { code: 8 },
        Err(LinkBad::NoMemory) => Status { code: 7 },
    }
}
