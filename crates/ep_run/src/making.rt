//! A schedule drawn from a number.

ghost use Rattle.std.specs.Prelude.{◌≡◌, ◌≢◌, ◌≤◌, ◌∷◌, [], true, Contains};
ghost use Rattle.ep_outside.specs.Outside.{HasRisen};
ghost use Rattle.ep_run.specs.Making.{MakesLines, code_of};

use crate::status::Status;
use ep_make::{MakeBad, make};
use ep_outside::Sink;
use std::alloc::Global;

// The status of an answer.
fn status_of(answer: Result<(), MakeBad>) -> Status
    ensures { result.code ≡ code_of answer }
{
    match answer {
        Ok(()) => Status { code: 0 },
        Err(MakeBad::SinkFault) => Status { code: 5 },
        Err(MakeBad::Failed) => Status { code: 7 },
    }
}

/// Plays the schedule of a number, and writes its five lines. Status 7 may come at any time.
pub fn make_to<K: Sink>(
    alloc: Global,
    sink: &mut K,
    number: u64,
    clients: u32,
    edits: u32,
) -> Status
    requires { (1 ≤ clients) × (clients ≤ 64) × (edits ≤ 100000) }
    ensures makes { MakesLines K.held number clients edits sink.old sink.new result.code }
    ensures known { Contains (0 ∷ 5 ∷ 7 ∷ []) result.code }
    ensures sink_fault { result.code ≡ 5 → HasRisen (K.failures sink.old) (K.failures sink.new) }
    ensures sink_sure { K.is_steady sink.old ≡ true → result.code ≢ 5 }
{
    status_of(make(alloc, sink, number, clients, edits))
}
