//! The files of a shelf, judged.

ghost use Rattle.std.specs.Prelude.{◌≡◌, ◌≢◌, ◌≤◌, ◌⊎◌, ◌∷◌, [], true, Contains};
ghost use Rattle.ep_outside.specs.Outside.{HasRisen};
ghost use Rattle.ep_run.specs.Judged.{FailsBy, Judges, code_of};

use crate::status::Status;
use ep_outside::{Shelf, Sink};
use ep_verdicts::{Found, VerdictsBad};
use std::alloc::Global;
use std::thread::Threads;

// The status of an answer.
fn status<D: Drop>(answer: Result<Found, VerdictsBad<D>>) -> Status
    ensures { result.code ≡ code_of answer }
{
    match answer {
        Ok(Found::Sound) => Status { code: 0 },
        Ok(Found::Broken) => Status { code: 1 },
        Err(VerdictsBad::Sink) => Status { code: 5 },
        Err(VerdictsBad::Shelf(_)) => Status { code: 6 },
        Err(VerdictsBad::Disk(_)) => Status { code: 6 },
        Err(VerdictsBad::NoMemory) => Status { code: 7 },
    }
}

/// Judges the files of a shelf, and writes a line a pad. Status 7 may come at any time.
pub fn verify_to<R: Threads, H: Shelf, K: Sink>(
    rt: &R,
    alloc: Global,
    shelf: &mut H,
    sink: &mut K,
    workers: u32,
) -> Status
    requires { (1 ≤ workers) × (workers ≤ 64) }
    // What is written.
    ensures judges { Judges (H.names shelf.old) (H.told shelf.old) K.held sink.old sink.new result.code }

    // Each fault has its cause.
    ensures sink_fault { result.code ≡ 5 → HasRisen (K.failures sink.old) (K.failures sink.new) }
    ensures shelf_fault { result.code ≡ 6 → HasRisen (H.failures shelf.old) (H.failures shelf.new)
        ⊎ FailsBy H.D.told H.D.failures (H.told shelf.old) }
    ensures known { Contains (0 ∷ 1 ∷ 5 ∷ 6 ∷ 7 ∷ []) result.code }
    ensures shelf_sure { H.is_steady shelf.old ≡ true → result.code ≢ 6 }
    ensures sink_sure { K.is_steady sink.old ≡ true → result.code ≢ 5 }
    ensures names { H.names shelf.new ≡ H.names shelf.old }
    ensures sink_steady { K.is_steady sink.new ≡ K.is_steady sink.old }
{
    status(ep_verdicts::verify_to(rt, alloc, shelf, sink, workers))
}
