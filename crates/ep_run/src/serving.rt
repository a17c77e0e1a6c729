//! The server.

ghost use Rattle.std.specs.Prelude.{◌≡◌, ◌∷◌, [], true, Contains};
ghost use Rattle.ep_outside.specs.Outside.{HasRisen};
ghost use Rattle.ep_run.specs.Serving.{Serves, code_of};

use crate::status::Status;
use ep_doors::{Doors, Host, Served, Spawner, serve};
use ep_outside::Sink;
use std::sync::Wait;

// The status of a server that ended.
fn status_of(served: Served) -> Status
    ensures { result.code ≡ code_of served }
{
    match served {
        Served::Ended => Status { code: 0 },
        Served::DoorsFailed(_) => Status { code: 8 },
        Served::NotStarted(_) => Status { code: 9 },
        Served::NoMemory => Status { code: 7 },
    }
}

/// Says that callers may come, and gives each that comes to the doors a job by the host, until nobody comes any more.
pub fn serve_callers<R: Wait, K: Sink, N: Doors, G: Host<N::Pad, N::Api>, W: Spawner<G::Work>>(
    rt: &R,
    sink: &mut K,
    doors: &mut N,
    host: &mut G,
    spawner: &mut W,
) -> Status
    ensures serves { Serves result.code (K.held sink.old) (K.held sink.new) (N.count doors.old) (N.count doors.new) (W.count spawner.old) (W.count spawner.new) (N.is_over doors.new) (N.failures doors.old) (N.failures doors.new) (W.failures spawner.old) (W.failures spawner.new) }
    ensures known { Contains (0 ∷ 5 ∷ 7 ∷ 8 ∷ 9 ∷ []) result.code }
    ensures sink_fault { result.code ≡ 5 → HasRisen (K.failures sink.old) (K.failures sink.new) }
    ensures sink_sure { K.is_steady sink.old ≡ true → result.code ≡ 5 → ⊥ }
{
    if sink.write(b"ready\n").is_err() {
        return Status { code: 5 };
    }
    status_of(serve(rt, doors, host, spawner))
}
