//! The loop that gives each caller a job.

ghost use Rattle.std.specs.Prelude.{◌≡◌, ◌≤◌, IfErr, OnOk, OnErr};
ghost use Rattle.ep_outside.specs.Outside.{risen};
ghost use Rattle.ep_doors.specs.Serving.{HasEnded, IsNotStarted, Keeps, KeepsPace};

use crate::came::Came;
use crate::doors::Doors;
use crate::spawner::{Job, Spawner};
use ep_units::NoMemory;
use std::sync::Wait;

/// Makes the job of each caller.
pub trait Host<P, A> {
    type Work: Job + Drop;

    fn pad(&mut self, link: P) -> Result<Self::Work, NoMemory>;

    fn api(&mut self, caller: A) -> Result<Self::Work, NoMemory>;
}

/// Why serving ended. Counts are of faults.
#[derive(Clone, Copy, Debug, PartialEq, Eq)]
pub enum Served {
    /// Nobody comes any more.
    Ended,
    DoorsFailed(u64),
    NotStarted(u64),
    NoMemory,
}

// Starts a job, where there was memory for it.
fn start<R: Wait, J: Job + Drop, W: Spawner<J>>(
    rt: &R,
    spawner: &mut W,
    job: Result<J, NoMemory>,
) -> Result<(), Served>
    ensures ok { OnOk result (W.count spawner.new ≡ risen (W.count spawner.old)) }
    ensures err { OnErr result (W.count spawner.new ≡ W.count spawner.old) }
    ensures later { W.failures spawner.old ≤ W.failures spawner.new }
    ensures ended { IfErr result (IsNotStarted (W.failures spawner.old) (W.failures spawner.new)) }
{
    let Ok(job) = job else {
        return Err(Served::NoMemory);
    };
    match spawner.start(rt, job) {
        Ok(()) => Ok(()),
        Err(_) => Err(Served::NotStarted(spawner.faults())),
    }
}

// Waits for a caller, and starts its job where one comes.
fn serve_one<R: Wait, N: Doors, H: Host<N::Pad, N::Api>, W: Spawner<H::Work>>(
    rt: &R,
    doors: &mut N,
    host: &mut H,
    spawner: &mut W,
) -> Result<(), Served>
    ensures ok { OnOk result (Keeps 0 (N.count doors.old) (N.count doors.new) (W.count spawner.old) (W.count spawner.new)) }
    ensures err { IfErr result (λ s. KeepsPace s (N.count doors.old) (N.count doors.new) (W.count spawner.old) (W.count spawner.new)) }
    ensures ended { IfErr result (λ s. HasEnded s (N.is_over doors.new) (N.failures doors.old) (N.failures doors.new) (W.failures spawner.old) (W.failures spawner.new)) }
    ensures counts { (N.count doors.old ≤ N.count doors.new) × (W.count spawner.old ≤ W.count spawner.new) }
    ensures later { (N.failures doors.old ≤ N.failures doors.new) × (W.failures spawner.old ≤ W.failures spawner.new) }
{
    let job = match doors.accept(rt) {
        Came::Pad(link) => host.pad(link),
        Came::Api(caller) => host.api(caller),
        Came::Nothing => return Ok(()),
        Came::End => return Err(Served::Ended),
        Came::Failed => return Err(Served::DoorsFailed(doors.faults())),
        Came::NoMemory => return Err(Served::NoMemory),
    };
    start(rt, spawner, job)
}

/// Gives each caller a job, until nobody comes any more, the doors fail, a job can't be started, or memory runs out.
pub fn serve<R: Wait, N: Doors, H: Host<N::Pad, N::Api>, W: Spawner<H::Work>>(
    rt: &R,
    doors: &mut N,
    host: &mut H,
    spawner: &mut W,
) -> Served
    ensures jobs { KeepsPace result (N.count doors.old) (N.count doors.new) (W.count spawner.old) (W.count spawner.new) }
    ensures ended { HasEnded result (N.is_over doors.new) (N.failures doors.old) (N.failures doors.new) (W.failures spawner.old) (W.failures spawner.new) }
    ensures later { (N.failures doors.old ≤ N.failures doors.new) × (W.failures spawner.old ≤ W.failures spawner.new) }
{
    for _ in rt.forever() {
        if let Err(served) = serve_one(rt, doors, host, spawner) {
            return served;
        }
    }
    unreachable!()
}
