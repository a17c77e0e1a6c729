//! What is told of an edit that was taken.

ghost use Rattle.std.specs.Prelude.{◌≡◌, ◌+◌, ◌<◌, ◌^◌, IfOk};
ghost use Rattle.ep_cs.specs.Edit.{Edit};
ghost use Rattle.ep_history.specs.History.{head, head_doc};
ghost use Rattle.ep_history.specs.Pad.{PadState, newest};
ghost use Rattle.ep_history.specs.Readings.{commit};
ghost use Rattle.ep_step.specs.Taking.{taken_of};
ghost use Rattle.ep_step.specs.Telling.{told_by};

use crate::taking::Taken;
use ep_cs::Change;
use ep_units::NoMemory;
use std::alloc::Global;

/// What is told of an edit that was taken: its change of the head, and the revision that makes it. `fixed` says that the
/// newline's revision stands behind that, and `nop` that nothing was left of the edit, so that `rev` is the head still.
#[derive(Drop)]
pub struct Committed {
    pub rev: u64,
    pub fixed: bool,
    pub nop: bool,
    pub change: Change,
}

impl Taken {
    /// What is told of it, where the head was this revision.
    #[inline(always)]
    pub fn committed(&self, alloc: Global, last: u64) -> Result<Committed, NoMemory>
        requires { last + 1 < 2 ^ 64 }
        ensures { IfOk result (λ told. (pad : PadState) (e : Edit) → last ≡ head (newest pad) → self.now ≡ taken_of e (head_doc (newest pad))
            → told_by told ≡ commit pad e) }
    {
        match self {
            Taken::Nop(change) => Ok(Committed {
                rev: last,
                fixed: false,
                nop: true,
                change: change.copy(alloc)?,
            }),
            Taken::Step(step) => Ok(Committed {
                rev: last + 1,
                fixed: step.fixed(),
                nop: false,
                change: step.edit.change.copy(alloc)?,
            }),
        }
    }
}
