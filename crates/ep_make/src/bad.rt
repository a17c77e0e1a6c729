//! Why a schedule isn't made.

use ep_outside::Failed;
use ep_units::NoMemory;
use ep_world::WorldBad;
use std::alloc::AllocError;
use thiserror::Error;

/// Why a schedule isn't made.
#[derive(Clone, Copy, Debug, Error, PartialEq, Eq)]
pub enum MakeBad {
    #[error("the sink failed")]
    SinkFault,
    /// Memory is wanting, or the world can't go on.
    #[error("out of memory")]
    Failed,
}

impl From<Failed> for MakeBad {
    ghost use Rattle.std.specs.Prelude.{◌≡◌};
    ghost use Rattle.ep_make.specs.declared.bad.MakeBad.TheVariants as bad;

    ghost from_gives = { λ _ e. e ≡ bad.SinkFault };

    fn from(_error: Failed) -> MakeBad {
        MakeBad::SinkFault
    }
}

impl From<Stopped> for MakeBad {
    ghost use Rattle.std.specs.Prelude.{◌≡◌};
    ghost use Rattle.ep_make.specs.declared.bad.MakeBad.TheVariants as bad;

    ghost from_gives = { λ _ e. e ≡ bad.Failed };

    fn from(_error: Stopped) -> MakeBad {
        MakeBad::Failed
    }
}

/// A schedule can't be played on: memory is wanting, or the world can't go on.
#[derive(Clone, Copy, Debug, PartialEq, Eq)]
pub(crate) struct Stopped;

impl From<AllocError> for Stopped {
    fn from(_error: AllocError) -> Stopped {
        Stopped
    }
}

impl From<NoMemory> for Stopped {
    fn from(_error: NoMemory) -> Stopped {
        Stopped
    }
}

impl From<WorldBad> for Stopped {
    fn from(_error: WorldBad) -> Stopped {
        Stopped
    }
}
