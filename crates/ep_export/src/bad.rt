//! Why a history isn't exported.

use ep_units::NoMemory;
use std::alloc::AllocError;
use thiserror::Error;

/// Why a history isn't exported.
#[derive(Clone, Copy, Debug, Error, PartialEq, Eq)]
pub enum ExportBad {
    /// This revision is the first whose time is above 9,007,199,254,740,991.
    #[error("the time of revision {0} is too great")]
    Time(u64),
    #[error("out of memory")]
    NoMemory,
}

impl From<NoMemory> for ExportBad {
    ghost use Rattle.std.specs.Prelude.{◌≡◌};
    ghost use Rattle.ep_export.specs.declared.bad.ExportBad.TheVariants as bad;

    ghost from_gives = { λ _ e. e ≡ bad.NoMemory };

    fn from(_error: NoMemory) -> ExportBad {
        ExportBad::NoMemory
    }
}

impl From<AllocError> for ExportBad {
    ghost use Rattle.std.specs.Prelude.{◌≡◌};
    ghost use Rattle.ep_export.specs.declared.bad.ExportBad.TheVariants as bad;

    ghost from_gives = { λ _ e. e ≡ bad.NoMemory };

    fn from(_error: AllocError) -> ExportBad {
        ExportBad::NoMemory
    }
}
