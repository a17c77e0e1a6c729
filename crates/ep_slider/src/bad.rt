//! Why nothing is slid.

use ep_units::NoMemory;
use thiserror::Error;

/// Why nothing is slid.
#[derive(Clone, Copy, Debug, Drop, Error, PartialEq, Eq)]
pub enum SlideBad {
    /// A step isn't of 1 to 100 changes.
    #[error("a step isn't of 1 to 100 revisions")]
    Granularity,
    #[error("out of memory")]
    NoMemory,
}

impl From<NoMemory> for SlideBad {
    ghost use Rattle.std.specs.Prelude.{◌≡◌};
    ghost use Rattle.ep_slider.specs.declared.bad.SlideBad.TheVariants as bad;

    ghost from_gives = { λ _ e. e ≡ bad.NoMemory };

    fn from(_error: NoMemory) -> SlideBad {
        SlideBad::NoMemory
    }
}
