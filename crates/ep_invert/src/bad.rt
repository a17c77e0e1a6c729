//! Why a stretch of a document isn't changed.

use ep_units::NoMemory;
use thiserror::Error;

/// Why a stretch isn't changed: the first of these whose cause is there.
#[derive(Clone, Copy, Debug, Drop, Error, PartialEq, Eq)]
pub enum SpliceBad {
    /// The stretch goes past the end of the document.
    #[error("the stretch goes past the end")]
    Place,
    /// A pair is cut whose second half stands at this place.
    #[error("the pair at {0} is cut")]
    CutsPair(u64),
    /// Memory is wanting.
    #[error("out of memory")]
    NoMemory,
}

impl From<NoMemory> for SpliceBad {
    ghost use Rattle.std.specs.Prelude.{◌≡◌};
    ghost use Rattle.ep_invert.specs.declared.bad.SpliceBad.TheVariants as bad;

    ghost from_gives = { λ _ e. e ≡ bad.NoMemory };

    fn from(_error: NoMemory) -> SpliceBad {
        SpliceBad::NoMemory
    }
}
