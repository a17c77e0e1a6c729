//! Why a text is no changeset.

use ep_units::NoMemory;
use thiserror::Error;

/// Why a text could not be read: the first of these whose cause is there.
///
/// Places count units from 0, operations count from 0 as they are written.
#[derive(Clone, Copy, Debug, Error, PartialEq, Eq)]
pub enum ReadBad {
    /// No changeset text begins with the units up to and with this one.
    #[error("no changeset text at unit {0}")]
    Syntax(u64),
    /// The number there is above 4,294,967,295.
    #[error("the number at unit {0} is too large")]
    Number(u64),
    /// The pool has no such number.
    #[error("no attribute {0}")]
    NoAttr(u64),
    /// The operations insert so many units, or more than a `u64` holds, and the bank has so many.
    #[error("{0} units are inserted, and {1} are there")]
    Bank(u64, u64),
    /// The newlines of this operation are others, or not at its end.
    #[error("wrong newlines in operation {0}")]
    Lines(u64),
    /// More is kept and dropped than there is, or the new length is another or above 4,294,967,295.
    #[error("wrong lengths")]
    Length,
    /// This unit of the bank is half of a pair that is cut.
    #[error("unit {0} of the bank is half of a pair that is cut")]
    Pair(u64),
    #[error("out of memory")]
    NoMemory,
}

impl From<NoMemory> for ReadBad {
    ghost use Rattle.std.specs.Prelude.{◌≡◌};
    ghost use Rattle.ep_csread.specs.declared.bad.ReadBad.TheVariants as bad;

    ghost from_gives = { λ _ e. e ≡ bad.NoMemory };

    fn from(_error: NoMemory) -> ReadBad {
        ReadBad::NoMemory
    }
}
