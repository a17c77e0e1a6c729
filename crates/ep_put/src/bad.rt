//! Why a history isn't put.

use ep_units::NoMemory;
use std::alloc::{AllocError, AllocFailed};
use thiserror::Error;

/// Why a history isn't put into a file: the first of these whose cause is there.
#[derive(Clone, Copy, Debug, Error, PartialEq, Eq)]
pub enum PutBad {
    /// The file holds a record.
    #[error("the file holds a record")]
    Exists,
    /// The first document past the limit has so many units.
    #[error("a text of {0} units")]
    TooLong(u64),
    /// A record would have so many bytes, or the file.
    #[error("the file would have {0} bytes")]
    Full(u64),
    /// The disk failed: its count of faults is this now.
    #[error("the disk failed: {0} faults")]
    Disk(u64),
    #[error("out of memory")]
    NoMemory,
}

impl From<NoMemory> for PutBad {
    ghost use Rattle.std.specs.Prelude.{◌≡◌};
    ghost use Rattle.ep_put.specs.declared.bad.PutBad.TheVariants as bad;

    ghost from_gives = { λ _ e. e ≡ bad.NoMemory };

    fn from(_error: NoMemory) -> PutBad {
        PutBad::NoMemory
    }
}

impl From<AllocError> for PutBad {
    ghost use Rattle.std.specs.Prelude.{◌≡◌};
    ghost use Rattle.ep_put.specs.declared.bad.PutBad.TheVariants as bad;

    ghost from_gives = { λ _ e. e ≡ bad.NoMemory };

    fn from(_error: AllocError) -> PutBad {
        PutBad::NoMemory
    }
}

impl<T: Drop> From<AllocFailed<T>> for PutBad {
    ghost use Rattle.std.specs.Prelude.{◌≡◌};
    ghost use Rattle.ep_put.specs.declared.bad.PutBad.TheVariants as bad;

    ghost from_gives = { λ _ e. e ≡ bad.NoMemory };

    fn from(_error: AllocFailed<T>) -> PutBad {
        PutBad::NoMemory
    }
}
