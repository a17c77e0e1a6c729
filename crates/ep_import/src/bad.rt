//! Why a text isn't imported.

use crate::place::Place;
use ep_units::NoMemory;
use std::alloc::{AllocError, AllocFailed};
use thiserror::Error;

/// Why a text isn't imported: the first of these whose cause is there.
#[derive(Clone, Copy, Debug, Error, PartialEq, Eq)]
pub enum ImportBad {
    /// It has so many bytes, which is above the limit.
    #[error("a text of {0} bytes")]
    TooBig(u64),
    #[error("no JSON")]
    NotJson,
    /// The first member that is missing or wrong.
    #[error("member {0:?} is missing or wrong")]
    Shape(Place),
    /// The first revision that can't stand there.
    #[error("revision {0} can't stand there")]
    Revision(u64),
    /// The attributed text isn't that of the last revision.
    #[error("the revisions lead to another text")]
    Replay,
    #[error("out of memory")]
    NoMemory,
}

impl From<NoMemory> for ImportBad {
    ghost use Rattle.std.specs.Prelude.{◌≡◌};
    ghost use Rattle.ep_import.specs.declared.bad.ImportBad.TheVariants as bad;

    ghost from_gives = { λ _ e. e ≡ bad.NoMemory };

    fn from(_error: NoMemory) -> ImportBad {
        ImportBad::NoMemory
    }
}

impl From<AllocError> for ImportBad {
    ghost use Rattle.std.specs.Prelude.{◌≡◌};
    ghost use Rattle.ep_import.specs.declared.bad.ImportBad.TheVariants as bad;

    ghost from_gives = { λ _ e. e ≡ bad.NoMemory };

    fn from(_error: AllocError) -> ImportBad {
        ImportBad::NoMemory
    }
}

impl<T: Drop> From<AllocFailed<T>> for ImportBad {
    ghost use Rattle.std.specs.Prelude.{◌≡◌};
    ghost use Rattle.ep_import.specs.declared.bad.ImportBad.TheVariants as bad;

    ghost from_gives = { λ _ e. e ≡ bad.NoMemory };

    fn from(_error: AllocFailed<T>) -> ImportBad {
        ImportBad::NoMemory
    }
}
