//! Why a text is no message.

use crate::member::Member;
use ep_csread::ReadBad;
use ep_pool::PoolBad;
use ep_units::NoMemory;
use std::alloc::{AllocError, AllocFailed};
use thiserror::Error;

/// Why a text is no message: the first of these whose cause is there.
#[derive(Clone, Copy, Debug, Error, PartialEq, Eq)]
pub enum WireBad {
    /// It has so many bytes, which is above the limit.
    #[error("a message of {0} bytes")]
    TooBig(u64),
    #[error("no JSON")]
    NotJson,
    /// The first member of the message's row that is missing or wrong.
    #[error("member {0:?} is missing or wrong")]
    Shape(Member),
    #[error("{0}")]
    Pool(PoolBad),
    /// The first changeset that isn't read.
    #[error("{0}")]
    Changeset(ReadBad),
    #[error("out of memory")]
    NoMemory,
}

impl From<NoMemory> for WireBad {
    ghost use Rattle.std.specs.Prelude.{◌≡◌};
    ghost use Rattle.ep_wire_words.specs.declared.bad.WireBad.TheVariants as bad;

    ghost from_gives = { λ _ e. e ≡ bad.NoMemory };

    fn from(_error: NoMemory) -> WireBad {
        WireBad::NoMemory
    }
}

impl From<AllocError> for WireBad {
    ghost use Rattle.std.specs.Prelude.{◌≡◌};
    ghost use Rattle.ep_wire_words.specs.declared.bad.WireBad.TheVariants as bad;

    ghost from_gives = { λ _ e. e ≡ bad.NoMemory };

    fn from(_error: AllocError) -> WireBad {
        WireBad::NoMemory
    }
}

impl<T: Drop> From<AllocFailed<T>> for WireBad {
    ghost use Rattle.std.specs.Prelude.{◌≡◌};
    ghost use Rattle.ep_wire_words.specs.declared.bad.WireBad.TheVariants as bad;

    ghost from_gives = { λ _ e. e ≡ bad.NoMemory };

    fn from(_error: AllocFailed<T>) -> WireBad {
        WireBad::NoMemory
    }
}
