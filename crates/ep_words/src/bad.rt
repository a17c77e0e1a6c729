//! Why words were not read.

use ep_units::NoMemory;
use std::alloc::AllocError;
use thiserror::Error;

/// Why words were not read.
#[derive(Clone, Copy, Debug, Error, PartialEq, Eq)]
pub enum WordsBad {
    #[error("the words ask for nothing")]
    Usage,
    #[error("out of memory")]
    NoMemory,
}

impl From<NoMemory> for WordsBad {
    ghost use Rattle.std.specs.Prelude.{◌≡◌};
    ghost use Rattle.ep_words.specs.declared.bad.WordsBad.TheVariants as bad;

    ghost from_gives = { λ _ e. e ≡ bad.NoMemory };

    fn from(_error: NoMemory) -> WordsBad {
        WordsBad::NoMemory
    }
}

impl From<AllocError> for WordsBad {
    ghost use Rattle.std.specs.Prelude.{◌≡◌};
    ghost use Rattle.ep_words.specs.declared.bad.WordsBad.TheVariants as bad;

    ghost from_gives = { λ _ e. e ≡ bad.NoMemory };

    fn from(_error: AllocError) -> WordsBad {
        WordsBad::NoMemory
    }
}
