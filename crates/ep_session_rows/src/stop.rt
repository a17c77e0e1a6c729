//! Why a request has no reply of its own.

use ep_csread::ReadBad;
use ep_pool::PoolBad;
use ep_units::NoMemory;
use std::alloc::{AllocError, AllocFailed};

#[derive(Clone, Copy, Debug, PartialEq, Eq)]
pub enum Stop {
    /// The request isn't one.
    Wrong,
    NoMemory,
}

impl From<NoMemory> for Stop {
    fn from(_error: NoMemory) -> Stop {
        Stop::NoMemory
    }
}

impl From<AllocError> for Stop {
    fn from(_error: AllocError) -> Stop {
        Stop::NoMemory
    }
}

impl<T: Drop> From<AllocFailed<T>> for Stop {
    fn from(_error: AllocFailed<T>) -> Stop {
        Stop::NoMemory
    }
}

impl From<PoolBad> for Stop {
    fn from(_error: PoolBad) -> Stop {
        Stop::Wrong
    }
}

impl From<ReadBad> for Stop {
    fn from(_error: ReadBad) -> Stop {
        Stop::Wrong
    }
}
