//! Why bytes are no field of a record, or a value has no bytes.

ghost use Rattle.std.specs.Prelude.{◌≡◌};
ghost use Rattle.ep_fields.specs.declared.fault.Fault.TheVariants.{Memory};

use ep_units::NoMemory;
use std::alloc::{AllocError, AllocFailed};

/// Why a field was not read or not written.
#[derive(Clone, Copy, Debug)]
pub enum Fault {
    Memory,
    /// No record has such bytes, or the value has none.
    NoRecord,
}

impl From<NoMemory> for Fault {
    ghost from_gives = { λ _ e. e ≡ Memory };

    fn from(_error: NoMemory) -> Fault {
        Fault::Memory
    }
}

impl From<AllocError> for Fault {
    ghost from_gives = { λ _ e. e ≡ Memory };

    fn from(_error: AllocError) -> Fault {
        Fault::Memory
    }
}

impl<T: Drop> From<AllocFailed<T>> for Fault {
    ghost from_gives = { λ _ e. e ≡ Memory };

    fn from(_error: AllocFailed<T>) -> Fault {
        Fault::Memory
    }
}
