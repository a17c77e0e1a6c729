//! Where a text could not be read.

ghost use Rattle.std.specs.Prelude.{◌≡◌};
ghost use Rattle.ep_csread.specs.declared.fault.Fault.TheVariants.{Memory};
ghost use Rattle.ep_csread.specs.Views.{fault_at};

use crate::bad::ReadBad;
use std::alloc::{AllocError, AllocFailed};

/// Why the syntax of a text could not be read.
#[derive(Clone, Copy, Debug, Drop)]
pub enum Fault {
    Memory,
    /// What stands there can't go on a text of this form. So many units stand from it on.
    Syntax(usize),
}

impl Fault {
    /// The refusal of a text of so many units.
    pub fn at(self, len: usize) -> ReadBad
        ensures { result ≡ fault_at self len }
    {
        match self {
            Fault::Memory => ReadBad::NoMemory,
            Fault::Syntax(left) => ReadBad::Syntax(len.saturating_sub(left) as u64),
        }
    }
}

impl From<AllocError> for Fault {
    ghost from_gives = { λ _ e. e ≡ Memory };

    fn from(_e: AllocError) -> Fault {
        Fault::Memory
    }
}

impl<T: Drop> From<AllocFailed<T>> for Fault {
    ghost from_gives = { λ _ e. e ≡ Memory };

    fn from(_e: AllocFailed<T>) -> Fault {
        Fault::Memory
    }
}
