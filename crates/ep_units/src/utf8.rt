//! Texts as UTF-8.

ghost use Rattle.std.specs.Prelude.{◌≡◌, ◌↔◌, ℕ, Some, None, IfOk, OnOk, IsErrOf};
ghost use Rattle.std.specs.String.{string_bytes};
ghost use Rattle.ep_units.specs.Halves.{first_lone};
ghost use Rattle.ep_units.specs.Utf8.{units_of, utf8_of};

use crate::halves::first_lone;
use crate::no_memory::NoMemory;
use crate::units::Units;
use std::alloc::{AllocError, Global};
use thiserror::Error;

/// Why a text has no UTF-8.
#[derive(Clone, Copy, Debug, Error, PartialEq, Eq)]
pub enum TextBad {
    /// The place, in units, of the first half of a pair that stands alone.
    #[error("half of a pair stands alone at unit {0}")]
    LonePair(u64),
    #[error("out of memory")]
    NoMemory,
}

impl From<NoMemory> for TextBad {
    ghost use Rattle.std.specs.Prelude.{◌≡◌};
    ghost use Rattle.ep_units.specs.declared.utf8.TextBad.TheVariants as bad;

    ghost from_gives = { λ _ e. e ≡ bad.NoMemory };

    fn from(_error: NoMemory) -> TextBad {
        TextBad::NoMemory
    }
}

impl From<AllocError> for TextBad {
    ghost use Rattle.std.specs.Prelude.{◌≡◌};
    ghost use Rattle.ep_units.specs.declared.utf8.TextBad.TheVariants as bad;

    ghost from_gives = { λ _ e. e ≡ bad.NoMemory };

    fn from(_error: AllocError) -> TextBad {
        TextBad::NoMemory
    }
}

impl Units {
    /// Refused before memory is asked for.
    pub fn to_text(&self, alloc: Global) -> Result<String, TextBad>
        ensures text { IfOk result (λ s. string_bytes s ≡ utf8_of self.now) }
        ensures back { IfOk result (λ s. units_of (string_bytes s) ≡ self.now) }
        ensures whole { OnOk result (first_lone self.now ≡ None) }
        ensures lone { (at : ℕ) → IsErrOf result (TextBad.LonePair at) ↔ (first_lone self.now ≡ Some at) }
    {
        let units = self.as_slice();
        if let Some(at) = first_lone(units) {
            return Err(TextBad::LonePair(at as u64));
        }
        Ok(String::from_utf16_lossy(alloc, units)?)
    }

    /// U+FFFD stands for each half that stands alone.
    pub fn to_text_lossy(&self, alloc: Global) -> Result<String, NoMemory>
        ensures { IfOk result (λ s. string_bytes s ≡ utf8_of self.now) }
    {
        Ok(String::from_utf16_lossy(alloc, self.as_slice())?)
    }
}
