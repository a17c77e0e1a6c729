//! Why a call isn't made.

use ep_cs::FitBad;
use ep_units::NoMemory;

/// Why a call isn't made.
#[derive(Clone, Copy, Debug, PartialEq, Eq)]
pub enum CalcBad {
    /// A change doesn't fit the document that it is for.
    Fit(FitBad),
    NoMemory,
}

impl From<NoMemory> for CalcBad {
    ghost use Rattle.std.specs.Prelude.{◌≡◌};
    ghost use Rattle.easysync.specs.declared.calc_bad.CalcBad.TheVariants as bad;

    ghost from_gives = { λ _ e. e ≡ bad.NoMemory };

    fn from(_error: NoMemory) -> CalcBad {
        CalcBad::NoMemory
    }
}

impl From<FitBad> for CalcBad {
    ghost use Rattle.std.specs.Prelude.{◌≡◌};
    ghost use Rattle.easysync.specs.declared.calc_bad.CalcBad.TheVariants as bad;

    ghost from_gives = { λ why e. e ≡ bad.Fit why };

    fn from(why: FitBad) -> CalcBad {
        CalcBad::Fit(why)
    }
}
