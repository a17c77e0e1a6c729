//! Halves of pairs that stand alone.

ghost use Rattle.std.specs.Prelude.{◌≡◌, not, ◌&&◌, ◌||◌};
ghost use Rattle.ep_units.specs.Text.{is_high, is_low, is_well_formed};
ghost use Rattle.ep_units.specs.Halves.{begins_low, first_lone};

use crate::units::Units;

impl Units {
    /// Whether no half of a pair stands alone.
    #[tactic(auto, using(crate::proofs::Lone::alone_nowhere))]
    pub fn well_formed(&self) -> bool
        ensures { result ≡ is_well_formed self.now }
    {
        first_lone(self.as_slice()).is_none()
    }
}

/// The place of the first half that stands alone.
#[tactic(auto, using(crate::proofs::Lone::lone_from_more))]
pub(crate) fn first_lone(units: &[u16]) -> Option<usize>
    ensures { result ≡ first_lone units.now }
{
    let mut paired = false;
    for (at, unit) in units.iter().enumerate() {
        if stands_alone(paired, *unit, &units[at + 1..]) {
            return Some(at);
        }
        paired = is_high(*unit);
    }
    None
}

fn stands_alone(paired: bool, unit: u16, rest: &[u16]) -> bool
    ensures { result ≡ ((is_low unit && not paired) || (is_high unit && not (begins_low rest.now))) }
{
    (is_low(unit) && !paired) || (is_high(unit) && !begins_low(rest))
}

fn begins_low(units: &[u16]) -> bool
    ensures { result ≡ begins_low units.now }
{
    match units {
        [unit, ..] => is_low(*unit),
        [] => false,
    }
}

/// Whether the unit is the first half of a pair.
pub fn is_high(unit: u16) -> bool
    ensures { result ≡ is_high unit }
{
    0xD800 <= unit && unit < 0xDC00
}

fn is_low(unit: u16) -> bool
    ensures { result ≡ is_low unit }
{
    0xDC00 <= unit && unit < 0xE000
}
