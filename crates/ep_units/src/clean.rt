//! The cleaning of a new pad's text.

ghost use Rattle.std.specs.Prelude.{◌≡◌, true, ◌∷◌, ◌++◌, IfOk, OnOk};
ghost use Rattle.ep_units.specs.Clean.{clean, begins_with};
ghost use Rattle.ep_units.specs.Text.{is_well_formed};

use crate::no_memory::NoMemory;
use crate::units::Units;
use std::alloc::Global;

const TAB: u16 = 9;

const LF: u16 = 10;

const CR: u16 = 13;

const SPACE: u16 = 32;

const NO_BREAK_SPACE: u16 = 160;

impl Units {
    /// CR LF and CR become LF, a tab becomes eight spaces, and U+00A0 a space.
    pub fn clean(&self, alloc: Global) -> Result<Units, NoMemory>
        ensures clean { IfOk result (λ u. u ≡ clean self.now) }
        ensures well_formed { is_well_formed self.now ≡ true → IfOk result (λ u. is_well_formed u ≡ true) }
    {
        let units = self.as_slice();
        let mut cleaned = Units::new(alloc);
        for (at, unit) in units.iter().enumerate() {
            push_clean(*unit, &units[at + 1..], &mut cleaned)?;
        }
        Ok(cleaned)
    }
}

/// Appends what stands for a unit before the rest of its text.
fn push_clean(unit: u16, rest: &[u16], cleaned: &mut Units) -> Result<(), NoMemory>
    ensures { OnOk result (cleaned.new ++ clean rest.now ≡ cleaned.old ++ clean (unit ∷ rest.now)) }
{
    match unit {
        CR => {
            if begins_with_line_feed(rest) {
                Ok(())
            } else {
                cleaned.push(LF)
            }
        }
        TAB => cleaned.push_all(&[SPACE; 8]),
        NO_BREAK_SPACE => cleaned.push(SPACE),
        _ => cleaned.push(unit),
    }
}

fn begins_with_line_feed(units: &[u16]) -> bool
    ensures { result ≡ begins_with 10 units.now }
{
    match units {
        [unit, ..] => *unit == LF,
        [] => false,
    }
}
