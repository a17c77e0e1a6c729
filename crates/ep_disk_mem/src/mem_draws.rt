//! Draws that are known beforehand.

ghost use Rattle.std.specs.Prelude.{◌≡◌};

use ep_outside::Draws;

/// Draws that give the numbers of a list one after the other, and then 0. A fork gives the same numbers
/// from there on.
#[derive(Clone, Copy)]
pub struct MemDraws<'a> {
    left: &'a [u64],
}

impl<'a> MemDraws<'a> {
    pub fn new(numbers: &'a [u64]) -> MemDraws<'a>
        ensures { result.left.now ≡ numbers.now }
    {
        MemDraws { left: numbers }
    }
}

impl<'a> Draws for MemDraws<'a> {
    ghost use Rattle.std.specs.Prelude.{Some};

    ghost to_come = { λ d. Some d.left.now };

    fn next(&mut self) -> u64 {
        match self.left.split_first() {
            Some((first, rest)) => {
                self.left = rest;
                *first
            }
            None => 0,
        }
    }

    fn fork(&mut self) -> MemDraws<'a> {
        MemDraws { left: self.left }
    }
}
