//! Units of a text in blocks, passed from its first unit to its last.

ghost use Rattle.std.specs.Prelude.{◌≡◌, ◌≤◌, length, take, drop};
ghost use Rattle.ep_block_parts.specs.Seen.{Sees, ends_high};

use ep_block_nodes::Ahead;
use ep_block_parts::{Seen, ends_high};
use std::marker::Model;

/// What is left of a text: of the block that is begun, and what is behind it.
#[derive(Drop)]
pub struct Passing<'a> {
    pub(crate) here: &'a [u16],
    pub(crate) ahead: Ahead<'a>,
}

impl<'a> Model for Passing<'a> {
    ghost use Rattle.std.specs.Prelude.{List, ℕ};

    ghost Value = { List ℕ };

    ghost use Rattle.ep_blocks.specs.Inside.{text_left};

    ghost view = { text_left };
}

/// Passes the first units of a text, at most so many.
fn pass_front(text: &mut &[u16], most: u32) -> Seen
    ensures seen { Sees result (take result.units text.old.now) }
    ensures rest { text.new.now ≡ drop result.units text.old.now }
    ensures most { result.units ≤ most }
    ensures some { 1 ≤ length text.old.now → 1 ≤ most → 1 ≤ result.units }
{
    let (front, later) = text.split_at(text.len().min(most as usize));
    *text = later;
    Seen::of(front)
}

impl<'a> Passing<'a> {
    /// Passes what is next, of at most so many units.
    fn pass_piece(&mut self, most: u32) -> Seen
        requires some { 1 ≤ most }
        requires inside { most ≤ length self.old }
        ensures units { (1 ≤ result.units) × (result.units ≤ most) }
        ensures seen { Sees result (take result.units self.old) }
        ensures rest { self.new ≡ drop result.units self.old }
    {
        if !self.here.is_empty() {
            return pass_front(&mut self.here, most);
        }
        let seen = self.ahead.pass(most);
        if seen.units == most {
            return seen;
        }
        match self.ahead.take() {
            None => seen,
            Some(block) => {
                self.here = block.text();
                seen.then(pass_front(&mut self.here, most - seen.units))
            }
        }
    }

    /// Passes so many units.
    #[inline(always)]
    pub fn pass(&mut self, units: u32) -> Seen
        requires { units ≤ length self.old }
        ensures seen { Sees result (take units self.old) }
        ensures rest { self.new ≡ drop units self.old }
    {
        let mut seen = Seen::nothing();
        'pieces: while seen.units < units {
            seen = seen.then(self.pass_piece(units - seen.units));
        }
        seen
    }

    /// Whether what is left ends in the first half of a pair.
    pub fn ends_high(&self) -> bool
        ensures { result ≡ ends_high self.now }
    {
        match self.ahead.ends_high() {
            None => ends_high(self.here),
            Some(high) => high,
        }
    }
}
