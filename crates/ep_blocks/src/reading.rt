//! A text in blocks that is read from its first unit to its last.

ghost use Rattle.std.specs.Prelude.{◌≡◌, ◌≤◌, ◌<◌, ◌^◌, ◌+◌, ◌++◌, [], length, take, drop, MatchOption, IfOk};
ghost use Rattle.std.specs.Arc.{arc_value};
ghost use Rattle.ep_cs.specs.Runs.{cells};
ghost use Rattle.ep_block_nodes.specs.Blocks.{all_cells};

use crate::writer::Writer;
use ep_block_nodes::{Ahead, Block, Front, Group, Page};
use ep_block_parts::{Stretch, Within};
use ep_units::NoMemory;
use std::marker::Model;
use std::sync::Arc;

/// What is left of a document: of the block that is begun, and what is behind it.
#[derive(Drop)]
pub struct Reading<'a> {
    pub(crate) here: Within<'a>,
    pub(crate) ahead: Ahead<'a>,
}

impl<'a> Model for Reading<'a> {
    ghost use Rattle.std.specs.Prelude.{List};
    ghost use Rattle.std.specs.Coded.{coded_list};
    ghost use Rattle.ep_cs.specs.Doc.{Cell};
    ghost use Rattle.ep_cs.specs.Codes.{coded_cell};

    ghost Value = { List Cell };

    ghost coded = { coded_list coded_cell };

    ghost use Rattle.ep_blocks.specs.Inside.{read_of};

    ghost view = { read_of };
}

impl<'a> Reading<'a> {
    /// Takes the next stretch of one map, of at most so many units.
    pub fn take(&mut self, most: u32) -> Option<Stretch<'a>>
        requires { 1 ≤ most }
        ensures { MatchOption result ((self.old ≡ []) × (self.new ≡ []))
            (λ s. (self.old ≡ cells s.attrs.now s.text.now ++ self.new) × (1 ≤ length s.text.now) × (length s.text.now ≤ most)) }
    {
        if let Some(stretch) = self.here.take(most) {
            return Some(stretch);
        }
        self.here = self.ahead.take()?.within();
        self.here.take(most)
    }

    /// Moves what is left of the block that is begun, at most so many units, and answers how many.
    pub(crate) fn give(&mut self, out: &mut Writer, most: u32) -> Result<u32, NoMemory>
        requires { length out.old + most < 2 ^ 32 }
        ensures units { IfOk result (λ n. n ≤ most) }
        ensures done { IfOk result (λ n. out.new ≡ out.old ++ take n self.old) }
        ensures rest { IfOk result (λ n. self.new ≡ drop n self.old) }
    {
        if self.here.is_over() {
            return Ok(0);
        }
        out.take_from(&mut self.here, most)
    }

    /// Begins the next block, where none is begun, moves at most so many units of it, and answers how many.
    pub(crate) fn give_next(&mut self, out: &mut Writer, most: u32) -> Result<u32, NoMemory>
        requires some { 1 ≤ most }
        requires inside { most ≤ length self.old }
        requires short { length out.old + most < 2 ^ 32 }
        ensures units { IfOk result (λ n. (1 ≤ n) × (n ≤ most)) }
        ensures done { IfOk result (λ n. out.new ≡ out.old ++ take n self.old) }
        ensures rest { IfOk result (λ n. self.new ≡ drop n self.old) }
    {
        if self.here.is_over() {
            match self.ahead.take() {
                None => return Ok(most),
                Some(block) => self.here = block.within(),
            }
        }
        out.take_from(&mut self.here, most)
    }

    /// Takes the next pages, where no block, no group and no page is begun: as many as have at most so many units.
    pub(crate) fn take_pages(&mut self, most: u32) -> Front<'a, Page>
        ensures taken { self.old ≡ all_cells result.items.now ++ self.new }
        ensures units { result.units ≡ length (all_cells result.items.now) }
        ensures most { result.units ≤ most }
    {
        if !self.here.is_over() {
            return Front::none();
        }
        self.ahead.take_pages(most)
    }

    /// Takes the next groups of one page, where no block and no group is begun: as many as have at most so many units.
    pub(crate) fn take_groups(&mut self, most: u32) -> Front<'a, Group>
        ensures taken { self.old ≡ all_cells result.items.now ++ self.new }
        ensures units { result.units ≡ length (all_cells result.items.now) }
        ensures most { result.units ≤ most }
    {
        if !self.here.is_over() {
            return Front::none();
        }
        self.ahead.take_groups(most)
    }

    /// Takes the next blocks of one group, where no block is begun: as many as have at most so many units.
    pub(crate) fn take_blocks(&mut self, most: u32) -> Front<'a, Block>
        ensures taken { self.old ≡ all_cells result.items.now ++ self.new }
        ensures units { result.units ≡ length (all_cells result.items.now) }
        ensures most { result.units ≤ most }
    {
        if !self.here.is_over() {
            return Front::none();
        }
        self.ahead.take_blocks(most)
    }

    /// Takes what is next, of at most so many units, and answers how many these are.
    fn skip_piece(&mut self, most: u32) -> u32
        requires some { 1 ≤ most }
        requires inside { most ≤ length self.old }
        ensures units { (1 ≤ result) × (result ≤ most) }
        ensures rest { self.new ≡ drop result self.old }
    {
        if self.here.is_over() {
            let seen = self.ahead.pass(most);
            if seen.units > 0 {
                return seen.units;
            }
        }
        match self.take(most) {
            None => most,
            Some(stretch) => stretch.text.len() as u32,
        }
    }

    /// Leaves out so many units.
    pub fn skip(&mut self, units: u32)
        requires { units ≤ length self.old }
        ensures { self.new ≡ drop units self.old }
    {
        let mut left = units;
        'pieces: while left > 0 {
            left -= self.skip_piece(left);
        }
    }
}
