//! Blocks of a text.

ghost use Rattle.std.specs.Prelude.{◌≡◌, ◌≤◌, ◌<◌, ◌^◌, ◌+◌, ◌++◌, length, take, drop};
ghost use Rattle.ep_cs.specs.Doc.{text_of};
ghost use Rattle.ep_block_parts.specs.Seen.{Sees};

use crate::node::Node;
use crate::splice::Splice;
use ep_block_parts::{Parts, Seen, Within};
use ep_units::NoMemory;
use std::alloc::Global;
use std::marker::Model;

/// How many units a block has at most.
pub const MOST_UNITS: usize = 512;

/// A block with fewer units is written anew, so that it may be joined with others.
const FEWEST: usize = 128;

/// Some of a document, which isn't empty, and what is seen of its text.
pub struct Block {
    seen: Seen,
    parts: Parts,
}

impl Drop for Block {
    fn drop(self) {
        let Block { seen: _, parts: _ } = self;
    }
}

impl Model for Block {
    ghost use Rattle.std.specs.Prelude.{List};
    ghost use Rattle.std.specs.Coded.{coded_list};
    ghost use Rattle.ep_cs.specs.Doc.{Cell};
    ghost use Rattle.ep_cs.specs.Codes.{coded_cell};

    ghost Value = { List Cell };

    ghost coded = { coded_list coded_cell };

    ghost use Rattle.ep_block_nodes.specs.Inside.{IsBlock};

    ghost view = { λ b. b.parts };

    ghost invariant = { IsBlock };
}

impl Block {
    pub fn new(parts: Parts) -> Block
        requires { 1 ≤ length parts }
        ensures { result ≡ parts }
    {
        let seen = Seen::of(parts.text());
        Block { seen, parts }
    }

    pub fn text(&self) -> &[u16]
        ensures text { result.now ≡ text_of self.now }
        ensures some { 1 ≤ length result.now }
    {
        self.parts.text()
    }

    /// All of it, to be read.
    pub fn within(&self) -> Within<'_>
        ensures all { result ≡ self.now }
        ensures some { 1 ≤ length self.now }
    {
        self.parts.within()
    }

    /// What is seen of the text after a splice.
    fn seen_spliced(&self, splice: Splice<'_>, text: &[u16]) -> Seen
        requires inside { splice.at + splice.dropped ≤ length self.now }
        requires short { length self.now + length splice.new.text.now < 2 ^ 32 }
        requires text { text.now ≡ take splice.at (text_of self.now) ++ (splice.new.text.now ++ drop (splice.at + splice.dropped) (text_of self.now)) }
        ensures { Sees result text.now }
    {
        let (_, rest) = self.text().split_at(splice.at as usize);
        let (dropped, behind) = rest.split_at(splice.dropped as usize);
        match self
            .seen
            .spliced(dropped, splice.new.text, behind.len() as u32)
        {
            Some(seen) => seen,
            None => Seen::of(text),
        }
    }
}

impl Node for Block {
    ghost use Rattle.std.specs.Prelude.{List};
    ghost use Rattle.ep_cs.specs.Doc.{Cell};

    ghost cells = { λ b. b };

    fn seen(&self) -> Seen {
        self.seen
    }

    fn spliced(&self, alloc: Global, splice: Splice<'_>) -> Result<Option<Block>, NoMemory> {
        let left = self.seen.units - splice.dropped;
        let units = left as usize + splice.new.text.len();
        if units < FEWEST || MOST_UNITS < units {
            return Ok(None);
        }
        let parts = self
            .parts
            .spliced(alloc, splice.at, splice.dropped, splice.new)?;
        let seen = self.seen_spliced(splice, parts.text());
        Ok(Some(Block { seen, parts }))
    }
}
