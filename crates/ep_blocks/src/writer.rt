//! A text in blocks that is written from its first unit to its last.

ghost use Rattle.std.specs.Prelude.{◌≡◌, ◌≤◌, ◌<◌, ◌^◌, ◌+◌, ◌++◌, [], length, min, take, drop, OnOk, IfOk};
ghost use Rattle.std.specs.Arc.{arc_value};
ghost use Rattle.ep_cs.specs.Runs.{cells};
ghost use Rattle.ep_block_nodes.specs.Blocks.{all_cells};

use crate::body::Body;
use ep_attr::AttrMap;
use ep_block_nodes::{Block, Group, MOST_UNITS, Node, Page, Pile};
use ep_block_parts::{Parts, Within};
use ep_units::NoMemory;
use std::alloc::Global;
use std::marker::Model;
use std::mem;
use std::sync::Arc;

/// In how large parts a text is put that is too long for a block, so that it may still grow.
const PART: usize = 384;

/// Blocks that are written, and one that is open.
pub struct Writer {
    alloc: Global,
    pile: Pile,
    open: Parts,
}

impl Drop for Writer {
    fn drop(self) {
        let Writer {
            alloc: _,
            pile: _,
            open: _,
        } = self;
    }
}

impl Model for Writer {
    ghost use Rattle.std.specs.Prelude.{List};
    ghost use Rattle.std.specs.Coded.{coded_list};
    ghost use Rattle.ep_cs.specs.Doc.{Cell};
    ghost use Rattle.ep_cs.specs.Codes.{coded_cell};

    ghost Value = { List Cell };

    ghost coded = { coded_list coded_cell };

    ghost use Rattle.ep_blocks.specs.Inside.{written};

    ghost view = { written };
}

/// Makes a block of what is open.
fn make_block(alloc: Global, pile: &mut Pile, parts: &mut Parts) -> Result<(), NoMemory>
    requires some { 1 ≤ length parts.old }
    requires short { length pile.old < 2 ^ 32 }
    ensures pile { OnOk result (pile.new ≡ pile.old ++ parts.old) }
    ensures parts { OnOk result (parts.new ≡ []) }
{
    let parts = mem::replace(parts, Parts::empty(alloc));
    pile.add(Arc::new(alloc, Block::new(parts))?)
}

/// Closes the open block, where it isn't empty.
fn close(alloc: Global, pile: &mut Pile, parts: &mut Parts) -> Result<(), NoMemory>
    requires { length pile.old < 2 ^ 32 }
    ensures pile { OnOk result (pile.new ≡ pile.old ++ parts.old) }
    ensures parts { OnOk result (parts.new ≡ []) }
{
    if parts.len() == 0 {
        return Ok(());
    }
    make_block(alloc, pile, parts)
}

impl Writer {
    /// Nothing written, with room for so many pages.
    pub fn with_room(alloc: Global, pages: usize) -> Result<Writer, NoMemory>
        ensures { IfOk result (λ w. w ≡ []) }
    {
        Ok(Writer {
            alloc,
            pile: Pile::with_room(alloc, pages)?,
            open: Parts::empty(alloc),
        })
    }

    /// Closes the open block and begins another.
    fn begin(&mut self) -> Result<(), NoMemory>
        requires { length self.old < 2 ^ 32 }
        ensures { OnOk result (self.new ≡ self.old) }
    {
        close(self.alloc, &mut self.pile, &mut self.open)?;
        self.open = Parts::with_room(self.alloc, MOST_UNITS)?;
        Ok(())
    }

    // Whether a block is open, and so many units more are not too many for it.
    fn is_open_for(&self, units: usize) -> bool {
        let open = self.open.len() as usize;
        open > 0 && units <= MOST_UNITS.saturating_sub(open)
    }

    /// Adds a piece of a text with a map.
    fn push_piece(&mut self, text: &[u16], attrs: &AttrMap) -> Result<(), NoMemory>
        requires some { 1 ≤ length text.now }
        requires short { length self.old + length text.now < 2 ^ 32 }
        ensures { OnOk result (self.new ≡ self.old ++ cells attrs.now text.now) }
    {
        if !self.is_open_for(text.len()) {
            self.begin()?;
        }
        self.open.push(self.alloc, text, attrs)
    }

    /// Adds a text with a map.
    pub fn push(&mut self, text: &[u16], attrs: &AttrMap) -> Result<(), NoMemory>
        requires { length self.old + length text.now < 2 ^ 32 }
        ensures { OnOk result (self.new ≡ self.old ++ cells attrs.now text.now) }
    {
        let mut rest = text;
        'parts: while rest.len() > MOST_UNITS {
            let (part, later) = rest.split_at(PART);
            self.push_piece(part, attrs)?;
            rest = later;
        }
        if rest.is_empty() {
            return Ok(());
        }
        self.push_piece(rest, attrs)
    }

    /// Moves what is next of a block, at most so many units, and answers how many.
    pub(crate) fn take_from(&mut self, rest: &mut Within<'_>, most: u32) -> Result<u32, NoMemory>
        requires { length self.old + most < 2 ^ 32 }
        ensures units { IfOk result (λ n. n ≡ min (length rest.old) most) }
        ensures done { IfOk result (λ n. self.new ≡ self.old ++ take n rest.old) }
        ensures rest { IfOk result (λ n. rest.new ≡ drop n rest.old) }
    {
        let units = rest.len().min(most);
        if units == 0 {
            return Ok(0);
        }
        if !self.is_open_for(units as usize) {
            self.begin()?;
        }
        self.open.take_from(self.alloc, rest, units)?;
        Ok(units)
    }

    /// Adds what a block has.
    fn copy_block(&mut self, block: &Block) -> Result<(), NoMemory>
        requires { length self.old + length block.now < 2 ^ 32 }
        ensures { OnOk result (self.new ≡ self.old ++ block.now) }
    {
        let mut rest = block.within();
        let units = rest.len();
        self.take_from(&mut rest, units)?;
        Ok(())
    }

    /// Adds a block that the document shares.
    fn share(&mut self, block: &Arc<Block>) -> Result<(), NoMemory>
        requires { length self.old < 2 ^ 32 }
        ensures { OnOk result (self.new ≡ self.old ++ arc_value block.now) }
    {
        close(self.alloc, &mut self.pile, &mut self.open)?;
        self.pile.add(Arc::try_clone(block)?)
    }

    /// Adds blocks that the document shares.
    fn share_blocks(&mut self, blocks: &[Arc<Block>]) -> Result<(), NoMemory>
        requires { length self.old + length (all_cells blocks.now) < 2 ^ 32 }
        ensures { OnOk result (self.new ≡ self.old ++ all_cells blocks.now) }
    {
        close(self.alloc, &mut self.pile, &mut self.open)?;
        self.pile.add_all(blocks)
    }

    /// Adds a block: to the open one, if both are not too many units for one; else it is shared.
    pub(crate) fn push_block(&mut self, block: &Arc<Block>) -> Result<(), NoMemory>
        requires { length self.old + length (arc_value block.now) < 2 ^ 32 }
        ensures { OnOk result (self.new ≡ self.old ++ arc_value block.now) }
    {
        if self.is_open_for(block.seen().units as usize) {
            self.copy_block(block)
        } else {
            self.share(block)
        }
    }

    /// Adds blocks: the first ones to the open block, as long as both are not too many units for one; the others are shared.
    pub(crate) fn push_blocks(&mut self, blocks: &[Arc<Block>]) -> Result<(), NoMemory>
        requires { length self.old + length (all_cells blocks.now) < 2 ^ 32 }
        ensures { OnOk result (self.new ≡ self.old ++ all_cells blocks.now) }
    {
        let mut rest = blocks;
        'pieces: while let [block, later @ ..] = rest {
            if self.open.len() == 0 {
                return self.share_blocks(rest);
            }
            self.push_block(block)?;
            rest = later;
        }
        Ok(())
    }

    // Whether a group is begun, if only by the open block, and so many blocks more are not too many for it.
    fn has_room(&self, blocks: usize) -> bool {
        (self.open.len() > 0 || self.pile.is_begun()) && self.pile.has_room(blocks)
    }

    // Whether a page is begun, if only by the open block, and so many groups more are not too many for it.
    fn has_page_room(&self, groups: usize) -> bool {
        (self.open.len() > 0 || self.pile.is_page_begun()) && self.pile.has_page_room(groups)
    }

    /// Adds groups that the document shares.
    fn share_groups(&mut self, groups: &[Arc<Group>]) -> Result<(), NoMemory>
        requires { length self.old + length (all_cells groups.now) < 2 ^ 32 }
        ensures { OnOk result (self.new ≡ self.old ++ all_cells groups.now) }
    {
        close(self.alloc, &mut self.pile, &mut self.open)?;
        self.pile.share_all(groups)
    }

    /// Adds groups: of the first ones the blocks, as long as these are not too many for one group with those before; the
    /// others are shared.
    pub(crate) fn push_groups(&mut self, groups: &[Arc<Group>]) -> Result<(), NoMemory>
        requires { length self.old + length (all_cells groups.now) < 2 ^ 32 }
        ensures { OnOk result (self.new ≡ self.old ++ all_cells groups.now) }
    {
        let mut rest = groups;
        'pieces: while let [group, later @ ..] = rest {
            if !self.has_room(group.items().len()) {
                return self.share_groups(rest);
            }
            self.push_blocks(group.items())?;
            rest = later;
        }
        Ok(())
    }

    /// Adds pages that the document shares.
    fn share_pages(&mut self, pages: &[Arc<Page>]) -> Result<(), NoMemory>
        requires { length self.old < 2 ^ 32 }
        ensures { OnOk result (self.new ≡ self.old ++ all_cells pages.now) }
    {
        close(self.alloc, &mut self.pile, &mut self.open)?;
        self.pile.share_pages(pages)
    }

    /// Adds pages: of the first ones the groups, as long as these are not too many for one page with those before; the
    /// others are shared.
    pub(crate) fn push_pages(&mut self, pages: &[Arc<Page>]) -> Result<(), NoMemory>
        requires { length self.old + length (all_cells pages.now) < 2 ^ 32 }
        ensures { OnOk result (self.new ≡ self.old ++ all_cells pages.now) }
    {
        let mut rest = pages;
        'pieces: while let [page, later @ ..] = rest {
            if !self.has_page_room(page.items().len()) {
                return self.share_pages(rest);
            }
            self.push_groups(page.items())?;
            rest = later;
        }
        Ok(())
    }

    /// What is written.
    pub fn finish(self) -> Result<Body, NoMemory>
        requires { length self < 2 ^ 32 }
        ensures { IfOk result (λ body. body ≡ self) }
    {
        let Writer {
            alloc,
            mut pile,
            mut open,
        } = self;
        close(alloc, &mut pile, &mut open)?;
        Ok(Body::of(pile.finish()?))
    }
}
