//! Blocks that are written, one behind another.

ghost use Rattle.std.specs.Prelude.{◌≡◌, ◌≤◌, ◌<◌, ◌^◌, ◌+◌, ◌++◌, [], length, OnOk, IfOk};
ghost use Rattle.std.specs.Arc.{arc_value};
ghost use Rattle.ep_block_nodes.specs.Blocks.{all_cells};
ghost use Rattle.ep_block_nodes.specs.Forms.{form_cells};

use crate::block::Block;
use crate::form::Form;
use crate::front::{have_room, share_front};
use crate::node::{Group, Page, gather};
use crate::stack::Stack;
use ep_units::NoMemory;
use std::alloc::Global;
use std::marker::Model;
use std::sync::Arc;

/// How many blocks a group has at most.
const MOST: usize = 8;

/// Groups that are written, and the blocks behind them that are in no group yet.
pub struct Pile {
    alloc: Global,
    groups: Stack,
    blocks: Vec<Arc<Block>>,
}

impl Drop for Pile {
    fn drop(self) {
        let Pile {
            alloc: _,
            groups: _,
            blocks: _,
        } = self;
    }
}

impl Model for Pile {
    ghost use Rattle.std.specs.Prelude.{List};
    ghost use Rattle.std.specs.Coded.{coded_list};
    ghost use Rattle.ep_cs.specs.Doc.{Cell};
    ghost use Rattle.ep_cs.specs.Codes.{coded_cell};

    ghost Value = { List Cell };

    ghost coded = { coded_list coded_cell };

    ghost use Rattle.ep_block_nodes.specs.Inside.{piled};

    ghost view = { piled };
}

/// Makes a group of blocks, where there are any.
fn close(alloc: Global, groups: &mut Stack, blocks: &mut Vec<Arc<Block>>) -> Result<(), NoMemory>
    requires { length groups.old + length (all_cells blocks.old.items) < 2 ^ 32 }
    ensures groups { OnOk result (groups.new ≡ groups.old ++ all_cells blocks.old.items) }
    ensures blocks { OnOk result (all_cells blocks.new.items ≡ []) }
{
    if let Some(group) = gather(alloc, blocks)? {
        groups.add(group)?;
    }
    Ok(())
}

impl Pile {
    /// Nothing, with room for so many pages.
    pub fn with_room(alloc: Global, pages: usize) -> Result<Pile, NoMemory>
        ensures { IfOk result (λ p. p ≡ []) }
    {
        Ok(Pile {
            alloc,
            groups: Stack::with_room(alloc, pages)?,
            blocks: Vec::new(alloc),
        })
    }

    /// Sees to it that the blocks that are in no group and one more aren't too many for one.
    fn make_room(&mut self) -> Result<(), NoMemory>
        requires { length self.old < 2 ^ 32 }
        ensures { OnOk result (self.new ≡ self.old) }
    {
        if self.blocks.len() >= MOST {
            close(self.alloc, &mut self.groups, &mut self.blocks)?;
        }
        if self.blocks.is_empty() {
            self.blocks.reserve(MOST)?;
        }
        Ok(())
    }

    /// Whether there are blocks that are in no group.
    pub fn is_begun(&self) -> bool {
        !self.blocks.is_empty()
    }

    /// Whether there are blocks that are in no group, or groups that are in no page.
    pub fn is_page_begun(&self) -> bool {
        self.is_begun() || self.groups.is_begun()
    }

    /// Whether blocks that are in no group, one that is open and so many more are not too many for a group.
    pub fn has_room(&self, blocks: usize) -> bool {
        have_room(&self.blocks, blocks, MOST)
    }

    /// Whether groups that are in no page, one that is open and so many more are not too many for a page.
    pub fn has_page_room(&self, groups: usize) -> bool {
        self.groups.has_room(groups)
    }

    /// Adds a block, and begins a group where there are too many for one.
    pub fn add(&mut self, block: Arc<Block>) -> Result<(), NoMemory>
        requires { length self.old < 2 ^ 32 }
        ensures { OnOk result (self.new ≡ self.old ++ arc_value block) }
    {
        self.make_room()?;
        self.blocks.push(block)?;
        Ok(())
    }

    /// Adds blocks that a document shares.
    pub fn add_all(&mut self, blocks: &[Arc<Block>]) -> Result<(), NoMemory>
        requires { length self.old + length (all_cells blocks.now) < 2 ^ 32 }
        ensures { OnOk result (self.new ≡ self.old ++ all_cells blocks.now) }
    {
        let mut rest = blocks;
        'fronts: while !rest.is_empty() {
            self.make_room()?;
            rest = share_front(&mut self.blocks, rest, MOST)?;
        }
        Ok(())
    }

    /// Adds groups that a document shares.
    pub fn share_all(&mut self, groups: &[Arc<Group>]) -> Result<(), NoMemory>
        requires { length self.old + length (all_cells groups.now) < 2 ^ 32 }
        ensures { OnOk result (self.new ≡ self.old ++ all_cells groups.now) }
    {
        close(self.alloc, &mut self.groups, &mut self.blocks)?;
        self.groups.add_all(groups)
    }

    /// Adds pages that a document shares.
    pub fn share_pages(&mut self, pages: &[Arc<Page>]) -> Result<(), NoMemory>
        requires { length self.old < 2 ^ 32 }
        ensures { OnOk result (self.new ≡ self.old ++ all_cells pages.now) }
    {
        close(self.alloc, &mut self.groups, &mut self.blocks)?;
        self.groups.share_all(pages)
    }

    /// All of it: in groups, if there is more than one.
    pub fn finish(self) -> Result<Form, NoMemory>
        requires { length self < 2 ^ 32 }
        ensures { IfOk result (λ form. form_cells form ≡ self) }
    {
        let Pile {
            alloc,
            mut groups,
            mut blocks,
        } = self;
        if groups.is_empty() {
            return Ok(Form::Blocks(blocks));
        }
        close(alloc, &mut groups, &mut blocks)?;
        groups.finish()
    }
}
