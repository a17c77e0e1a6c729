//! Blocks, groups and pages that are passed from the first to the last.

ghost use Rattle.std.specs.Prelude.{◌≡◌, ◌≤◌, ◌++◌, [], length, MatchOption};
ghost use Rattle.std.specs.Arc.{arc_value};
ghost use Rattle.ep_units.specs.Text.{Text};
ghost use Rattle.ep_cs.specs.Doc.{text_of};
ghost use Rattle.ep_block_nodes.specs.Blocks.{all_cells, IsPassed};
ghost use Rattle.ep_block_parts.specs.Seen.{ends_high};

use crate::block::Block;
use crate::front::{Front, pass_within, take_within};
use crate::groups::Groups;
use crate::node::{Group, Node, Page};
use ep_block_parts::Seen;
use std::marker::Model;
use std::sync::Arc;

/// What is ahead in a document: the blocks of a group that is begun, and the groups and pages behind it.
#[derive(Drop)]
pub struct Ahead<'a> {
    blocks: &'a [Arc<Block>],
    groups: Groups<'a>,
}

impl<'a> Model for Ahead<'a> {
    ghost use Rattle.std.specs.Prelude.{List};
    ghost use Rattle.std.specs.Coded.{coded_list};
    ghost use Rattle.ep_cs.specs.Doc.{Cell};
    ghost use Rattle.ep_cs.specs.Codes.{coded_cell};

    ghost Value = { List Cell };

    ghost coded = { coded_list coded_cell };

    ghost use Rattle.ep_block_nodes.specs.Inside.{cells_ahead};

    ghost view = { cells_ahead };
}

impl<'a> Ahead<'a> {
    pub fn of(
        blocks: &'a [Arc<Block>],
        groups: &'a [Arc<Group>],
        pages: &'a [Arc<Page>],
    ) -> Ahead<'a>
        ensures { result ≡ all_cells blocks.now ++ all_cells groups.now ++ all_cells pages.now }
    {
        Ahead {
            blocks,
            groups: Groups::of(groups, pages),
        }
    }

    /// Begins the next group, where none is begun.
    fn begin(&mut self)
        ensures { self.new ≡ self.old }
    {
        if !self.blocks.is_empty() {
            return;
        }
        if let Some(group) = self.groups.take() {
            self.blocks = group.items();
        }
    }

    /// Takes the next block.
    pub fn take(&mut self) -> Option<&'a Arc<Block>>
        ensures { MatchOption result ((self.old ≡ []) × (self.new ≡ [])) (λ x. self.old ≡ arc_value x.now ++ self.new) }
    {
        let blocks = match self.blocks {
            [] => self.groups.take()?.items(),
            blocks => blocks,
        };
        self.blocks = &blocks[1..];
        Some(&blocks[0])
    }

    /// Takes the next pages, where no page and no group is begun: as many as have at most so many units.
    pub fn take_pages(&mut self, most: u32) -> Front<'a, Page>
        ensures taken { self.old ≡ all_cells result.items.now ++ self.new }
        ensures units { result.units ≡ length (all_cells result.items.now) }
        ensures most { result.units ≤ most }
    {
        if !self.blocks.is_empty() {
            return Front::none();
        }
        self.groups.take_pages(most)
    }

    /// Takes the next groups of one page, where no group is begun: as many as have at most so many units.
    pub fn take_groups(&mut self, most: u32) -> Front<'a, Group>
        ensures taken { self.old ≡ all_cells result.items.now ++ self.new }
        ensures units { result.units ≡ length (all_cells result.items.now) }
        ensures most { result.units ≤ most }
    {
        if !self.blocks.is_empty() {
            return Front::none();
        }
        self.groups.take_groups(most)
    }

    /// Takes the next blocks of one group: as many as have at most so many units.
    pub fn take_blocks(&mut self, most: u32) -> Front<'a, Block>
        ensures taken { self.old ≡ all_cells result.items.now ++ self.new }
        ensures units { result.units ≡ length (all_cells result.items.now) }
        ensures most { result.units ≤ most }
    {
        self.begin();
        take_within(&mut self.blocks, most)
    }

    /// Passes the next blocks, groups and pages, as far as they have at most so many units.
    #[inline(always)]
    pub fn pass(&mut self, most: u32) -> Seen
        ensures passed { IsPassed result self.old self.new }
        ensures most { result.units ≤ most }
    {
        let begun = pass_within(&mut self.blocks, most);
        if !self.blocks.is_empty() {
            return begun;
        }
        let groups = begun.then(self.groups.pass(most - begun.units));
        self.begin();
        groups.then(pass_within(&mut self.blocks, most - groups.units))
    }

    /// Whether it ends in the first half of a pair, where anything is left.
    pub fn ends_high(&self) -> Option<bool>
        ensures { MatchOption result (self.now ≡ []) (λ high. (us : Text) → ends_high (us ++ text_of self.now) ≡ high) }
    {
        if let Some(high) = self.groups.ends_high() {
            return Some(high);
        }
        match self.blocks {
            [] => None,
            [.., block] => Some(block.seen().high),
        }
    }
}
