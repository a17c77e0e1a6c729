//! Groups and pages that are passed from the first to the last.

ghost use Rattle.std.specs.Prelude.{◌≡◌, ◌≤◌, ◌++◌, [], length, MatchOption};
ghost use Rattle.std.specs.Arc.{arc_value};
ghost use Rattle.ep_units.specs.Text.{Text};
ghost use Rattle.ep_cs.specs.Doc.{text_of};
ghost use Rattle.ep_block_nodes.specs.Blocks.{all_cells, IsPassed};
ghost use Rattle.ep_block_parts.specs.Seen.{ends_high};

use crate::front::{Front, pass_within, take_within};
use crate::node::{Group, Node, Page};
use ep_block_parts::Seen;
use std::marker::Model;
use std::sync::Arc;

/// What is ahead in a document: the groups of a page that is begun, and the pages behind it.
#[derive(Drop)]
pub struct Groups<'a> {
    groups: &'a [Arc<Group>],
    pages: &'a [Arc<Page>],
}

impl<'a> Model for Groups<'a> {
    ghost use Rattle.std.specs.Prelude.{List};
    ghost use Rattle.std.specs.Coded.{coded_list};
    ghost use Rattle.ep_cs.specs.Doc.{Cell};
    ghost use Rattle.ep_cs.specs.Codes.{coded_cell};

    ghost Value = { List Cell };

    ghost coded = { coded_list coded_cell };

    ghost use Rattle.ep_block_nodes.specs.Inside.{groups_ahead};

    ghost view = { groups_ahead };
}

impl<'a> Groups<'a> {
    pub fn of(groups: &'a [Arc<Group>], pages: &'a [Arc<Page>]) -> Groups<'a>
        ensures { result ≡ all_cells groups.now ++ all_cells pages.now }
    {
        Groups { groups, pages }
    }

    /// Begins the next page, where none is begun.
    fn begin(&mut self)
        ensures { self.new ≡ self.old }
    {
        if !self.groups.is_empty() {
            return;
        }
        if let [page, later @ ..] = self.pages {
            self.groups = page.items();
            self.pages = later;
        }
    }

    /// Takes the next group.
    pub fn take(&mut self) -> Option<&'a Arc<Group>>
        ensures { MatchOption result ((self.old ≡ []) × (self.new ≡ [])) (λ x. self.old ≡ arc_value x.now ++ self.new) }
    {
        let groups = match (self.groups, self.pages) {
            ([], []) => return None,
            ([], [page, later @ ..]) => {
                self.pages = later;
                page.items()
            }
            (groups, _) => groups,
        };
        self.groups = &groups[1..];
        Some(&groups[0])
    }

    /// Takes the next pages, where none is begun: as many as have at most so many units.
    pub fn take_pages(&mut self, most: u32) -> Front<'a, Page>
        ensures taken { self.old ≡ all_cells result.items.now ++ self.new }
        ensures units { result.units ≡ length (all_cells result.items.now) }
        ensures most { result.units ≤ most }
    {
        if !self.groups.is_empty() {
            return Front::none();
        }
        take_within(&mut self.pages, most)
    }

    /// Takes the next groups of one page: as many as have at most so many units.
    pub fn take_groups(&mut self, most: u32) -> Front<'a, Group>
        ensures taken { self.old ≡ all_cells result.items.now ++ self.new }
        ensures units { result.units ≡ length (all_cells result.items.now) }
        ensures most { result.units ≤ most }
    {
        self.begin();
        take_within(&mut self.groups, most)
    }

    /// Passes the next groups and pages, as far as they have at most so many units.
    pub fn pass(&mut self, most: u32) -> Seen
        ensures passed { IsPassed result self.old self.new }
        ensures most { result.units ≤ most }
    {
        let begun = pass_within(&mut self.groups, most);
        if !self.groups.is_empty() {
            return begun;
        }
        let pages = begun.then(pass_within(&mut self.pages, most - begun.units));
        self.begin();
        pages.then(pass_within(&mut self.groups, most - pages.units))
    }

    /// Whether it ends in the first half of a pair, where anything is left.
    pub fn ends_high(&self) -> Option<bool>
        ensures { MatchOption result (self.now ≡ []) (λ high. (us : Text) → ends_high (us ++ text_of self.now) ≡ high) }
    {
        if let [.., page] = self.pages {
            return Some(page.seen().high);
        }
        match self.groups {
            [] => None,
            [.., group] => Some(group.seen().high),
        }
    }
}
