//! Groups that are written, one behind another.

ghost use Rattle.std.specs.Prelude.{◌≡◌, ◌≤◌, ◌<◌, ◌^◌, ◌+◌, ◌++◌, [], true, length, OnOk, IfOk};
ghost use Rattle.std.specs.Arc.{arc_value};
ghost use Rattle.ep_block_nodes.specs.Blocks.{all_cells};
ghost use Rattle.ep_block_nodes.specs.Forms.{form_cells};

use crate::form::Form;
use crate::front::{have_room, share_front};
use crate::node::{Group, Page, gather};
use ep_units::NoMemory;
use std::alloc::Global;
use std::marker::Model;
use std::sync::Arc;

/// How many groups a page has at most.
const MOST: usize = 12;

/// Pages that are written, and the groups behind them that are in no page yet.
pub struct Stack {
    alloc: Global,
    pages: Vec<Arc<Page>>,
    groups: Vec<Arc<Group>>,
}

impl Drop for Stack {
    fn drop(self) {
        let Stack {
            alloc: _,
            pages: _,
            groups: _,
        } = self;
    }
}

impl Model for Stack {
    ghost use Rattle.std.specs.Prelude.{List};
    ghost use Rattle.std.specs.Coded.{coded_list};
    ghost use Rattle.ep_cs.specs.Doc.{Cell};
    ghost use Rattle.ep_cs.specs.Codes.{coded_cell};

    ghost Value = { List Cell };

    ghost coded = { coded_list coded_cell };

    ghost use Rattle.ep_block_nodes.specs.Inside.{stacked};

    ghost view = { stacked };
}

/// Makes a page of groups, where there are any.
fn close(
    alloc: Global,
    pages: &mut Vec<Arc<Page>>,
    groups: &mut Vec<Arc<Group>>,
) -> Result<(), NoMemory>
    requires { length (all_cells groups.old.items) < 2 ^ 32 }
    ensures pages { OnOk result (all_cells pages.new.items ≡ all_cells pages.old.items ++ all_cells groups.old.items) }
    ensures groups { OnOk result (all_cells groups.new.items ≡ []) }
{
    if let Some(page) = gather(alloc, groups)? {
        pages.push(page)?;
    }
    Ok(())
}

impl Stack {
    /// Nothing, with room for so many pages.
    pub fn with_room(alloc: Global, pages: usize) -> Result<Stack, NoMemory>
        ensures { IfOk result (λ p. p ≡ []) }
    {
        Ok(Stack {
            alloc,
            pages: Vec::with_capacity(alloc, pages)?,
            groups: Vec::new(alloc),
        })
    }

    /// Sees to it that the groups that are in no page and one more aren't too many for one.
    fn make_room(&mut self) -> Result<(), NoMemory>
        requires { length self.old < 2 ^ 32 }
        ensures { OnOk result (self.new ≡ self.old) }
    {
        if self.groups.len() >= MOST {
            close(self.alloc, &mut self.pages, &mut self.groups)?;
        }
        if self.groups.is_empty() {
            self.groups.reserve(MOST)?;
        }
        Ok(())
    }

    /// Whether there are no groups.
    pub fn is_empty(&self) -> bool
        ensures { result ≡ true → self.now ≡ [] }
    {
        self.groups.is_empty() && self.pages.is_empty()
    }

    /// Whether there are groups that are in no page.
    pub fn is_begun(&self) -> bool {
        !self.groups.is_empty()
    }

    /// Whether groups that are in no page, one that is open and so many more are not too many for a page.
    pub fn has_room(&self, groups: usize) -> bool {
        have_room(&self.groups, groups, MOST)
    }

    /// Adds a group, and begins a page where there are too many for one.
    pub fn add(&mut self, group: Arc<Group>) -> Result<(), NoMemory>
        requires { length self.old < 2 ^ 32 }
        ensures { OnOk result (self.new ≡ self.old ++ arc_value group) }
    {
        self.make_room()?;
        self.groups.push(group)?;
        Ok(())
    }

    /// Adds groups that a document shares.
    pub fn add_all(&mut self, groups: &[Arc<Group>]) -> Result<(), NoMemory>
        requires { length self.old + length (all_cells groups.now) < 2 ^ 32 }
        ensures { OnOk result (self.new ≡ self.old ++ all_cells groups.now) }
    {
        let mut rest = groups;
        'fronts: while !rest.is_empty() {
            self.make_room()?;
            rest = share_front(&mut self.groups, rest, MOST)?;
        }
        Ok(())
    }

    /// Adds pages that a document shares.
    pub fn share_all(&mut self, pages: &[Arc<Page>]) -> Result<(), NoMemory>
        requires { length self.old < 2 ^ 32 }
        ensures { OnOk result (self.new ≡ self.old ++ all_cells pages.now) }
    {
        close(self.alloc, &mut self.pages, &mut self.groups)?;
        self.pages.extend_with_clones(pages)?;
        Ok(())
    }

    /// All of it: in pages, if there is more than one.
    pub fn finish(self) -> Result<Form, NoMemory>
        requires { length self < 2 ^ 32 }
        ensures { IfOk result (λ form. form_cells form ≡ self) }
    {
        let Stack {
            alloc,
            mut pages,
            mut groups,
        } = self;
        if pages.is_empty() {
            return Ok(Form::Groups(groups));
        }
        close(alloc, &mut pages, &mut groups)?;
        Ok(Form::Pages(pages))
    }
}
