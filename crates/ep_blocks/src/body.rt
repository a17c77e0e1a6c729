//! A text that shares its blocks.

ghost use Rattle.std.specs.Prelude.{◌≡◌, ◌≤◌, ◌<◌, ◌^◌, ◌+◌, [], length, IfOk, IfSome};
ghost use Rattle.ep_cs.specs.Doc.{text_of};
ghost use Rattle.ep_cs.specs.Lines.{is_whole_lines};
ghost use Rattle.ep_cs.specs.Runs.{cells};
ghost use Rattle.ep_block_nodes.specs.Blocks.{node_cells};
ghost use Rattle.ep_block_nodes.specs.Forms.{form_cells};
ghost use Rattle.ep_block_parts.specs.Splices.{spliced};

use crate::passing::Passing;
use crate::reading::Reading;
use crate::writer::Writer;
use ep_block_nodes::{Ahead, Form, Node, Splice, spliced};
use ep_block_parts::Within;
use ep_units::{NoMemory, Units};
use std::alloc::Global;
use std::marker::Model;
use std::sync::Arc;

/// Attributed text in pages of at most 12 groups of at most 8 blocks of at most 512 UTF-16 units; one that is short is in groups
/// or blocks. Bodies share pages, groups and blocks.
pub struct Body {
    form: Form,
}

impl Drop for Body {
    fn drop(self) {
        let Body { form: _ } = self;
    }
}

impl Model for Body {
    ghost use Rattle.std.specs.Prelude.{List};
    ghost use Rattle.std.specs.Coded.{coded_list};
    ghost use Rattle.ep_cs.specs.Doc.{Cell};
    ghost use Rattle.ep_cs.specs.Codes.{coded_cell};

    ghost Value = { List Cell };

    ghost coded = { coded_list coded_cell };

    ghost use Rattle.ep_blocks.specs.Inside.{body_cells};

    ghost view = { body_cells };
}

/// The same nodes again, which are shared.
fn share<T: Node>(alloc: Global, nodes: &[Arc<T>]) -> Result<Vec<Arc<T>>, NoMemory>
    ensures { IfOk result (λ all. node_cells T.cells all.items ≡ node_cells T.cells nodes.now) }
{
    let mut all = Vec::with_capacity(alloc, nodes.len())?;
    all.extend_with_clones(nodes)?;
    Ok(all)
}

/// Whether the text of nodes is whole lines, which the last of them tells.
fn are_whole_lines<T: Node>(nodes: &[Arc<T>]) -> bool
    ensures { result ≡ is_whole_lines (text_of (node_cells T.cells nodes.now)) }
{
    match nodes {
        [] => true,
        [.., node] => node.seen().tail == 0,
    }
}

impl Body {
    /// What stands in this form.
    pub(crate) fn of(form: Form) -> Body
        ensures { result ≡ form_cells form }
    {
        Body { form }
    }

    /// No units.
    pub fn empty(alloc: Global) -> Body
        ensures { result ≡ [] }
    {
        Body::of(Form::Blocks(Vec::new(alloc)))
    }

    /// All of it, to be passed from the first to the last.
    fn ahead(&self) -> Ahead<'_>
        ensures { result ≡ self.now }
    {
        match &self.form {
            Form::Blocks(blocks) => Ahead::of(blocks, &[], &[]),
            Form::Groups(groups) => Ahead::of(&[], groups, &[]),
            Form::Pages(pages) => Ahead::of(&[], &[], pages),
        }
    }

    /// All of it, to be read from its first unit to its last.
    pub fn reading(&self) -> Reading<'_>
        ensures { result ≡ self.now }
    {
        Reading {
            here: Within::nothing(),
            ahead: self.ahead(),
        }
    }

    /// Its text, to be passed from its first unit to its last.
    pub fn passing(&self) -> Passing<'_>
        ensures { result ≡ text_of self.now }
    {
        Passing {
            here: &[],
            ahead: self.ahead(),
        }
    }

    /// Whether its text is whole lines: it has no units, or ends in a newline.
    pub fn is_whole_lines(&self) -> bool
        ensures { result ≡ is_whole_lines (text_of self.now) }
    {
        match &self.form {
            Form::Blocks(blocks) => are_whole_lines(blocks),
            Form::Groups(groups) => are_whole_lines(groups),
            Form::Pages(pages) => are_whole_lines(pages),
        }
    }

    /// Its units in one list, which is made with room for so many.
    pub fn text(&self, alloc: Global, room: usize) -> Result<Units, NoMemory>
        ensures { IfOk result (λ text. text ≡ text_of self.now) }
    {
        let mut text = Units::with_capacity(alloc, room)?;
        let mut rest = self.ahead();
        'all: while let Some(block) = rest.take() {
            text.push_all(block.text())?;
        }
        Ok(text)
    }

    /// How many pages it has.
    fn pages(&self) -> usize {
        match &self.form {
            Form::Blocks(_) | Form::Groups(_) => 0,
            Form::Pages(pages) => pages.len(),
        }
    }

    /// Nothing written yet, with room for what a change makes of it.
    pub fn writer(&self, alloc: Global) -> Result<Writer, NoMemory>
        ensures { IfOk result (λ w. w ≡ []) }
    {
        Writer::with_room(alloc, self.pages())
    }

    /// The same again, which shares all blocks, groups or pages.
    pub fn copy(&self, alloc: Global) -> Result<Body, NoMemory>
        ensures { IfOk result (λ b. b ≡ self.now) }
    {
        match &self.form {
            Form::Blocks(blocks) => Ok(Body::of(Form::Blocks(share(alloc, blocks)?))),
            Form::Groups(groups) => Ok(Body::of(Form::Groups(share(alloc, groups)?))),
            Form::Pages(pages) => Ok(Body::of(Form::Pages(share(alloc, pages)?))),
        }
    }

    /// All of it after a splice of units that one block has, where that stays a block.
    pub fn spliced(&self, alloc: Global, splice: Splice<'_>) -> Result<Option<Body>, NoMemory>
        requires inside { splice.at + splice.dropped ≤ length self.now }
        requires short { length self.now + length splice.new.text.now < 2 ^ 32 }
        ensures { IfOk result (λ made. IfSome made (λ body. body
            ≡ spliced splice.entry.at splice.entry.dropped (cells splice.entry.new.attrs.now splice.entry.new.text.now) self.now)) }
    {
        match &self.form {
            Form::Blocks(blocks) => match spliced(alloc, blocks, splice)? {
                None => Ok(None),
                Some(blocks) => Ok(Some(Body::of(Form::Blocks(blocks)))),
            },
            Form::Groups(groups) => match spliced(alloc, groups, splice)? {
                None => Ok(None),
                Some(groups) => Ok(Some(Body::of(Form::Groups(groups)))),
            },
            Form::Pages(pages) => match spliced(alloc, pages, splice)? {
                None => Ok(None),
                Some(pages) => Ok(Some(Body::of(Form::Pages(pages)))),
            },
        }
    }
}
