//! What texts share: blocks, groups of blocks, and pages of groups.

ghost use Rattle.std.specs.Prelude.{◌≡◌, ◌≤◌, ◌<◌, ◌^◌, ◌+◌, ◌++◌, List, [], length, OnOk, IfOk, IfSome};
ghost use Rattle.std.specs.Arc.{arc_value};
ghost use Rattle.ep_cs.specs.Doc.{Cell, text_of};
ghost use Rattle.ep_cs.specs.Runs.{cells as run_cells};
ghost use Rattle.ep_block_parts.specs.Seen.{Sees};
ghost use Rattle.ep_block_nodes.specs.Blocks.{node_cells, made};
ghost use Rattle.ep_block_parts.specs.Splices.{spliced};

use crate::block::Block;
use crate::splice::Splice;
use crate::splicing::spliced;
use ep_block_parts::Seen;
use ep_units::NoMemory;
use std::alloc::Global;
use std::marker::Model;
use std::mem;
use std::sync::Arc;

/// Some of a document, which isn't empty, and of which is known what is seen of its text.
pub trait Node: Drop {
    /// What it has of the document.
    ghost cells: { Self → List Cell };

    fn seen(&self) -> Seen
        ensures seen { Sees result (text_of (cells self.now)) }
        ensures some { 1 ≤ result.units };

    /// The node after a splice of it, where it stays a node.
    fn spliced(&self, alloc: Global, splice: Splice<'_>) -> Result<Option<Self>, NoMemory>
        requires inside { splice.at + splice.dropped ≤ length (cells self.now) }
        requires short { length (cells self.now) + length splice.new.text.now < 2 ^ 32 }
        ensures made { IfOk result (λ made. IfSome made (λ node. cells node
            ≡ spliced splice.entry.at splice.entry.dropped (run_cells splice.entry.new.attrs.now splice.entry.new.text.now) (cells self.now))) };
}

/// Nodes one behind another, at least one, and what is seen of their text.
#[derive(Drop)]
pub struct Nodes<T: Node> {
    seen: Seen,
    items: Vec<Arc<T>>,
}

/// Some blocks of a document.
pub type Group = Nodes<Block>;

/// Some groups of a document.
pub type Page = Nodes<Group>;

impl<T: Node> Model for Nodes<T> {
    ghost use Rattle.std.specs.Prelude.{List};
    ghost use Rattle.std.specs.Coded.{coded_list};
    ghost use Rattle.ep_cs.specs.Doc.{Cell};
    ghost use Rattle.ep_cs.specs.Codes.{coded_cell};
    ghost use Rattle.ep_block_nodes.specs.Blocks.{IsNode, node_cells};

    ghost Value = { List Cell };

    ghost coded = { coded_list coded_cell };

    ghost view = { λ n. node_cells T.cells n.items.items };

    ghost invariant = { λ n. IsNode n.seen (node_cells T.cells n.items.items) };
}

/// What is seen of the text of nodes, one behind another.
fn seen_of<T: Node>(nodes: &[Arc<T>]) -> Seen
    requires { length (node_cells T.cells nodes.now) < 2 ^ 32 }
    ensures { Sees result (text_of (node_cells T.cells nodes.now)) }
{
    let mut seen = Seen::nothing();
    for node in nodes {
        seen = seen.then(node.seen());
    }
    seen
}

impl<T: Node> Nodes<T> {
    pub fn items(&self) -> &[Arc<T>]
        ensures all { node_cells T.cells result.now ≡ self.now }
        ensures some { 1 ≤ length result.now }
    {
        self.items.as_slice()
    }
}

impl<T: Node> Node for Nodes<T> {
    ghost cells = { λ n. n };

    fn seen(&self) -> Seen {
        self.seen
    }

    fn spliced(&self, alloc: Global, splice: Splice<'_>) -> Result<Option<Nodes<T>>, NoMemory> {
        match spliced(alloc, self.items.as_slice(), splice)? {
            None => Ok(None),
            Some(items) => {
                let seen = seen_of(items.as_slice());
                Ok(if seen.units == 0 {
                    None
                } else {
                    Some(Nodes { seen, items })
                })
            }
        }
    }
}

/// Makes one node of nodes, if there are any.
pub fn gather<T: Node>(
    alloc: Global,
    nodes: &mut Vec<Arc<T>>,
) -> Result<Option<Arc<Nodes<T>>>, NoMemory>
    requires { length (node_cells T.cells nodes.old.items) < 2 ^ 32 }
    ensures node { IfOk result (λ node. made node ≡ node_cells T.cells nodes.old.items) }
    ensures rest { OnOk result (node_cells T.cells nodes.new.items ≡ []) }
{
    let seen = seen_of(nodes);
    if seen.units == 0 {
        return Ok(None);
    }
    let items = mem::replace(nodes, Vec::new(alloc));
    Ok(Some(Arc::new(alloc, Nodes { seen, items })?))
}
