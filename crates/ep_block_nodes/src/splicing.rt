//! A splice that is made in one of some nodes.

ghost use Rattle.std.specs.Prelude.{◌≡◌, ◌≤◌, ◌<◌, ◌^◌, ◌+◌, ◌++◌, length, take, drop, IfOk, IfSome};
ghost use Rattle.std.specs.Arc.{arc_value};
ghost use Rattle.ep_cs.specs.Runs.{cells};
ghost use Rattle.ep_block_parts.specs.Splices.{spliced};
ghost use Rattle.ep_block_nodes.specs.Blocks.{node_cells};
ghost use Rattle.ep_block_nodes.specs.Splices.{HasPlace};

use crate::node::Node;
use crate::splice::Splice;
use ep_units::NoMemory;
use std::alloc::Global;
use std::sync::Arc;

/// Which of some nodes it is, and how many units stand before it.
#[derive(Clone, Copy)]
struct Place {
    index: usize,
    before: u32,
}

/// The first node that has the units between two places.
fn find<T: Node>(nodes: &[Arc<T>], at: u32, end: u32) -> Option<Place>
    requires { at ≤ end }
    ensures { IfSome result (λ p. HasPlace T.cells nodes.now at end p.index p.before) }
{
    let mut before = 0;
    for index in 0..nodes.len() {
        let units = nodes[index].seen().units;
        if end - before <= units {
            return Some(Place { index, before });
        }
        if at - before < units {
            return None;
        }
        before += units;
    }
    None
}

/// Nodes with another in the place of one.
fn replaced<T: Node>(
    alloc: Global,
    nodes: &[Arc<T>],
    index: usize,
    node: Arc<T>,
) -> Result<Vec<Arc<T>>, NoMemory>
    requires { index < length nodes.now }
    ensures { IfOk result (λ all. node_cells T.cells all.items ≡ node_cells T.cells (take index nodes.now) ++ (T.cells (arc_value node) ++ node_cells T.cells (drop (index + 1) nodes.now))) }
{
    let mut all = Vec::with_capacity(alloc, nodes.len())?;
    all.extend_with_clones(&nodes[..index])?;
    all.push(node)?;
    all.extend_with_clones(&nodes[index + 1..])?;
    Ok(all)
}

/// Nodes after a splice of units that one of them has, where that stays a node.
pub fn spliced<T: Node>(
    alloc: Global,
    nodes: &[Arc<T>],
    splice: Splice<'_>,
) -> Result<Option<Vec<Arc<T>>>, NoMemory>
    requires inside { splice.at + splice.dropped ≤ length (node_cells T.cells nodes.now) }
    requires short { length (node_cells T.cells nodes.now) + length splice.new.text.now < 2 ^ 32 }
    ensures { IfOk result (λ made. IfSome made (λ all. node_cells T.cells all.items
        ≡ spliced splice.entry.at splice.entry.dropped (cells splice.entry.new.attrs.now splice.entry.new.text.now) (node_cells T.cells nodes.now))) }
{
    let Some(place) = find(nodes, splice.at, splice.at + splice.dropped) else {
        return Ok(None);
    };
    let Some(node) = nodes[place.index].spliced(alloc, splice.behind(place.before))? else {
        return Ok(None);
    };
    let node = Arc::new(alloc, node)?;
    Ok(Some(replaced(alloc, nodes, place.index, node)?))
}
