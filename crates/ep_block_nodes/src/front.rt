//! The first of some nodes, as far as they fit.

ghost use Rattle.std.specs.Prelude.{◌≡◌, ◌≤◌, ◌<◌, ◌++◌, [], length, take, IfOk};
ghost use Rattle.ep_cs.specs.Doc.{text_of};
ghost use Rattle.ep_block_parts.specs.Seen.{Sees};
ghost use Rattle.ep_block_nodes.specs.Blocks.{node_cells, IsPassed};

use crate::node::Node;
use ep_block_parts::Seen;
use ep_units::NoMemory;
use std::sync::Arc;

/// Nodes one behind another, and how many units they have together.
#[derive(Drop)]
pub struct Front<'a, T> {
    pub items: &'a [Arc<T>],
    pub units: u32,
}

/// How many of a list, from the first on, and how many units they have together.
#[derive(Clone, Copy)]
pub struct Fit {
    pub count: usize,
    pub units: u32,
}

/// How many of a list, from the first on, and what is seen of their text.
#[derive(Clone, Copy)]
struct Passed {
    count: usize,
    seen: Seen,
}

/// As many nodes as have at most so many units.
fn within<T: Node>(nodes: &[Arc<T>], most: u32) -> Fit
    ensures count { result.count ≤ length nodes.now }
    ensures units { result.units ≡ length (node_cells T.cells (take result.count nodes.now)) }
    ensures most { result.units ≤ most }
{
    let mut fit = Fit { count: 0, units: 0 };
    for node in nodes {
        let more = node.seen().units;
        if more > most - fit.units {
            return fit;
        }
        fit = Fit {
            count: fit.count + 1,
            units: fit.units + more,
        };
    }
    fit
}

impl<'a, T> Front<'a, T> {
    /// No nodes.
    pub fn none() -> Front<'a, T>
        ensures items { result.items.now ≡ [] }
        ensures units { result.units ≡ 0 }
    {
        Front {
            items: &[],
            units: 0,
        }
    }
}

/// Takes as many nodes as have at most so many units.
pub fn take_within<'a, T: Node>(nodes: &mut &'a [Arc<T>], most: u32) -> Front<'a, T>
    ensures taken { node_cells T.cells nodes.old.now ≡ node_cells T.cells result.items.now ++ node_cells T.cells nodes.new.now }
    ensures units { result.units ≡ length (node_cells T.cells result.items.now) }
    ensures most { result.units ≤ most }
{
    let fit = within(*nodes, most);
    let (items, later) = nodes.split_at(fit.count);
    *nodes = later;
    Front {
        items,
        units: fit.units,
    }
}

/// What is seen of as many nodes as have at most so many units.
fn seen_within<T: Node>(nodes: &[Arc<T>], most: u32) -> Passed
    ensures count { result.count ≤ length nodes.now }
    ensures seen { Sees result.seen (text_of (node_cells T.cells (take result.count nodes.now))) }
    ensures most { result.seen.units ≤ most }
{
    let mut passed = Passed {
        count: 0,
        seen: Seen::nothing(),
    };
    for node in nodes {
        let next = node.seen();
        if next.units > most - passed.seen.units {
            return passed;
        }
        passed = Passed {
            count: passed.count + 1,
            seen: passed.seen.then(next),
        };
    }
    passed
}

/// Passes as many nodes as have at most so many units.
pub fn pass_within<'a, T: Node>(nodes: &mut &'a [Arc<T>], most: u32) -> Seen
    ensures passed { IsPassed result (node_cells T.cells nodes.old.now) (node_cells T.cells nodes.new.now) }
    ensures most { result.units ≤ most }
{
    let passed = seen_within(*nodes, most);
    let (_, later) = nodes.split_at(passed.count);
    *nodes = later;
    passed.seen
}

/// Whether nodes that are open, one more and so many others are at most so many.
pub fn have_room<T>(open: &[Arc<T>], others: usize, most: usize) -> bool {
    others < most.saturating_sub(open.len())
}

/// Adds the first of some nodes, which a document shares, to the last ones that are written, at least one and
/// as many as make at most so many, and answers the others.
pub fn share_front<'a, T: Node>(
    last: &mut Vec<Arc<T>>,
    nodes: &'a [Arc<T>],
    most: usize,
) -> Result<&'a [Arc<T>], NoMemory>
    requires { 1 ≤ length nodes.now }
    ensures shared { IfOk result (λ rest. node_cells T.cells last.new.items ++ node_cells T.cells rest.now ≡ node_cells T.cells last.old.items ++ node_cells T.cells nodes.now) }
    ensures fewer { IfOk result (λ rest. length rest.now < length nodes.now) }
{
    let room = most.saturating_sub(last.len()).max(1);
    let (front, rest) = nodes.split_at(room.min(nodes.len()));
    last.extend_with_clones(front)?;
    Ok(rest)
}
