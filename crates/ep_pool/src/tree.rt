//! The numbers of attributes in the order of the attributes, in a balanced search tree.
//!
//! The order is that of the texts, which no choice of keys makes slow, as it may make a hash.

ghost use Rattle.std.specs.Prelude.{◌≡◌, ◌<◌, ◌≤◌, true, [], ◌∷◌, length, vec_len, OnOk};
ghost use Rattle.ep_attr.specs.Attrs.{pairs_of};
ghost use Rattle.ep_pool.specs.Index.{are_within, is_rising, number_at, pair_cmp, placed};
ghost use Rattle.ep_pool.specs.Pool.{pair_of};
ghost use Rattle.ep_pool.specs.Tree.{fork_numbers};

use ep_attr::Attr;
use ep_units::NoMemory;
use std::alloc::Global;
use std::cmp::Ordering;
use std::marker::Model;
use std::mem;

/// Seen as the numbers from left to right.
#[cycle(tree)]
#[derive(Drop)]
pub(crate) struct Tree {
    node: Node,
}

#[cycle(tree)]
#[derive(Drop)]
pub(crate) enum Node {
    Leaf,
    Fork(Box<Fork>),
}

/// A number between the lower ones and the higher ones.
#[cycle(tree)]
#[derive(Drop)]
pub(crate) struct Fork {
    left: Tree,
    number: u32,
    height: u32,
    right: Tree,
}

/// The turns that bring a tree back into balance: of the top, or of a side the other way first.
#[derive(Clone, Copy)]
enum Turns {
    None,
    Right,
    LeftRight,
    Left,
    RightLeft,
}

impl Model for Tree {
    ghost use Rattle.std.specs.Prelude.{ℕ, List, length};

    ghost Value = { List ℕ };

    ghost use Rattle.ep_pool.specs.Tree.{numbers};

    ghost view = { λ t. numbers t.node };

    ghost size = { length };

    ghost use Rattle.ep_pool.specs.TreeFalls.{depth_le-length-numbers};

    ghost size_decreases = { λ t h. depth_le-length-numbers t.node };
}

/// By value, and then by key, since values differ more often.
fn order(a: &Attr, b: &Attr) -> Ordering
    ensures { result ≡ pair_cmp (pair_of a.now) (pair_of b.now) }
{
    match a.value.cmp(&b.value) {
        Ordering::Equal => a.key.cmp(&b.key),
        unequal => unequal,
    }
}

impl Tree {
    pub fn new() -> Tree
        ensures { result ≡ [] }
    {
        Tree { node: Node::Leaf }
    }

    fn height(&self) -> u32 {
        match &self.node {
            Node::Leaf => 0,
            Node::Fork(fork) => fork.height,
        }
    }

    /// The number of an attribute that is equal.
    pub fn find(&self, attrs: &[Attr], attr: &Attr) -> Option<u32>
        requires within { are_within (length attrs.now) self.now ≡ true }
        requires rising { is_rising (pairs_of attrs.now) self.now ≡ true }
        ensures { result ≡ number_at (pairs_of attrs.now) (pair_of attr.now) self.now }
    {
        match &self.node {
            Node::Leaf => None,
            Node::Fork(fork) => match order(attr, &attrs[fork.number as usize]) {
                Ordering::Less => fork.left.find(attrs, attr),
                Ordering::Equal => Some(fork.number),
                Ordering::Greater => fork.right.find(attrs, attr),
            },
        }
    }

    /// Places the number of an attribute, in a fork that is at hand.
    pub fn insert(&mut self, attrs: &[Attr], number: u32, fork: Box<Fork>)
        requires there { number < length attrs.now }
        requires within { are_within (length attrs.now) self.old ≡ true }
        requires rising { is_rising (pairs_of attrs.now) self.old ≡ true }
        ensures { self.new ≡ placed (pairs_of attrs.now) number self.old }
    {
        match &mut self.node {
            Node::Leaf => *self = Tree::alone(number, fork),
            Node::Fork(here) => {
                let at = &attrs[here.number as usize];
                if order(&attrs[number as usize], at).is_lt() {
                    here.left.insert(attrs, number, fork);
                } else {
                    here.right.insert(attrs, number, fork);
                }
                self.balance();
            }
        }
    }

    fn alone(number: u32, mut fork: Box<Fork>) -> Tree
        ensures { result ≡ number ∷ [] }
    {
        *fork = Fork {
            left: Tree::new(),
            number,
            height: 1,
            right: Tree::new(),
        };
        Tree {
            node: Node::Fork(fork),
        }
    }

    /// Makes neither side more than one higher than the other, where an insertion was the last change.
    fn balance(&mut self)
        ensures { self.new ≡ self.old }
    {
        match self.turns() {
            Turns::None => self.set_height(),
            Turns::Right => self.turn_right(),
            Turns::LeftRight => {
                self.turn_left_side();
                self.turn_right();
            }
            Turns::Left => self.turn_left(),
            Turns::RightLeft => {
                self.turn_right_side();
                self.turn_left();
            }
        }
    }

    /// What brings the top back into balance.
    fn turns(&self) -> Turns {
        let Node::Fork(top) = &self.node else {
            return Turns::None;
        };
        let (left, right) = (top.left.height(), top.right.height());
        if left > right.saturating_add(1) {
            if top.left.leans_right() {
                Turns::LeftRight
            } else {
                Turns::Right
            }
        } else if right > left.saturating_add(1) {
            if top.right.leans_right() {
                Turns::Left
            } else {
                Turns::RightLeft
            }
        } else {
            Turns::None
        }
    }

    fn turn_left_side(&mut self)
        ensures { self.new ≡ self.old }
    {
        if let Node::Fork(top) = &mut self.node {
            top.left.turn_left();
        }
    }

    fn turn_right_side(&mut self)
        ensures { self.new ≡ self.old }
    {
        if let Node::Fork(top) = &mut self.node {
            top.right.turn_right();
        }
    }

    fn set_height(&mut self)
        ensures { self.new ≡ self.old }
    {
        if let Node::Fork(top) = &mut self.node {
            top.set_height();
        }
    }

    fn leans_right(&self) -> bool {
        match &self.node {
            Node::Leaf => false,
            Node::Fork(top) => top.right.height() > top.left.height(),
        }
    }

    /// The top of the right side becomes the top.
    fn turn_left(&mut self)
        ensures { self.new ≡ self.old }
    {
        if let Node::Fork(top) = mem::replace(&mut self.node, Node::Leaf) {
            self.node = Node::Fork(turned_left(top));
        }
    }

    /// The top of the left side becomes the top.
    fn turn_right(&mut self)
        ensures { self.new ≡ self.old }
    {
        if let Node::Fork(top) = mem::replace(&mut self.node, Node::Leaf) {
            self.node = Node::Fork(turned_right(top));
        }
    }
}

fn turned_left(mut top: Box<Fork>) -> Box<Fork>
    ensures { fork_numbers result.value ≡ fork_numbers top.value }
{
    match mem::replace(&mut top.right, Tree::new()).node {
        Node::Leaf => top,
        Node::Fork(mut pivot) => {
            top.right = mem::replace(&mut pivot.left, Tree::new());
            top.set_height();
            pivot.left = Tree {
                node: Node::Fork(top),
            };
            pivot.set_height();
            pivot
        }
    }
}

fn turned_right(mut top: Box<Fork>) -> Box<Fork>
    ensures { fork_numbers result.value ≡ fork_numbers top.value }
{
    match mem::replace(&mut top.left, Tree::new()).node {
        Node::Leaf => top,
        Node::Fork(mut pivot) => {
            top.left = mem::replace(&mut pivot.right, Tree::new());
            top.set_height();
            pivot.right = Tree {
                node: Node::Fork(top),
            };
            pivot.set_height();
            pivot
        }
    }
}

impl Fork {
    fn at_hand(alloc: Global) -> Result<Box<Fork>, NoMemory> {
        let fork = Box::new(
            alloc,
            Fork {
                left: Tree::new(),
                number: 0,
                height: 0,
                right: Tree::new(),
            },
        )?;
        Ok(fork)
    }

    fn set_height(&mut self)
        ensures { fork_numbers self.new ≡ fork_numbers self.old }
    {
        let below = self.left.height().max(self.right.height());
        self.height = below.saturating_add(1);
    }
}

/// Makes as many forks to be filled later as are wanted.
pub(crate) fn make_forks(
    alloc: Global,
    wanted: usize,
    forks: &mut Vec<Box<Fork>>,
) -> Result<(), NoMemory>
    ensures ok { OnOk result (wanted ≤ vec_len forks.new) }
    ensures no_fewer { vec_len forks.old ≤ vec_len forks.new }
    ensures no_more { vec_len forks.old ≤ wanted → vec_len forks.new ≤ wanted }
{
    'forks: while forks.len() < wanted {
        forks.push(Fork::at_hand(alloc)?)?;
    }
    Ok(())
}
