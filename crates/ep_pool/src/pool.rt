//! The pool and its calls.

ghost use Rattle.std.specs.Prelude.{◌≡◌, ◌+◌, ◌≤◌, ◌<◌, true, false, [], ◌∷◌, ◌++◌, length, option_map, position, slice_get, vec_capacity, vec_len, ◌↔◌, IsOk, IsTrue, OnOk};
ghost use Rattle.std.specs.List.{IsDistinct};
ghost use Rattle.std.proofs.Props.{props};
ghost use Rattle.ep_attr.specs.Attrs.{pairs_of};
ghost use Rattle.ep_pool.specs.Index.{AreWhole, are_within, is_rising};
ghost use Rattle.ep_pool.specs.Pool.{has, most_pairs, number_of, pair_of, put, same_attr, same_pair};

use crate::tree::{Fork, Tree, make_forks};
use ep_attr::Attr;
use ep_units::NoMemory;
use std::alloc::Global;
use std::marker::Model;

/// How many attributes a pool has at most.
const MOST_ATTRS: u32 = u32::MAX;

/// Distinct attributes, numbered from 0.
pub struct Pool {
    attrs: Vec<Attr>,
    numbers: Tree,
    // as many as attributes can be put without memory
    at_hand: Vec<Box<Fork>>,
    ghost distinct: { IsDistinct same_attr attrs.items } by { Prim.hlevel props },
    ghost few: { length attrs.items ≤ most_pairs },
    ghost within: { are_within (length attrs.items) numbers ≡ true },
    ghost rising: { is_rising (pairs_of attrs.items) numbers ≡ true },
    ghost whole: { AreWhole (length attrs.items) numbers } by { Prim.hlevel props },
    ghost room: { vec_len at_hand + vec_len attrs ≤ vec_capacity attrs },
}

impl Drop for Pool {
    fn drop(self) {
        let Pool {
            attrs: _,
            numbers: _,
            at_hand: _,
        } = self;
    }
}

impl Model for Pool {
    ghost use Rattle.std.specs.Prelude.{◌≡◌, vec_len};
    ghost use Rattle.ep_attr.specs.Attrs.{pairs_of};
    ghost use Rattle.ep_pool.specs.Pool.{Pool as Pairs, coded_pool, distinct_pairs};

    ghost Value = { Pairs };

    ghost coded = { coded_pool };

    ghost view = { λ p. record { pairs = pairs_of p.attrs.items; spare = vec_len p.at_hand; distinct = distinct_pairs p.attrs.items p.distinct } };
}

impl Pool {
    /// The pool without attributes.
    pub fn new(alloc: Global) -> Pool
        ensures { result.pairs ≡ [] }
    {
        Pool {
            attrs: Vec::new(alloc),
            numbers: Tree::new(),
            at_hand: Vec::new(alloc),
        }
    }

    /// Makes room for so many more attributes.
    pub fn reserve(&mut self, n: u32) -> Result<(), NoMemory>
        ensures pairs { self.new.pairs ≡ self.old.pairs }
        ensures room { OnOk result (n ≤ self.new.spare) }
        ensures keeps_room { self.old.spare ≤ self.new.spare }
        ensures enough { n ≤ self.old.spare → IsOk result }
    {
        let wanted = n as usize;
        if self.at_hand.len() < wanted {
            self.attrs.reserve(wanted)?;
            let alloc = *self.attrs.allocator();
            make_forks(alloc, wanted, &mut self.at_hand)?;
        }
        Ok(())
    }

    /// The number of the attribute, which goes to the end where it isn't there.
    pub fn put(&mut self, attr: Attr) -> u32
        requires room { has self.old.pairs (pair_of attr) ≡ false → 1 ≤ self.old.spare }
        requires few { has self.old.pairs (pair_of attr) ≡ false → length self.old.pairs < most_pairs }
        ensures number { result ≡ number_of self.old.pairs (pair_of attr) }
        ensures pairs { self.new.pairs ≡ put self.old.pairs (pair_of attr) }
        ensures spare { self.old.spare ≤ self.new.spare + 1 }
    {
        match self.find(&attr) {
            Some(number) => number,
            None => self.append(attr),
        }
    }

    fn append(&mut self, attr: Attr) -> u32
        requires new { has self.old.pairs (pair_of attr) ≡ false }
        requires room { 1 ≤ self.old.spare }
        requires few { length self.old.pairs < most_pairs }
        ensures number { result ≡ length self.old.pairs }
        ensures pairs { self.new.pairs ≡ self.old.pairs ++ pair_of attr ∷ [] }
        ensures spare { self.old.spare ≤ self.new.spare + 1 }
    {
        let number = self.attrs.len() as u32;
        let fork = self.at_hand.pop().unwrap();
        self.attrs.push(attr).unwrap();
        self.numbers.insert(&self.attrs, number, fork);
        number
    }

    /// The attribute with that number.
    pub fn get(&self, n: u32) -> Option<&Attr>
        ensures { option_map (λ a. pair_of a.now) result ≡ slice_get self.now.pairs n }
    {
        self.attrs.get(n as usize)
    }

    /// The number of the attribute, where it is there.
    pub fn find(&self, attr: &Attr) -> Option<u32>
        ensures { result ≡ position (same_pair (pair_of attr.now)) self.now.pairs }
    {
        self.numbers.find(&self.attrs, attr)
    }

    /// The attributes in the order of their numbers.
    pub(crate) fn attrs(&self) -> &[Attr]
        ensures { pairs_of result.now ≡ self.now.pairs }
    {
        self.attrs.as_slice()
    }

    /// Whether it can number one more attribute.
    pub fn can_number_more(&self) -> bool
        ensures { IsTrue result ↔ (length self.now.pairs < most_pairs) }
    {
        self.len() < MOST_ATTRS
    }

    /// How many attributes there are.
    pub fn len(&self) -> u32
        ensures { result ≡ length self.now.pairs }
    {
        self.attrs.len() as u32
    }
}
