//! An attribute map as its pairs.

ghost use Rattle.std.specs.Prelude.{◌≡◌, T, length, option_map, IfOk};
ghost use Rattle.std.specs.FinMap.Entries.{find, is_sorted};
ghost use Rattle.ep_units.specs.Text.{text_cmp};
ghost use Rattle.ep_attr.specs.AttrMap.{none, get, insert, of_pairs, pointwise, after, join, rest, has_first};
ghost use Rattle.ep_attr.specs.Attrs.{map_of_pairs, pairs_of};
ghost use Rattle.ep_attr.specs.Rule.{value_of};

use crate::walk::{Rule, merged};
use ep_units::{NoMemory, Units};
use std::alloc::Global;
use std::hash::{Hash, Hasher};
use std::marker::Model;
use std::sync::Arc;

// `insertorder`
const INSERT_ORDER: [u16; 11] = [105, 110, 115, 101, 114, 116, 111, 114, 100, 101, 114];

// `first`
const FIRST: [u16; 5] = [102, 105, 114, 115, 116];

/// A key and its value.
#[derive(Drop, PartialEq, Eq)]
pub struct Attr {
    pub key: Units,
    pub value: Units,
}

impl Hash for Attr {
    ghost use Rattle.ep_attr.specs.Equal.{attr_input, same_input};

    ghost hash_input = { attr_input };

    ghost respects_eq = { same_input };

    fn hash<H: Hasher>(&self, state: &mut H) {
        self.key.as_slice().hash(state);
        self.value.as_slice().hash(state);
    }
}

/// Pairs by strictly rising key, which copies share.
pub struct AttrMap {
    pairs: Option<Arc<Vec<Attr>>>,
}

impl Drop for AttrMap {
    fn drop(self) {
        let AttrMap { pairs: _ } = self;
    }
}

impl Model for AttrMap {
    ghost use Rattle.std.specs.Prelude.{◌≡◌, T};
    ghost use Rattle.std.specs.FinMap.Entries.{is_sorted};
    ghost use Rattle.ep_units.specs.Text.{text_cmp};
    ghost use Rattle.ep_attr.specs.AttrMap.{AttrMap as Map};
    ghost use Rattle.ep_attr.specs.Codes.{coded_map};

    ghost Value = { Map };

    ghost coded = { coded_map };

    ghost use Rattle.std.specs.Arc.{arc_value};
    ghost use Rattle.ep_attr.specs.Attrs.{held, map_of_pairs, pairs_of};

    ghost view = { λ m. map_of_pairs (pairs_of (held m.pairs (λ kept. (arc_value kept).items))) };

    ghost invariant = { λ m. T (is_sorted text_cmp (pairs_of (held m.pairs (λ kept. (arc_value kept).items)))) };
}

impl AttrMap {
    /// The map without pairs.
    pub fn none(_alloc: Global) -> AttrMap
        ensures { result ≡ none }
    {
        AttrMap { pairs: None }
    }

    /// The map of these pairs.
    fn kept(alloc: Global, pairs: Vec<Attr>) -> Result<AttrMap, NoMemory>
        requires { T (is_sorted text_cmp (pairs_of pairs.items)) }
        ensures { IfOk result (λ m. m ≡ map_of_pairs (pairs_of pairs.items)) }
    {
        Ok(AttrMap {
            pairs: Some(Arc::new(alloc, pairs)?),
        })
    }

    /// The same map again, in a time that doesn't depend on it.
    pub fn copy(&self, _alloc: Global) -> Result<AttrMap, NoMemory>
        ensures { IfOk result (λ m. m ≡ self.now) }
    {
        match &self.pairs {
            None => Ok(AttrMap { pairs: None }),
            Some(pairs) => Ok(AttrMap {
                pairs: Some(Arc::try_clone(pairs)?),
            }),
        }
    }

    /// The map of pairs in any order, the later value counting.
    pub fn read(alloc: Global, pairs: &[Attr]) -> Result<AttrMap, NoMemory>
        ensures { IfOk result (λ m. m ≡ of_pairs (pairs_of pairs.now)) }
    {
        match pairs {
            [] => Ok(AttrMap::none(alloc)),
            [pair] => AttrMap::one(alloc, pair),
            _ => {
                let (front, rear) = pairs.split_at(pairs.len() / 2);
                let front = AttrMap::read(alloc, front)?;
                let rear = AttrMap::read(alloc, rear)?;
                front.compose_change(alloc, &rear)
            }
        }
    }

    /// The map of one pair.
    fn one(alloc: Global, pair: &Attr) -> Result<AttrMap, NoMemory>
        ensures { IfOk result (λ m. m ≡ insert none pair.now.key pair.now.value) }
    {
        let key = pair.key.copy(alloc)?;
        let value = pair.value.copy(alloc)?;
        AttrMap::kept(alloc, vec![in alloc; Attr { key, value }]?)
    }

    /// The pairs by rising key.
    pub fn pairs(&self) -> &[Attr]
        ensures { pairs_of result.now ≡ self.now.pairs }
    {
        match &self.pairs {
            None => &[],
            Some(pairs) => pairs.as_slice(),
        }
    }

    /// The value of a key.
    pub fn get(&self, key: &[u16]) -> Option<&Units>
        ensures { option_map (λ value. value.now) result ≡ get self.now key.now }
    {
        find(self.pairs(), key)
    }

    /// Whether an insertion with this map comes first at its place.
    pub fn has_first(&self) -> bool
        ensures { result ≡ has_first self.now }
    {
        match self.get(&INSERT_ORDER) {
            None => false,
            Some(value) => FIRST.as_slice().cmp(value.as_slice()).is_eq(),
        }
    }

    /// The map of the values that the rule makes of the values in both maps.
    fn by_rule(&self, alloc: Global, rule: Rule, other: &AttrMap) -> Result<AttrMap, NoMemory>
        ensures { IfOk result (λ m. m ≡ pointwise (value_of rule) self.now other.now) }
    {
        let pairs = merged(alloc, rule, self.pairs(), other.pairs())?;
        AttrMap::kept(alloc, pairs)
    }

    /// A document's map after a change's, of which an empty value removes.
    pub fn apply_doc(&self, alloc: Global, change: &AttrMap) -> Result<AttrMap, NoMemory>
        ensures { IfOk result (λ m. m ≡ after self.now change.now) }
    {
        if change.is_none() {
            return self.copy(alloc);
        }
        self.by_rule(alloc, Rule::After, change)
    }

    /// Both maps, the later value counting.
    pub fn compose_change(&self, alloc: Global, later: &AttrMap) -> Result<AttrMap, NoMemory>
        ensures { IfOk result (λ m. m ≡ join self.now later.now) }
    {
        if later.is_none() {
            return self.copy(alloc);
        }
        if self.is_none() {
            return later.copy(alloc);
        }
        self.by_rule(alloc, Rule::Join, later)
    }
}

/// The value of the first pair with the key.
fn find<'a>(pairs: &'a [Attr], key: &[u16]) -> Option<&'a Units>
    ensures { option_map (λ value. value.now) result ≡ find text_cmp key.now (pairs_of pairs.now) }
{
    for pair in pairs {
        if key.cmp(pair.key.as_slice()).is_eq() {
            return Some(&pair.value);
        }
    }
    None
}

/// `b` without the keys that `a` sets to an equal or earlier value.
pub fn follow_change(alloc: Global, a: &AttrMap, b: &AttrMap) -> Result<AttrMap, NoMemory>
    ensures { IfOk result (λ m. m ≡ rest a.now b.now) }
{
    if a.is_none() {
        return b.copy(alloc);
    }
    a.by_rule(alloc, Rule::Rest, b)
}
