//! The map that gives a document's map back after a change's.

ghost use Rattle.std.specs.Prelude.{◌≡◌, ◌++◌, [], option_map, Some, OnOk, IfOk};
ghost use Rattle.ep_attr.specs.AttrMap.{get};
ghost use Rattle.ep_attr.specs.Attrs.{pairs_of};
ghost use Rattle.ep_attr.specs.Merged.{given};
ghost use Rattle.ep_invert.specs.Inverse.{value_back, restoring};

use ep_attr::{Attr, AttrMap};
use ep_units::{NoMemory, Units};
use std::alloc::Global;

/// The value that gives a value of a document back after a change's.
fn value_back<'a>(old: Option<&'a Units>, new: &Units) -> Option<&'a [u16]>
    ensures { option_map (λ v. v.now) result ≡ value_back (option_map (λ v. v.now) old.entry) (Some new.now) }
{
    match old {
        None => { if new.is_empty() { None } else { Some(&[]) } }
        Some(value) => {
            if *value == *new {
                None
            } else {
                Some(value.as_slice())
            }
        }
    }
}

/// Appends the pair that gives the value of a pair's key back, where it was altered.
fn put_back(
    alloc: Global,
    attrs: &AttrMap,
    pair: &Attr,
    made: &mut Vec<Attr>,
) -> Result<(), NoMemory>
    ensures { OnOk result (pairs_of made.new.items ≡ pairs_of made.old.items ++ given pair.now.key (value_back (get attrs.now pair.now.key) (Some pair.now.value)) []) }
{
    match value_back(attrs.get(pair.key.as_slice()), &pair.value) {
        None => Ok(()),
        Some(value) => {
            let key = pair.key.copy(alloc)?;
            let value = Units::from_slice(alloc, value)?;
            made.push(Attr { key, value })?;
            Ok(())
        }
    }
}

/// The map that gives a document's map back after a change's.
pub fn restoring(alloc: Global, attrs: &AttrMap, change: &AttrMap) -> Result<AttrMap, NoMemory>
    ensures { IfOk result (λ m. m ≡ restoring attrs.now change.now) }
{
    let mut made = Vec::new(alloc);
    for pair in change.pairs() {
        put_back(alloc, attrs, pair, &mut made)?;
    }
    AttrMap::read(alloc, &made)
}
