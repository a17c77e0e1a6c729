//! Maps on new units.

ghost use Rattle.std.specs.Prelude.{◌≡◌, ◌↔◌, [], Any, IsTrue, IfOk};
ghost use Rattle.ep_attr.specs.AttrMap.{none, after};

use ep_attr::{Attr, AttrMap};
use ep_units::NoMemory;
use std::alloc::Global;

/// A map as it stands on new units: without its empty values.
pub fn without_empty(alloc: Global, attrs: AttrMap) -> Result<AttrMap, NoMemory>
    ensures { IfOk result (λ m. m ≡ after none attrs) }
{
    if has_empty(attrs.pairs()) {
        AttrMap::none(alloc).apply_doc(alloc, &attrs)
    } else {
        Ok(attrs)
    }
}

/// Whether a value is empty.
fn has_empty(pairs: &[Attr]) -> bool
    ensures { IsTrue result ↔ Any (λ a. a.value ≡ []) pairs.now }
{
    pairs.iter().any(|pair| pair.value.is_empty())
}
