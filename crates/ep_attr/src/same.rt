//! Equality of attribute maps.

ghost use Rattle.std.specs.Prelude.{◌≡◌};
ghost use Rattle.std.specs.Cmp.{partial_equiv_from_equiv};
ghost use Rattle.ep_attr.specs.AttrMap.{is_none, same_map};
ghost use Rattle.ep_attr.specs.Equal.{same_map_equiv};

use crate::attr_map::AttrMap;

impl PartialEq for AttrMap {
    ghost eq = { same_map };

    ghost laws = { partial_equiv_from_equiv same_map_equiv };

    fn eq(&self, other: &AttrMap) -> bool {
        match (self.pairs(), other.pairs()) {
            ([], []) => true,
            (pairs, others) => pairs == others,
        }
    }
}

impl Eq for AttrMap {
    ghost laws = { same_map_equiv };
}

impl AttrMap {
    /// Whether the map has no pairs.
    pub fn is_none(&self) -> bool
        ensures { result ≡ is_none self.now }
    {
        match self.pairs() {
            [] => true,
            [_, ..] => false,
        }
    }
}
