//! The laws of printing: what is printed is read as the same change.

ghost use Rattle.std.specs.Prelude.{◌≡◌, ◌≤◌, ◌<◌, ◌^◌, true, List, length, Ok};
ghost use Rattle.ep_attr.specs.AttrMap.{Pair};
ghost use Rattle.ep_cs.specs.Change.{Change, bank_of};
ghost use Rattle.ep_cs.specs.NormalRuns.{IsNormal};
ghost use Rattle.ep_cs.specs.Spelling.{old_len};
ghost use Rattle.ep_csread.specs.Reading.{reading, reading_attribs};
ghost use Rattle.ep_csread.specs.Spelling.{has_pairs, ops_text, pairs_named, printed};

/// What is printed is read as the same change, with a pool that has its pairs.
pub fn printed_is_read()
    ensures { (pool : List Pair) (c : Change) → length pool < 2 ^ 32 → has_pairs pool c.runs ≡ true → IsNormal c → reading pool (printed pool c) ≡ Ok c }
{}

/// What is printed for the wire is read as the same change, with the pool that goes with it.
pub fn wire_is_read()
    ensures { (c : Change) → length (pairs_named c.runs) < 2 ^ 32 → IsNormal c → reading (pairs_named c.runs) (printed (pairs_named c.runs) c) ≡ Ok c }
{}

/// A whole text is read again from its operations alone, with the pool that goes with them.
pub fn attribs_are_read()
    ensures { (c : Change) → length (pairs_named c.runs) < 2 ^ 32 → IsNormal c → old_len c.edit ≡ 0
        → reading_attribs (pairs_named c.runs) (bank_of c.edit) (ops_text (pairs_named c.runs) c.runs) ≡ Ok c }
{}
