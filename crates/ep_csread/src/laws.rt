//! The laws of reading, over the definitions that the calls cite.

ghost use Rattle.std.specs.Prelude.{◌≡◌, ◌↔◌, ℕ, List, Ok, Err};
ghost use Rattle.ep_units.specs.Text.{Text};
ghost use Rattle.ep_attr.specs.AttrMap.{Pair};
ghost use Rattle.ep_cs.specs.Change.{Change};
ghost use Rattle.ep_csread.specs.Grammar.{Spells, SpellsText, SyntaxEnds};
ghost use Rattle.ep_csread.specs.declared.bad.ReadBad.TheVariants.{Syntax};
ghost use Rattle.ep_csread.specs.Reading.{reading, reading_attribs};

/// A change is read exactly where the text spells it.
pub fn read_where_spelled()
    ensures text { (pool : List Pair) (text : Text) (c : Change) → (reading pool text ≡ Ok c) ↔ Spells pool text c }
    ensures attribs { (pool : List Pair) (text attribs : Text) (c : Change)
        → (reading_attribs pool text attribs ≡ Ok c) ↔ SpellsText pool text attribs c }
{}

/// No text spells two changes with one pool.
pub fn one_change_is_spelled()
    ensures text { (pool : List Pair) (text : Text) (c d : Change) → Spells pool text c → Spells pool text d → c ≡ d }
    ensures attribs { (pool : List Pair) (text attribs : Text) (c d : Change)
        → SpellsText pool text attribs c → SpellsText pool text attribs d → c ≡ d }
{}

/// Where a text is refused by its syntax, some changeset text begins with the units before the place, and
/// none with those up to and with it.
pub fn syntax_ends_there()
    ensures { (pool : List Pair) (text : Text) (at : ℕ) → reading pool text ≡ Err (Syntax at) → SyntaxEnds text at }
{}
