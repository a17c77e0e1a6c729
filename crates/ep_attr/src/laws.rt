//! The laws of attribute maps, over the definitions that every call on them cites.

ghost use Rattle.std.specs.Prelude.{◌≡◌, if◌then◌else◌, List, [], ◌∷◌, ◌++◌, Some};
ghost use Rattle.ep_units.specs.Text.{Text, text_eq};
ghost use Rattle.ep_attr.specs.AttrMap.{AttrMap, Pair, none, get, of_pairs, value_after, later_value, earlier_value, value_left, after, join, early, rest};

/// Maps with the same value at each key are equal.
pub fn known_by_values()
    ensures { (m n : AttrMap) → ((key : Text) → get m key ≡ get n key) → m ≡ n }
{}

/// The value at a key of what the operations make.
pub fn values_of_maps()
    ensures after { (m c : AttrMap) (key : Text) → get (after m c) key ≡ value_after (get m key) (get c key) }
    ensures join { (c d : AttrMap) (key : Text) → get (join c d) key ≡ later_value (get c key) (get d key) }
    ensures early { (a b : AttrMap) (key : Text) → get (early a b) key ≡ earlier_value (get a key) (get b key) }
    ensures rest { (a b : AttrMap) (key : Text) → get (rest a b) key ≡ value_left (get a key) (get b key) }
{}

/// Of pairs with one key the last counts, parts are joined, and a map's own pairs make it again.
pub fn made_of_pairs()
    ensures last { (pairs : List Pair) (key value at : Text) → get (of_pairs (pairs ++ (key, value) ∷ [])) at
        ≡ (if text_eq at key then Some value else get (of_pairs pairs) at) }
    ensures parts { (front rear : List Pair) → of_pairs (front ++ rear) ≡ join (of_pairs front) (of_pairs rear) }
    ensures again { (m : AttrMap) → of_pairs m.pairs ≡ m }
{}

/// Joining may be grouped either way.
pub fn joined_in_any_grouping()
    ensures { (a b c : AttrMap) → join (join a b) c ≡ join a (join b c) }
{}

/// The empty map changes nothing, and nothing follows from it.
pub fn change_after_none()
    ensures after { (m : AttrMap) → after m none ≡ m }
    ensures join_left { (m : AttrMap) → join none m ≡ m }
    ensures join_right { (m : AttrMap) → join m none ≡ m }
    ensures rest_left { (m : AttrMap) → rest none m ≡ m }
    ensures rest_right { (m : AttrMap) → rest m none ≡ none }
{}

/// A document after two changes is after their join.
pub fn changes_made_one()
    ensures { (m c d : AttrMap) → after (after m c) d ≡ after m (join c d) }
{}

/// Two changes meet, whichever is taken first: at each key the earlier value counts.
pub fn follow_meets()
    ensures early { (a b : AttrMap) → join a (rest a b) ≡ early a b }
    ensures turned { (a b : AttrMap) → early a b ≡ early b a }
    ensures diamond { (a b : AttrMap) → join a (rest a b) ≡ join b (rest b a) }
{}
