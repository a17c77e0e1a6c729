//! The laws of inverses and paintings, over the definitions that the calls cite.

ghost use Rattle.std.specs.Prelude.{◌≡◌, ◌↔◌, ℕ, ◌+◌, ◌≤◌, ◌++◌, None, map, length, take, drop};
ghost use Rattle.ep_units.specs.Text.{Text};
ghost use Rattle.ep_attr.specs.AttrMap.{AttrMap, none, get, after};
ghost use Rattle.ep_cs.specs.Doc.{Doc, painted};
ghost use Rattle.ep_cs.specs.Edit.{Edit, apply, compose, identity, items};
ghost use Rattle.ep_apply.specs.Documents.{IsDocument};
ghost use Rattle.ep_invert.specs.Paint.{paint};
ghost use Rattle.ep_invert.specs.Inverse.{inverse, restoring, undone_items};

/// An inverse gives the document back.
pub fn inverse_undoes()
    ensures { (e : Edit) (doc : Doc) → length doc ≡ length e.places → IsDocument doc → apply (inverse e doc) (apply e doc) ≡ doc }
{}

/// Together with its inverse an edit keeps what it keeps, and makes new what it drops.
pub fn inverse_keeps_what_was_kept()
    ensures { (e : Edit) (doc : Doc) → length doc ≡ length e.places → items (compose e (inverse e doc)) ≡ undone_items 0 e.places doc }
{}

/// What restores a document's map after a change's has just the keys whose value was altered.
pub fn restores_what_was_altered()
    ensures { (m c : AttrMap) (key : Text) → m ≡ after none m → (get (restoring m c) key ≡ None) ↔ (get (after m c) key ≡ get m key) }
{}

/// A painting keeps each unit, and sets the attributes on those of a stretch.
pub fn paint_sets_attributes()
    ensures length { (n at count : ℕ) (m : AttrMap) → at + count ≤ n → length (paint n at count m).places ≡ n }
    ensures nothing { (n at : ℕ) (m : AttrMap) → at ≤ n → paint n at 0 m ≡ identity n }
    ensures document { (at count : ℕ) (m : AttrMap) (doc : Doc) → at + count ≤ length doc
        → apply (paint (length doc) at count m) doc ≡ take at doc ++ (map (λ c. painted c m) (take count (drop at doc)) ++ drop (at + count) doc) }
{}
