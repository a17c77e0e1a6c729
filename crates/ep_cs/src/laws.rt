//! The laws of edits, over the definitions that every call on changes cites.

ghost use Rattle.std.specs.Prelude.{◌≡◌, ℕ, ◌+◌, ◌≤◌, Bool, true, not, List, [], ◌++◌, length, take, drop, None};
ghost use Rattle.ep_units.specs.Text.{Text, is_well_formed};
ghost use Rattle.ep_cs.specs.Doc.{Cell, Doc, text_of};
ghost use Rattle.ep_cs.specs.Edit.{Edit, IsSettled, apply, compose, identity, items, apply_items};
ghost use Rattle.ep_cs.specs.Change.{Change, stamped};
ghost use Rattle.ep_cs.specs.Fits.{Fits, ArePieces, keeps_pairs, is_identity};
ghost use Rattle.ep_cs.specs.EditFits.{fits};
ghost use Rattle.ep_cs.specs.Fitting.{fit_bad};
ghost use Rattle.ep_cs.specs.NormalRuns.{IsNormal};
ghost use Rattle.ep_cs.specs.Plain.{plain};
ghost use Rattle.ep_cs.specs.Splice.{splice};
ghost use Rattle.ep_cs.specs.Follow.{follow, merge};

/// A composition does to a document what the two edits do one after the other.
pub fn composed_is_both()
    ensures { (a b : Edit) (doc : Doc) → length doc ≡ length a.places → apply (compose a b) doc ≡ apply b (apply a doc) }
{}

/// In a composition each place of the first result stands for the item there.
pub fn composed_by_items()
    ensures { (a b : Edit) → items (compose a b) ≡ apply_items b (items a) }
{}

/// A composition is settled, and settled edits of as many units with the same items are equal.
pub fn known_by_items()
    ensures settled { (a b : Edit) → IsSettled (compose a b) }
    ensures length { (a b : Edit) → length (compose a b).places ≡ length a.places }
    ensures one { (a b : Edit) → IsSettled a → IsSettled b → length a.places ≡ length b.places → items a ≡ items b → a ≡ b }
{}

/// Composition may be grouped either way.
pub fn composed_in_any_grouping()
    ensures { (a b c : Edit) → length (items a) ≡ length b.places → compose (compose a b) c ≡ compose a (compose b c) }
{}

/// The identity is a unit on both sides.
pub fn identity_is_unit()
    ensures left { (b : Edit) → IsSettled b → compose (identity (length b.places)) b ≡ b }
    ensures right { (a : Edit) → IsSettled a → compose a (identity (length (items a))) ≡ a }
{}

/// The identity leaves a document as it is, and no other edit counts as one.
pub fn identity_changes_nothing()
    ensures applied { (doc : Doc) → apply (identity (length doc)) doc ≡ doc }
    ensures itself { (n : ℕ) → is_identity (identity n) ≡ true }
    ensures one { (e : Edit) → is_identity e ≡ true → e ≡ identity (length e.places) }
{}

/// A splice puts its piece in the place of a stretch.
pub fn splice_replaces()
    ensures length { (n at count : ℕ) (piece : List Cell) → at + count ≤ n → length (splice n at count piece).places ≡ n }
    ensures nothing { (n at : ℕ) → at ≤ n → splice n at 0 [] ≡ identity n }
    ensures document { (at count : ℕ) (piece : List Cell) (doc : Doc) → at + count ≤ length doc
        → apply (splice (length doc) at count piece) doc ≡ take at doc ++ (piece ++ drop (at + count) doc) }
    ensures text { (at : ℕ) (piece text : Text) → at ≤ length text
        → apply (splice (length text) at 0 (plain piece)) (plain text) ≡ plain (take at text ++ (piece ++ drop at text)) }
{}

/// A text without attributes is known by its units.
pub fn plain_is_its_text()
    ensures { (text : Text) → text_of (plain text) ≡ text }
{}

/// Two edits of one document meet, whichever is taken first.
pub fn followed_either_way()
    ensures merged { (side : Bool) (a b : Edit) → length a.places ≡ length b.places → compose a (follow side a b) ≡ merge side a b }
    ensures diamond { (side : Bool) (a b : Edit) → length a.places ≡ length b.places → compose a (follow side a b) ≡ compose b (follow (not side) b a) }
{}

/// Neither a composition nor what follows cuts a pair that the two edits don't cut.
pub fn pairs_are_kept()
    ensures composed { (a b : Edit) (doc : Doc) → length doc ≡ length a.places
        → keeps_pairs a.places (text_of doc) ≡ true → keeps_pairs b.places (text_of (apply a doc)) ≡ true
        → keeps_pairs (compose a b).places (text_of doc) ≡ true }
    ensures followed { (side : Bool) (a b : Edit) (doc : Doc)
        → length a.places ≡ length b.places → length doc ≡ length a.places → ArePieces a.places a.last
        → keeps_pairs a.places (text_of doc) ≡ true → keeps_pairs b.places (text_of doc) ≡ true
        → keeps_pairs (follow side a b).places (text_of (apply a doc)) ≡ true }
{}

/// A text stays well-formed under an edit that inserts texts and cuts no pair.
pub fn texts_stay_well_formed()
    ensures { (e : Edit) (doc : Doc) → length doc ≡ length e.places → ArePieces e.places e.last
        → keeps_pairs e.places (text_of doc) ≡ true → is_well_formed (text_of doc) ≡ true
        → is_well_formed (text_of (apply e doc)) ≡ true }
{}

/// A change that fits a document is known by what it does there.
pub fn fitting_is_stamped()
    ensures { (c : Change) (doc : Doc) → Fits c doc → c ≡ stamped c.edit (text_of doc) }
{}

/// Edits that can be made of a document stay so: their composition, and what follows.
pub fn fitting_edits_stay()
    ensures composed { (a b : Edit) (doc : Doc) → fits a doc ≡ true → fits b (apply a doc) ≡ true → fits (compose a b) doc ≡ true }
    ensures followed { (side : Bool) (a b : Edit) (doc : Doc) → fits a doc ≡ true → fits b doc ≡ true → fits (follow side a b) (apply a doc) ≡ true }
{}

/// A change is refused for no reason exactly where it fits.
pub fn refused_where_it_does_not_fit()
    ensures { (c : Change) (doc : Doc) → IsNormal c → (Fits c doc → fit_bad c doc ≡ None) × (fit_bad c doc ≡ None → Fits c doc) }
{}
