//! The laws of undo, over the definitions that the calls cite.

ghost use Rattle.std.specs.Prelude.{◌≡◌, ◌≤◌, true, false, List, ◌++◌, ◌∷◌, [], length, reverse, drop, Some};
ghost use Rattle.ep_units.specs.Text.{Text};
ghost use Rattle.ep_attr.specs.AttrMap.{AttrMap, get};
ghost use Rattle.ep_cs.specs.Edit.{Edit};
ghost use Rattle.ep_cs.specs.EditFits.{fits};
ghost use Rattle.ep_cs.specs.Fits.{is_identity};
ghost use Rattle.ep_apply.specs.Documents.{IsDocument};
ghost use Rattle.ep_history.specs.Kept.{IsKeptSound};
ghost use Rattle.ep_undo.specs.Calls.{Call, all_called, all_undone, changes_heard, views_again, views_back, views_before, AreLater, AreQuiet};
ghost use Rattle.ep_undo.specs.Taken.{TakesBack};
ghost use Rattle.ep_undo.specs.Tracing.{left_of, still};
ghost use Rattle.ep_undo.specs.Undo.{UndoState, top, undo_edited};

/// As long as nothing was heard of others, and nothing was taken back, undos show the views before the edits that altered
/// something, the last one first, and then as many redos show the views again: for up to 100 edits.
pub fn edits_are_taken_back_and_made_again()
    ensures back { (calls : List Call) (s : UndoState) → IsDocument s.client.view → AreQuiet calls s → length (views_before calls s) ≤ 100
        → views_back (length (views_before calls s)) (all_called calls s) ≡ reverse (views_before calls s) }
    ensures again { (calls : List Call) (s : UndoState) → IsDocument s.client.view → AreQuiet calls s → length (views_before calls s) ≤ 100
        → views_again (length (views_before calls s)) (all_undone (length (views_before calls s)) (all_called calls s))
        ≡ drop 1 (views_before calls s ++ (all_called calls s).client.view ∷ []) }
{}

/// After an edit that altered something, whatever was heard since, with no other such edit and nothing taken back: what is
/// taken back drops just the units that the edit inserted and that still stand, keeps every other one, and inserts just the
/// units that the edit dropped, with their attributes.
pub fn only_the_edit_is_taken_back()
    ensures { (e : Edit) (calls : List Call) (s : UndoState) → IsKeptSound s.client → fits e s.client.view ≡ true → is_identity e ≡ false
        → AreLater calls (undo_edited e s)
        → (u : Edit) × (top (all_called calls (undo_edited e s)).undos ≡ Some u) × TakesBack e s.client.view (changes_heard calls (undo_edited e s)) u }
{}

/// A key that the inverse of the edit sets on a unit is set exactly where nothing that was heard set it there to an equal or
/// earlier value.
pub fn keys_stay_where_others_set_them()
    ensures { (u : AttrMap) (heard : List AttrMap) (key : Text) → get (left_of u heard) key ≡ still heard key (get u key) }
{}
