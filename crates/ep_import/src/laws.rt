//! What a birth's revisions are to those who write and read them.

ghost use Rattle.std.specs.Prelude.{◌≡◌, ◌≤◌, ℕ, Bool, List, length, Result, Ok, Some};
ghost use Rattle.serde_json.specs.Read.{read};
ghost use Rattle.ep_units.specs.Text.{Text};
ghost use Rattle.ep_cs.specs.Made.{AreMade};
ghost use Rattle.ep_export.specs.Exported.{changes_of, exported};
ghost use Rattle.ep_history.specs.History.{newline};
ghost use Rattle.ep_history.specs.declared.rev.Rev.{Rev};
ghost use Rattle.ep_past.specs.Revisions.{AreRevisions};
ghost use Rattle.ep_import.specs.declared.bad.ImportBad.{ImportBad};
ghost use Rattle.ep_import.specs.Imported.{Imports, Said, most_bytes};
ghost use Rattle.ep_import.specs.Kept.{AreKept};

/// A birth's revisions can be exported: there is one, and each fits the document before it.
pub fn births_can_be_exported()
    ensures { (vs : List Rev) → AreRevisions vs → (1 ≤ length vs) × AreMade newline (changes_of vs) }
{}

/// No text has two answers.
pub fn a_text_has_one_answer()
    ensures { (id : Text) (text : List ℕ) (a b : Result Said ImportBad) → Imports id text a → Imports id text b → a ≡ b }
{}

/// A history that is exported is imported as it was, where its text is within the limit.
pub fn an_export_is_imported()
    ensures { (id : Text) (vs : List Rev) (public : Bool) (text : List ℕ) → AreRevisions vs → AreKept vs
        → read text ≡ Some (exported id vs public) → length text ≤ most_bytes → Imports id text (Ok (record { revs = vs; public = public })) }
{}
