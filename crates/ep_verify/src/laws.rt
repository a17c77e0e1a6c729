//! The law of verdicts.

ghost use Rattle.std.specs.Prelude.{◌≡◌, List, ℕ};
ghost use Rattle.ep_verify.specs.Verdicts.{IsWhat};
ghost use Rattle.ep_verify.specs.declared.verdict.What.{What};

/// A file has one verdict, so the verdicts on files are those of one thread.
pub fn files_have_one_verdict()
    ensures { (file : List ℕ) (v w : What) → IsWhat file v → IsWhat file w → v ≡ w }
{}
