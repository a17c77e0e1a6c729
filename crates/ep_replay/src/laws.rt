//! What replayed revisions are.

ghost use Rattle.std.specs.Prelude.{◌≡◌, ◌∷◌, [], false, List};
ghost use Rattle.ep_history.specs.History.{lacks_newline, made, newline};
ghost use Rattle.ep_history.specs.declared.rev.Rev.{Rev};
ghost use Rattle.ep_past.specs.Revisions.{AreRevisions};
ghost use Rattle.ep_replay.specs.Standing.{AllStand};

/// Revisions that each may stand behind those before them are a birth's, where the last leaves a final newline.
pub fn standing_revisions_are_a_births()
    ensures { (v : Rev) (vs : List Rev) → AllStand [] (v ∷ vs) → lacks_newline (made newline (v ∷ vs)) ≡ false → AreRevisions (v ∷ vs) }
{}
