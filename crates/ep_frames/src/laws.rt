//! The laws of key frames.

ghost use Rattle.std.specs.Prelude.{◌≡◌, ◌↔◌, ◌<◌, ◌+◌, ◌%◌, ℕ, List, None, Some, length};
ghost use Rattle.ep_cs.specs.Doc.{Doc};
ghost use Rattle.ep_cs.specs.Change.{Change};
ghost use Rattle.ep_frames.specs.Frames.{last_due, IsLastDue};

/// The frame of a step is exactly the document after the last of its revisions at which one is due.
pub fn last_due_is_the_last()
    ensures { (spacing r : ℕ) (doc d : Doc) (cs : List Change) → (last_due spacing r doc cs ≡ Some d) ↔ IsLastDue spacing r doc cs d }
{}

/// A step has no frame exactly where the number of none of its revisions is divisible by the spacing.
pub fn none_is_due()
    ensures { (spacing r : ℕ) (doc : Doc) (cs : List Change) → (last_due spacing r doc cs ≡ None)
        ↔ ((i : ℕ) → i < length cs → (r + i) % spacing ≡ 0 → ⊥) }
{}
