//! The law that ties revisions to the history of a pad.

ghost use Rattle.std.specs.Prelude.{◌≡◌, ◌∷◌, ℕ, Some};
ghost use Rattle.ep_history.specs.History.{Birth, doc_at, head, head_doc};
ghost use Rattle.ep_revs.specs.Revisions.{doc_of, head_of, last_doc};

/// The documents of a birth's revisions, revision 0 first, are the birth's.
pub fn documents_of_a_birth()
    ensures each { (b : Birth) (r : ℕ) → doc_of (b.first ∷ b.later) r ≡ doc_at b r }
    ensures last { (b : Birth) → last_doc (b.first ∷ b.later) ≡ head_doc b }
    ensures head { (b : Birth) → head_of (b.first ∷ b.later) ≡ Some (head b) }
{}
