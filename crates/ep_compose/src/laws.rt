//! The laws of compositions, over the changes that `compose` answers.

ghost use Rattle.std.specs.Prelude.{◌≡◌, length};
ghost use Rattle.ep_cs.specs.Doc.{Doc};
ghost use Rattle.ep_cs.specs.Edit.{IsSettled, apply, identity, items};
ghost use Rattle.ep_cs.specs.Change.{Change};
ghost use Rattle.ep_cs.specs.Fits.{Fits};
ghost use Rattle.ep_cs.specs.NormalRuns.{IsNormal};
ghost use Rattle.ep_compose.specs.Composed.{composed};

/// A composition does to a document what the two changes do one after the other.
pub fn composed_does_both()
    ensures { (a b : Change) (doc : Doc) → Fits a doc → Fits b (apply a.edit doc) → apply (composed a b doc).edit doc ≡ apply b.edit (apply a.edit doc) }
{}

/// Three changes may be grouped either way.
pub fn composed_either_way()
    ensures { (a b c : Change) (doc : Doc) → Fits a doc → Fits b (apply a.edit doc) → Fits c (apply b.edit (apply a.edit doc))
        → composed (composed a b doc) c doc ≡ composed a (composed b c (apply a.edit doc)) doc }
{}

/// A change composed with one that alters nothing, on either side, is that change.
pub fn composed_with_identity()
    ensures left { (e a : Change) (doc : Doc) → IsNormal a → Fits a doc → e.edit ≡ identity (length doc) → composed e a doc ≡ a }
    ensures right { (a e : Change) (doc : Doc) → IsNormal a → Fits a doc → e.edit ≡ identity (length (apply a.edit doc)) → composed a e doc ≡ a }
{}
