//! The laws of changes that follow others.

ghost use Rattle.std.specs.Prelude.{◌≡◌};
ghost use Rattle.ep_cs.specs.Doc.{Doc, text_of};
ghost use Rattle.ep_cs.specs.Edit.{apply, compose};
ghost use Rattle.ep_cs.specs.Change.{Change, stamped};
ghost use Rattle.ep_cs.specs.Fits.{Fits};
ghost use Rattle.ep_cs.specs.declared.bad.First.TheVariants as first;
ghost use Rattle.ep_follow.specs.Follows.{Follows};

/// Two changes of one document meet, whichever is taken first, where both followers name the same side: each and then
/// what follows it are one change.
pub fn followers_meet()
    ensures a_first { (a b f g : Change) (doc : Doc) → Fits a doc → Fits b doc → Follows first.A a b f → Follows first.B b a g
        → stamped (compose a.edit f.edit) (text_of doc) ≡ stamped (compose b.edit g.edit) (text_of doc) }
    ensures b_first { (a b f g : Change) (doc : Doc) → Fits a doc → Fits b doc → Follows first.B a b f → Follows first.A b a g
        → stamped (compose a.edit f.edit) (text_of doc) ≡ stamped (compose b.edit g.edit) (text_of doc) }
{}

/// Both ways lead to one document.
pub fn documents_meet()
    ensures a_first { (a b f g : Change) (doc : Doc) → Fits a doc → Fits b doc → Follows first.A a b f → Follows first.B b a g
        → apply f.edit (apply a.edit doc) ≡ apply g.edit (apply b.edit doc) }
    ensures b_first { (a b f g : Change) (doc : Doc) → Fits a doc → Fits b doc → Follows first.B a b f → Follows first.A b a g
        → apply f.edit (apply a.edit doc) ≡ apply g.edit (apply b.edit doc) }
{}
