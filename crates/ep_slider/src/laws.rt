//! The laws of slides, over the definitions that `slide` cites.

ghost use Rattle.std.specs.Prelude.{◌≡◌, ◌∷◌, List};
ghost use Rattle.ep_cs.specs.Doc.{Doc};
ghost use Rattle.ep_cs.specs.Edit.{apply};
ghost use Rattle.ep_cs.specs.Change.{Change};
ghost use Rattle.ep_cs.specs.Fits.{Fits};
ghost use Rattle.ep_cs.specs.Made.{AreMade, after_all};
ghost use Rattle.ep_apply.specs.Documents.{IsDocument};
ghost use Rattle.ep_slider.specs.Slides.{at_once, undone};

/// The one change for several fits the document, and makes of it what they make one after another.
pub fn slides_lead_on()
    ensures fits { (doc : Doc) (c : Change) (cs : List Change) → AreMade doc (c ∷ cs) → Fits (at_once doc c cs) doc }
    ensures ends { (doc : Doc) (c : Change) (cs : List Change) → AreMade doc (c ∷ cs) → apply (at_once doc c cs).edit doc ≡ after_all doc (c ∷ cs) }
{}

/// What undoes it gives the document back.
pub fn slides_take_back()
    ensures { (doc : Doc) (c : Change) → IsDocument doc → Fits c doc → apply (undone c doc).edit (apply c.edit doc) ≡ doc }
{}
