//! What the definitions of steps imply.

ghost use Rattle.std.specs.Prelude.{◌≡◌, ℕ, IfOk, List};
ghost use Rattle.ep_cs.specs.Doc.{Doc};
ghost use Rattle.ep_timeslider.specs.Steps.{AreStepsOf, walked};
ghost use Rattle.ep_timeslider.specs.declared.slider.Place.{Place as AnyPlace};
ghost use Rattle.ep_timeslider.specs.declared.slider.Step.{Step as AnyStep};

/// From a document of a history, steps of that history lead to documents of it.
pub fn the_way_stays_in_the_history()
    ensures { (docs : ℕ → Doc) (to : ℕ) (steps : List AnyStep) (at : AnyPlace) → AreStepsOf docs steps → at.doc ≡ docs at.rev → IfOk (walked to steps at) (λ place. place.doc ≡ docs place.rev) }
{}
