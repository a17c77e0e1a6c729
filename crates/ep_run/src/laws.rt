//! The law of a script.

ghost use Rattle.std.specs.Prelude.{◌≡◌, ℕ, List};
ghost use Rattle.ep_units.specs.Text.{Text};
ghost use Rattle.ep_run.specs.Play.{IsTranscript};

/// A script has one transcript, and ends with one status.
pub fn one_transcript()
    ensures { (id : Text) (script out other : List ℕ) (status code : ℕ) → IsTranscript id script out status → IsTranscript id script other code
        → (out ≡ other) × (status ≡ code) }
{}
