//! The law of what is written.

ghost use Rattle.std.specs.Prelude.{◌≡◌, List, ℕ, Option, Some, All, IsSome};
ghost use Rattle.ep_outside.specs.Disk.{Contents};
ghost use Rattle.ep_verdicts.specs.Lines.{lines_of};
ghost use Rattle.ep_verdicts.specs.Written.{AreVerdicts};
ghost use Rattle.ep_verify.specs.declared.verdict.Verdict.{Verdict};

/// A shelf that tells its names and its files has one text, so it is the same for any number of workers.
pub fn shelves_have_one_text()
    ensures { (names : List (List ℕ)) (told : List ℕ → Option Contents) (vs ws : List Verdict)
        → All (λ name. IsSome (told name)) names → AreVerdicts (Some names) told vs → AreVerdicts (Some names) told ws
        → lines_of vs ≡ lines_of ws }
{}
