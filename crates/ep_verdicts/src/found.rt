//! What verdicts come to.

ghost use Rattle.std.specs.Prelude.{◌≡◌};
ghost use Rattle.std.specs.List.{list_any};
ghost use Rattle.ep_verdicts.specs.Lines.{found_in, is_broken};

use ep_verify::{Verdict, What};

/// What the files of a shelf are together.
#[derive(Clone, Copy, Debug, PartialEq, Eq)]
pub enum Found {
    /// Each is a pad's, or none stands there.
    Sound,
    /// One at least is no journal, or has a bad record, or records behind a closed gate.
    Broken,
}

fn is_broken(what: What) -> bool
    ensures { result ≡ is_broken what }
{
    match what {
        What::Whole { .. } | What::Absent => false,
        What::Foreign | What::BadRecord(_) | What::Behind(_) => true,
    }
}

// Whether one of their files is broken.
fn are_broken(verdicts: &[Verdict]) -> bool
    ensures { result ≡ list_any (λ v. is_broken v.what) verdicts.now }
{
    verdicts.iter().any(|verdict| is_broken(verdict.what))
}

/// What these verdicts come to.
pub(crate) fn found_in(verdicts: &[Verdict]) -> Found
    ensures { result ≡ found_in verdicts.now }
{
    if are_broken(verdicts) {
        Found::Broken
    } else {
        Found::Sound
    }
}
