//! A journal's refusals as a pad's.

ghost use Rattle.std.specs.Prelude.{◌≡◌};
ghost use Rattle.ep_pad_file.specs.Refusals.{same_cause, IsCount};

use ep_history::PadBad;
use ep_journal::JournalBad;

/// The same cause.
pub fn pad_bad(why: JournalBad) -> PadBad
    ensures cause { result ≡ same_cause why }
    ensures count { IsCount why }
{
    match why {
        JournalBad::Disk(n) => PadBad::Store(n),
        JournalBad::Foreign => PadBad::Foreign,
        JournalBad::Full(n) => PadBad::JournalFull(n),
        JournalBad::NoMemory => PadBad::NoMemory,
    }
}
