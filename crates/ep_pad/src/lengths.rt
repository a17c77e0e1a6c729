//! How long a pad's file may be.

ghost use Rattle.std.specs.Prelude.{◌≡◌, ◌≤◌};
ghost use Rattle.ep_history.specs.Machine.{longest_with};
ghost use Rattle.ep_pad_file.specs.PadFile.{saturated};
ghost use Rattle.ep_pad.specs.Held.{longest_of};

use ep_history::Record;
use ep_outside::Limits;

/// At most, with any record last.
pub(crate) fn longest_file(limits: Limits) -> u64
    ensures { result ≡ longest_of limits }
{
    limits.journal.saturating_add(limits.openings)
}

/// With this record last: one of no text has some room more.
pub(crate) fn longest_file_with(limits: Limits, record: &Record) -> u64
    ensures value { result ≡ saturated (longest_with limits record.now) }
    ensures below { result ≤ longest_of limits }
{
    match record {
        Record::Open { .. } | Record::Delete { .. } | Record::Public { .. } => {
            longest_file(limits)
        }
        Record::Create { .. } | Record::Rev { .. } | Record::Nop { .. } => limits.journal,
    }
}
