//! Which format a record has.

ghost use Rattle.std.specs.Prelude.{◌≡◌};
ghost use Rattle.ep_formats.specs.Formats.{next_format};

use crate::record::Record;

/// The format of the record behind this one, which is of that format.
pub fn next_format(format: u8, entry: &Record) -> u8
    ensures { result ≡ next_format format entry.now }
{
    match entry {
        Record::Format => 2,
        Record::Open { .. }
        | Record::Create { .. }
        | Record::Rev { .. }
        | Record::Delete { .. }
        | Record::Public { .. }
        | Record::Nop { .. } => format,
    }
}
