//! What two runs that begin alike have in common.

ghost use Rattle.ep_cursor.specs.Part.{IsShorter};

use crate::cursor::Head;

/// So many units with so many newlines.
#[derive(Clone, Copy)]
pub struct Part {
    pub units: u32,
    pub lines: u32,
}

/// The shorter of two that begin alike.
pub fn shorter(first: &Head<'_>, second: &Head<'_>) -> Part
    ensures { IsShorter result.units result.lines first.now.units first.now.lines second.now.units second.now.lines }
{
    if second.units < first.units {
        Part {
            units: second.units,
            lines: second.lines,
        }
    } else {
        Part {
            units: first.units,
            lines: first.lines,
        }
    }
}
