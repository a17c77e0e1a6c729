//! What stands first in what is left of two changes.

ghost use Rattle.std.specs.Prelude.{◌≡◌, ◌||◌};
ghost use Rattle.ep_cs.specs.Written.{AreWritten};
ghost use Rattle.ep_cs.specs.Follow.{has_first, begins_with_newline, goes_first};
ghost use Rattle.ep_cursor.specs.Left.{steps_left};
ghost use Rattle.ep_follow.specs.Follows.{is_a};
ghost use Rattle.ep_follow.specs.Gaps.{piece, begins_with_insert, has_runs, units_begin_with_newline, HasUnits};

use ep_cs::{First, Kind};
use ep_cursor::Cursor;

/// Whether a run is left.
pub fn has_runs(cursor: &Cursor<'_>) -> bool
    ensures { result ≡ has_runs cursor.now.ops }
{
    match cursor.head() {
        None => false,
        Some(_) => true,
    }
}

/// Whether a change inserts before the next place.
pub fn inserts(cursor: &Cursor<'_>) -> bool
    ensures is { result ≡ begins_with_insert cursor.now.ops }
    ensures written { AreWritten cursor.now.ops cursor.now.bank }
{
    match cursor.head() {
        None => false,
        Some(head) => match head.kind {
            Kind::Insert => true,
            _ => false,
        },
    }
}

/// What the order at a gap sees of a piece.
#[derive(Clone, Copy)]
struct Sign {
    has_first: bool,
    newline: bool,
}

fn begins_with_newline(text: &[u16]) -> bool
    ensures { result ≡ units_begin_with_newline text.now }
{
    match text {
        [] => false,
        [unit, ..] => *unit == 10,
    }
}

fn sign_of(cursor: &Cursor<'_>) -> Sign
    requires { HasUnits cursor.now.ops }
    ensures first { result.has_first ≡ has_first (piece (steps_left cursor.now)) }
    ensures newline { result.newline ≡ begins_with_newline (piece (steps_left cursor.now)) }
{
    let Some(head) = cursor.head() else {
        return Sign {
            has_first: false,
            newline: false,
        };
    };
    match head.kind {
        Kind::Insert => Sign {
            has_first: head.attrs.has_first(),
            newline: begins_with_newline(head.text),
        },
        _ => Sign {
            has_first: false,
            newline: false,
        },
    }
}

/// Whether the first change's piece goes before the second's in the gap that comes next.
pub fn goes_first(a: &Cursor<'_>, b: &Cursor<'_>, first: First) -> bool
    requires first { HasUnits a.now.ops }
    requires second { HasUnits b.now.ops }
    ensures { result ≡ goes_first (is_a first) (piece (steps_left a.now)) (piece (steps_left b.now)) }
{
    let a = sign_of(a);
    let b = sign_of(b);
    if a.has_first != b.has_first {
        return a.has_first;
    }
    if a.newline != b.newline {
        return b.newline;
    }
    match first {
        First::A => true,
        First::B => false,
    }
}
