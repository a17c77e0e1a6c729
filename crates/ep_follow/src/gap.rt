//! The pieces of two changes in one gap.

ghost use Rattle.std.specs.Prelude.{◌≡◌, ◌<◌, ◌++◌, true, length, OnOk};
ghost use Rattle.ep_units.specs.Text.{Text};
ghost use Rattle.ep_cs.specs.Edit.{inserts};
ghost use Rattle.ep_cs.specs.Follow.{passes};
ghost use Rattle.ep_cursor.specs.Left.{Left, steps_left};
ghost use Rattle.ep_follow.specs.Follows.{is_a};
ghost use Rattle.ep_follow.specs.Gaps.{followed, piece, behind, begins_with_insert, Moves};
ghost use Rattle.ep_follow.specs.Writing.{said, IsGoing};

use crate::front::{goes_first, inserts};
use crate::writer::Writer;
use ep_cs::First;
use ep_cursor::Cursor;
use ep_units::NoMemory;

/// Keeps a run that the first change inserts.
pub fn keep_run(out: &mut Writer, a: &mut Cursor<'_>) -> Result<(), NoMemory>
    requires inserts { begins_with_insert a.old.ops ≡ true }
    requires go { (b : Left) × (made : Text) × IsGoing made out.old a.old b }
    ensures moves { OnOk result (Moves passes (said out.old).steps (steps_left a.old) (said out.new).steps (steps_left a.new)) }
    ensures less { OnOk result (length (steps_left a.new) < length (steps_left a.old)) }
    ensures go { OnOk result ((b : Left) (made : Text) → IsGoing made out.old a.old b → IsGoing made out.new a.new b) }
{
    let Some(head) = a.head() else {
        return Ok(());
    };
    out.keep_bare(head.units, head.lines);
    a.advance(head.units, head.lines);
    Ok(())
}

/// Keeps the piece that the first change inserts.
fn keep_piece(out: &mut Writer, a: &mut Cursor<'_>) -> Result<(), NoMemory>
    requires { (b : Left) × (made : Text) × IsGoing made out.old a.old b }
    ensures out { OnOk result ((said out.new).steps ≡ (said out.old).steps ++ passes (piece (steps_left a.old))) }
    ensures behind { OnOk result (steps_left a.new ≡ behind (steps_left a.old)) }
    ensures go { OnOk result ((b : Left) (made : Text) → IsGoing made out.old a.old b → IsGoing made out.new a.new b) }
{
    'runs: while inserts(a) {
        keep_run(out, a)?;
    }
    Ok(())
}

/// Inserts a run of the second change.
pub fn insert_run(out: &mut Writer, b: &mut Cursor<'_>) -> Result<(), NoMemory>
    requires inserts { begins_with_insert b.old.ops ≡ true }
    requires go { (a : Left) × (made : Text) × IsGoing made out.old a b.old }
    ensures moves { OnOk result (Moves inserts (said out.old).steps (steps_left b.old) (said out.new).steps (steps_left b.new)) }
    ensures less { OnOk result (length (steps_left b.new) < length (steps_left b.old)) }
    ensures go { OnOk result ((a : Left) (made : Text) → IsGoing made out.old a b.old → IsGoing made out.new a b.new) }
{
    let Some(head) = b.head() else {
        return Ok(());
    };
    out.insert(head.text, head.attrs)?;
    b.advance(head.units, head.lines);
    Ok(())
}

/// Inserts the piece of the second change.
fn insert_piece(out: &mut Writer, b: &mut Cursor<'_>) -> Result<(), NoMemory>
    requires { (a : Left) × (made : Text) × IsGoing made out.old a b.old }
    ensures out { OnOk result ((said out.new).steps ≡ (said out.old).steps ++ inserts (piece (steps_left b.old))) }
    ensures behind { OnOk result (steps_left b.new ≡ behind (steps_left b.old)) }
    ensures go { OnOk result ((a : Left) (made : Text) → IsGoing made out.old a b.old → IsGoing made out.new a b.new) }
{
    'runs: while inserts(b) {
        insert_run(out, b)?;
    }
    Ok(())
}

/// Takes both pieces of the gap that comes next, in their order.
pub fn gap(
    out: &mut Writer,
    a: &mut Cursor<'_>,
    b: &mut Cursor<'_>,
    first: First,
) -> Result<(), NoMemory>
    requires { (made : Text) × IsGoing made out.old a.old b.old }
    ensures same { OnOk result ((said out.new).steps ++ followed (is_a first) (steps_left a.new) (steps_left b.new) ≡ (said out.old).steps ++ followed (is_a first) (steps_left a.old) (steps_left b.old)) }
    ensures first { OnOk result (steps_left a.new ≡ behind (steps_left a.old)) }
    ensures second { OnOk result (steps_left b.new ≡ behind (steps_left b.old)) }
    ensures go { OnOk result ((made : Text) → IsGoing made out.old a.old b.old → IsGoing made out.new a.new b.new) }
{
    if goes_first(a, b, first) {
        keep_piece(out, a)?;
        insert_piece(out, b)
    } else {
        insert_piece(out, b)?;
        keep_piece(out, a)
    }
}
