//! Places of one run in both changes.

ghost use Rattle.std.specs.Prelude.{◌≡◌, ◌+◌, ◌≤◌, ◌<◌, ◌++◌, [], Bool, false, length, ◌⊎◌, OnOk};
ghost use Rattle.ep_units.specs.Text.{Text};
ghost use Rattle.ep_attr.specs.AttrMap.{none};
ghost use Rattle.ep_cs.specs.Edit.Fate.{Keep};
ghost use Rattle.ep_cs.specs.Written.{AreWritten};
ghost use Rattle.ep_cursor.specs.Heads.{IsHead};
ghost use Rattle.ep_cursor.specs.Left.{steps_left};
ghost use Rattle.ep_follow.specs.Gaps.{followed, begins_with_insert, fate_of, kept_of};
ghost use Rattle.ep_follow.specs.Writing.{said, HasRoom, IsFollowedRun, IsGoing};

use crate::writer::Writer;
use ep_attr::follow_change;
use ep_cs::Kind;
use ep_cursor::{Cursor, Head, Part, shorter};
use ep_units::NoMemory;
use std::alloc::Global;

/// Writes what follows where both changes pass the same places.
fn write(
    alloc: Global,
    out: &mut Writer,
    head: &Head<'_>,
    later: &Head<'_>,
    part: Part,
) -> Result<(), NoMemory>
    requires room { HasRoom out.old (kept_of part.units (fate_of head.now.kind head.now.attrs.now)) }
    requires lined { part.lines ≤ part.units }
    ensures { OnOk result (IsFollowedRun out.old part.units part.lines (fate_of head.now.kind head.now.attrs.now) (fate_of later.now.kind later.now.attrs.now) out.new) }
{
    match (head.kind, later.kind) {
        (Kind::Drop, _) => Ok(()),
        (_, Kind::Drop) => out.drop_units(part.units, part.lines),
        (_, _) => {
            if later.attrs.is_none() {
                out.keep_bare(part.units, part.lines);
                return Ok(());
            }
            let attrs = follow_change(alloc, head.attrs, later.attrs)?;
            out.keep_owned(part.units, part.lines, attrs)
        }
    }
}

/// Writes what follows where the first change keeps all that is left.
fn write_rest(out: &mut Writer, later: &Head<'_>) -> Result<(), NoMemory>
    requires room { HasRoom out.old later.now.units }
    requires lined { later.now.lines ≤ later.now.units }
    ensures { OnOk result (IsFollowedRun out.old later.now.units later.now.lines (Keep none) (fate_of later.now.kind later.now.attrs.now) out.new) }
{
    match later.kind {
        Kind::Drop => out.drop_units(later.units, later.lines),
        _ => out.keep(later.units, later.lines, later.attrs),
    }
}

/// Takes the places that are of one run in both changes.
pub fn both(
    alloc: Global,
    out: &mut Writer,
    a: &mut Cursor<'_>,
    b: &mut Cursor<'_>,
    head: &Head<'_>,
    later: &Head<'_>,
) -> Result<(), NoMemory>
    requires head { IsHead head.now a.old }
    requires later { IsHead later.now b.old }
    requires first { begins_with_insert a.old.ops ≡ false }
    requires second { begins_with_insert b.old.ops ≡ false }
    requires go { (made : Text) × IsGoing made out.old a.old b.old }
    ensures same { OnOk result ((side : Bool) → (said out.new).steps ++ followed side (steps_left a.new) (steps_left b.new) ≡ (said out.old).steps ++ followed side (steps_left a.old) (steps_left b.old)) }
    ensures less { OnOk result (length (steps_left a.new) + length (steps_left b.new) < length (steps_left a.old) + length (steps_left b.old)) }
    ensures go { OnOk result ((made : Text) → IsGoing made out.old a.old b.old → IsGoing made out.new a.new b.new) }
{
    let part = shorter(head, later);
    write(alloc, out, head, later, part)?;
    a.advance(part.units, part.lines);
    b.advance(part.units, part.lines);
    Ok(())
}

/// Takes a run of the second change where the first keeps all that is left.
pub fn rest(
    out: &mut Writer,
    a: &mut Cursor<'_>,
    b: &mut Cursor<'_>,
    later: &Head<'_>,
) -> Result<(), NoMemory>
    requires later { IsHead later.now b.old }
    requires first { a.old.ops ≡ [] }
    requires second { begins_with_insert b.old.ops ≡ false }
    requires go { (made : Text) × IsGoing made out.old a.old b.old }
    ensures same { OnOk result ((side : Bool) → (said out.new).steps ++ followed side (steps_left a.new) (steps_left b.new) ≡ (said out.old).steps ++ followed side (steps_left a.old) (steps_left b.old)) }
    ensures less { OnOk result (length (steps_left a.new) + length (steps_left b.new) < length (steps_left a.old) + length (steps_left b.old)) }
    ensures go { OnOk result ((made : Text) → IsGoing made out.old a.old b.old → IsGoing made out.new a.new b.new) }
{
    write_rest(out, later)?;
    a.skip(later.units);
    b.advance(later.units, later.lines);
    Ok(())
}
