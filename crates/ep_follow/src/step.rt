//! The walk over two changes side by side.

ghost use Rattle.std.specs.Prelude.{◌≡◌, ◌+◌, ◌<◌, ◌++◌, [], Bool, true, false, length, OnOk};
ghost use Rattle.ep_units.specs.Text.{Text};
ghost use Rattle.ep_cursor.specs.Left.{steps_left};
ghost use Rattle.ep_follow.specs.Follows.{is_a};
ghost use Rattle.ep_follow.specs.Gaps.{followed, begins_with_insert, has_runs};
ghost use Rattle.ep_follow.specs.Writing.{said, IsGoing};

use crate::front::{has_runs, inserts};
use crate::gap::{gap, insert_run, keep_run};
use crate::stretch::{both, rest};
use crate::writer::Writer;
use ep_cs::First;
use ep_cursor::Cursor;
use ep_units::NoMemory;
use std::alloc::Global;

/// Takes the places of one run in both changes.
fn pass(
    alloc: Global,
    out: &mut Writer,
    a: &mut Cursor<'_>,
    b: &mut Cursor<'_>,
) -> Result<(), NoMemory>
    requires runs { has_runs b.old.ops ≡ true }
    requires first { begins_with_insert a.old.ops ≡ false }
    requires second { begins_with_insert b.old.ops ≡ false }
    requires go { (made : Text) × IsGoing made out.old a.old b.old }
    ensures same { OnOk result ((side : Bool) → (said out.new).steps ++ followed side (steps_left a.new) (steps_left b.new) ≡ (said out.old).steps ++ followed side (steps_left a.old) (steps_left b.old)) }
    ensures less { OnOk result (length (steps_left a.new) + length (steps_left b.new) < length (steps_left a.old) + length (steps_left b.old)) }
    ensures go { OnOk result ((made : Text) → IsGoing made out.old a.old b.old → IsGoing made out.new a.new b.new) }
{
    let Some(later) = b.head() else {
        return Ok(());
    };
    match a.head() {
        None => rest(out, a, b, &later),
        Some(head) => both(alloc, out, a, b, &head, &later),
    }
}

/// Takes one gap or a run in it, or the places of one run in both changes.
fn step(
    alloc: Global,
    out: &mut Writer,
    a: &mut Cursor<'_>,
    b: &mut Cursor<'_>,
    first: First,
) -> Result<(), NoMemory>
    requires runs { has_runs b.old.ops ≡ true }
    requires go { (made : Text) × IsGoing made out.old a.old b.old }
    ensures same { OnOk result ((said out.new).steps ++ followed (is_a first) (steps_left a.new) (steps_left b.new) ≡ (said out.old).steps ++ followed (is_a first) (steps_left a.old) (steps_left b.old)) }
    ensures less { OnOk result (length (steps_left a.new) + length (steps_left b.new) < length (steps_left a.old) + length (steps_left b.old)) }
    ensures go { OnOk result ((made : Text) → IsGoing made out.old a.old b.old → IsGoing made out.new a.new b.new) }
{
    match (inserts(a), inserts(b)) {
        (true, true) => gap(out, a, b, first),
        (true, false) => keep_run(out, a),
        (false, true) => insert_run(out, b),
        (false, false) => pass(alloc, out, a, b),
    }
}

/// Takes all that the second change does. What is left after it is kept.
pub fn walk(
    alloc: Global,
    out: &mut Writer,
    a: &mut Cursor<'_>,
    b: &mut Cursor<'_>,
    first: First,
) -> Result<(), NoMemory>
    requires { (made : Text) × IsGoing made out.old a.old b.old }
    ensures same { OnOk result ((said out.new).steps ++ followed (is_a first) (steps_left a.new) (steps_left b.new) ≡ (said out.old).steps ++ followed (is_a first) (steps_left a.old) (steps_left b.old)) }
    ensures done { OnOk result (b.new.ops ≡ []) }
    ensures go { OnOk result ((made : Text) → IsGoing made out.old a.old b.old → IsGoing made out.new a.new b.new) }
{
    'steps: while has_runs(b) {
        step(alloc, out, a, b, first)?;
    }
    Ok(())
}
