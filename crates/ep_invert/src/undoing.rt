//! What undoes one run of a change.

ghost use Rattle.std.specs.Prelude.{◌≡◌, ◌+◌, ◌≤◌, ◌<◌, ◌^◌, [], length, take, drop, OnOk};
ghost use Rattle.ep_cs.specs.declared.op.Kind.TheVariants as kind;
ghost use Rattle.ep_attr.specs.AttrMap.{is_none};
ghost use Rattle.ep_cs.specs.Doc.{text_of};
ghost use Rattle.ep_cs.specs.Edit.{inserts};
ghost use Rattle.ep_cs.specs.Steps.{passed};
ghost use Rattle.ep_cs.specs.Draft.{inserted_by};
ghost use Rattle.ep_cs.specs.Runs.{passed as passed_by};
ghost use Rattle.ep_apply.specs.Documents.{HasNoEmpty};
ghost use Rattle.ep_invert.specs.Undoing.{restored, undone, left_by, CanUndo};
ghost use Rattle.ep_invert.specs.Writing.{GoesOn};

use crate::restoring::restoring;
use crate::writing::{insert_text, keep_text};
use ep_apply::Reading;
use ep_attr::AttrMap;
use ep_cs::{Builder, Kind};
use ep_cursor::Head;
use ep_units::NoMemory;
use std::alloc::Global;

/// Keeps so many cells, each with the map that gives its own back after a map.
fn keep_restored(
    alloc: Global,
    out: &mut Builder,
    rest: &mut Reading<'_>,
    units: u32,
    attrs: &AttrMap,
) -> Result<(), NoMemory>
    requires inside { units ≤ length rest.old }
    requires room { passed out.old.steps + units ≤ out.old.old }
    requires short { out.old.old < 2 ^ 32 }
    ensures written { OnOk result (GoesOn out.old out.new (restored attrs.now (take units rest.old)) (text_of (take units rest.old))) }
    ensures rest { OnOk result (rest.new ≡ drop units rest.old) }
{
    let mut left = units;
    'pieces: while left > 0 {
        let Some(stretch) = rest.take(left) else {
            return Ok(());
        };
        let back = restoring(alloc, stretch.attrs, attrs)?;
        keep_text(out, stretch.text, &back)?;
        left -= stretch.text.len() as u32;
    }
    Ok(())
}

/// Inserts so many cells.
fn insert_dropped(out: &mut Builder, rest: &mut Reading<'_>, units: u32) -> Result<(), NoMemory>
    requires inside { units ≤ length rest.old }
    requires room { inserted_by out.old.steps + units < 2 ^ 32 }
    requires maps { HasNoEmpty rest.old }
    ensures written { OnOk result (GoesOn out.old out.new (inserts (take units rest.old)) []) }
    ensures rest { OnOk result (rest.new ≡ drop units rest.old) }
{
    let mut left = units;
    'pieces: while left > 0 {
        let Some(stretch) = rest.take(left) else {
            return Ok(());
        };
        insert_text(out, stretch.text, stretch.attrs)?;
        left -= stretch.text.len() as u32;
    }
    Ok(())
}

/// Undoes a run that keeps.
fn undo_keep(
    alloc: Global,
    out: &mut Builder,
    rest: &mut Reading<'_>,
    run: &Head<'_>,
) -> Result<(), NoMemory>
    requires kind { run.now.kind ≡ kind.Keep }
    requires can { CanUndo run.now.kind run.now.units run.now.lines run.now.text.now rest.old out.old }
    ensures written { OnOk result (GoesOn out.old out.new (restored run.now.attrs.now (take run.now.units rest.old)) (text_of (take run.now.units rest.old))) }
    ensures rest { OnOk result (rest.new ≡ drop run.now.units rest.old) }
{
    if run.attrs.is_none() {
        rest.skip(run.units);
        out.keep(run.units, run.lines, run.attrs)
    } else {
        keep_restored(alloc, out, rest, run.units, run.attrs)
    }
}

/// Undoes a run: what it inserts is dropped, what it drops is inserted, and what it keeps is kept with its maps
/// restored.
pub fn undo(
    alloc: Global,
    out: &mut Builder,
    rest: &mut Reading<'_>,
    run: &Head<'_>,
) -> Result<(), NoMemory>
    requires { CanUndo run.now.kind run.now.units run.now.lines run.now.text.now rest.old out.old }
    ensures written { OnOk result (GoesOn out.old out.new (undone run.now.kind run.now.units run.now.attrs.now (take (passed_by run.now.kind run.now.units) rest.old)) (left_by run.now.kind run.now.text.now (take (passed_by run.now.kind run.now.units) rest.old))) }
    ensures rest { OnOk result (rest.new ≡ drop (passed_by run.now.kind run.now.units) rest.old) }
{
    match run.kind {
        Kind::Keep => undo_keep(alloc, out, rest, run),
        Kind::Drop => insert_dropped(out, rest, run.units),
        Kind::Insert => out.drop_units(run.units, run.lines),
    }
}
