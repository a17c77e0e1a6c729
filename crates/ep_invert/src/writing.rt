//! A change that is written over a text that is known.

ghost use Rattle.std.specs.Prelude.{◌≡◌, ◌+◌, ◌≤◌, ◌<◌, ◌^◌, [], length, take, drop, OnOk};
ghost use Rattle.ep_units.specs.Text.{Text};
ghost use Rattle.ep_attr.specs.AttrMap.{none, after};
ghost use Rattle.ep_cs.specs.Edit.{inserts};
ghost use Rattle.ep_cs.specs.Runs.{cells};
ghost use Rattle.ep_cs.specs.Steps.{passed};
ghost use Rattle.ep_cs.specs.Splice.{dropped};
ghost use Rattle.ep_cs.specs.Draft.{inserted_by};
ghost use Rattle.ep_block_parts.specs.Seen.{Sees};
ghost use Rattle.ep_invert.specs.Paint.{paint_steps};
ghost use Rattle.ep_invert.specs.Writing.{GoesOn};

use ep_apply::{Passing, Seen};
use ep_attr::AttrMap;
use ep_cs::Builder;
use ep_units::NoMemory;

/// Keeps a text of which this is seen: its whole lines and the rest.
fn keep_seen(out: &mut Builder, seen: Seen, attrs: &AttrMap) -> Result<(), NoMemory>
    requires inside { passed out.old.steps + seen.units ≤ out.old.old }
    requires lined { seen.lines + seen.tail ≤ seen.units }
    ensures { OnOk result ((us : Text) → Sees seen us → GoesOn out.old out.new (paint_steps seen.units attrs.now) us) }
{
    out.keep(seen.units - seen.tail, seen.lines, attrs)?;
    out.keep(seen.tail, 0, attrs)
}

/// Keeps a text with a map.
pub fn keep_text(out: &mut Builder, text: &[u16], attrs: &AttrMap) -> Result<(), NoMemory>
    requires inside { passed out.old.steps + length text.now ≤ out.old.old }
    requires short { out.old.old < 2 ^ 32 }
    ensures { OnOk result (GoesOn out.old out.new (paint_steps (length text.now) attrs.now) text.now) }
{
    keep_seen(out, Seen::of(text), attrs)
}

/// Keeps the next units of a text with a map.
pub fn keep_next(
    out: &mut Builder,
    rest: &mut Passing<'_>,
    units: u32,
    attrs: &AttrMap,
) -> Result<(), NoMemory>
    requires left { units ≤ length rest.old }
    requires inside { passed out.old.steps + units ≤ out.old.old }
    ensures written { OnOk result (GoesOn out.old out.new (paint_steps units attrs.now) (take units rest.old)) }
    ensures rest { OnOk result (rest.new ≡ drop units rest.old) }
{
    let seen = rest.pass(units);
    keep_seen(out, seen, attrs)
}

/// Drops the next units of a text.
pub fn drop_next(out: &mut Builder, rest: &mut Passing<'_>, units: u32) -> Result<(), NoMemory>
    requires left { units ≤ length rest.old }
    requires inside { passed out.old.steps + units ≤ out.old.old }
    ensures written { OnOk result (GoesOn out.old out.new (dropped units) (take units rest.old)) }
    ensures rest { OnOk result (rest.new ≡ drop units rest.old) }
{
    let seen = rest.pass(units);
    out.drop_units(seen.units - seen.tail, seen.lines)?;
    out.drop_units(seen.tail, 0)
}

/// Inserts a text with a map.
pub fn insert_text(out: &mut Builder, text: &[u16], attrs: &AttrMap) -> Result<(), NoMemory>
    requires { inserted_by out.old.steps + length text.now < 2 ^ 32 }
    ensures { OnOk result (GoesOn out.old out.new (inserts (cells (after none attrs.now) text.now)) []) }
{
    out.insert(text, attrs)
}
