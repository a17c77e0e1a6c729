//! One piece of a composition.

ghost use Rattle.std.specs.Prelude.{◌≡◌, [], MatchBool, OnOk, IfOk};
ghost use Rattle.ep_cs.specs.declared.op.Kind.TheVariants as kind;
ghost use Rattle.ep_cursor.specs.Heads.{IsHead};
ghost use Rattle.ep_cursor.specs.Left.{Left};
ghost use Rattle.ep_cs.specs.Written.{AreWritten};
ghost use Rattle.ep_compose.specs.Composing.{CanGo, Advances, IsAll};

use ep_cs::{Builder, Kind};
use ep_cursor::{Cursor, Head, shorter};
use ep_units::NoMemory;
use std::alloc::Global;

/// The second change inserts.
fn insert(out: &mut Builder, b: &mut Cursor<'_>, later: &Head<'_>) -> Result<(), NoMemory>
    requires head { IsHead later.now b.old }
    requires written { AreWritten b.old.ops b.old.bank }
    requires kind { later.now.kind ≡ kind.Insert }
    requires go { (a : Left) × CanGo out.old a b.old }
    ensures { OnOk result ((a : Left) → CanGo out.old a b.old → Advances out.old a b.old out.new a b.new) }
{
    out.insert(later.text, later.attrs)?;
    b.advance(later.units, later.lines);
    Ok(())
}

/// The second change keeps all that is left.
fn keep_rest(
    out: &mut Builder,
    a: &mut Cursor<'_>,
    b: &mut Cursor<'_>,
    head: &Head<'_>,
) -> Result<(), NoMemory>
    requires head { IsHead head.now a.old }
    requires written { AreWritten a.old.ops a.old.bank }
    requires rest { b.old.ops ≡ [] }
    requires go { CanGo out.old a.old b.old }
    ensures { OnOk result (Advances out.old a.old b.old out.new a.new b.new) }
{
    match head.kind {
        Kind::Keep => {
            out.keep(head.units, head.lines, head.attrs)?;
            b.skip(head.units);
        }
        Kind::Drop => out.drop_units(head.units, head.lines)?,
        Kind::Insert => {
            out.insert(head.text, head.attrs)?;
            b.skip(head.units);
        }
    }
    a.advance(head.units, head.lines);
    Ok(())
}

/// The second change keeps, with a map.
fn keep(
    alloc: Global,
    out: &mut Builder,
    a: &mut Cursor<'_>,
    b: &mut Cursor<'_>,
    later: &Head<'_>,
) -> Result<(), NoMemory>
    requires head { IsHead later.now b.old }
    requires kind { later.now.kind ≡ kind.Keep }
    requires go { CanGo out.old a.old b.old }
    ensures { OnOk result (Advances out.old a.old b.old out.new a.new b.new) }
{
    let Some(head) = a.head() else {
        out.keep(later.units, later.lines, later.attrs)?;
        a.skip(later.units);
        b.advance(later.units, later.lines);
        return Ok(());
    };
    match head.kind {
        Kind::Drop => {
            out.drop_units(head.units, head.lines)?;
            a.advance(head.units, head.lines);
        }
        Kind::Keep => {
            let part = shorter(&head, later);
            let attrs = head.attrs.compose_change(alloc, later.attrs)?;
            out.keep_owned(part.units, part.lines, attrs)?;
            a.advance(part.units, part.lines);
            b.advance(part.units, part.lines);
        }
        Kind::Insert => {
            let part = shorter(&head, later);
            let attrs = head.attrs.apply_doc(alloc, later.attrs)?;
            out.insert_owned(&head.text[..part.units as usize], attrs)?;
            a.advance(part.units, part.lines);
            b.advance(part.units, part.lines);
        }
    }
    Ok(())
}

/// The second change drops.
fn drop_units(
    out: &mut Builder,
    a: &mut Cursor<'_>,
    b: &mut Cursor<'_>,
    later: &Head<'_>,
) -> Result<(), NoMemory>
    requires head { IsHead later.now b.old }
    requires kind { later.now.kind ≡ kind.Drop }
    requires go { CanGo out.old a.old b.old }
    ensures { OnOk result (Advances out.old a.old b.old out.new a.new b.new) }
{
    let Some(head) = a.head() else {
        out.drop_units(later.units, later.lines)?;
        a.skip(later.units);
        b.advance(later.units, later.lines);
        return Ok(());
    };
    match head.kind {
        Kind::Drop => {
            out.drop_units(head.units, head.lines)?;
            a.advance(head.units, head.lines);
        }
        Kind::Keep => {
            let part = shorter(&head, later);
            out.drop_units(part.units, part.lines)?;
            a.advance(part.units, part.lines);
            b.advance(part.units, part.lines);
        }
        Kind::Insert => {
            let part = shorter(&head, later);
            a.advance(part.units, part.lines);
            b.advance(part.units, part.lines);
        }
    }
    Ok(())
}

/// One piece of a composition. False where nothing is left.
pub fn step(
    alloc: Global,
    out: &mut Builder,
    a: &mut Cursor<'_>,
    b: &mut Cursor<'_>,
) -> Result<bool, NoMemory>
    requires { CanGo out.old a.old b.old }
    ensures { IfOk result (λ more. MatchBool more (Advances out.old a.old b.old out.new a.new b.new) (IsAll out.old a.old b.old out.new a.new b.new)) }
{
    match b.head() {
        None => match a.head() {
            None => Ok(false),
            Some(head) => {
                keep_rest(out, a, b, &head)?;
                Ok(true)
            }
        },
        Some(later) => {
            match later.kind {
                Kind::Insert => insert(out, b, &later)?,
                Kind::Keep => keep(alloc, out, a, b, &later)?,
                Kind::Drop => drop_units(out, a, b, &later)?,
            }
            Ok(true)
        }
    }
}
