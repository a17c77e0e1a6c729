//! A change made to a document.

ghost use Rattle.std.specs.Prelude.{◌≡◌, ◌+◌, ◌≤◌, ◌<◌, ◌^◌, ◌++◌, length, take, drop, OnOk, IfOk, IfSome};
ghost use Rattle.ep_cs.specs.Edit.{apply};
ghost use Rattle.ep_cs.specs.Fits.{Fits};
ghost use Rattle.ep_cs.specs.Runs.{passed};
ghost use Rattle.ep_apply.specs.Makes.{run_makes};

use crate::doc::Doc;
use crate::moving::keep;
use crate::splice::splice_of;
use ep_attr::AttrMap;
use ep_blocks::{Reading, Writer};
use ep_cs::{Change, Kind, MOST_UNITS, Op};
use ep_units::NoMemory;
use std::alloc::Global;

/// What one operation makes.
fn apply_op(
    alloc: Global,
    op: &Op,
    text: &[u16],
    out: &mut Writer,
    rest: &mut Reading<'_>,
) -> Result<(), NoMemory>
    requires inside { passed op.now.kind op.now.units ≤ length rest.old }
    requires short { length out.old + length (run_makes op.now.kind op.now.attrs text.now (take (passed op.now.kind op.now.units) rest.old)) < 2 ^ 32 }
    ensures done { OnOk result (out.new ≡ out.old ++ run_makes op.now.kind op.now.attrs text.now (take (passed op.now.kind op.now.units) rest.old)) }
    ensures rest { OnOk result (rest.new ≡ drop (passed op.now.kind op.now.units) rest.old) }
{
    match op.kind {
        Kind::Keep => keep(alloc, out, rest, op.units, &op.attrs),
        Kind::Drop => {
            rest.skip(op.units);
            Ok(())
        }
        Kind::Insert => out.push(text, &op.attrs),
    }
}

/// The document after a change that is one splice in a block, where that stays a block.
fn spliced(alloc: Global, doc: &Doc, change: &Change) -> Result<Option<Doc>, NoMemory>
    requires { Fits change.now doc.now }
    ensures { IfOk result (λ made. IfSome made (λ after. after ≡ apply change.now.edit doc.now)) }
{
    let bank = change.bank().as_slice();
    if bank.len() > (MOST_UNITS - doc.len()) as usize {
        return Ok(None);
    }
    let as_it_is = AttrMap::none(alloc);
    let Some(splice) = splice_of(change.ops(), bank, &as_it_is) else {
        return Ok(None);
    };
    match doc.body.spliced(alloc, splice)? {
        None => Ok(None),
        Some(body) => Ok(Some(Doc {
            body,
            units: change.new_len(),
        })),
    }
}

/// The document after a change that fits it, walked from the first run to the last.
fn walked(alloc: Global, doc: &Doc, change: &Change) -> Result<Doc, NoMemory>
    requires { Fits change.now doc.now }
    ensures { IfOk result (λ after. after ≡ apply change.now.edit doc.now) }
{
    let mut out = doc.body.writer(alloc)?;
    let mut rest = doc.reading();
    let bank = change.bank().as_slice();
    let mut at = 0;
    let mut used = 0;
    for op in change.ops() {
        let next = used + op.inserted() as usize;
        apply_op(alloc, op, &bank[used..next], &mut out, &mut rest)?;
        at += op.passed();
        used = next;
    }
    let as_it_is = AttrMap::none(alloc);
    keep(alloc, &mut out, &mut rest, doc.len() - at, &as_it_is)?;
    let body = out.finish()?;
    Ok(Doc {
        body,
        units: change.new_len(),
    })
}

/// The document after a change that fits it. It shares the pages, groups and blocks in which nothing is altered.
pub fn apply(alloc: Global, doc: &Doc, change: &Change) -> Result<Doc, NoMemory>
    requires { Fits change.now doc.now }
    ensures { IfOk result (λ after. after ≡ apply change.now.edit doc.now) }
{
    match spliced(alloc, doc, change)? {
        Some(after) => Ok(after),
        None => walked(alloc, doc, change),
    }
}
