//! Whether a change fits a document.

ghost use Rattle.std.specs.Prelude.{◌≡◌, ◌↔◌, ◌≤◌, length, take, drop, IsOk};
ghost use Rattle.ep_units.specs.Text.{Text};
ghost use Rattle.ep_cs.specs.Fits.{Fits};
ghost use Rattle.ep_cs.specs.Runs.{all_passed, passed};
ghost use Rattle.ep_cs.specs.Fitting.{answer, first_untrue, fit_bad, is_true};
ghost use Rattle.ep_block_parts.specs.Seen.{Sees};
ghost use Rattle.ep_apply.specs.PairEnds.{cut_at, first_end, first_of, runs_bad};

use crate::doc::Doc;
use ep_blocks::{Passing, Seen};
use ep_cs::{Change, FitBad, Kind, Op};

/// Whether what an operation says of the units that it passes is true.
fn is_true(op: &Op, seen: Seen) -> bool
    ensures { (us : Text) → Sees seen us → result ≡ is_true op.now.kind op.now.lines us }
{
    match op.kind {
        Kind::Insert => true,
        Kind::Keep | Kind::Drop => seen.lines == op.lines && (op.lines == 0 || seen.tail == 0),
    }
}

/// Passes what an operation passes, which is nothing where it inserts.
fn pass_op(op: &Op, rest: &mut Passing<'_>) -> Seen
    requires { passed op.now.kind op.now.units ≤ length rest.old }
    ensures seen { Sees result (take (passed op.now.kind op.now.units) rest.old) }
    ensures rest { rest.new ≡ drop (passed op.now.kind op.now.units) rest.old }
{
    match op.kind {
        Kind::Insert => Seen::nothing(),
        Kind::Keep | Kind::Drop => rest.pass(op.units),
    }
}

/// The first place at which a pair is cut, where one more end is looked at.
fn cut_so_far(cut: Option<u64>, high: bool, at: u32) -> Option<u64>
    ensures { result ≡ first_of cut (cut_at high at) }
{
    match cut {
        Some(at) => Some(at),
        None => { if high { Some(u64::from(at)) } else { None } }
    }
}

/// What the runs of a change say of a text of so many units: the first that is false, or the first place at which one
/// ends between the halves of a pair.
fn follow_runs(ops: &[Op], rest: &mut Passing<'_>, units: u32) -> Result<(), FitBad>
    requires inside { all_passed ops.now ≤ length rest.old }
    requires units { units ≡ length rest.old }
    ensures { result ≡ answer (runs_bad ops.now rest.old) }
{
    let mut at = 0;
    let mut cut = None;
    for i in 0..ops.len() {
        let op = &ops[i];
        let seen = pass_op(op, rest);
        if !is_true(op, seen) {
            return Err(FitBad::Newlines(i as u64));
        }
        at += op.passed();
        cut = cut_so_far(cut, seen.high, at);
    }
    match cut_so_far(cut, rest.ends_high(), units) {
        None => Ok(()),
        Some(at) => Err(FitBad::CutsPair(at)),
    }
}

/// Whether a change fits a document. It takes no memory, and passes the document's blocks up to the last that the
/// change says something of.
///
/// The places of `CutsPair` count UTF-16 units, operations are those of the change, counted from 0.
pub fn fits(doc: &Doc, change: &Change) -> Result<(), FitBad>
    ensures exact { result ≡ answer (fit_bad change.now doc.now) }
    ensures fits { IsOk result ↔ Fits change.now doc.now }
{
    if doc.len() != change.old_len() {
        return Err(FitBad::OldLen(u64::from(doc.len()), u64::from(change.old_len())));
    }
    follow_runs(change.ops(), &mut doc.passing(), doc.len())
}
