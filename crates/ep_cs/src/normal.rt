//! Runs as they were written, brought to normal form from the last to the first.

ghost use Rattle.std.specs.Prelude.{◌≡◌, true, ◌+◌, ◌<◌, ◌≤◌, ◌^◌, length, reverse, OnOk, IfOk};
ghost use Rattle.ep_cs.specs.Runs.{cells, all_inserted, all_passed};
ghost use Rattle.ep_cs.specs.Normal.{put, put_cells};
ghost use Rattle.ep_cs.specs.NormalRuns.{AreLined, is_insert_then_drop, precedes};
ghost use Rattle.ep_cs.specs.InOrder.{AreInOrder, SaysNoLines};
ghost use Rattle.ep_cs.specs.Written.{put_front, AreWritten, IsFinished};
ghost use Rattle.ep_cs.specs.Room.{HasRoom};
ghost use Rattle.ep_cs.specs.Joining.{JoinsFirst};
ghost use Rattle.ep_cs.specs.Taken.{made, IsRoomy};
ghost use Rattle.ep_cs.specs.Lines.{IsStretch};

use crate::lines::{count_lines, last_line};
use crate::op::{Kind, Op};
use ep_attr::AttrMap;
use ep_units::NoMemory;
use std::alloc::Global;

/// A run joined to the next, which stands last here.
fn join(ops: &mut Vec<Op>, op: Op) -> Result<(), NoMemory>
    requires { JoinsFirst op (reverse ops.old.items) }
    ensures { OnOk result (reverse ops.new.items ≡ put op (reverse ops.old.items)) }
{
    match ops.pop() {
        None => Ok(()),
        Some(next) => {
            let Op {
                kind,
                units,
                lines,
                attrs,
            } = next;
            let units = op.units + units;
            let lines = op.lines + lines;
            ops.push(Op {
                kind,
                units,
                lines,
                attrs,
            })?;
            Ok(())
        }
    }
}

/// A run before runs in normal form, which stand here from the last to the first.
fn put(ops: &mut Vec<Op>, op: Op) -> Result<(), NoMemory>
    requires { HasRoom op (reverse ops.old.items) }
    ensures { OnOk result (reverse ops.new.items ≡ put op (reverse ops.old.items)) }
{
    match ops.as_slice() {
        [] => {
            if !op.is_bare() {
                ops.push(op)?;
            }
            Ok(())
        }
        [.., next] => {
            if op.joins(next) {
                join(ops, op)
            } else {
                ops.push(op)?;
                Ok(())
            }
        }
    }
}

/// An inserted stretch of text, with its newlines at its end or none, before runs in normal form.
fn put_stretch(ops: &mut Vec<Op>, text: &[u16], attrs: AttrMap) -> Result<(), NoMemory>
    requires room { length text.now + all_inserted (reverse ops.old.items) < 2 ^ 32 }
    requires lined { IsStretch text.now }
    requires lines { AreLined (reverse ops.old.items) }
    ensures { OnOk result (reverse ops.new.items ≡ put_cells (cells attrs text.now) (reverse ops.old.items)) }
{
    match text {
        [] => Ok(()),
        [_, ..] => {
            let op = Op {
                kind: Kind::Insert,
                units: text.len() as u32,
                lines: count_lines(text) as u32,
                attrs,
            };
            put(ops, op)?;
            Ok(())
        }
    }
}

/// An inserted text before runs in normal form, which stand here from the last to the first.
fn put_text(alloc: Global, ops: &mut Vec<Op>, text: &[u16], attrs: AttrMap) -> Result<(), NoMemory>
    requires room { length text.now + all_inserted (reverse ops.old.items) < 2 ^ 32 }
    requires lines { AreLined (reverse ops.old.items) }
    ensures { OnOk result (reverse ops.new.items ≡ put_cells (cells attrs text.now) (reverse ops.old.items)) }
{
    let (lines, rest) = text.split_at(last_line(text));
    if rest.is_empty() {
        put_stretch(ops, lines, attrs)?;
        return Ok(());
    }
    if lines.is_empty() {
        put_stretch(ops, rest, attrs)?;
        return Ok(());
    }
    put_stretch(ops, rest, attrs.copy(alloc)?)?;
    put_stretch(ops, lines, attrs)?;
    Ok(())
}

/// One more run, from the last to the first: the drops before the next kept place, and the runs behind them.
fn take(
    alloc: Global,
    op: Op,
    text: &[u16],
    drops: &mut Vec<Op>,
    rest: &mut Vec<Op>,
) -> Result<(), NoMemory>
    requires room { IsRoomy op.kind op text.now (made drops.old.items rest.old.items) }
    requires lines { AreLined (reverse rest.old.items) }
    ensures { OnOk result (made drops.new.items rest.new.items ≡ put_front op.kind op text.now (made drops.old.items rest.old.items)) }
{
    match op.kind {
        Kind::Keep => {
            rest.append(drops)?;
            put(rest, op)
        }
        Kind::Drop => put(drops, op),
        Kind::Insert => put_text(alloc, rest, text, op.attrs),
    }
}

/// Whether a run may stand before these.
fn precedes(op: &Op, later: &[Op]) -> bool
    ensures { result ≡ precedes op.now later.now }
{
    match later {
        [] => !op.is_bare(),
        [next, ..] => match (op.kind, next.kind) {
            (Kind::Insert, Kind::Drop) => false,
            (Kind::Keep, Kind::Keep) | (Kind::Drop, Kind::Drop) | (Kind::Insert, Kind::Insert) => {
                !op.joins(next)
            }
            (_, _) => true,
        },
    }
}

/// Whether a run that inserts some text says that it has no newlines.
fn says_no_lines(op: &Op) -> bool
    ensures { result ≡ true → SaysNoLines op.now.kind op.now.units op.now.lines }
{
    match op.kind {
        Kind::Insert => op.units > 0 && op.lines == 0,
        _ => true,
    }
}

/// Whether runs without inserted newlines stand in normal form as they were written.
fn are_in_order(ops: &[Op]) -> bool
    ensures { result ≡ true → AreInOrder ops.now }
{
    let mut rest = ops;
    'runs: while let [op, later @ ..] = rest {
        if !precedes(op, later) || !says_no_lines(op) {
            return false;
        }
        rest = later;
    }
    true
}

/// Runs in normal form for the written ones.
pub fn normal(alloc: Global, old_len: u32, ops: Vec<Op>, bank: &[u16]) -> Result<Vec<Op>, NoMemory>
    requires written { AreWritten ops.items bank.now }
    requires lined { AreLined ops.items }
    requires inside { all_passed ops.items ≤ old_len }
    requires small { length bank.now < 2 ^ 32 }
    ensures finished { IfOk result (λ made. IsFinished old_len ops.items bank.now made.items) }
    ensures lines { IfOk result (λ made. AreLined made.items) }
{
    if count_lines(bank) == 0 && are_in_order(&ops) {
        return Ok(ops);
    }
    put_in_order(alloc, old_len, ops, bank)
}

/// The written runs, put before one another from the last to the first.
fn put_in_order(
    alloc: Global,
    old_len: u32,
    ops: Vec<Op>,
    bank: &[u16],
) -> Result<Vec<Op>, NoMemory>
    requires written { AreWritten ops.items bank.now }
    requires lined { AreLined ops.items }
    requires inside { all_passed ops.items ≤ old_len }
    requires small { length bank.now < 2 ^ 32 }
    ensures finished { IfOk result (λ made. IsFinished old_len ops.items bank.now made.items) }
    ensures lines { IfOk result (λ made. AreLined made.items) }
{
    let mut left = ops;
    let mut drops = Vec::new(alloc);
    let mut rest = Vec::with_capacity(alloc, left.len())?;
    let mut used = bank.len();
    'runs: while let Some(op) = left.pop() {
        let start = used - op.inserted() as usize;
        take(alloc, op, &bank[start..used], &mut drops, &mut rest)?;
        used = start;
    }
    rest.append(&mut drops)?;
    rest.reverse();
    Ok(rest)
}
