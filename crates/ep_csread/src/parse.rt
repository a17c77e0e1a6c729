//! The syntax of changeset text.

ghost use Rattle.std.specs.Prelude.{◌≡◌, ◌≤◌, length, take, drop, Ok};
ghost use Rattle.ep_csread.specs.Syntax.{unit_at, number_at, star_at, stars_at, begins_star, lines_at, kind_at, op_at, ops_at, attrib_at, attribs_at, is_some_text, sign_at, parts_of, goes_on};
ghost use Rattle.ep_csread.specs.Views.{Gives, op_view, op_views, parts_view};

use crate::fault::Fault;
use crate::written::{Number, Written, WrittenOp};
use ep_cs::Kind;
use ep_units::{MOST_READ, digits36};
use std::alloc::Global;

/// Stands for all numbers that are too large to be read.
const TOO_LARGE: u64 = MOST_READ + 1;

fn unit(wanted: u16, text: &[u16]) -> Result<&[u16], Fault>
    ensures { Gives (λ x. x.now) result (unit_at wanted text.now) }
{
    match text {
        [] => Err(Fault::Syntax(0)),
        [unit, rest @ ..] => {
            if *unit == wanted {
                Ok(rest)
            } else {
                Err(Fault::Syntax(text.len()))
            }
        }
    }
}

fn sign(text: &[u16]) -> Result<(bool, &[u16]), Fault>
    ensures { Gives (λ x. (x.0, x.1.now)) result (sign_at text.now) }
{
    match text {
        [] => Err(Fault::Syntax(0)),
        [62, rest @ ..] => Ok((false, rest)),
        [60, rest @ ..] => Ok((true, rest)),
        [_, ..] => Err(Fault::Syntax(text.len())),
    }
}

fn kind(text: &[u16]) -> Result<(Kind, &[u16]), Fault>
    ensures { Gives (λ x. (x.0, x.1.now)) result (kind_at text.now) }
{
    match text {
        [] => Err(Fault::Syntax(0)),
        [61, rest @ ..] => Ok((Kind::Keep, rest)),
        [45, rest @ ..] => Ok((Kind::Drop, rest)),
        [43, rest @ ..] => Ok((Kind::Insert, rest)),
        [_, ..] => Err(Fault::Syntax(text.len())),
    }
}

/// The number, `TOO_LARGE` standing for all that are larger.
fn number(text: &[u16]) -> Result<(Number, &[u16]), Fault>
    ensures { Gives (λ x. (x.0, x.1.now)) result (number_at text.now) }
{
    let digits = digits36(text);
    if digits.len == 0 {
        return Err(Fault::Syntax(text.len()));
    }
    let value = digits.number.unwrap_or(TOO_LARGE);
    let left = text.len();
    Ok((Number { value, left }, &text[digits.len..]))
}

fn begins_star(text: &[u16]) -> bool
    ensures { result ≡ begins_star text.now }
{
    match text {
        [42, ..] => true,
        _ => false,
    }
}

/// The number behind a `*`.
fn star(text: &[u16]) -> Result<(Number, &[u16]), Fault>
    ensures { Gives (λ x. (x.0, x.1.now)) result (star_at text.now) }
{
    match text {
        [] => Err(Fault::Syntax(0)),
        [_, rest @ ..] => number(rest),
    }
}

fn stars(alloc: Global, text: &[u16]) -> Result<(Vec<Number>, &[u16]), Fault>
    ensures { Gives (λ x. (x.0.items, x.1.now)) result (stars_at text.now) }
{
    let mut stars = Vec::new(alloc);
    let mut rest = text;
    'stars: while begins_star(rest) {
        let (next, after) = star(rest)?;
        stars.push(next)?;
        rest = after;
    }
    Ok((stars, rest))
}

fn lines(text: &[u16]) -> Result<(Number, &[u16]), Fault>
    ensures { Gives (λ x. (x.0, x.1.now)) result (lines_at text.now) }
{
    match text {
        [124, rest @ ..] => number(rest),
        _ => Ok((Number { value: 0, left: 0 }, text)),
    }
}

#[tactic(auto, unfolding(crate::specs::Syntax::op_at))]
fn operation(alloc: Global, text: &[u16]) -> Result<(WrittenOp, &[u16]), Fault>
    ensures { Gives (λ x. (op_view x.0, x.1.now)) result (op_at text.now) }
{
    let (stars, rest) = stars(alloc, text)?;
    let (lines, rest) = lines(rest)?;
    let (kind, rest) = kind(rest)?;
    let (units, rest) = number(rest)?;
    let op = WrittenOp {
        stars,
        lines,
        kind,
        units,
    };
    Ok((op, rest))
}

/// The operations before the `$`.
fn operations(alloc: Global, text: &[u16]) -> Result<(Vec<WrittenOp>, &[u16]), Fault>
    ensures { Gives (λ x. (op_views x.0.items, x.1.now)) result (ops_at text.now) }
{
    let mut ops = Vec::new(alloc);
    let mut rest = text;
    'ops: while begins_op(rest) {
        let (op, after) = operation(alloc, rest)?;
        ops.push(op)?;
        rest = after;
    }
    Ok((ops, rest))
}

fn begins_op(text: &[u16]) -> bool
    ensures { result ≡ goes_on text.now }
{
    match text {
        [36, ..] => false,
        _ => true,
    }
}

/// An operation that inserts.
#[tactic(auto, unfolding(crate::specs::Syntax::attrib_at))]
fn attrib(alloc: Global, text: &[u16]) -> Result<(WrittenOp, &[u16]), Fault>
    ensures { Gives (λ x. (op_view x.0, x.1.now)) result (attrib_at text.now) }
{
    let (stars, rest) = stars(alloc, text)?;
    let (lines, rest) = lines(rest)?;
    let rest = unit(43, rest)?;
    let (units, rest) = number(rest)?;
    let op = WrittenOp {
        stars,
        lines,
        kind: Kind::Insert,
        units,
    };
    Ok((op, rest))
}

/// Operations that insert, to the end of the text.
pub fn attribs(alloc: Global, text: &[u16]) -> Result<(Vec<WrittenOp>, &[u16]), Fault>
    ensures { Gives (λ x. (op_views x.0.items, x.1.now)) result (attribs_at text.now) }
{
    let mut ops = Vec::new(alloc);
    let mut rest = text;
    'ops: while is_some_text(rest) {
        let (op, after) = attrib(alloc, rest)?;
        ops.push(op)?;
        rest = after;
    }
    Ok((ops, rest))
}

fn is_some_text(text: &[u16]) -> bool
    ensures { result ≡ is_some_text text.now }
{
    match text {
        [] => false,
        [_, ..] => true,
    }
}

/// A whole text.
#[tactic(auto, unfolding(crate::specs::Syntax::parts_of))]
pub fn written(alloc: Global, text: &[u16]) -> Result<Written<'_>, Fault>
    ensures { Gives parts_view result (parts_of text.now) }
{
    let rest = unit(90, text)?;
    let rest = unit(58, rest)?;
    let (old, rest) = number(rest)?;
    let (shrinks, rest) = sign(rest)?;
    let (difference, rest) = number(rest)?;
    let (ops, rest) = operations(alloc, rest)?;
    let bank = unit(36, rest)?;
    Ok(Written {
        old,
        shrinks,
        difference,
        ops,
        bank,
    })
}
