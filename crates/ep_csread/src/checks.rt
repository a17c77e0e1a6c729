//! Why a written change is none, each reason for itself.

ghost use Rattle.std.specs.Prelude.{◌≡◌, ◌≤◌, ◌+◌, ◌<◌, ◌^◌, length, IfOk, Option, None};
ghost use Rattle.std.specs.List.{flat_map};
ghost use Rattle.ep_cs.specs.Runs.{all_inserted, all_passed};
ghost use Rattle.ep_csread.specs.Reading.{first_such, is_big, is_missing, op_numbers, all_numbers, all_stars, holds_lines, is_lined, first_unlined, first_half, has_lengths, all_resolved};
ghost use Rattle.ep_csread.specs.Views.{op_view, op_views, parts_view};

use crate::written::{Number, Written, WrittenOp};
use ep_cs::{Kind, Op, count_lines};
use ep_units::{MOST_READ, ends_in_newline};

/// The first of these that is too big.
fn big_of(numbers: &[Number]) -> Option<Number>
    ensures { result ≡ first_such is_big numbers.now }
{
    for number in numbers {
        if number.value > MOST_READ {
            return Some(*number);
        }
    }
    None
}

#[tactic(auto, using(crate::proofs::First::found_first, crate::proofs::First::none_first))]
fn big_in(op: &WrittenOp) -> Option<Number>
    ensures { result ≡ first_such is_big (op_numbers (op_view op.now)) }
{
    match big_of(&op.stars) {
        Some(star) => Some(star),
        None => {
            if op.lines.value > MOST_READ {
                Some(op.lines)
            } else if op.units.value > MOST_READ {
                Some(op.units)
            } else {
                None
            }
        }
    }
}

/// The first number of the operations that is too big.
pub fn first_big_of(ops: &[WrittenOp]) -> Option<Number>
    ensures { result ≡ first_such is_big (flat_map op_numbers (op_views ops.now)) }
{
    for op in ops {
        match big_in(op) {
            Some(number) => return Some(number),
            None => {}
        }
    }
    None
}

/// The first number of the text that is too big.
pub fn first_big(written: &Written<'_>) -> Option<Number>
    ensures { result ≡ first_such is_big (all_numbers (parts_view written.now)) }
{
    if written.old.value > MOST_READ {
        Some(written.old)
    } else if written.difference.value > MOST_READ {
        Some(written.difference)
    } else {
        first_big_of(&written.ops)
    }
}

/// The first of these that the pool of so many pairs hasn't.
fn missing_of(count: u32, numbers: &[Number]) -> Option<Number>
    ensures { result ≡ first_such (is_missing count) numbers.now }
{
    for number in numbers {
        if number.value >= u64::from(count) {
            return Some(*number);
        }
    }
    None
}

fn missing_in(count: u32, op: &WrittenOp) -> Option<Number>
    ensures { result ≡ first_such (is_missing count) (op_view op.now).stars }
{
    missing_of(count, &op.stars)
}

/// The first number of the operations that the pool hasn't.
pub fn first_missing(count: u32, ops: &[WrittenOp]) -> Option<Number>
    ensures { result ≡ first_such (is_missing count) (all_stars (op_views ops.now)) }
{
    for op in ops {
        match missing_in(count, op) {
            Some(number) => return Some(number),
            None => {}
        }
    }
    None
}

fn is_lined(op: &Op, text: &[u16]) -> bool
    ensures { result ≡ is_lined op.now.kind op.now.units op.now.lines text.now }
{
    if op.lines > op.units {
        return false;
    }
    match op.kind {
        Kind::Insert => {
            count_lines(text) == op.lines as usize && (op.lines == 0 || ends_in_newline(text))
        }
        _ => true,
    }
}

/// The first operation whose newlines are wrong.
pub fn first_unlined(ops: &[Op], bank: &[u16]) -> Option<usize>
    requires { all_inserted ops.now ≤ length bank.now }
    ensures { result ≡ first_unlined 0 ops.now bank.now }
{
    let mut used = 0;
    for i in 0..ops.len() {
        let op = &ops[i];
        let next = used + op.inserted() as usize;
        if !is_lined(op, &bank[used..next]) {
            return Some(i);
        }
        used = next;
    }
    None
}
