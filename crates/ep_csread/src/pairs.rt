//! Pairs that an operation cuts.

ghost use Rattle.std.specs.Prelude.{◌≡◌, ◌≤◌, length, None, Option};
ghost use Rattle.ep_cs.specs.Runs.{all_inserted};
ghost use Rattle.ep_csread.specs.Before.{map_before, cuts, place_after, first_cut, is_before};
ghost use Rattle.ep_units.specs.Halves.{begins_low};

use ep_attr::AttrMap;
use ep_cs::{Kind, Op};

fn begins_low(text: &[u16]) -> bool
    ensures { result ≡ begins_low text.now }
{
    match text {
        [] => false,
        [unit, ..] => 56320 <= *unit && *unit < 57344,
    }
}

fn is_before(before: Option<usize>, ops: &[Op], attrs: &AttrMap) -> bool
    ensures { result ≡ is_before (map_before ops.now before) attrs.now }
{
    match before {
        None => false,
        Some(i) => i < ops.len() && ops[i].attrs == *attrs,
    }
}

/// The first unit of the bank whose pair an operation cuts.
pub fn first_cut(ops: &[Op], bank: &[u16]) -> Option<usize>
    requires { all_inserted ops.now ≤ length bank.now }
    ensures { result ≡ first_cut 0 None ops.now bank.now }
{
    let mut used = 0;
    let mut before = None;
    for i in 0..ops.len() {
        let op = &ops[i];
        let next = used + op.inserted() as usize;
        if cuts(before, ops, op, &bank[used..]) {
            return Some(used.saturating_sub(1));
        }
        before = after(before, i, op);
        used = next;
    }
    None
}

/// Whether this operation begins with a second half that doesn't belong to what stands before it.
fn cuts(before: Option<usize>, ops: &[Op], op: &Op, bank: &[u16]) -> bool
    ensures { result ≡ cuts (map_before ops.now before) op.now bank.now }
{
    match op.kind {
        Kind::Insert => { op.units > 0 && begins_low(bank) && !is_before(before, ops, &op.attrs) }
        _ => false,
    }
}

/// The insertion that stands right before what comes next in its gap.
fn after(before: Option<usize>, i: usize, op: &Op) -> Option<usize>
    ensures { result ≡ place_after before i op.now }
{
    if op.units == 0 {
        return before;
    }
    match op.kind {
        Kind::Insert => Some(i),
        Kind::Keep => None,
        Kind::Drop => before,
    }
}
