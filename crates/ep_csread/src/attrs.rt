//! The operations that a text names, with their maps from a pool.

ghost use Rattle.std.specs.Prelude.{◌≡◌, ◌<◌, true, slice_index_or, length, map, None, IfOk, IfSome};
ghost use Rattle.ep_attr.specs.AttrMap.{none, of_pairs};
ghost use Rattle.ep_attr.specs.Attrs.{pairs_of};
ghost use Rattle.std.specs.List.{flat_map};
ghost use Rattle.ep_csread.specs.Spelling.{said};
ghost use Rattle.ep_csread.specs.Reading.{all_resolved, first_such, is_big, map_for, map_from, op_numbers, resolved, values};
ghost use Rattle.ep_csread.specs.Views.{op_view, op_views};

use crate::written::{Number, WrittenOp};
use ep_attr::{Attr, AttrMap};
use ep_cs::{Kind, Op, without_empty};
use ep_pool::Pool;
use ep_units::NoMemory;
use std::alloc::Global;
use std::slice;

/// How many of the operations before one are looked at for its map.
const NEAR: usize = 8;

/// The operations, whose numbers the pool has. Those near to each other share their maps where these are equal.
pub fn resolved(alloc: Global, pool: &Pool, ops: &[WrittenOp]) -> Result<Vec<Op>, NoMemory>
    requires { first_such is_big (flat_map op_numbers (op_views ops.now)) ≡ None }
    ensures { IfOk result (λ made. made.items ≡ all_resolved pool.now.pairs (op_views ops.now)) }
{
    let mut made = Vec::with_capacity(alloc, ops.len())?;
    for i in 0..ops.len() {
        let op = resolved_op(alloc, pool, &ops[i], &ops[..i], &made)?;
        made.push(op)?;
    }
    Ok(made)
}

/// The operation, which shares its map with one like it among those before, where there is one near.
#[tactic(auto, using(crate::proofs::Named::small_op))]
fn resolved_op(
    alloc: Global,
    pool: &Pool,
    op: &WrittenOp,
    before: &[WrittenOp],
    made: &[Op],
) -> Result<Op, NoMemory>
    requires small { first_such is_big (op_numbers (op_view op.now)) ≡ None }
    requires made { made.now ≡ all_resolved pool.now.pairs (op_views before.now) }
    ensures { IfOk result (λ o. o ≡ resolved pool.now.pairs (said (op_view op.now))) }
{
    let attrs = match alike(op, before) {
        Some(j) => made[j].attrs.copy(alloc)?,
        None => new_map(alloc, pool, op)?,
    };
    Ok(Op {
        kind: op.kind,
        units: op.units.value as u32,
        lines: op.lines.value as u32,
        attrs,
    })
}

/// The place of an operation with the same map, where one of the last has it.
fn alike(op: &WrittenOp, before: &[WrittenOp]) -> Option<usize>
    ensures inside { IfSome result (λ j. j < length before.now) }
    ensures kind { IfSome result (λ j. (slice_index_or before.now j op.now).kind ≡ op.now.kind) }
    ensures stars { IfSome result (λ j. values (slice_index_or before.now j op.now).stars.items ≡ values op.now.stars.items) }
{
    if op.stars.is_empty() {
        return None;
    }
    for j in before.len().saturating_sub(NEAR)..before.len() {
        if has_same_map(&before[j], op) {
            return Some(j);
        }
    }
    None
}

/// Whether both keep or both insert, with the same numbers.
fn has_same_map(a: &WrittenOp, b: &WrittenOp) -> bool
    ensures kind { result ≡ true → a.now.kind ≡ b.now.kind }
    ensures stars { result ≡ true → values a.now.stars.items ≡ values b.now.stars.items }
{
    match (a.kind, b.kind) {
        (Kind::Keep, Kind::Keep) | (Kind::Insert, Kind::Insert) => same_values(&a.stars, &b.stars),
        _ => false,
    }
}

/// Whether the numbers have the same values.
fn same_values(a: &[Number], b: &[Number]) -> bool
    ensures { result ≡ true → values a.now ≡ values b.now }
{
    if a.len() != b.len() {
        return false;
    }
    for i in 0..a.len() {
        if a[i].value != b[i].value {
            return false;
        }
    }
    true
}

/// The map of the operation, which is made.
fn new_map(alloc: Global, pool: &Pool, op: &WrittenOp) -> Result<AttrMap, NoMemory>
    requires { first_such is_big op.now.stars.items ≡ None }
    ensures { IfOk result (λ m. m ≡ map_for op.now.kind (map_from pool.now.pairs none (values op.now.stars.items))) }
{
    match op.kind {
        Kind::Keep => named(alloc, pool, &op.stars),
        Kind::Drop => Ok(AttrMap::none(alloc)),
        Kind::Insert => without_empty(alloc, named(alloc, pool, &op.stars)?),
    }
}

/// The map of the attributes with these numbers, the later value counting.
fn named(alloc: Global, pool: &Pool, stars: &[Number]) -> Result<AttrMap, NoMemory>
    requires { first_such is_big stars.now ≡ None }
    ensures { IfOk result (λ m. m ≡ map_from pool.now.pairs none (values stars.now)) }
{
    match stars {
        [] => Ok(AttrMap::none(alloc)),
        [star] => match pool.get(star.value as u32) {
            None => Ok(AttrMap::none(alloc)),
            Some(attr) => AttrMap::read(alloc, slice::from_ref(attr)),
        },
        _ => {
            let attrs = gathered(alloc, pool, stars)?;
            AttrMap::read(alloc, &attrs)
        }
    }
}

/// The attributes with these numbers, in their order.
fn gathered(alloc: Global, pool: &Pool, stars: &[Number]) -> Result<Vec<Attr>, NoMemory>
    requires { first_such is_big stars.now ≡ None }
    ensures { IfOk result (λ attrs. of_pairs (pairs_of attrs.items) ≡ map_from pool.now.pairs none (values stars.now)) }
{
    let mut attrs = Vec::with_capacity(alloc, stars.len())?;
    for star in stars {
        if let Some(attr) = pool.get(star.value as u32) {
            let key = attr.key.copy(alloc)?;
            let value = attr.value.copy(alloc)?;
            attrs.push(Attr { key, value })?;
        }
    }
    Ok(attrs)
}
