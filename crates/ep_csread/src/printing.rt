//! The normal spelling of a change, with the numbers of a pool.

ghost use Rattle.std.specs.Prelude.{◌≡◌, ◌++◌, ◌∷◌, true, IfOk, OnOk, map};
ghost use Rattle.std.specs.List.{flat_map, list_all};
ghost use Rattle.ep_attr.specs.Attrs.{pairs_of};
ghost use Rattle.ep_pool.specs.Pool.{has, number_of, pair_of};
ghost use Rattle.ep_units.specs.Base36.{write36};
ghost use Rattle.ep_units.specs.Text.{Text};
ghost use Rattle.ep_cs.specs.Change.{bank_of};
ghost use Rattle.ep_cs.specs.Spelling.{star_text, lines_text, kind_text, op_text, difference_text};
ghost use Rattle.ep_csread.specs.Spelling.{numbers_in, has_pairs, ops_text, printed};

use crate::output::Spell;
use ep_attr::{Attr, AttrMap};
use ep_cs::{Change, Kind, Op};
use ep_pool::Pool;
use ep_units::{NoMemory, Units};
use std::alloc::Global;

/// For how many units there is room beside the bank: the spelling of a letter has fewer.
const ROOM: usize = 32;

fn kind_unit(kind: Kind) -> u8
    ensures { result ≡ kind_text kind }
{
    match kind {
        Kind::Keep => 61,
        Kind::Drop => 45,
        Kind::Insert => 43,
    }
}

fn write_stars<S: Spell>(stars: &[u32], out: &mut S) -> Result<(), NoMemory>
    ensures { OnOk result (S.spelled out.new ≡ S.spelled out.old ++ flat_map star_text stars.now) }
{
    for star in stars {
        out.put(42)?;
        out.put36(u64::from(*star))?;
    }
    Ok(())
}

fn write_lines<S: Spell>(lines: u32, out: &mut S) -> Result<(), NoMemory>
    ensures { OnOk result (S.spelled out.new ≡ S.spelled out.old ++ lines_text lines) }
{
    if lines > 0 {
        out.put(124)?;
        out.put36(u64::from(lines))?;
    }
    Ok(())
}

/// Appends an operation, whose attributes have these numbers.
fn write_op<S: Spell>(stars: &[u32], op: &Op, out: &mut S) -> Result<(), NoMemory>
    ensures { OnOk result (S.spelled out.new ≡ S.spelled out.old ++ op_text stars.now op.now) }
{
    write_stars(stars, out)?;
    write_lines(op.lines, out)?;
    out.put(kind_unit(op.kind))?;
    out.put36(u64::from(op.units))
}

/// Appends how much longer or shorter the new text is.
fn write_difference<S: Spell>(old: u32, new: u32, out: &mut S) -> Result<(), NoMemory>
    ensures { OnOk result (S.spelled out.new ≡ S.spelled out.old ++ difference_text old new) }
{
    if old <= new {
        out.put(62)?;
        out.put36(u64::from(new - old))
    } else {
        out.put(60)?;
        out.put36(u64::from(old - new))
    }
}

/// The number of an attribute that the pool has.
#[tactic(auto, using(crate::proofs::Numbering::found))]
fn number(attr: &Attr, pool: &Pool) -> u32
    requires { has pool.now.pairs (pair_of attr.now) ≡ true }
    ensures { result ≡ number_of pool.now.pairs (pair_of attr.now) }
{
    pool.find(attr).unwrap()
}

#[tactic(auto, using(crate::proofs::Numbering::attr_there))]
fn push_numbers(attrs: &[Attr], pool: &Pool, numbers: &mut Vec<u32>) -> Result<(), NoMemory>
    requires { list_all (has pool.now.pairs) (pairs_of attrs.now) ≡ true }
    ensures { OnOk result (numbers.new.items ≡ numbers.old.items ++ map (number_of pool.now.pairs) (pairs_of attrs.now)) }
{
    for attr in attrs {
        numbers.push(number(attr, pool))?;
    }
    Ok(())
}

/// Puts the numbers of the map's pairs in the place of what `numbers` held, from the lowest to the highest.
fn number_all(attrs: &AttrMap, pool: &Pool, numbers: &mut Vec<u32>) -> Result<(), NoMemory>
    requires { list_all (has pool.now.pairs) attrs.now.pairs ≡ true }
    ensures { OnOk result (numbers.new.items ≡ numbers_in pool.now.pairs attrs.now) }
{
    numbers.clear();
    push_numbers(attrs.pairs(), pool, numbers)?;
    numbers.sort_unstable();
    Ok(())
}

/// Appends the operations.
pub(crate) fn write_ops<S: Spell>(
    alloc: Global,
    ops: &[Op],
    pool: &Pool,
    out: &mut S,
) -> Result<(), NoMemory>
    requires { has_pairs pool.now.pairs ops.now ≡ true }
    ensures { OnOk result (S.spelled out.new ≡ S.spelled out.old ++ ops_text pool.now.pairs ops.now) }
{
    let mut numbers = Vec::new(alloc);
    for op in ops {
        number_all(&op.attrs, pool, &mut numbers)?;
        write_op(&numbers, op, out)?;
    }
    Ok(())
}

/// Appends `Z:` and the lengths.
fn write_lengths<S: Spell>(old: u32, new: u32, out: &mut S) -> Result<(), NoMemory>
    ensures { OnOk result (S.spelled out.new ≡ S.spelled out.old ++ 90 ∷ 58 ∷ (write36 old ++ difference_text old new)) }
{
    out.put(90)?;
    out.put(58)?;
    out.put36(u64::from(old))?;
    write_difference(old, new, out)
}

#[tactic(auto, using(crate::proofs::Numbering::found_there))]
fn has(attr: &Attr, pool: &Pool) -> bool
    ensures { result ≡ has pool.now.pairs (pair_of attr.now) }
{
    pool.find(attr).is_some()
}

#[tactic(auto, using(crate::proofs::Numbering::attr_missing, std::proofs::lemmas::Grind::common_steps))]
fn has_all(attrs: &[Attr], pool: &Pool) -> bool
    ensures { result ≡ list_all (has pool.now.pairs) (pairs_of attrs.now) }
{
    for attr in attrs {
        if !has(attr, pool) {
            return false;
        }
    }
    true
}

/// Whether the pool has every pair of the change.
pub fn has_pairs(change: &Change, pool: &Pool) -> bool
    ensures { result ≡ has_pairs pool.now.pairs change.now.runs }
{
    change
        .ops()
        .iter()
        .all(|op| has_all(op.attrs.pairs(), pool))
}

/// Appends the normal spelling of a change with a pool that has its pairs, up to its bank.
pub fn print_front<S: Spell>(
    alloc: Global,
    change: &Change,
    pool: &Pool,
    out: &mut S,
) -> Result<(), NoMemory>
    requires { has_pairs pool.now.pairs change.now.runs ≡ true }
    ensures { OnOk result ((front : Text) × (S.spelled out.new ≡ S.spelled out.old ++ front) × (front ++ bank_of change.now.edit ≡ printed pool.now.pairs change.now)) }
{
    write_lengths(change.old_len(), change.new_len(), out)?;
    write_ops(alloc, change.ops(), pool, out)?;
    out.put(36)?;
    Ok(())
}

/// The normal spelling of a change with a pool that has its pairs.
pub fn print(alloc: Global, change: &Change, pool: &Pool) -> Result<Units, NoMemory>
    requires { has_pairs pool.now.pairs change.now.runs ≡ true }
    ensures { IfOk result (λ text. text ≡ printed pool.now.pairs change.now) }
{
    let mut out = Units::with_capacity(alloc, change.bank().len().saturating_add(ROOM))?;
    print_front(alloc, change, pool, &mut out)?;
    out.push_all(change.bank().as_slice())?;
    Ok(out)
}
