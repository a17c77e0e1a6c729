//! Reading changesets and attributed texts.

ghost use Rattle.std.specs.Prelude.{◌≡◌, ◌+◌, ◌-◌, ◌≤◌, ◌<◌, ◌^◌, ◌∷◌, [], length, true, None, Ok, ℕ, IfOk, IfErr, IsErrOf};
ghost use Rattle.std.specs.List.{flat_map};
ghost use Rattle.ep_units.specs.Text.{is_well_formed};
ghost use Rattle.ep_cs.specs.Change.{change_of};
ghost use Rattle.ep_cs.specs.NormalRuns.{AreLined};
ghost use Rattle.ep_cs.specs.Runs.{all_inserted, all_passed};
ghost use Rattle.ep_csread.specs.Built.{NewHaveNoEmpty, AreInserts};
ghost use Rattle.ep_csread.specs.Syntax.{parts_of, attribs_at};
ghost use Rattle.ep_csread.specs.Reading.{all_dropped, all_resolved, bank_refused, counted, counted_attribs, first_some, first_such, is_big, lines_refused, missing_refused, op_numbers, pair_refused, reading, reading_attribs, unless};
ghost use Rattle.ep_csread.specs.Grammar.{SyntaxEnds};
ghost use Rattle.ep_csread.specs.Answer.{IsRefused};
ghost use Rattle.ep_csread.specs.Views.{op_view, op_views, parts_view, Answers, syntax_read, attribs_read};

use crate::attrs::resolved;
use crate::bad::ReadBad;
use crate::build::built;
use crate::checks::{first_big, first_big_of, first_missing, first_unlined};
use crate::fault::Fault;
use crate::pairs::first_cut;
use crate::parse::{attribs, written};
use crate::totals::{Lengths, bank_bad};
use crate::written::{Written, WrittenOp};
use ep_cs::{Change, Op};
use ep_pool::Pool;
use ep_units::{MOST_READ, Units};
use std::alloc::Global;

/// The parts of a text.
fn parts(alloc: Global, text: &[u16]) -> Result<Written<'_>, ReadBad>
    ensures { Answers parts_view result (syntax_read text.now (parts_of text.now)) }
{
    match written(alloc, text) {
        Ok(parts) => Ok(parts),
        Err(fault) => Err(fault.at(text.len())),
    }
}

/// The written operations of an attributed text.
fn inserts(alloc: Global, text: &[u16]) -> Result<Vec<WrittenOp>, ReadBad>
    ensures { Answers (λ v. op_views v.items) result (attribs_read text.now (attribs_at text.now)) }
{
    match attribs(alloc, text) {
        Ok((ops, _)) => Ok(ops),
        Err(fault) => Err(fault.at(text.len())),
    }
}

/// The operations with their maps, which stand over all of the bank.
fn spread(alloc: Global, pool: &Pool, ops: &[WrittenOp], bank: &[u16]) -> Result<Vec<Op>, ReadBad>
    requires { first_such is_big (flat_map op_numbers (op_views ops.now)) ≡ None }
    ensures { let os = all_resolved pool.now.pairs (op_views ops.now) in
        Answers (λ v. v.items) result (unless (first_some (missing_refused pool.now.pairs (op_views ops.now) ∷ (bank_refused os bank.now ∷ (lines_refused os bank.now ∷ [])))) os) }
{
    if let Some(number) = first_missing(pool.len(), ops) {
        return Err(ReadBad::NoAttr(number.value));
    }
    let ops = resolved(alloc, pool, ops)?;
    if let Some(why) = bank_bad(&ops, bank) {
        return Err(why);
    }
    match first_unlined(&ops, bank) {
        Some(i) => Err(ReadBad::Lines(i as u64)),
        None => Ok(ops),
    }
}

/// The change of operations over all of a bank, where they cut no pair.
fn whole(alloc: Global, old_len: u32, ops: Vec<Op>, bank: &[u16]) -> Result<Change, ReadBad>
    requires whole { all_inserted ops.items ≡ length bank.now }
    requires inside { all_passed ops.items ≤ old_len }
    requires lined { AreLined ops.items }
    requires no_empty { NewHaveNoEmpty ops.items }
    requires short { old_len - all_dropped ops.items + all_inserted ops.items < 2 ^ 32 }
    requires well_formed { is_well_formed bank.now ≡ true }
    ensures { Answers (λ c. c) result (unless (pair_refused ops.items bank.now) (change_of old_len ops.items bank.now)) }
{
    if let Some(at) = first_cut(&ops, bank) {
        return Err(ReadBad::Pair(at as u64));
    }
    Ok(built(alloc, old_len, ops, bank)?)
}

/// The change that the parts of a text make.
fn counted(alloc: Global, text: &[u16], pool: &Pool, parts: Written<'_>) -> Result<Change, ReadBad>
    requires { is_well_formed parts.bank.now ≡ true }
    ensures { Answers (λ c. c) result (counted pool.now.pairs text.now (Ok (parts_view parts.entry))) }
{
    if let Some(number) = first_big(&parts) {
        return Err(ReadBad::Number(text.len().saturating_sub(number.left) as u64));
    }
    let ops = spread(alloc, pool, &parts.ops, parts.bank)?;
    let lengths = Lengths {
        old: parts.old.value,
        shrinks: parts.shrinks,
        difference: parts.difference.value,
    };
    if !lengths.are_of(&ops) {
        return Err(ReadBad::Length);
    }
    whole(alloc, parts.old.value as u32, ops, parts.bank)
}

/// The change that a text spells with a pool.
pub fn read(alloc: Global, text: &Units, pool: &Pool) -> Result<Change, ReadBad>
    requires { is_well_formed text.now ≡ true }
    ensures change { IfOk result (λ c. reading pool.now.pairs text.now ≡ Ok c) }
    ensures refused { IfErr result (λ why. IsRefused why (reading pool.now.pairs text.now)) }

    // Some changeset text begins with the units before the place, and none with those up to and with it.
    ensures syntax { (at : ℕ) → IsErrOf result (ReadBad.Syntax at) → SyntaxEnds text.now at }
{
    let units = text.as_slice();
    let parts = parts(alloc, units)?;
    counted(alloc, units, pool, parts)
}

/// The change that written insertions make of a text.
fn counted_attribs(
    alloc: Global,
    text: &[u16],
    attribs: &[u16],
    pool: &Pool,
    ops: &[WrittenOp],
) -> Result<Change, ReadBad>
    requires well_formed { is_well_formed text.now ≡ true }
    requires inserts { AreInserts (op_views ops.now) }
    ensures { Answers (λ c. c) result (counted_attribs pool.now.pairs text.now attribs.now (Ok (op_views ops.now, []))) }
{
    if let Some(number) = first_big_of(ops) {
        return Err(ReadBad::Number(attribs.len().saturating_sub(number.left) as u64));
    }
    let ops = spread(alloc, pool, ops, text)?;
    if text.len() as u64 > MOST_READ {
        return Err(ReadBad::Length);
    }
    whole(alloc, 0, ops, text)
}

/// The change on a text of no units that inserts one with the attributes of these operations, each a `+`.
///
/// The places of `Syntax` and `Number` are in the operations, that of `Pair` is in the text.
pub fn read_attribs(
    alloc: Global,
    text: &Units,
    attribs: &Units,
    pool: &Pool,
) -> Result<Change, ReadBad>
    requires { is_well_formed text.now ≡ true }
    ensures change { IfOk result (λ c. reading_attribs pool.now.pairs text.now attribs.now ≡ Ok c) }
    ensures refused { IfErr result (λ why. IsRefused why (reading_attribs pool.now.pairs text.now attribs.now)) }
{
    let units = attribs.as_slice();
    let ops = inserts(alloc, units)?;
    counted_attribs(alloc, text.as_slice(), units, pool, &ops)
}
