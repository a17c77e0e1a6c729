//! What stands in a message's pool, and in the changesets that name its pairs.

ghost use Rattle.std.specs.Prelude.{IfOk, ◌++◌};
ghost use Rattle.std.specs.List.{AllByRecursion};
ghost use Rattle.serde_json.specs.Find.{as_str};
ghost use Rattle.serde_json.specs.View.{items_view, view};
ghost use Rattle.ep_wire_words.specs.Answer.{Answers, Gives};
ghost use Rattle.ep_units.specs.Utf8.{units_of};
ghost use Rattle.ep_csread.specs.Reading.{reading};
ghost use Rattle.ep_apply.specs.Documents.{insertion};
ghost use Rattle.ep_wire_words.specs.Pools.{ReadsChange, ReadsDoc, ReadsSteps, all_read, of_changeset, text_read};
ghost use Rattle.ep_wire_words.specs.Sent.{AreSent, IsSent};
ghost use Rattle.ep_wire.specs.ReadWith.{IsReadWith};

use ep_apply::{Doc, apply};
use ep_cs::Change;
use ep_csread::{read, read_attribs};
use ep_pool::Pool;
use ep_wire_words::members::units_from;
use ep_wire_words::{Listed, Member, WireBad};
use serde_json::Value;
use std::alloc::Global;

/// The change that a text spells with a pool.
fn spelled(alloc: Global, text: &str, pool: &Pool) -> Result<Change, WireBad>
    ensures exact { Gives (λ c. c) result (of_changeset (reading pool.now.pairs (units_of text.now))) }
    ensures read_with { IfOk result (IsReadWith pool.now.pairs) }
{
    let text = units_from(alloc, text)?;
    let change = read(alloc, &text, pool)?;
    let _runs = change.ops();
    Ok(change)
}

/// The change that a changeset spells with a pool's JSON.
pub fn change(alloc: Global, changeset: &str, pool: &Value) -> Result<Change, WireBad>
    ensures answer { Answers (ReadsChange (view pool.now) changeset.now) result }
    ensures sent { IfOk result IsSent }
{
    let pool = Pool::from_json(alloc, pool)?;
    // So it has fewer than 2^32 pairs.
    let _pairs = pool.len();
    Ok(spelled(alloc, changeset, &pool)?)
}

/// The document whose text has attributes that these operations spell with a pool.
pub fn document(alloc: Global, text: &str, attribs: &str, pool: &Value) -> Result<Doc, WireBad>
    ensures answer { Answers (ReadsDoc (view pool.now) text.now attribs.now) result }
    ensures sent { IfOk result (λ doc. IsSent (insertion doc)) }
{
    let text = units_from(alloc, text)?;
    let attribs = units_from(alloc, attribs)?;
    let pool = Pool::from_json(alloc, pool)?;
    // So it has fewer than 2^32 pairs.
    let _pairs = pool.len();
    let change = read_attribs(alloc, &text, &attribs, &pool)?;
    // Its operations are normal.
    let _runs = change.ops();
    Ok(apply(alloc, &Doc::empty(alloc), &change)?)
}

fn changeset(alloc: Global, value: &Value, pool: &Pool) -> Result<Change, WireBad>
    ensures exact { Gives (λ c. c) result (text_read pool.now.pairs (as_str (view value.now))) }
    ensures read_with { IfOk result (IsReadWith pool.now.pairs) }
{
    let text = value.as_str().ok_or(WireBad::Shape(Member::Changeset))?;
    Ok(spelled(alloc, text, pool)?)
}

fn changesets(alloc: Global, values: &[Value], pool: &Pool) -> Result<Listed<Change>, WireBad>
    ensures exact { Gives (λ cs. cs) result (all_read pool.now.pairs (items_view values.now)) }
    ensures read_with { IfOk result (AllByRecursion (IsReadWith pool.now.pairs)) }
{
    let mut changes = Listed::new(alloc);
    for value in values {
        changes.push(changeset(alloc, value, pool)?)?;
    }
    Ok(changes)
}

/// The changes that two arrays of changesets spell with one pool.
pub fn steps(
    alloc: Global,
    first: &[Value],
    second: &[Value],
    pool: &Value,
) -> Result<(Listed<Change>, Listed<Change>), WireBad>
    ensures answer { Answers (ReadsSteps (view pool.now) (items_view first.now) (items_view second.now)) result }
    ensures sent { IfOk result (λ x. AreSent (x.1 ++ x.0)) }
{
    let pool = Pool::from_json(alloc, pool)?;
    // So it has fewer than 2^32 pairs.
    let _pairs = pool.len();
    let first = changesets(alloc, first, &pool)?;
    let second = changesets(alloc, second, &pool)?;
    Ok((first, second))
}
