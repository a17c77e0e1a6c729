//! The values in a pad's exported history.

ghost use Rattle.std.specs.Prelude.{◌≡◌, IfOk};
ghost use Rattle.serde_json.specs.View.{view};
ghost use Rattle.ep_apply.specs.Documents.{insertion};
ghost use Rattle.ep_csread.specs.Spelling.{ops_text};
ghost use Rattle.ep_wire_words.specs.Json.{text};
ghost use Rattle.ep_export.specs.Exported.{atext_json, meta_json, pad_json, spelled_json};

use crate::attribs::spell_attribs;
use ep_apply::Doc;
use ep_csread::has_pairs;
use ep_history::Rev;
use ep_pool::Pool;
use ep_units::{NoMemory, Units};
use ep_wire_words::session::session_text;
use serde_json::{Map, Value, put};
use std::alloc::Global;

fn text(alloc: Global, units: &Units) -> Result<Value, NoMemory>
    ensures { IfOk result (λ v. view v ≡ text units.now) }
{
    Ok(Value::String(units.to_text_lossy(alloc)?))
}

fn meta(alloc: Global, rev: &Rev) -> Result<Value, NoMemory>
    ensures { IfOk result (λ v. view v ≡ meta_json rev.now) }
{
    let author = text(alloc, &rev.author)?;
    let session = session_text(alloc, rev.session)?;
    let mut members = Map::new(alloc);
    put(&mut members, alloc, "author", author)?;
    put(&mut members, alloc, "session", Value::String(session))?;
    put(&mut members, alloc, "timestamp", Value::from(rev.time))?;
    Ok(Value::Object(members))
}

/// A revision whose changeset is spelled so.
pub fn rev_value(alloc: Global, spelled: &Units, rev: &Rev) -> Result<Value, NoMemory>
    ensures { IfOk result (λ v. view v ≡ spelled_json spelled.now rev.now) }
{
    let spelled = text(alloc, spelled)?;
    let meta = meta(alloc, rev)?;
    let mut members = Map::new(alloc);
    put(&mut members, alloc, "changeset", spelled)?;
    put(&mut members, alloc, "meta", meta)?;
    Ok(Value::Object(members))
}

/// The attributes of a document. Each pair of the last document stands in some revision, and so in the pool.
fn doc_attribs(alloc: Global, doc: &Doc, pool: &Pool) -> Result<Units, NoMemory>
    ensures { IfOk result (λ us. us ≡ ops_text pool.now.pairs (insertion doc.now).runs) }
{
    let insertion = doc.as_insert(alloc)?;
    if !has_pairs(&insertion, pool) {
        return Err(NoMemory);
    }
    spell_attribs(alloc, &insertion, pool)
}

fn atext(alloc: Global, doc: &Doc, pool: &Pool) -> Result<Value, NoMemory>
    ensures { IfOk result (λ v. view v ≡ atext_json pool.now.pairs doc.now) }
{
    let attribs = doc_attribs(alloc, doc, pool)?;
    let units = doc.text(alloc)?;
    let attribs = text(alloc, &attribs)?;
    let units = text(alloc, &units)?;
    let mut members = Map::new(alloc);
    put(&mut members, alloc, "attribs", attribs)?;
    put(&mut members, alloc, "text", units)?;
    Ok(Value::Object(members))
}

/// What the pad is, where its head has that number.
pub fn pad_value(
    alloc: Global,
    doc: &Doc,
    pool: &Pool,
    head: u64,
    public: bool,
) -> Result<Value, NoMemory>
    ensures { IfOk result (λ v. view v ≡ pad_json pool.now.pairs doc.now head public) }
{
    let atext = atext(alloc, doc, pool)?;
    let pool = pool.to_json(alloc)?;
    let mut members = Map::new(alloc);
    put(&mut members, alloc, "atext", atext)?;
    put(&mut members, alloc, "head", Value::from(head))?;
    put(&mut members, alloc, "pool", pool)?;
    put(&mut members, alloc, "publicStatus", Value::from(public))?;
    Ok(Value::Object(members))
}
