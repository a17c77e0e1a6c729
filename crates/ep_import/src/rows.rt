//! The revisions as they are written.

ghost use Rattle.std.specs.Prelude.{◌≡◌, ◌+◌, ◌<◌, ◌^◌, map, codes, IfOk};
ghost use Rattle.serde_json.specs.View.{view};
ghost use Rattle.ep_import.specs.Answer.{Gives};
ghost use Rattle.ep_import.specs.Imported.{front_in, row_at, row_in, rows_from};
ghost use Rattle.ep_import.specs.Seen.{front_view, row_view, row_views};

use crate::bad::ImportBad;
use crate::members::{member, object, session, text, whole};
use crate::place::Place;
use ep_export::rev_key;
use ep_units::Session;
use serde_json::Value;
use std::alloc::Global;

/// What the pad is, up to its pool.
#[derive(Clone, Copy)]
pub struct Front<'a> {
    pub pad: &'a Value,
    pub attribs: &'a str,
    pub text: &'a str,
    pub head: u64,
    pub pool: &'a Value,
}

pub fn read_front<'a>(value: &'a Value, key: &str) -> Result<Front<'a>, ImportBad>
    ensures exact { Gives front_view result (front_in key.now (view value.now)) }
    ensures small { IfOk result (λ f. f.head < 2 ^ 53) }
{
    let pad = object(value, key, Place::Pad)?;
    let atext = object(pad, "atext", Place::Atext)?;
    let attribs = text(atext, "attribs", Place::Attribs)?;
    let text = text(atext, "text", Place::Text)?;
    let head = whole(pad, "head", Place::Head)?;
    let pool = member(pad, "pool", Place::Pool)?;
    Ok(Front {
        pad,
        attribs,
        text,
        head,
        pool,
    })
}

/// A revision as it is written.
#[derive(Clone, Copy)]
pub struct Row<'a> {
    pub changeset: &'a str,
    pub author: &'a str,
    pub session: Session,
    pub time: u64,
}

fn read_row(rev: &Value, n: u64) -> Result<Row<'_>, ImportBad>
    ensures { Gives row_view result (row_in n (view rev.now)) }
{
    let changeset = text(rev, "changeset", Place::Changeset(n))?;
    let meta = object(rev, "meta", Place::Meta(n))?;
    let author = text(meta, "author", Place::Author(n))?;
    let session = session(meta, Place::Session(n))?;
    let time = whole(meta, "timestamp", Place::Timestamp(n))?;
    Ok(Row {
        changeset,
        author,
        session,
        time,
    })
}

/// The revision of a number.
fn row_of<'a>(alloc: Global, value: &'a Value, key: &str, n: u64) -> Result<Row<'a>, ImportBad>
    ensures { Gives row_view result (row_at key.now n (view value.now)) }
{
    let key = rev_key(alloc, key, n)?;
    read_row(object(value, key.as_str(), Place::Rev(n))?, n)
}

/// Those from 0 on, so many.
pub fn rows<'a>(
    alloc: Global,
    value: &'a Value,
    key: &str,
    count: u64,
) -> Result<Vec<Row<'a>>, ImportBad>
    ensures { Gives (λ rows. row_views rows.items) result (rows_from key.now (view value.now) 0 count) }
{
    let mut rows = Vec::new(alloc);
    for n in 0..count {
        rows.push(row_of(alloc, value, key, n)?)?;
    }
    Ok(rows)
}
