//! Records as JSON.

use anyhow::Result;
use ep_cs::Change;
use ep_csread::for_wire;
use ep_record::{Record, decode, encode};
use ep_units::{NoMemory, Session, Units};
use serde_json::{Value, json};
use std::alloc::Global;

fn session_json(alloc: Global, session: Session) -> Result<Value, NoMemory> {
    Ok(json!(in alloc; [session.epoch, session.count])?)
}

/// A revision's record, apart from its change.
#[derive(Drop)]
struct By<'a> {
    session: Session,
    time: u64,
    author: &'a Units,
    fixed: bool,
}

fn rev_json(alloc: Global, by: By<'_>, change: &Change) -> Result<Value, NoMemory> {
    let wire = for_wire(alloc, change)?;
    let session = session_json(alloc, by.session)?;
    let author = by.author.to_text_lossy(alloc)?;
    let changeset = wire.text.to_text_lossy(alloc)?;
    let pool = wire.pool.to_json(alloc)?;
    Ok(json!(in alloc; {
        "author": author, "changeset": changeset, "fixed": by.fixed, "kind": "Rev", "pool": pool,
        "session": session, "time": by.time
    })?)
}

fn record_json(alloc: Global, entry: &Record) -> Result<Value, NoMemory> {
    match entry {
        Record::Open { epoch } => Ok(json!(in alloc; {"epoch": *epoch, "kind": "Open"})?),
        Record::Create { birth, time, text } => {
            let text = text.to_text_lossy(alloc)?;
            Ok(json!(in alloc; {"birth": *birth, "kind": "Create", "text": text, "time": *time})?)
        }
        Record::Rev {
            session,
            time,
            author,
            fixed,
            change,
        } => {
            let by = By {
                session: *session,
                time: *time,
                author,
                fixed: *fixed,
            };
            rev_json(alloc, by, change)
        }
        Record::Delete { time } => Ok(json!(in alloc; {"kind": "Delete", "time": *time})?),
        Record::Public { on } => Ok(json!(in alloc; {"kind": "Public", "on": *on})?),
        Record::Nop { session, time } => {
            let session = session_json(alloc, *session)?;
            Ok(json!(in alloc; {"kind": "Nop", "session": session, "time": *time})?)
        }
    }
}

/// What a line of hexadecimal digits stands for.
pub fn shown(alloc: Global, line: &str) -> Result<Value> {
    let bytes = hex::decode(alloc, line)?;
    match decode(alloc, bytes.as_slice())? {
        None => Ok(Value::Null),
        Some(entry) => {
            let again = hex::encode(alloc, encode(alloc, &entry)?.as_slice())?;
            let entry = record_json(alloc, &entry)?;
            Ok(json!(in alloc; {"hex": again, "record": entry})?)
        }
    }
}
