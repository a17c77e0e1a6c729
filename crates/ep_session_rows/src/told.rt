//! What is told of a session.

use crate::refusal::Ended;
use crate::stop::Stop;
use ep_link::Passed;
use ep_session::{End, Report};
use ep_units::Session;
use serde_json::{Map, Value, put};
use std::alloc::Global;

/// The texts that were sent.
fn sent(alloc: Global, passed: &[Passed]) -> Result<Value, Stop> {
    let mut texts = Vec::new(alloc);
    for each in passed {
        if let Passed::Sent(text) = each {
            texts.push(Value::try_from_str(alloc, text.as_str())?)?;
        }
    }
    Ok(Value::Array(texts))
}

fn session(alloc: Global, session: Option<Session>) -> Result<Value, Stop> {
    match session {
        Some(me) => Ok(Value::String(format!(in alloc; "{}.{}", me.epoch, me.count)?)),
        None => Ok(Value::Null),
    }
}

fn ended(alloc: Global, end: &End) -> Result<Value, Stop> {
    let end = Ended(end);
    Ok(Value::String(format!(in alloc; "{end}")?))
}

fn put_told<O: Drop, A: Drop, B: Drop>(
    alloc: Global,
    report: &Report<O, A, B>,
    passed: &[Passed],
    members: &mut Map<String, Value>,
) -> Result<(), Stop> {
    put(members, alloc, "cursor", Value::from(report.cursor))?;
    put(members, alloc, "end", ended(alloc, &report.end)?)?;
    put(members, alloc, "sent", sent(alloc, passed)?)?;
    put(members, alloc, "session", session(alloc, report.session)?)?;
    put(members, alloc, "start", Value::from(report.start))?;
    put(members, alloc, "taken", Value::from(report.taken))?;
    Ok(())
}

/// What the reply has of a session that was served.
pub fn told<O: Drop, A: Drop, B: Drop>(
    alloc: Global,
    report: &Report<O, A, B>,
    passed: &[Passed],
) -> Result<Map<String, Value>, Stop> {
    let mut members = Map::new(alloc);
    put_told(alloc, report, passed, &mut members)?;
    Ok(members)
}
