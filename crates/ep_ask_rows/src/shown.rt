//! One request.

use anyhow::{Context, Result};
use ep_ask::{ApiBad, Call, make_reply, read_call};
use ep_outside::{Pair, Pairs, Text};
use serde_json::{Value, json};
use std::alloc::Global;

fn text_of(value: Option<&Value>) -> Result<&str> {
    value.and_then(Value::as_str).context("a text")
}

fn pairs_of(alloc: Global, value: Option<&Value>) -> Result<Pairs> {
    let mut pairs = Pairs {
        items: Vec::new(alloc),
    };
    let Some(Value::Array(rows)) = value else {
        return Ok(pairs);
    };
    for row in rows {
        let pair = Pair {
            key: Text::from_str(alloc, text_of(row.get(0))?)?,
            value: Text::from_str(alloc, text_of(row.get(1))?)?,
        };
        pairs.items.push(pair)?;
    }
    Ok(pairs)
}

fn function_of(call: &Call) -> &'static str {
    match call {
        Call::CreateGroup => "createGroup",
        Call::CreateGroupIfNotExistsFor { .. } => "createGroupIfNotExistsFor",
        Call::DeleteGroup { .. } => "deleteGroup",
        Call::ListPads { .. } => "listPads",
        Call::ListAllGroups => "listAllGroups",
        Call::CreateGroupPad { .. } => "createGroupPad",
        Call::CreateAuthor { .. } => "createAuthor",
        Call::CreateAuthorIfNotExistsFor { .. } => "createAuthorIfNotExistsFor",
        Call::GetAuthorName { .. } => "getAuthorName",
        Call::CreateSession { .. } => "createSession",
        Call::DeleteSession { .. } => "deleteSession",
        Call::GetSessionInfo { .. } => "getSessionInfo",
        Call::ListSessionsOfGroup { .. } => "listSessionsOfGroup",
        Call::ListSessionsOfAuthor { .. } => "listSessionsOfAuthor",
        Call::CreatePad { .. } => "createPad",
        Call::DeletePad { .. } => "deletePad",
        Call::GetText { .. } => "getText",
        Call::SetText { .. } => "setText",
        Call::GetRevisionsCount { .. } => "getRevisionsCount",
        Call::GetLastEdited { .. } => "getLastEdited",
        Call::PadUsersCount { .. } => "padUsersCount",
        Call::GetReadOnlyId { .. } => "getReadOnlyID",
        Call::SetPublicStatus { .. } => "setPublicStatus",
        Call::GetPublicStatus { .. } => "getPublicStatus",
        Call::CheckToken => "checkToken",
    }
}

fn refusal_json(alloc: Global, why: ApiBad) -> Result<Value> {
    let reply = make_reply(alloc, &Err(why))?;
    Ok(json!(in alloc; {"body": reply.body, "status": reply.status})?)
}

/// What the request of a line comes to.
pub fn shown(alloc: Global, line: &str) -> Result<Value> {
    let asked = Value::from_str(alloc, line)?;
    let pairs = pairs_of(alloc, asked.get("pairs"))?;
    let path = text_of(asked.get("path"))?;
    let key = text_of(asked.get("key"))?;
    match read_call(alloc, path, pairs.as_slice(), key) {
        Ok(call) => Ok(json!(in alloc; {"function": function_of(&call)})?),
        Err(why) => refusal_json(alloc, why),
    }
}
