//! The reply to a line.

use crate::asked::{member, text, whole};
use crate::message::{client_message, server_message};
use crate::refusal::Refusal;
use crate::stop::Stop;
use crate::told::{client_value, server_value};
use ep_units::NoMemory;
use ep_wire::{WireBad, read_client, read_server, write_client, write_server};
use serde_json::error::Category;
use serde_json::{Map, Value};
use std::alloc::{AllocError, Global};

/// The reply with one member.
fn with(alloc: Global, name: &str, value: Value) -> Result<Value, Stop> {
    let mut members = Map::new(alloc);
    serde_json::put(&mut members, alloc, name, value)?;
    Ok(Value::Object(members))
}

fn refused(alloc: Global, bad: WireBad) -> Result<Value, Stop> {
    let refusal = Refusal(bad);
    with(
        alloc,
        "refused",
        Value::String(format!(in alloc; "{refusal}")?),
    )
}

/// The reply with the value of a message.
fn told(alloc: Global, value: Result<Value, NoMemory>) -> Result<Value, Stop> {
    with(alloc, "value", value?)
}

fn read_client_in(alloc: Global, request: &Value) -> Result<Value, Stop> {
    let sent = text(request, "text")?;
    let limit = whole(request, "limit")?;
    match read_client(alloc, sent, limit) {
        Ok(message) => told(alloc, client_value(alloc, &message)),
        Err(bad) => refused(alloc, bad),
    }
}

fn read_server_in(alloc: Global, request: &Value) -> Result<Value, Stop> {
    let sent = text(request, "text")?;
    let limit = whole(request, "limit")?;
    match read_server(alloc, sent, limit) {
        Ok(message) => told(alloc, server_value(alloc, &message)),
        Err(bad) => refused(alloc, bad),
    }
}

/// The reply with the text of a message.
fn written(alloc: Global, text: Result<String, NoMemory>) -> Result<Value, Stop> {
    with(alloc, "text", Value::String(text?))
}

fn write_client_of(alloc: Global, request: &Value) -> Result<Value, Stop> {
    let message = client_message(alloc, member(request, "value")?)?;
    written(alloc, write_client(alloc, &message))
}

fn write_server_of(alloc: Global, request: &Value) -> Result<Value, Stop> {
    let message = server_message(alloc, member(request, "value")?)?;
    written(alloc, write_server(alloc, &message))
}

fn reply(alloc: Global, request: &Value) -> Result<Value, Stop> {
    match text(request, "what")? {
        "read_client" => read_client_in(alloc, request),
        "read_server" => read_server_in(alloc, request),
        "write_client" => write_client_of(alloc, request),
        "write_server" => write_server_of(alloc, request),
        _ => Err(Stop::Wrong),
    }
}

fn request(alloc: Global, line: &str) -> Result<Value, Stop> {
    match Value::from_str(alloc, line) {
        Ok(request) => Ok(request),
        Err(error) if error.classify() == Category::Memory => Err(Stop::NoMemory),
        Err(_) => Err(Stop::Wrong),
    }
}

fn answered(alloc: Global, line: &str) -> Result<String, Stop> {
    let request = request(alloc, line)?;
    let reply = reply(alloc, &request)?;
    Ok(reply.to_string(alloc)?)
}

/// The reply to a line. A line that is no request is told as wrong.
pub fn answer(alloc: Global, line: &str) -> Result<String, AllocError> {
    match answered(alloc, line) {
        Ok(reply) => Ok(reply),
        Err(Stop::Wrong) => String::from_str(alloc, "{\"wrong\":\"request\"}"),
        Err(Stop::NoMemory) => Err(AllocError),
    }
}
