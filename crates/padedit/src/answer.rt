//! The reply to a line.

use crate::asked::carry_out;
use crate::refusal::{Refusal, Stopped};
use crate::reply::Reply;
use ep_editor::Editor;
use ep_lines::Line;
use serde_json::Value;
use serde_json::error::Category;
use std::alloc::{AllocError, Global};
use std::str::from_utf8;

fn text_of(line: &Line) -> Option<&str> {
    match line {
        Line::Text(bytes) => from_utf8(bytes).ok(),
        Line::Long => None,
    }
}

/// What a line says.
fn request(alloc: Global, line: &Line) -> Result<Value, Stopped> {
    let Some(text) = text_of(line) else {
        return Err(Stopped::Refused(Refusal::Json));
    };
    match Value::from_str(alloc, text) {
        Ok(request) => Ok(request),
        Err(error) if error.classify() == Category::Memory => Err(Stopped::NoMemory),
        Err(_) => Err(Stopped::Refused(Refusal::Json)),
    }
}

fn made(alloc: Global, editor: &mut Editor, line: &Line) -> Result<Reply, Stopped> {
    let request = request(alloc, line)?;
    carry_out(alloc, editor, &request)
}

/// The reply to a line, or why it is refused.
fn reply(alloc: Global, editor: &mut Editor, line: &Line) -> Result<Reply, AllocError> {
    match made(alloc, editor, line) {
        Ok(reply) => Ok(reply),
        Err(Stopped::Refused(refusal)) => Reply::refuses(alloc, refusal),
        Err(Stopped::NoMemory) => Err(AllocError),
    }
}

/// The reply to a line, which is one line of JSON.
pub fn answer(alloc: Global, editor: &mut Editor, line: &Line) -> Result<String, AllocError> {
    let reply = reply(alloc, editor, line)?;
    reply.line(alloc, editor)
}
