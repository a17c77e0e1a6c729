//! The reply to a line.

use crate::call::call_of;
use crate::carry_out::carry_out;
use crate::members::{Member, value_of};
use crate::refusal::{Refusal, Stop};
use crate::reply::{Reply, refusal_reply};
use ep_pool::Pool;
use serde_json::Value;
use serde_json::error::Category;
use std::alloc::{AllocError, Global};

fn pool_of(alloc: Global, request: &Value) -> Result<Pool, Stop> {
    let pool = value_of(request, Member::Pool)?;
    Ok(Pool::from_json(alloc, pool)?)
}

/// The reply to a line that is JSON.
fn reply(alloc: Global, request: &Value) -> Result<Reply, Stop> {
    let call = call_of(alloc, request)?;
    let pool = pool_of(alloc, request)?;
    carry_out(alloc, &call, &pool)
}

fn request(alloc: Global, line: &str) -> Result<Value, Stop> {
    match Value::from_str(alloc, line) {
        Ok(request) => Ok(request),
        Err(error) if error.classify() == Category::Memory => Err(Stop::NoMemory),
        Err(_) => Err(Stop::Refused(Refusal::Json)),
    }
}

fn made(alloc: Global, line: &str) -> Result<Reply, Stop> {
    let request = request(alloc, line)?;
    reply(alloc, &request)
}

/// The reply to a line, which is one line of JSON.
pub fn answer(alloc: Global, line: &str) -> Result<String, AllocError> {
    let reply = match made(alloc, line) {
        Ok(reply) => reply,
        Err(Stop::Refused(refusal)) => refusal_reply(alloc, refusal)?,
        Err(Stop::NoMemory) => return Err(AllocError),
    };
    reply.line(alloc)
}
