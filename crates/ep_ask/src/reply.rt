//! Replies.

ghost use Rattle.std.specs.Prelude.{◌≡◌, codes, IfOk, string_bytes};
ghost use Rattle.serde_json.specs.Data.{null, string};
ghost use Rattle.serde_json.specs.View.{view};
ghost use Rattle.ep_ask.specs.Replies.{body, reply_json, status, told};

use crate::answer::Data;
use crate::bad::ApiBad;
use ep_units::NoMemory;
use serde_json::{Value, json};
use std::alloc::Global;

/// What is told over HTTP.
#[derive(Drop)]
pub struct Reply {
    pub status: u16,
    /// JSON.
    pub body: String,
}

fn told(alloc: Global, code: u64, value: Value, message: &str) -> Result<Value, NoMemory>
    ensures { IfOk result (λ v. view v ≡ told code (view value) message.now) }
{
    Ok(json!(in alloc; {"code": code, "data": value, "message": message})?)
}

fn reply_json(alloc: Global, outcome: &Result<Data, ApiBad>) -> Result<Value, NoMemory>
    ensures { IfOk result (λ v. view v ≡ reply_json outcome.now) }
{
    match outcome {
        Ok(data) => told(alloc, 0, data.json(alloc)?, "ok"),
        Err(why) => {
            let message = why.message(alloc)?;
            told(alloc, why.code(), Value::Null, message.as_str())
        }
    }
}

fn status(outcome: &Result<Data, ApiBad>) -> u16
    ensures { result ≡ status outcome.now }
{
    match outcome {
        Err(ApiBad::NotFound) => 404,
        _ => 200,
    }
}

/// The reply to a request that came to this.
pub fn make_reply(alloc: Global, outcome: &Result<Data, ApiBad>) -> Result<Reply, NoMemory>
    ensures status { IfOk result (λ r. r.status ≡ status outcome.now) }
    ensures body { IfOk result (λ r. string_bytes r.body ≡ body outcome.now) }
{
    let json = reply_json(alloc, outcome)?;
    Ok(Reply {
        status: status(outcome),
        body: json.to_string(alloc)?,
    })
}
