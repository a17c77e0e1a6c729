//! One caller.

use anyhow::{Result, bail};
use ep_disk_mem::MemSource;
use ep_http::{HttpBad, Method, Request, read_request};
use ep_outside::Pairs;
use serde_json::{Value, json};
use std::alloc::Global;

fn pairs_json(alloc: Global, pairs: &Pairs) -> Result<Value> {
    let mut values = Vec::new(alloc);
    for pair in pairs.as_slice() {
        values.push(json!(in alloc; [pair.key.as_str(), pair.value.as_str()])?)?;
    }
    Ok(Value::Array(values))
}

fn request_json(alloc: Global, request: &Request) -> Result<Value> {
    let method = match request.method {
        Method::Get => "GET",
        Method::Post => "POST",
    };
    let pairs = pairs_json(alloc, &request.pairs)?;
    let path = request.path.as_str();
    Ok(json!(in alloc; {"method": method, "pairs": pairs, "path": path})?)
}

fn refusal_json(alloc: Global, why: HttpBad) -> Result<Value> {
    let word = match why {
        HttpBad::Head => String::from_str(alloc, "head")?,
        HttpBad::Method => String::from_str(alloc, "method")?,
        HttpBad::Body => String::from_str(alloc, "body")?,
        HttpBad::TooBig(bytes) => format!(in alloc; "toobig {bytes}")?,
        HttpBad::Short => String::from_str(alloc, "short")?,
        HttpBad::Read(_) | HttpBad::NoMemory => return Err(why.into()),
    };
    match why.status() {
        Some(status) => Ok(json!(in alloc; {"refused": word, "status": status})?),
        None => Ok(json!(in alloc; {"refused": word})?),
    }
}

/// What the bytes of a line come to.
pub fn shown(alloc: Global, line: &str) -> Result<Value> {
    let Some((limit, bytes)) = line.split_once(' ') else {
        bail!("a line without a blank");
    };
    let limit = limit.parse::<u64>()?;
    let mut source = MemSource::new(hex::decode(alloc, bytes)?, Vec::new(alloc));
    match read_request(alloc, &mut source, limit) {
        Ok(request) => request_json(alloc, &request),
        Err(why) => refusal_json(alloc, why),
    }
}
