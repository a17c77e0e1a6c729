//! Sequences of requests of the API, answered over a house in memory: lines in, a line of JSON for each.
//!
//! A line is a JSON object with the `key` of the server, the `draws` to come, and the `steps`: requests with `path`, `pairs`
//! and the moment `now`, or logins of another caller. Its reply is the list of what each step is answered.
#![tactic(auto)]

mod asked;
mod desk;
mod given;
mod played;

use crate::played::played;
use anyhow::Result;
use serde_json::Value;

fn main(rt: HostRuntime) -> Result<()> {
    let alloc = rt.alloc();
    for line in rt.lines(alloc) {
        let sequence = Value::from_str(alloc, line?.as_str())?;
        let replies = played(&rt, alloc, &sequence)?;
        println!(rt; "{replies}")?;
    }
    Ok(())
}
