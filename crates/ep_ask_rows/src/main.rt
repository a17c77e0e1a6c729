//! Requests of the API shown: lines in, a line of JSON for each.
//!
//! A line is a JSON object with the `key` of the server, the `path` of a request and its `pairs`, each a list of two texts. Its
//! reply has the function that is called, or the status and body of the reply that refuses it.
#![tactic(auto)]

mod shown;

use crate::shown::shown;
use anyhow::Result;

fn main(rt: HostRuntime) -> Result<()> {
    let alloc = rt.alloc();
    for line in rt.lines(alloc) {
        let reply = shown(alloc, line?.as_str())?;
        println!(rt; "{reply}")?;
    }
    Ok(())
}
