//! Requests of HTTP shown: lines in, a line of JSON for each.
//!
//! A line has the greatest length of a body, a blank, and the bytes that a caller sends as hexadecimal digits. Its reply is the
//! request that they are, or why they are none, with the status of the answer that tells it where one does.
#![tactic(auto)]

mod shown;

use crate::shown::shown;
use anyhow::Result;

fn main(rt: HostRuntime) -> Result<()> {
    let alloc = rt.alloc();
    for line in rt.lines(alloc) {
        let reply = shown(alloc, &line?)?;
        println!(rt; "{reply}")?;
    }
    Ok(())
}
