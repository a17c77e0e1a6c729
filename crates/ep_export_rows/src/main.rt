//! Exported histories: lines of JSON with a pad's id and a text in, and a line for each.
//!
//! The line has the text as which the imported history is exported again, or the refusal.
#![tactic(auto)]

mod shown;

use crate::shown::shown;
use anyhow::Result;

fn main(rt: HostRuntime) -> Result<()> {
    let alloc = rt.alloc();
    for line in rt.lines(alloc) {
        let reply = shown(alloc, &line?)?;
        println!(rt; "{reply}")?;
    }
    Ok(())
}
