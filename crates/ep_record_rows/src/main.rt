//! Records shown: lines of hexadecimal digits in, a line of JSON for each.
//!
//! The line has the record that the bytes are, and its bytes as they are written again; it is `null` where they are no
//! record's.
#![tactic(auto)]

mod shown;

use crate::shown::shown;
use anyhow::Result;

fn main(rt: HostRuntime) -> Result<()> {
    let alloc = rt.alloc();
    for line in rt.lines(alloc) {
        let reply = shown(alloc, &line?)?;
        println!(rt; "{reply}")?;
    }
    Ok(())
}
