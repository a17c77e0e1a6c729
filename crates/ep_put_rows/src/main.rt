//! Histories that are put into files: lines of JSON in, and a line for each.
//!
//! A line has a pad's id and a text that is imported, and may have the bytes of a file in hexadecimal digits; and after how
//! many device calls of the put its disk stops, and the image: `old`, `new` or a byte that fills what isn't synced, of the
//! `least` or the `greatest` length. The answer is what the put was answered, and for how many records the image stands.
#![tactic(auto)]

mod shown;

use crate::shown::shown;
use anyhow::Result;

fn main(rt: HostRuntime) -> Result<()> {
    let alloc = rt.alloc();
    for line in rt.lines(alloc) {
        let reply = shown(alloc, &line?)?;
        println!(rt; "{reply}")?;
    }
    Ok(())
}
