//! Schedules made: lines in, `NUMBER CLIENTS EDITS`, and the five lines of each, as `padd make` is to write them.
#![tactic(auto)]

use anyhow::{Context, Result, anyhow, ensure};
use ep_disk_mem::MemSink;
use ep_make::make;
use std::alloc::Global;
use std::io::Write;

/// The schedule that a line asks for, in its five lines.
fn made(alloc: Global, line: &str) -> Result<MemSink> {
    let mut words = line.split(' ');
    let number = words.next().context("no number")?.parse::<u64>()?;
    let clients = words.next().context("no clients")?.parse::<u32>()?;
    let edits = words.next().context("no edits")?.parse::<u32>()?;
    ensure!(1 <= clients && clients <= 64, "{clients} clients");
    ensure!(edits <= 100_000, "{edits} edits");
    let mut page = MemSink::new(alloc, Vec::new(alloc));
    match make(alloc, &mut page, number, clients, edits) {
        Ok(()) => Ok(page),
        Err(_) => Err(anyhow!("the schedule was not made")),
    }
}

fn main(rt: HostRuntime) -> Result<()> {
    let alloc = rt.alloc();
    for line in rt.lines(alloc) {
        let page = made(alloc, &line?)?;
        rt.stdout().write_all(page.as_slice())?;
    }
    Ok(())
}
