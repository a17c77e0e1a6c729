//! Writers and the sessions that serve them, each pair in two threads over a connection within the program: a request a line,
//! and a line of reply for each.
//!
//! - `write LINE`: a writer writes this one line to an empty pad. The reply has the revision and the text that it ends with, or
//!   what is wrong with the line.
//! - `random SEED COUNT`: it writes so many lines that the seed gives. The reply has how many of them alter something; what
//!   the writer ends with, and what another caller reads of the pad then, beside the text that the lines make of an empty
//!   one; and what the session came to.
#![tactic(auto)]

mod random;
mod side;
mod talk;
mod told;

use crate::random::{Lines, drawn};
use crate::talk::{Both, Served, Wrote, talk};
use crate::told::{read, session, written, wrote};
use anyhow::{Context, Result, anyhow};
use ep_units::NoMemory;
use std::alloc::Global;
use std::sync::Wait;
use std::thread::Threads;

/// What comes of one line.
fn one<R: Threads + Wait + Sync>(rt: &R, alloc: Global, line: &str) -> Result<String> {
    let script = format!(in alloc; "{line}\n")?;
    let Both { wrote: told, .. } = talk(rt, alloc, &script)?;
    let told = told?;
    Ok(wrote(alloc, &told)?)
}

/// What came of so many lines, in a row.
fn row(
    alloc: Global,
    count: u64,
    lines: &Lines,
    wrote: &Wrote,
    served: &Served,
) -> Result<String, NoMemory> {
    let wanted = lines.text(alloc)?;
    let written = written(alloc, wrote, &wanted)?;
    let read = read(alloc, served, &wanted)?;
    let session = session(alloc, served)?;
    Ok(format!(in alloc;
        "{count} lines, {} alter something; {written}; {read}; {session}",
        lines.altering
    )?)
}

/// What comes of so many lines that a seed gives.
fn many<R: Threads + Wait + Sync>(rt: &R, alloc: Global, seed: u64, count: u64) -> Result<String> {
    let lines = drawn(alloc, seed, count)?;
    let Both { wrote, served } = talk(rt, alloc, &lines.script)?;
    let served = served?.context("the pad is not to be read")?;
    let wrote = wrote?;
    Ok(row(alloc, count, &lines, &wrote, &served)?)
}

fn replied<R: Threads + Wait + Sync>(rt: &R, alloc: Global, line: &str) -> Result<String> {
    match line.split_once(' ') {
        Some(("write", line)) => one(rt, alloc, line),
        Some(("random", words)) => {
            let (seed, count) = words.split_once(' ').context("random SEED COUNT")?;
            many(rt, alloc, seed.parse::<u64>()?, count.parse::<u64>()?)
        }
        _ => Err(anyhow!("write LINE, or random SEED COUNT")),
    }
}

fn main(rt: HostRuntime) -> Result<()> {
    let alloc = rt.alloc();
    for line in rt.lines(alloc) {
        let reply = replied(&rt, alloc, &line?)?;
        println!(rt; "{reply}")?;
    }
    Ok(())
}
