//! Runs one operation many times on generated data, to be measured from outside, and prints a checksum.
#![tactic(auto)]

mod cells;
mod colliding;
mod data;
mod draws;
mod hearing;
mod journal;
mod messages;
mod pads;
mod revising;
mod two;
mod typing;
mod undoing;
mod work;

use anyhow::{Context, Result, anyhow};
use std::env;
use work::Work;

const USAGE: &str =
    "usage: ep_bench read|print|pool|pool-collide|fits|apply|apply-runs|compose|follow|rebase|slide|hear|turn|undo|encode|decode|read-changes|print-news|print-vars UNITS COUNT";

fn checksum(rt: &HostRuntime) -> Result<u64> {
    let mut words = env::args(rt)?.skip(1);
    let work = words
        .next()
        .and_then(|word| Work::named(&word))
        .context(USAGE)?;
    let units = words.next().context(USAGE)?.parse::<u32>().context(USAGE)?;
    let count = words.next().context(USAGE)?.parse::<u32>().context(USAGE)?;
    work.run(rt.alloc(), units, count)
}

fn main(rt: HostRuntime) -> Result<()> {
    if journal::run(&rt)? || pads::run(&rt)? {
        return Ok(());
    }
    if let Some(count) = cells::asked(&rt)? {
        return cells::time(&rt, rt.alloc(), count);
    }
    let sum = checksum(&rt)?;
    println!(rt; "{sum}")?;
    Ok(())
}
