//! Sessions of one pad, each served in a thread of its own over a house in memory, so that they can be timed.
//!
//! The other side of each is within its link, and waits for the commit of each edit before it types the next.
//!
//! - `typed SESSIONS EDITS`: each of so many types so many edits, and then hears the rest of the others'.
//! - `heard SESSIONS EDITS`: one types, and the others hear.
//!
//! Nobody types before all are in. Standard output has what they came to, and standard error how long they took.
#![tactic(auto)]

mod alarm;
mod job;
mod messages;
mod plan;
mod tally;
mod typist;

use crate::job::{ServedJob, jobs};
use crate::plan::Plan;
use crate::tally::Tally;
use anyhow::{Context, Result};
use std::sync::{Arc, Wait};
use std::thread::Threads;
use std::time::{Duration, Instant};
use std::{env, thread};

const USAGE: &str = "usage: ep_bench_served typed|heard SESSIONS EDITS";

/// What the words ask for.
fn asked(rt: &HostRuntime) -> Result<Plan> {
    let mut words = env::args(rt)?.skip(1);
    let work = words.next().context(USAGE)?;
    let sessions = words.next().context(USAGE)?.parse::<u64>().context(USAGE)?;
    let edits = words.next().context(USAGE)?.parse::<u64>().context(USAGE)?;
    Plan::of(work.as_str(), sessions, edits).context(USAGE)
}

/// Serves all sessions at once, up to the end of the last.
fn serve_all<R: Threads + Wait + Sync>(rt: &R, jobs: Vec<ServedJob>) {
    thread::scope(thread::scope_env(), rt, |scope| {
        for job in jobs {
            if scope.spawn(move || job.go(rt)).is_err() {
                return;
            }
        }
    });
}

/// Tells what they came to.
fn tell<R: Print + Eprint>(rt: &R, plan: &Plan, tally: &Tally, time: Duration) -> Result<()> {
    let acknowledged = tally.acknowledged();
    let micros = time.as_micros();
    let a_second = u128::from(acknowledged)
        .saturating_mul(1_000_000)
        .checked_div(micros)
        .unwrap_or(0);
    eprintln!(rt; "{micros} us, {a_second} edits a second")?;
    println!(rt;
        "{} sessions: {acknowledged} edits acknowledged, {} told of all",
        plan.sessions,
        tally.told_all()
    )?;
    Ok(())
}

fn main(rt: HostRuntime) -> Result<()> {
    let alloc = rt.alloc();
    let plan = asked(&rt)?;
    let tally = Arc::new(alloc, Tally::new())?;
    let jobs = jobs(alloc, &plan, &tally)?;
    let start = Instant::now(&rt)?;
    serve_all(&rt, jobs);
    tell(&rt, &plan, &tally, start.elapsed(&rt)?)
}
