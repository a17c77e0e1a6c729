//! Calls on cells round a machine that does nothing, by one thread or several.

use anyhow::{Context, Result};
use ep_cell::Cell;
use ep_outside::Machine;
use std::alloc::Global;
use std::rt::Clock;
use std::sync::Wait;
use std::thread::Threads;
use std::time::Instant;
use std::{env, thread};

const USAGE: &str = "usage: ep_bench cell COUNT";

/// A machine that does nothing.
#[derive(Drop)]
pub struct Idle;

impl Machine for Idle {
    type Entry = ();

    type Reply = ();

    ghost allows = { λ _. Unit {0} };

    ghost stands = { λ _ _ _. Unit {0} };

    ghost legal = { λ _ _. Unit {0} };

    ghost stands_legal = { λ _ _ _ all. all };

    fn call(&mut self, _entry: ()) {}
}

/// So many calls by one pass.
fn calls<R: Wait>(rt: &R, cell: &Cell<Idle>, count: u64) {
    let mut pass = cell.new_pass(rt);
    for _ in 0..count {
        cell.call(rt, &mut pass, ());
    }
}

/// So many calls on each cell, each by a thread of its own.
#[tactic(auto, using(ep_cell::proofs::Crossing::cell_sync))]
fn on_each<R: Threads + Wait + Sync>(rt: &R, cells: &[Cell<Idle>], count: u64) {
    thread::scope(thread::scope_env(), rt, |scope| {
        for cell in cells {
            if scope.spawn(move || calls(rt, cell, count)).is_err() {
                calls(rt, cell, count);
            }
        }
    });
}

/// So many calls by each of so many threads, on one cell.
#[tactic(auto, using(ep_cell::proofs::Crossing::cell_sync))]
fn on_one<R: Threads + Wait + Sync>(rt: &R, cell: &Cell<Idle>, threads: u64, count: u64) {
    thread::scope(thread::scope_env(), rt, |scope| {
        for _ in 0..threads {
            if scope.spawn(move || calls(rt, cell, count)).is_err() {
                calls(rt, cell, count);
            }
        }
    });
}

fn idle_cell(alloc: Global) -> Result<Cell<Idle>> {
    Cell::new(alloc, Idle).ok().context("no memory")
}

/// Prints how long so many calls took that began then.
fn tell<R: Clock + Print>(rt: &R, who: &str, count: u64, start: Instant) -> Result<()> {
    let time = start.elapsed(rt)?.as_micros();
    println!(rt; "{who}: {count} calls each in {time} us")?;
    Ok(())
}

fn idle_cells(alloc: Global, count: usize) -> Result<Vec<Cell<Idle>>> {
    let mut cells = Vec::new(alloc);
    for _ in 0..count {
        cells.push(idle_cell(alloc)?)?;
    }
    Ok(cells)
}

/// So many calls on one cell by one thread, and so many by each of four.
fn time_one<R: Threads + Wait + Sync + Clock + Print>(
    rt: &R,
    cell: &Cell<Idle>,
    count: u64,
) -> Result<()> {
    let start = Instant::now(rt)?;
    calls(rt, cell, count);
    tell(rt, "1 thread on 1 cell", count, start)?;
    let start = Instant::now(rt)?;
    on_one(rt, cell, 4, count);
    tell(rt, "4 threads on 1 cell", count, start)
}

/// So many calls on each cell.
fn time_each<R: Threads + Wait + Sync + Clock + Print>(
    rt: &R,
    cells: &[Cell<Idle>],
    count: u64,
) -> Result<()> {
    let start = Instant::now(rt)?;
    on_each(rt, cells, count);
    tell(rt, "4 threads on 4 cells", count, start)
}

/// So many calls by one thread on one cell, and so many by each of four threads on one cell and on four.
pub fn time<R: Threads + Wait + Sync + Clock + Print>(
    rt: &R,
    alloc: Global,
    count: u64,
) -> Result<()> {
    let one = idle_cell(alloc)?;
    let cells = idle_cells(alloc, 4)?;
    time_one(rt, &one, count)?;
    time_each(rt, &cells, count)
}

/// With the words `cell COUNT`, how many calls of each thread are timed. `None` with any other first word.
pub fn asked(rt: &HostRuntime) -> Result<Option<u64>> {
    let mut words = env::args(rt)?.skip(1);
    match words.next() {
        Some(word) if word.as_str() == "cell" => {}
        _ => return Ok(None),
    }
    let count = words.next().context(USAGE)?.parse::<u64>().context(USAGE)?;
    Ok(Some(count))
}
