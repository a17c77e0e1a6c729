//! Worked calls of the directory over each of its keepers.
//!
//! Standard input is a script of calls. It is played on a map in memory, and each answer is printed; then on a
//! table in memory, on one in a file, and on one in a file that is closed and opened again in the middle, which
//! have to answer the same; then on maps in memory of which one call fails, so that the calls of the keeper that
//! each line makes are counted, and failures seen to change nothing. A line with ` : ` in it is a call on a map
//! that holds one pair, which another program wrote.
//!
//! With the path of a file behind the program's name, the calls are played on that file's table alone, as it is there.
#![tactic(auto)]

mod failing;
mod laws;
mod lines;
mod played;
mod shown;

use anyhow::Result;
use ep_keep::MapKeeper;
use ep_keep_sql::{FileKeeper, SqlKeeper};
use ep_units::NoMemory;
use std::alloc::Global;
use std::{env, fs};

/// The lines of standard input, those with ` : ` in them apart.
struct Script {
    calls: Vec<String>,
    foreign: Vec<String>,
}

impl Drop for Script {
    fn drop(self) {
        let Script {
            calls: _,
            foreign: _,
        } = self;
    }
}

impl Script {
    fn new(alloc: Global) -> Script {
        Script {
            calls: Vec::new(alloc),
            foreign: Vec::new(alloc),
        }
    }

    fn push(&mut self, line: String) -> Result<()> {
        if line.contains(" : ") {
            self.foreign.push(line)?;
        } else {
            self.calls.push(line)?;
        }
        Ok(())
    }
}

fn read_script(rt: &HostRuntime) -> Result<Script> {
    let mut script = Script::new(rt.alloc());
    for line in rt.lines(rt.alloc()) {
        script.push(line?)?;
    }
    Ok(script)
}

fn print(rt: &HostRuntime, title: &str, lines: &[String]) -> Result<()> {
    println!(rt; "{title}")?;
    for line in lines {
        println!(rt; "{}", line.as_str())?;
    }
    Ok(())
}

/// Removes a file that an earlier run may have left.
fn remove(rt: &HostRuntime, path: &str) -> Result<()> {
    if fs::exists(rt, path)? {
        fs::remove_file(rt, path)?;
    }
    Ok(())
}

/// Plays a script on a table in memory.
fn on_table(alloc: Global, calls: &[String]) -> Result<Vec<String>> {
    let keeper = SqlKeeper::in_memory(alloc)?;
    Ok(played::answers(alloc, keeper, calls)?)
}

/// Plays a script on the table of a file, as it is there.
fn on_file(rt: &HostRuntime, path: &str, calls: &[String]) -> Result<Vec<String>> {
    let keeper = FileKeeper::open(rt, path)?;
    Ok(played::answers(rt.alloc(), keeper, calls)?)
}

/// Plays a script on a new file.
fn on_new_file(rt: &HostRuntime, calls: &[String]) -> Result<Vec<String>> {
    for path in ["directory.db", "directory.db-wal"] {
        remove(rt, path)?;
    }
    on_file(rt, "directory.db", calls)
}

/// Plays a script on a file that is closed and opened again in the middle.
fn opened_again(rt: &HostRuntime, calls: &[String]) -> Result<Vec<String>> {
    let (first, rest) = calls.split_at(calls.len() / 2);
    let mut lines = on_new_file(rt, first)?;
    let mut more = on_file(rt, "directory.db", rest)?;
    lines.append(&mut more)?;
    Ok(lines)
}

/// Says whether the answers are those of the map in memory.
fn compare(rt: &HostRuntime, title: &str, lines: Vec<String>, others: &[String]) -> Result<()> {
    let word = if lines.as_slice() == others {
        "the same"
    } else {
        "others"
    };
    println!(rt; "{title}: {word}")?;
    Ok(())
}

/// Plays a script on each keeper over a database, and compares its answers with these.
fn compare_all(rt: &HostRuntime, calls: &[String], others: &[String]) -> Result<()> {
    compare(rt, "in a table", on_table(rt.alloc(), calls)?, others)?;
    compare(rt, "in a file", on_new_file(rt, calls)?, others)?;
    compare(rt, "opened again", opened_again(rt, calls)?, others)
}

/// Plays a script on a map in memory.
fn in_memory(alloc: Global, calls: &[String]) -> Result<Vec<String>, NoMemory> {
    let keeper = MapKeeper::new(alloc, Vec::new(alloc));
    played::answers(alloc, keeper, calls)
}

fn print_counts(rt: &HostRuntime, calls: &[String], answers: &[String]) -> Result<()> {
    let counts = failing::counts(rt.alloc(), calls, answers)?;
    print(rt, "calls of the keeper", &counts)
}

fn print_foreign(rt: &HostRuntime, lines: &[String]) -> Result<()> {
    let answers = played::foreign_answers(rt.alloc(), lines)?;
    print(rt, "written by another", &answers)
}

/// Plays a script on every keeper.
fn play_all(rt: &HostRuntime, script: &Script) -> Result<()> {
    let in_memory = in_memory(rt.alloc(), &script.calls)?;
    print(rt, "in memory", &in_memory)?;
    compare_all(rt, &script.calls, &in_memory)?;
    print_counts(rt, &script.calls, &in_memory)?;
    print_foreign(rt, &script.foreign)
}

/// Plays a script on the table of a file.
fn play_on(rt: &HostRuntime, path: &str, script: &Script) -> Result<()> {
    let lines = on_file(rt, path, &script.calls)?;
    print(rt, path, &lines)
}

fn main(rt: HostRuntime) -> Result<()> {
    let path = env::args(&rt)?.nth(1);
    let script = read_script(&rt)?;
    match path {
        Some(path) => play_on(&rt, path.as_str(), &script),
        None => play_all(&rt, &script),
    }
}
