//! Scripts played on a keeper.

use crate::lines::{call, cut, held};
use crate::shown::{plain_line, reply_line};
use ep_groups::DirMachine;
use ep_keep::MapKeeper;
use ep_outside::{KeepBad, Keeper, Machine};
use ep_units::NoMemory;
use std::alloc::Global;

/// What the directory answers to a line.
pub fn answer<K: Keeper + Drop>(
    alloc: Global,
    dir: &mut DirMachine<K>,
    line: &str,
) -> Result<String, NoMemory> {
    match call(alloc, line)? {
        Some(entry) => reply_line(alloc, dir.call(entry)),
        None => plain_line(alloc, "no call"),
    }
}

/// What the directory over a keeper answers to each line.
pub fn answers<K: Keeper + Drop>(
    alloc: Global,
    keeper: K,
    script: &[String],
) -> Result<Vec<String>, NoMemory> {
    let mut dir = DirMachine::new(alloc, keeper);
    let mut answers = Vec::new(alloc);
    for line in script {
        answers.push(answer(alloc, &mut dir, line.as_str())?)?;
    }
    Ok(answers)
}

// A keeper that holds one pair.
fn holding(alloc: Global, pair: &str) -> Result<MapKeeper, NoMemory> {
    let puts = [held(alloc, pair)?];
    let mut keeper = MapKeeper::new(alloc, Vec::new(alloc));
    match keeper.put_all(&puts) {
        Ok(()) | Err(KeepBad::Failed) => Ok(keeper),
        Err(KeepBad::NoMemory) => Err(NoMemory),
    }
}

// What a line answers over a map that holds its pair alone.
fn foreign_answer(alloc: Global, line: &str) -> Result<String, NoMemory> {
    let (pair, line) = cut(line, " : ");
    let keeper = holding(alloc, pair)?;
    let mut dir = DirMachine::new(alloc, keeper);
    answer(alloc, &mut dir, line)
}

/// What each line answers over a map that holds its pair alone.
pub fn foreign_answers(alloc: Global, lines: &[String]) -> Result<Vec<String>, NoMemory> {
    let mut answers = Vec::new(alloc);
    for line in lines {
        answers.push(foreign_answer(alloc, line.as_str())?)?;
    }
    Ok(answers)
}
