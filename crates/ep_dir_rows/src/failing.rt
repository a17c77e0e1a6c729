//! Scripts played on a map of which one call fails.

use crate::played::answer;
use ep_groups::DirMachine;
use ep_keep::MapKeeper;
use ep_units::NoMemory;
use std::alloc::Global;

// More calls of the keeper than a script makes.
const MOST: u64 = 200;

/// What comes of one failure.
#[derive(Clone, Copy, PartialEq, Eq)]
enum Outcome {
    /// The line of this number met it, and everything was answered as without it once that line was played
    /// again.
    Met(usize),
    /// Something was answered otherwise.
    Changed,
    /// No line met it.
    Unmet,
}

// The answer to a line; where it is the failure, it is noted, and the line is played again.
fn answer_at_last(
    alloc: Global,
    dir: &mut DirMachine<MapKeeper>,
    line: &str,
    met: &mut bool,
) -> Result<String, NoMemory> {
    let first = answer(alloc, dir, line)?;
    if first.as_str() != "keeper 1" {
        return Ok(first);
    }
    *met = true;
    answer(alloc, dir, line)
}

// What comes of the failure of the keeper's call of this number.
fn failed(
    alloc: Global,
    script: &[String],
    answers: &[String],
    failing: u64,
) -> Result<Outcome, NoMemory> {
    let fails = vec![in alloc; failing]?;
    let mut dir = DirMachine::new(alloc, MapKeeper::new(alloc, fails));
    let mut outcome = Outcome::Unmet;
    for (at, line) in script.iter().enumerate() {
        let mut met = false;
        let now = answer_at_last(alloc, &mut dir, line.as_str(), &mut met)?;
        if !is_at(answers, at, now.as_str()) {
            return Ok(Outcome::Changed);
        }
        if met {
            outcome = Outcome::Met(at);
        }
    }
    Ok(outcome)
}

fn is_at(answers: &[String], at: usize, line: &str) -> bool {
    match answers.get(at) {
        Some(answer) => answer.as_str() == line,
        None => false,
    }
}

// How many failures each line met, and how many changed something.
struct Counted {
    met: Vec<u64>,
    changes: u64,
}

impl Drop for Counted {
    fn drop(self) {
        let Counted { met: _, changes: _ } = self;
    }
}

fn count_one(counted: &mut Counted, outcome: Outcome) {
    match outcome {
        Outcome::Met(at) => {
            if let Some(met) = counted.met.get_mut(at) {
                *met = met.saturating_add(1);
            }
        }
        Outcome::Changed => counted.changes = counted.changes.saturating_add(1),
        Outcome::Unmet => {}
    }
}

fn count_all(alloc: Global, script: &[String], answers: &[String]) -> Result<Counted, NoMemory> {
    let mut counted = Counted {
        met: vec![in alloc; 0; script.len()]?,
        changes: 0,
    };
    for failing in 1..MOST {
        let outcome = failed(alloc, script, answers, failing)?;
        if outcome == Outcome::Unmet {
            break;
        }
        count_one(&mut counted, outcome);
    }
    Ok(counted)
}

/// How many calls of the keeper each line makes, and how many of their failures changed something.
pub fn counts(
    alloc: Global,
    script: &[String],
    answers: &[String],
) -> Result<Vec<String>, NoMemory> {
    let counted = count_all(alloc, script, answers)?;
    let mut lines = Vec::new(alloc);
    for (line, met) in script.iter().zip(counted.met.iter()) {
        lines.push(format!(in alloc; "{met} {}", line.as_str())?)?;
    }
    let changes = counted.changes;
    lines.push(format!(in alloc; "{changes} changed something")?)?;
    Ok(lines)
}
