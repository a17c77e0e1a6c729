//! What a login of another caller asks the directory.

ghost use Rattle.std.specs.Prelude.{◌<◌};

use crate::asked::{all_units_of, moment_of, numbers_of, units_of};
use anyhow::Result;
use ep_groups::{DirPort, Drawn};
use ep_units::Grant;
use serde_json::Value;
use std::alloc::Global;
use std::sync::Wait;

fn digit(numbers: &[u64], i: usize) -> u8
    ensures { result < 36 }
{
    let number = numbers.get(i).copied().unwrap_or(0);
    (number % 36) as u8
}

fn drawn_of(numbers: &[u64]) -> Drawn {
    let digits = [
        digit(numbers, 0),
        digit(numbers, 1),
        digit(numbers, 2),
        digit(numbers, 3),
        digit(numbers, 4),
        digit(numbers, 5),
        digit(numbers, 6),
        digit(numbers, 7),
        digit(numbers, 8),
        digit(numbers, 9),
    ];
    Drawn { digits }
}

/// The grant of a login, where the directory gives it.
pub fn granted<R: Wait, G: DirPort>(
    rt: &R,
    alloc: Global,
    dir: &G,
    step: &Value,
) -> Result<Option<Grant>> {
    let asked = units_of(alloc, step.get("pad"))?;
    let sessions = all_units_of(alloc, step.get("sessions"))?;
    let token = units_of(alloc, step.get("token"))?;
    let drawn = drawn_of(&numbers_of(alloc, step.get("draws"))?);
    let seconds = moment_of(step)? / 1000;
    let mut desk = dir.pass(rt);
    let grant = dir.grant(rt, &mut desk, &asked, &sessions, &token, seconds, drawn);
    Ok(grant.ok())
}
