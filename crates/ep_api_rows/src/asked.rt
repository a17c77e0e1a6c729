//! What the members of a line say.

use anyhow::{Context, Result};
use ep_outside::{Pair, Pairs, Text};
use ep_units::Units;
use serde_json::Value;
use std::alloc::Global;

pub fn text_of(value: Option<&Value>) -> Result<&str> {
    value.and_then(Value::as_str).context("a text")
}

pub fn number_of(value: Option<&Value>) -> Result<u64> {
    value.and_then(Value::as_u64).context("a number")
}

pub fn units_of(alloc: Global, value: Option<&Value>) -> Result<Units> {
    Ok(Units::from_str(alloc, text_of(value)?)?)
}

/// When a step is.
pub fn moment_of(step: &Value) -> Result<u64> {
    number_of(step.get("now"))
}

/// The members of a list; none where it isn't there.
pub fn list_of(value: Option<&Value>) -> &[Value] {
    match value {
        Some(Value::Array(rows)) => rows,
        _ => &[],
    }
}

pub fn numbers_of(alloc: Global, value: Option<&Value>) -> Result<Vec<u64>> {
    let mut numbers = Vec::new(alloc);
    for number in list_of(value) {
        numbers.push(number_of(Some(number))?)?;
    }
    Ok(numbers)
}

pub fn all_units_of(alloc: Global, value: Option<&Value>) -> Result<Vec<Units>> {
    let mut all = Vec::new(alloc);
    for text in list_of(value) {
        all.push(units_of(alloc, Some(text))?)?;
    }
    Ok(all)
}

pub fn pairs_of(alloc: Global, value: Option<&Value>) -> Result<Pairs> {
    let mut pairs = Pairs {
        items: Vec::new(alloc),
    };
    for row in list_of(value) {
        let pair = Pair {
            key: Text::from_str(alloc, text_of(row.get(0))?)?,
            value: Text::from_str(alloc, text_of(row.get(1))?)?,
        };
        pairs.items.push(pair)?;
    }
    Ok(pairs)
}
