//! The house that a line begins with.

use crate::asked::text_of;
use anyhow::{Context, Result};
use ep_disk_mem::{MemFile, MemShelf};
use ep_keep::MapKeeper;
use ep_outside::{Keeper, Limits, Put, Text};
use ep_pad_port::House;
use ep_units::{PadId, Units};
use serde_json::Value;
use std::alloc::Global;

/// A limit of this name, or the usual one.
fn limit(limits: Option<&Value>, name: &str, usual: u64) -> u64 {
    let told = limits.and_then(|all| all.get(name));
    told.and_then(Value::as_u64).unwrap_or(usual)
}

fn limits(sequence: &Value) -> Limits {
    let told = sequence.get("limits");
    Limits {
        live: limit(told, "live", 500),
        logins: limit(told, "logins", 1_000_000),
        units: limit(told, "units", 1_000_000),
        journal: limit(told, "journal", 268_435_456),
        openings: 0,
        pads: limit(told, "pads", 10_000),
    }
}

fn bytes_of(alloc: Global, value: &Value) -> Result<Vec<u8>> {
    Ok(hex::decode(alloc, text_of(Some(value))?)?)
}

fn files(alloc: Global, sequence: &Value) -> Result<Vec<MemFile>> {
    let mut files = Vec::new(alloc);
    let Some(Value::Object(told)) = sequence.get("files") else {
        return Ok(files);
    };
    for (name, bytes) in told.iter() {
        let id = Units::from_str(alloc, name.as_str())?;
        let file = MemFile {
            name: PadId::read(alloc, &id)?.context("a pad's id")?,
            bytes: bytes_of(alloc, bytes)?,
            fails: Vec::new(alloc),
        };
        files.push(file)?;
    }
    Ok(files)
}

fn keeper(alloc: Global, sequence: &Value) -> Result<MapKeeper> {
    let mut keeper = MapKeeper::new(alloc, Vec::new(alloc));
    let mut puts = Vec::new(alloc);
    if let Some(Value::Object(kept)) = sequence.get("kept") {
        for (key, value) in kept.iter() {
            let put = Put {
                key: Text::from_str(alloc, key.as_str())?,
                value: Some(Text::from_str(alloc, text_of(Some(value))?)?),
            };
            puts.push(put)?;
        }
    }
    keeper.put_all(puts.as_slice()).ok().context("a keeper")?;
    Ok(keeper)
}

pub fn house(alloc: Global, sequence: &Value) -> Result<House<MemShelf, MapKeeper>> {
    let shelf = MemShelf::new(alloc, files(alloc, sequence)?, Vec::new(alloc))?;
    let keeper = keeper(alloc, sequence)?;
    Ok(House::open(alloc, shelf, keeper, limits(sequence))?)
}
