//! The house that a request speaks of, and which calls of its devices fail.

ghost use Rattle.std.specs.Prelude.{◌<◌, IfOk};

use crate::asked::{array, numbers, pad};
use crate::called::{MemHouse, Ports};
use crate::stop::Stop;
use ep_disk_mem::{MemFile, MemShelf};
use ep_keep::MapKeeper;
use ep_outside::{Keeper, Limits, Put, Text};
use serde_json::{Map, Value};
use std::alloc::Global;

/// The numbers that a request lists under this name; none where it has no such list.
pub fn listed(alloc: Global, request: &Value, name: &str) -> Result<Vec<u64>, Stop> {
    match request.get(name) {
        Some(_) => numbers(alloc, array(request, name)?),
        None => Ok(Vec::new(alloc)),
    }
}

fn limit(request: &Value, name: &str, usual: u64) -> u64 {
    match request.get("limits") {
        Some(limits) => match limits.get(name) {
            Some(limit) => limit.as_u64().unwrap_or(usual),
            None => usual,
        },
        None => usual,
    }
}

fn limits(request: &Value) -> Limits {
    Limits {
        live: limit(request, "live", 1024),
        logins: limit(request, "logins", 1_000_000),
        units: limit(request, "units", 1_000_000),
        journal: limit(request, "journal", 1_000_000_000),
        openings: 0,
        pads: limit(request, "pads", 1024),
    }
}

fn nibble(byte: u8) -> Result<u8, Stop>
    ensures { IfOk result (λ n. n < 16) }
{
    match byte {
        b'0'..=b'9' => Ok(byte - b'0'),
        b'a'..=b'f' => Ok(byte - b'a' + 10),
        _ => Err(Stop::Wrong),
    }
}

fn bytes(alloc: Global, hex: &str) -> Result<Vec<u8>, Stop> {
    let mut bytes = Vec::new(alloc);
    let mut high = None;
    for digit in hex.as_bytes() {
        let digit = nibble(*digit)?;
        match high {
            None => high = Some(digit),
            Some(first) => {
                bytes.push(first % 16 * 16 + digit)?;
                high = None;
            }
        }
    }
    Ok(bytes)
}

fn file(alloc: Global, name: &str, hex: &Value, fails: Vec<u64>) -> Result<MemFile, Stop> {
    let hex = hex.as_str().ok_or(Stop::Wrong)?;
    let name = pad(alloc, name)?;
    let bytes = bytes(alloc, hex)?;
    Ok(MemFile { name, bytes, fails })
}

fn files(alloc: Global, request: &Value) -> Result<Vec<MemFile>, Stop> {
    let mut files = Vec::new(alloc);
    let Some(named) = request.get("files") else {
        return Ok(files);
    };
    for (name, hex) in named.as_object().ok_or(Stop::Wrong)? {
        let fails = listed(alloc, request, "file_fails")?;
        files.push(file(alloc, name.as_str(), hex, fails)?)?;
    }
    Ok(files)
}

fn shelf(alloc: Global, request: &Value) -> Result<MemShelf, Stop> {
    let files = files(alloc, request)?;
    let fails = listed(alloc, request, "shelf_fails")?;
    Ok(MemShelf::new(alloc, files, fails)?)
}

fn put(alloc: Global, key: &str, value: &Value) -> Result<Put, Stop> {
    let value = value.as_str().ok_or(Stop::Wrong)?;
    Ok(Put {
        key: Text::from_str(alloc, key)?,
        value: Some(Text::from_str(alloc, value)?),
    })
}

fn puts(alloc: Global, kept: &Map<String, Value>) -> Result<Vec<Put>, Stop> {
    let mut puts = Vec::new(alloc);
    for (key, value) in kept {
        puts.push(put(alloc, key.as_str(), value)?)?;
    }
    Ok(puts)
}

// What is kept from the start is put by the first call.
fn keeper(alloc: Global, request: &Value) -> Result<MapKeeper, Stop> {
    let mut keeper = MapKeeper::new(alloc, listed(alloc, request, "keeper_fails")?);
    if let Some(kept) = request.get("kept") {
        let puts = puts(alloc, kept.as_object().ok_or(Stop::Wrong)?)?;
        if keeper.put_all(puts.as_slice()).is_err() {
            return Err(Stop::Wrong);
        }
    }
    Ok(keeper)
}

/// The house of a request.
pub fn ports(alloc: Global, request: &Value) -> Result<Ports, Stop> {
    let shelf = shelf(alloc, request)?;
    let keeper = keeper(alloc, request)?;
    Ok(Ports {
        alloc,
        house: MemHouse::open(alloc, shelf, keeper, limits(request))?,
    })
}
