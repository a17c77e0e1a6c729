//! One file.

use anyhow::Result;
use ep_disk_mem::MemDisk;
use ep_outside::{Disk, Limits};
use ep_pad::{PadBad, PadMachine};
use std::alloc::Global;

/// The usual limits.
pub const LIMITS: Limits = Limits {
    live: 1_000,
    logins: 1_000_000,
    units: 1_000_000,
    journal: 1_073_741_824,
    openings: 0,
    pads: 1,
};

/// The bytes that a disk holds.
pub fn left(alloc: Global, mut disk: MemDisk) -> Result<Vec<u8>> {
    let length = disk.length()?;
    let mut bytes = Vec::new(alloc);
    bytes.resize(length as usize, 0)?;
    disk.read(0, &mut bytes)?;
    Ok(bytes)
}

/// What the opening of a file says, and its bytes then.
pub fn opened(alloc: Global, file: &str, limits: Limits) -> Result<String> {
    let disk = MemDisk::new(alloc, hex::decode(alloc, file)?, Vec::new(alloc))?;
    let (said, disk) = match PadMachine::open(alloc, disk, limits) {
        Ok(pad) => (String::from_str(alloc, "ok")?, pad.into_disk()),
        Err(refused) => (refusal(alloc, refused.why)?, refused.back),
    };
    let bytes = hex::encode(alloc, &left(alloc, disk)?)?;
    Ok(format!(in alloc; "{said} {bytes}")?)
}

fn refusal(alloc: Global, why: PadBad) -> Result<String> {
    Ok(match why {
        PadBad::Foreign => String::from_str(alloc, "foreign")?,
        PadBad::BadRecord(i) => format!(in alloc; "record {i}")?,
        other => format!(in alloc; "{other:?}")?,
    })
}
