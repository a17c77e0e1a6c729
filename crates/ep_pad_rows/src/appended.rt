//! Records that are appended to a file.

ghost use Rattle.std.specs.Prelude.{◌≡◌, IfOk};
ghost use Rattle.ep_pad_file.specs.PadFile.{limit_of, IsReady};

use crate::images::image;
use crate::opened::{LIMITS, left};
use anyhow::{Context, Result, anyhow};
use ep_disk_mem::MemDisk;
use ep_journal::scan;
use ep_outside::{Crash, Disk};
use ep_pad_file::PadFile;
use ep_record::{Record, decode};
use std::alloc::Global;

fn file(alloc: Global, digits: &str, limit: u64) -> Result<PadFile<MemDisk>>
    ensures ready { IfOk result (IsReady ⟦<MemDisk as Disk>⟧.told) }
    ensures limit { IfOk result (λ file. limit_of file ≡ limit) }
{
    let disk = MemDisk::new(alloc, hex::decode(alloc, digits)?, Vec::new(alloc))?;
    match PadFile::open(alloc, disk, limit) {
        Ok(file) => Ok(file),
        Err(refused) => Err(anyhow!("{}", refused.why)),
    }
}

fn record(alloc: Global, digits: &str) -> Result<Record> {
    decode(alloc, &hex::decode(alloc, digits)?)?.context("the bytes are no record's")
}

/// How many records bytes stand for.
pub fn count(alloc: Global, bytes: &[u8]) -> Result<usize> {
    Ok(scan(alloc, bytes)?.map_or(0, |records| records.len()))
}

/// What a file within so many bytes says of one record more.
pub fn full(alloc: Global, words: &str) -> Result<String> {
    let mut words = words.split(' ');
    let limit = words.next().context("N")?.parse::<u64>()?;
    let mut file = file(alloc, words.next().context("FILE")?, limit)?;
    let record = record(alloc, words.next().context("RECORD")?)?;
    match file.prepare(alloc, &record, limit) {
        Ok(_) => Ok(String::from_str(alloc, "ok")?),
        Err(why) => Ok(format!(in alloc; "{why:?}")?),
    }
}

/// What an append that was stopped has left.
pub fn appended(alloc: Global, words: &str) -> Result<String> {
    let mut words = words.split(' ');
    let mut file = file(alloc, words.next().context("FILE")?, LIMITS.journal)?;
    let record = record(alloc, words.next().context("RECORD")?)?;
    let calls = words.next().context("CALLS")?.parse::<u64>()?;
    let asked = image(
        alloc,
        words.next().context("IMAGE")?,
        words.next().context("LENGTH")?,
    )?;
    let prepared = file.prepare(alloc, &record, LIMITS.journal)?;
    file.stop_after(calls, asked);
    let _answer = file.append(prepared);
    let mut disk = file.into_disk();
    disk.restart();
    let bytes = left(alloc, disk)?;
    let records = count(alloc, &bytes)?;
    let digits = hex::encode(alloc, &bytes)?;
    Ok(format!(in alloc; "{records} {digits}")?)
}
