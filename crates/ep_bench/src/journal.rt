//! The opening of a journal in memory, beside the reading of the head bytes of its records.

ghost use Rattle.std.specs.Prelude.{◌≡◌, ◌+◌, ◌<◌, ◌^◌, IfOk};
ghost use Rattle.ep_outside.specs.Disk.{Reaches};

use anyhow::{Context, Result, anyhow};
use ep_disk_mem::MemDisk;
use ep_journal::Journal;
use ep_outside::{Disk, Failed};
use std::alloc::Global;
use std::env;
use std::time::Instant;

const USAGE: &str = "usage: ep_bench journal BYTES RECORDS";

/// The file of a journal with so many records of so many bytes.
fn file(alloc: Global, bytes: u32, records: u32) -> Result<Vec<u8>> {
    let mut record = Vec::from_slice(alloc, &[1])?;
    record.extend_from_slice(&bytes.to_be_bytes())?;
    record.resize(bytes as usize + 5, b'r')?;
    let mut file = Vec::from_slice(alloc, b"EPADJNL1")?;
    for _ in 0..records {
        file.extend_from_slice(&record)?;
    }
    file.push(0)?;
    Ok(file)
}

/// Goes from open gate to open gate by the five bytes at each, and counts them.
fn count_gates<D: Disk>(disk: &mut D) -> Result<u64, Failed> {
    let total = disk.length()?;
    let mut count: u64 = 0;
    let mut gate: u64 = 8;
    let mut head = [0u8; 5];
    while gate < total && total - gate > 5 {
        disk.read(gate, &mut head)?;
        if head[0] != 1 {
            break;
        }
        let size = u32::from_be_bytes([head[1], head[2], head[3], head[4]]);
        gate = gate.saturating_add(u64::from(size) + 5);
        count = count.saturating_add(1);
    }
    Ok(count)
}

/// Times both over a disk, one after the other.
fn compare<D: Disk + Drop>(rt: &HostRuntime, disk: D) -> Result<()> {
    let mut disk = disk;
    let start = Instant::now(rt)?;
    let gates = count_gates(&mut disk)?;
    let reading = start.elapsed(rt)?.as_micros();
    let start = Instant::now(rt)?;
    let opened = Journal::open(rt.alloc(), disk, u64::MAX);
    let opening = start.elapsed(rt)?.as_micros();
    match opened {
        Ok(journal) => {
            let records = journal.count();
            println!(rt;
                "{gates} gates read in {reading} us, {records} records opened in {opening} us"
            )?;
            Ok(())
        }
        Err(refused) => Err(anyhow!("{}", refused.why)),
    }
}

/// With the words `journal BYTES RECORDS`, times both for a journal of so many records of so many bytes.
/// `false` with any other first word.
pub fn run(rt: &HostRuntime) -> Result<bool> {
    let mut words = env::args(rt)?.skip(1);
    match words.next() {
        Some(word) if word.as_str() == "journal" => {}
        _ => return Ok(false),
    }
    let bytes = words.next().context(USAGE)?.parse::<u32>().context(USAGE)?;
    let records = words.next().context(USAGE)?.parse::<u32>().context(USAGE)?;
    let alloc = rt.alloc();
    let disk = MemDisk::new(alloc, file(alloc, bytes, records)?, Vec::new(alloc))?;
    compare(rt, disk)?;
    Ok(true)
}
