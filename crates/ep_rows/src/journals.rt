//! Journals on disks in memory.

ghost use Rattle.std.specs.Prelude.{◌≤◌, length, IfOk, OnOk};
ghost use Rattle.ep_journal.specs.Journal.{IsReady};

use anyhow::Result;
use ep_disk_mem::MemDisk;
use ep_journal::{Framed, Journal, JournalBad, frame};
use ep_outside::{Disk, Refused};
use ep_units::NoMemory;
use std::alloc::{AllocError, Global};

/// A new journal.
pub const NEW: &[u8] = b"EPADJNL1\x00";

/// A record of nine bytes.
pub const OPEN: &[u8] = b"\x01\x00\x00\x00\x00\x00\x00\x00\x01";

/// A journal with that record.
pub const ONE: &[u8] = b"EPADJNL1\x01\x00\x00\x00\x09\x01\x00\x00\x00\x00\x00\x00\x00\x01\x00";

/// A record of two bytes.
pub const SHORT: &[u8] = b"\x05\x01";

/// A limit in bytes that no row comes near.
pub const AMPLE: u64 = 1000;

/// A disk of these bytes, whose calls of these numbers fail.
fn disk(alloc: Global, bytes: &[u8], fails: &[u64]) -> Result<MemDisk, NoMemory> {
    let bytes = Vec::from_slice(alloc, bytes)?;
    let fails = Vec::from_slice(alloc, fails)?;
    MemDisk::new(alloc, bytes, fails)
}

/// Opens such a disk.
pub fn open(
    alloc: Global,
    bytes: &[u8],
    fails: &[u64],
    limit: u64,
) -> Result<Journal<MemDisk>, JournalBad>
    ensures { IfOk result (IsReady ⟦<MemDisk as Disk>⟧.told) }
{
    let Ok(disk) = disk(alloc, bytes, fails) else {
        return Err(JournalBad::NoMemory);
    };
    match Journal::open(alloc, disk, limit) {
        Ok(journal) => Ok(journal),
        Err(Refused { back: _, why }) => Err(why),
    }
}

/// Appends a record, with room for it.
pub fn append(journal: &mut Journal<MemDisk>, framed: &Framed) -> Result<u64, JournalBad>
    requires { IsReady ⟦<MemDisk as Disk>⟧.told journal.old }
    ensures { OnOk result (IsReady ⟦<MemDisk as Disk>⟧.told journal.new) }
{
    match journal.reserve(framed) {
        Ok(()) => journal.append(framed),
        Err(_) => Err(JournalBad::NoMemory),
    }
}

pub fn hex(alloc: Global, bytes: &[u8]) -> Result<String, AllocError> {
    let mut text = String::new(alloc);
    for byte in bytes {
        let digits = format!(in alloc; "{byte:02x}")?;
        text.push_str(digits.as_str())?;
    }
    Ok(text)
}

/// A refusal in a word, with its number.
pub fn refusal(alloc: Global, bad: JournalBad) -> Result<String, AllocError> {
    match bad {
        JournalBad::Disk(count) => format!(in alloc; "disk {count}"),
        JournalBad::Foreign => String::from_str(alloc, "foreign"),
        JournalBad::Full(bytes) => format!(in alloc; "full {bytes}"),
        JournalBad::NoMemory => String::from_str(alloc, "no memory"),
    }
}

/// The index of a record that was appended, or why it wasn't.
pub fn index(alloc: Global, answer: Result<u64, JournalBad>) -> Result<String, AllocError> {
    match answer {
        Ok(index) => format!(in alloc; "record {index}"),
        Err(bad) => refusal(alloc, bad),
    }
}

/// What the appending of a record answers.
pub fn appended(alloc: Global, journal: &mut Journal<MemDisk>, record: &[u8]) -> Result<String>
    requires ready { IsReady ⟦<MemDisk as Disk>⟧.told journal.old }
    requires small { length record.now ≤ 67108864 }
{
    let framed = frame(alloc, record)?;
    Ok(index(alloc, append(journal, &framed))?)
}
