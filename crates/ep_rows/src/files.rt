//! The files of journals, and what is read from them.

ghost use Rattle.std.specs.Prelude.{◌≡◌, ◌≤◌, length, IfOk, OnOk};
ghost use Rattle.ep_journal.specs.Journal.{IsReady};

use crate::journals::{AMPLE, NEW, ONE, OPEN, SHORT, append, appended, hex, open, refusal};
use anyhow::{Result, bail, ensure};
use ep_disk_mem::MemDisk;
use ep_journal::{Journal, JournalBad, frame, scan};
use ep_outside::Disk;
use std::alloc::{AllocError, Global};

fn zeros(alloc: Global, size: usize) -> Result<Vec<u8>, AllocError>
    ensures { IfOk result (λ zeros. length zeros.items ≡ size) }
{
    let mut zeros = Vec::with_capacity(alloc, size)?;
    zeros.resize(size, 0)?;
    Ok(zeros)
}

fn bytes_of(alloc: Global, disk: &mut MemDisk) -> Result<Vec<u8>> {
    let size = disk.length()?;
    let mut bytes = zeros(alloc, size as usize)?;
    disk.read(0, &mut bytes)?;
    Ok(bytes)
}

/// The bytes of a journal's file, in hexadecimal digits.
fn file_of(alloc: Global, journal: Journal<MemDisk>) -> Result<String> {
    let mut disk = journal.into_disk();
    let bytes = bytes_of(alloc, &mut disk)?;
    Ok(hex(alloc, &bytes)?)
}

/// How many records a scan gives.
fn scanned(alloc: Global, bytes: &[u8]) -> Result<String> {
    match scan(alloc, bytes)? {
        Some(records) => Ok(format!(in alloc; "{}", records.len())?),
        None => Ok(refusal(alloc, JournalBad::Foreign)?),
    }
}

/// How many records an opening finds.
fn opened(alloc: Global, bytes: &[u8]) -> Result<String, AllocError> {
    match open(alloc, bytes, &[], AMPLE) {
        Ok(journal) => format!(in alloc; "{}", journal.count()),
        Err(bad) => refusal(alloc, bad),
    }
}

/// A file: how many records a scan gives of it, and an opening.
fn file(alloc: Global, bytes: &[u8]) -> Result<String> {
    let file = hex(alloc, bytes)?;
    let scanned = scanned(alloc, bytes)?;
    let opened = opened(alloc, bytes)?;
    Ok(format!(in alloc; "{file}: {scanned} {opened}")?)
}

/// Files: how many records a scan gives of each, and an opening.
pub fn print<R: Print + AllocGlobal>(rt: &R) -> Result<()> {
    let files: [&[u8]; 10] = [
        b"",
        NEW,
        b"\x00\x00\x00\x00\x00\x00\x00\x00\x00",
        ONE,
        &ONE[..20],
        b"EPADJNL1\x07\x00\x00\x00\x09\x01\x00\x00\x00\x00\x00\x00\x00\x01\x00",
        b"\x00PADJNL1\x01\x00\x00\x00\x09\x01\x00\x00\x00\x00\x00\x00\x00\x01\x00",
        b"EPADJNL1\x01\x00\x00\x00\x09\x01\x00\x00\x00\x00\x00\x00\x00\x01\x01\x04\x00\x00\x01\x00",
        b"EPADJNL1\x01\x00\x00\x00\x09\x01\x00\x00\x00\x00\x00\x00\x00\x01\x01\x00\x00\x00\x02\x05\x01\x00",
        b"EPADJNL1\x01\x00\x00\x00\x00\x01\x00\x00\x00\x02\x05\x01\x00",
    ];
    println!(rt; "records of files, by scan and opening")?;
    for bytes in files {
        let row = file(rt.alloc(), bytes)?;
        println!(rt; "{row}")?;
    }
    Ok(())
}

/// The file of a journal on an empty disk.
fn new(alloc: Global) -> Result<String> {
    let journal = open(alloc, b"", &[], AMPLE)?;
    file_of(alloc, journal)
}

/// The file of such a journal after its first record.
fn first(alloc: Global) -> Result<String> {
    let mut journal = open(alloc, b"", &[], AMPLE)?;
    let answer = appended(alloc, &mut journal, OPEN)?;
    let file = file_of(alloc, journal)?;
    Ok(format!(in alloc; "{answer}: {file}")?)
}

/// The record that a scan gives of a file with one.
fn print_scanned<R: Print + AllocGlobal>(rt: &R) -> Result<()> {
    let Some(records) = scan(rt.alloc(), ONE)? else {
        bail!("a foreign file")
    };
    for bytes in &records.into_vec() {
        let bytes = hex(rt.alloc(), bytes)?;
        println!(rt; "scanned: {bytes}")?;
    }
    Ok(())
}

/// A journal of two records.
fn two(alloc: Global) -> Result<Journal<MemDisk>>
    ensures { IfOk result (IsReady ⟦<MemDisk as Disk>⟧.told) }
{
    let mut journal = open(alloc, ONE, &[], AMPLE)?;
    let framed = frame(alloc, SHORT)?;
    append(&mut journal, &framed)?;
    Ok(journal)
}

/// A record of a journal, in hexadecimal digits.
fn read(alloc: Global, journal: &mut Journal<MemDisk>, i: u64) -> Result<String>
    requires { IsReady ⟦<MemDisk as Disk>⟧.told journal.old }
    ensures { OnOk result (IsReady ⟦<MemDisk as Disk>⟧.told journal.new) }
{
    ensure!(i < journal.count(), "no such record");
    let record = journal.read(alloc, i)?;
    Ok(hex(alloc, &record)?)
}

/// How many records such a journal has, and what is read of them.
fn print_read<R: Print + AllocGlobal>(rt: &R) -> Result<()> {
    let mut journal = two(rt.alloc())?;
    let count = journal.count();
    println!(rt; "{count} records")?;
    let first = read(rt.alloc(), &mut journal, 0)?;
    let second = read(rt.alloc(), &mut journal, 1)?;
    println!(rt; "read: {first} {second}")?;
    Ok(())
}

/// What is kept, and what is read again.
pub fn print_records<R: Print + AllocGlobal>(rt: &R) -> Result<()> {
    println!(rt; "records")?;
    let new = new(rt.alloc())?;
    println!(rt; "new: {new}")?;
    let first = first(rt.alloc())?;
    println!(rt; "{first}")?;
    print_scanned(rt)?;
    print_read(rt)
}

/// What the appending of a record to a file answers, where it may have so many bytes.
fn limited(alloc: Global, bytes: &[u8], record: &[u8], limit: u64) -> Result<String>
    requires { length record.now ≤ 67108864 }
{
    let mut journal = open(alloc, bytes, &[], limit)?;
    let answer = appended(alloc, &mut journal, record)?;
    let record = hex(alloc, record)?;
    Ok(format!(in alloc; "{record} {limit}: {answer}")?)
}

/// Appendings to files that may have so many bytes.
pub fn print_full<R: Print + AllocGlobal>(rt: &R) -> Result<()> {
    println!(rt; "appending, with a limit")?;
    for (bytes, record, limit) in [
        (ONE, SHORT, 23),
        (ONE, SHORT, 30),
        (NEW, OPEN, 22),
        (NEW, OPEN, 23),
    ] {
        let row = limited(rt.alloc(), bytes, record, limit)?;
        println!(rt; "{row}")?;
    }
    Ok(())
}
