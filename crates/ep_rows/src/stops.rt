//! Appends that are cut off, and disks that fail.

ghost use Rattle.ep_journal.specs.Journal.{IsReady};

use crate::journals::{AMPLE, ONE, OPEN, SHORT, appended, open};
use anyhow::Result;
use ep_disk_mem::MemDisk;
use ep_journal::{Journal, JournalBad, frame};
use ep_outside::{Disk, Image};
use std::alloc::{AllocError, Global};

/// What a crash leaves, as `Image` has it, with one byte of fill.
#[derive(Clone, Copy)]
enum Left {
    Old,
    New,
    Torn { length: u64, fill: u8 },
}

impl Left {
    fn image(self, alloc: Global) -> Result<Image, AllocError> {
        match self {
            Left::Old => Ok(Image::Old),
            Left::New => Ok(Image::New),
            Left::Torn { length, fill } => Ok(Image::Torn {
                length,
                fill: Vec::from_slice(alloc, &[fill])?,
            }),
        }
    }
}

/// Appends a record, and stops after so many device calls.
fn stop(alloc: Global, journal: &mut Journal<MemDisk>, calls: u64, left: Left) -> Result<()>
    requires { IsReady ⟦<MemDisk as Disk>⟧.told journal.old }
{
    let framed = frame(alloc, SHORT)?;
    journal.reserve(&framed)?;
    journal.stop_after(calls, left.image(alloc)?);
    let _answer = journal.append(&framed);
    Ok(())
}

/// How many records are found after a restart.
fn restarted(alloc: Global, journal: &mut Journal<MemDisk>) -> Result<u64, JournalBad> {
    journal.restart(alloc)?;
    Ok(journal.count())
}

/// How many records are found after an append that stops after so many device calls, and a start with what is left.
fn stopped(alloc: Global, calls: u64, left: Left) -> Result<u64> {
    let mut journal = open(alloc, ONE, &[], AMPLE)?;
    stop(alloc, &mut journal, calls, left)?;
    Ok(restarted(alloc, &mut journal)?)
}

fn print_torn<R: Print + AllocGlobal>(rt: &R, calls: u64) -> Result<()> {
    for fill in [0, 1, 7, 255] {
        let least = stopped(rt.alloc(), calls, Left::Torn { length: 0, fill })?;
        let length = u64::MAX;
        let most = stopped(rt.alloc(), calls, Left::Torn { length, fill })?;
        print!(rt; ", {fill:02x} {least} {most}")?;
    }
    Ok(())
}

/// Appends to a journal of one record that stop after so many device calls: the records that are found where a crash
/// leaves the last sync's bytes, what was written, or a byte wherever another may stand, with the least length and the
/// greatest.
pub fn print<R: Print + AllocGlobal>(rt: &R) -> Result<()> {
    println!(rt; "stopped after so many calls")?;
    for calls in 0..6 {
        let old = stopped(rt.alloc(), calls, Left::Old)?;
        let new = stopped(rt.alloc(), calls, Left::New)?;
        print!(rt; "{calls}: old {old}, new {new}")?;
        print_torn(rt, calls)?;
        println!(rt; "")?;
    }
    Ok(())
}

/// How many records are found when it is opened again.
fn reopened(alloc: Global, journal: &mut Journal<MemDisk>) -> Result<u64, JournalBad> {
    journal.reopen(alloc)?;
    Ok(journal.count())
}

/// What an append answers whose disk fails at a call, and how many records are found when it is opened again.
fn faulty(alloc: Global, call: u64) -> Result<String> {
    let mut journal = open(alloc, b"", &[call], AMPLE)?;
    let answer = appended(alloc, &mut journal, OPEN)?;
    let count = reopened(alloc, &mut journal)?;
    Ok(format!(in alloc; "{}, then {count}", answer.as_str())?)
}

/// Appends to a new journal whose disk fails at a call. An opening of an empty disk makes the first four.
pub fn print_faults<R: Print + AllocGlobal>(rt: &R) -> Result<()> {
    println!(rt; "a call that fails")?;
    for call in [5, 6, 7, 8, 50] {
        let answer = faulty(rt.alloc(), call)?;
        println!(rt; "{call}: {answer}")?;
    }
    Ok(())
}
