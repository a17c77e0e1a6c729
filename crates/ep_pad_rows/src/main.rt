//! Pads on their files: questions in, a line each, and a line of answer for each.
//!
//! - Hexadecimal digits: the file of a pad is opened. The answer says `ok`, `foreign`, `record I` or another refusal, and
//!   has the file's bytes after it.
//! - `limit N FILE`: the same, where the file may have so many bytes.
//! - `full N FILE RECORD`: what a file that may have so many bytes says of one record more.
//! - `append FILE RECORD CALLS IMAGE LENGTH`: a record is appended, and the disk stops after so many calls of the four. The
//!   image is `old`, `new` or a byte that fills what isn't synced, of the `least` or the `greatest` length. The answer has the
//!   count of the records that are left, and the bytes.
//! - `fault CALL`: on a pad with the text of `ab` and two sessions an insert of the first meets a fault at this call. The
//!   answer has the refusal, and of the pad then the number of the opening, the head, and what the other session is told.
//! - `stop CALLS IMAGE LENGTH`: there the insert is stopped so, and the answer has what it was answered, the number of the
//!   opening, the head, and the count of the records.
#![tactic(auto)]

mod appended;
mod hindered;
mod images;
mod opened;

use crate::appended::{appended, full};
use crate::hindered::{faulted, stopped};
use crate::opened::{LIMITS, opened};
use anyhow::{Context, Result};
use ep_outside::Limits;
use std::alloc::Global;

/// A file opened within so many bytes.
fn limited(alloc: Global, words: &str) -> Result<String> {
    let (limit, file) = words.split_once(' ').context("limit N FILE")?;
    let limits = Limits {
        journal: limit.parse::<u64>()?,
        openings: 0,
        ..LIMITS
    };
    opened(alloc, file, limits)
}

fn answered(alloc: Global, line: &str) -> Result<String> {
    match line.split_once(' ') {
        Some(("limit", words)) => limited(alloc, words),
        Some(("full", words)) => full(alloc, words),
        Some(("append", words)) => appended(alloc, words),
        Some(("fault", words)) => faulted(alloc, words),
        Some(("stop", words)) => stopped(alloc, words),
        _ => opened(alloc, line, LIMITS),
    }
}

fn main(rt: HostRuntime) -> Result<()> {
    let alloc = rt.alloc();
    for line in rt.lines(alloc) {
        let reply = answered(alloc, &line?)?;
        println!(rt; "{reply}")?;
    }
    Ok(())
}
