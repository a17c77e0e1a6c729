//! `easysync`, a calculator for changesets: JSON Lines in, JSON Lines out, one reply to each request.
#![tactic(auto)]

mod answer;
mod calc;
mod calc_bad;
mod call;
mod carry_out;
mod members;
mod refusal;
mod reply;

use crate::answer::answer;
use ep_edge::StdSource;
use ep_lines::{Line, Lines, LinesBad};
use ep_outside::Source;
use std::io::{self, ErrorKind};

/// The most bytes of a request. A longer one is passed over, and answered as one that is no JSON.
const MOST_REQUEST: usize = 268_435_456;

fn print_answer<R: Print + AllocGlobal>(rt: &R, line: &str) -> io::Result<()> {
    let answer = answer(rt.alloc(), line)?;
    println!(rt; "{answer}")?;
    Ok(())
}

fn answer_bytes<R: Print + AllocGlobal>(rt: &R, bytes: &[u8]) -> io::Result<()> {
    match bytes.strip_suffix(b"\r").unwrap_or(bytes) {
        [] => Ok(()),
        bytes => print_answer(rt, str::from_utf8(bytes).unwrap_or("")),
    }
}

/// Answers a line. An empty one is passed over.
fn answer_line<R: Print + AllocGlobal>(rt: &R, line: &Line) -> io::Result<()> {
    match line {
        Line::Text(bytes) => answer_bytes(rt, bytes),
        Line::Long => print_answer(rt, ""),
    }
}

fn ends(bad: LinesBad) -> io::Error {
    match bad {
        LinesBad::Fault => ErrorKind::Other.into(),
        LinesBad::NoMemory => ErrorKind::OutOfMemory.into(),
        LinesBad::Endless => ErrorKind::FileTooLarge.into(),
    }
}

/// Answers the next line, if there is one.
fn answer_next<R: Print + AllocGlobal, S: Source>(
    rt: &R,
    lines: &mut Lines,
    source: &mut S,
) -> io::Result<bool> {
    match lines.next_line(source) {
        Ok(Some(line)) => answer_line(rt, &line).map(|()| true),
        Ok(None) => Ok(false),
        Err(bad) => Err(ends(bad)),
    }
}

fn main(rt: HostRuntime) -> io::Result<()> {
    let mut source = StdSource::new(rt.reader());
    let mut lines = Lines::new(rt.alloc(), MOST_REQUEST);
    for _ in 0..u64::MAX {
        if !answer_next(&rt, &mut lines, &mut source)? {
            return Ok(());
        }
    }
    Ok(())
}
