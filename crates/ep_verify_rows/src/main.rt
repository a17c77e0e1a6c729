//! Files in, a line of hexadecimal digits each, and a verdict on each as `padd verify` is to write it behind a name.
//!
//! The files are those of one shelf, judged by four workers and by one.
#![tactic(auto)]

ghost use Rattle.std.specs.Prelude.{◌≤◌};

use anyhow::{Context, Result, anyhow};
use ep_disk_mem::{MemFile, MemShelf};
use ep_units::{PadId, Units};
use ep_verify::{Verdict, What, verify};
use std::alloc::Global;
use std::thread::Threads;

/// The file of this number, under a name whose order is that of numbers.
fn file(alloc: Global, number: usize, digits: &str) -> Result<MemFile> {
    let text = format!(in alloc; "f{number:06}")?;
    let name = Units::from_str(alloc, &text)?;
    Ok(MemFile {
        name: PadId::read(alloc, &name)?.context("no name of a pad")?,
        bytes: hex::decode(alloc, digits)?,
        fails: Vec::new(alloc),
    })
}

fn said(alloc: Global, what: What) -> Result<String> {
    Ok(match what {
        What::Whole { head, units } => format!(in alloc; "whole head {head} units {units}")?,
        What::Absent => format!(in alloc; "absent")?,
        What::Foreign => format!(in alloc; "foreign")?,
        What::BadRecord(index) => format!(in alloc; "record {index}")?,
        What::Behind(count) => format!(in alloc; "behind {count}")?,
    })
}

/// The verdicts on these files by so many workers.
fn judged(rt: &impl Threads, alloc: Global, lines: &[String], workers: u32) -> Result<Vec<Verdict>>
    requires { (1 ≤ workers) × (workers ≤ 64) }
{
    let mut files = Vec::new(alloc);
    for (number, digits) in lines.iter().enumerate() {
        files.push(file(alloc, number, digits)?)?;
    }
    let mut shelf = MemShelf::new(alloc, files, Vec::new(alloc))?;
    match verify(rt, alloc, &mut shelf, workers) {
        Ok(verdicts) => Ok(verdicts),
        Err(_) => Err(anyhow!("the shelf was not judged")),
    }
}

fn main(rt: HostRuntime) -> Result<()> {
    let alloc = rt.alloc();
    let mut lines = Vec::new(alloc);
    for line in rt.lines(alloc) {
        lines.push(line?)?;
    }
    let many = judged(&rt, alloc, &lines, 4)?;
    let one = judged(&rt, alloc, &lines, 1)?;
    for (verdict, other) in one.iter().zip(many.iter()) {
        if verdict.what != other.what {
            return Err(anyhow!("four workers say otherwise"));
        }
        let said = said(alloc, verdict.what)?;
        println!(rt; "{said}")?;
    }
    Ok(())
}
