//! The operations that are measured. Each answers a checksum, the same at each run.

ghost use Rattle.std.specs.Prelude.{IfOk};
ghost use Rattle.std.specs.List.{All};
ghost use Rattle.ep_cs.specs.Fits.{Fits};

use crate::colliding::colliding;
use crate::data::{AUTHORS, attribs, document, edit};
use crate::draws::Draws;
use crate::hearing::hear_edits;
use crate::messages::{print_news, print_vars, read_changes};
use crate::revising::{decode_records, encode_records};
use crate::two::{compose_edits, follow_edits, rebase_edits};
use crate::typing::slide_typing;
use crate::undoing::take_back;
use anyhow::{Result, anyhow};
use ep_apply::{Doc, apply, fits};
use ep_attr::Attr;
use ep_cs::Change;
use ep_csread::{for_wire, read, read_attribs};
use ep_pool::Pool;
use ep_units::Units;
use std::alloc::Global;

/// How many edits are generated; they are gone through in turn.
const EDITS: usize = 512;

/// How many are generated of a document that they are made to.
pub const DOC_EDITS: usize = 64;

/// How many units have one attribute in a document of runs.
pub const RUN: usize = 50;

/// An operation that can be measured.
#[derive(Clone, Copy, Debug, PartialEq, Eq)]
pub enum Work {
    /// Small edits are read from changeset text.
    Read,
    /// Small edits are printed in their wire form.
    Print,
    /// A pool is filled with as many attributes as there are units.
    Pool,
    /// A pool is filled with attributes that a hash with a fixed seed doesn't tell apart.
    PoolCollide,
    /// Small edits are tried on a document with one attribute.
    Fits,
    /// Small edits are made to a document with one attribute.
    Apply,
    /// Small edits are made to a document with another attribute each 50 units.
    ApplyRuns,
    /// Two small edits, one after the other, are made one.
    Compose,
    /// A small edit is brought behind another.
    Follow,
    /// A small edit is brought behind a thousand others.
    Rebase,
    /// Ten thousand letters are slid by a hundred.
    Slide,
    /// A client with one unsent letter hears a thousand revisions of another.
    Hear,
    /// A client types a letter and hears fifteen of others, in turn.
    Turn,
    /// The same, and behind each turn it takes the letter back and makes it again.
    Undo,
    /// The record of a small revision is written.
    Encode,
    /// The record of a small revision is read.
    Decode,
    /// A browser's message with a small edit is read.
    ReadChanges,
    /// The news of a small edit are printed.
    PrintNews,
    /// What a client is told that enters a document with another attribute each 50 units is printed.
    PrintVars,
}

impl Work {
    pub fn named(word: &str) -> Option<Work> {
        match word {
            "read" => Some(Work::Read),
            "print" => Some(Work::Print),
            "pool" => Some(Work::Pool),
            "pool-collide" => Some(Work::PoolCollide),
            "fits" => Some(Work::Fits),
            "apply" => Some(Work::Apply),
            "apply-runs" => Some(Work::ApplyRuns),
            "compose" => Some(Work::Compose),
            "follow" => Some(Work::Follow),
            "rebase" => Some(Work::Rebase),
            "slide" => Some(Work::Slide),
            "hear" => Some(Work::Hear),
            "turn" => Some(Work::Turn),
            "undo" => Some(Work::Undo),
            "encode" => Some(Work::Encode),
            "decode" => Some(Work::Decode),
            "read-changes" => Some(Work::ReadChanges),
            "print-news" => Some(Work::PrintNews),
            "print-vars" => Some(Work::PrintVars),
            _ => None,
        }
    }

    pub fn run(self, alloc: Global, units: u32, count: u32) -> Result<u64> {
        match self {
            Work::Read => read_edits(alloc, units, count),
            Work::Print => print_edits(alloc, units, count),
            Work::Pool => fill_pools(alloc, units, count),
            Work::PoolCollide => fill_colliding(alloc, units, count),
            Work::Fits => try_edits(alloc, units, count),
            Work::Apply => apply_edits(alloc, units, units as usize, count),
            Work::ApplyRuns => apply_edits(alloc, units, RUN, count),
            Work::Compose => compose_edits(alloc, units, count),
            Work::Follow => follow_edits(alloc, units, count),
            Work::Rebase => rebase_edits(alloc, units, count),
            Work::Slide => slide_typing(alloc, units, count),
            Work::Hear => hear_edits(alloc, units, count),
            Work::Turn => take_back(alloc, units, count, false),
            Work::Undo => take_back(alloc, units, count, true),
            Work::Encode => encode_records(alloc, units, count),
            Work::Decode => decode_records(alloc, units, count),
            Work::ReadChanges => read_changes(alloc, units, count),
            Work::PrintNews => print_news(alloc, units, count),
            Work::PrintVars => print_vars(alloc, units, count),
        }
    }
}

fn attr(alloc: Global, key: &str, value: &str) -> Result<Attr> {
    Ok(Attr {
        key: Units::from_str(alloc, key)?,
        value: Units::from_str(alloc, value)?,
    })
}

/// A pool of so many authors.
pub fn authors(alloc: Global, count: usize) -> Result<Pool> {
    let mut pool = Pool::new(alloc);
    for i in 0..count {
        let value = format!(in alloc; "a.{i}")?;
        put(&mut pool, attr(alloc, "author", &value)?)?;
    }
    Ok(pool)
}

fn put(pool: &mut Pool, attr: Attr) -> Result<u32> {
    if !pool.can_number_more() {
        return Err(anyhow!("the pool is full"));
    }
    pool.reserve(1)?;
    Ok(pool.put(attr))
}

fn edits(alloc: Global, units: u32) -> Result<Vec<Units>> {
    let mut draws = Draws::new(7);
    let doc = document(alloc, units as usize, &mut draws)?;
    let mut edits = Vec::new(alloc);
    for _ in 0..EDITS {
        edits.push(edit(alloc, doc.as_slice(), &mut draws)?)?;
    }
    Ok(edits)
}

pub fn read_one(alloc: Global, text: &Units, pool: &Pool) -> Result<Change> {
    if !text.well_formed() {
        return Err(anyhow!("half of a pair stands alone"));
    }
    Ok(read(alloc, text, pool)?)
}

fn read_edits(alloc: Global, units: u32, count: u32) -> Result<u64> {
    let pool = authors(alloc, 1)?;
    let edits = edits(alloc, units)?;
    let mut sum: u64 = 0;
    for (_, text) in (0..count).zip(edits.iter().cycle()) {
        let change = read_one(alloc, text, &pool)?;
        sum = sum.wrapping_add(u64::from(change.new_len()));
    }
    Ok(sum)
}

fn print_edits(alloc: Global, units: u32, count: u32) -> Result<u64> {
    let pool = authors(alloc, 1)?;
    let mut changes = Vec::new(alloc);
    for text in &edits(alloc, units)? {
        changes.push(read_one(alloc, text, &pool)?)?;
    }
    let mut sum: u64 = 0;
    for (_, change) in (0..count).zip(changes.iter().cycle()) {
        let wire = for_wire(alloc, change)?;
        sum = sum.wrapping_add(wire.text.len() as u64);
    }
    Ok(sum)
}

fn fill_pools(alloc: Global, units: u32, count: u32) -> Result<u64> {
    let mut sum: u64 = 0;
    for _ in 0..count {
        let mut pool = Pool::new(alloc);
        for i in 0..units {
            let value = format!(in alloc; "{i}")?;
            let number = put(&mut pool, attr(alloc, "author", &value)?)?;
            sum = sum.wrapping_add(u64::from(number));
        }
    }
    Ok(sum)
}

fn fill_colliding(alloc: Global, units: u32, count: u32) -> Result<u64> {
    let mut sum: u64 = 0;
    for _ in 0..count {
        let mut pool = Pool::new(alloc);
        for i in 0..units {
            let number = put(&mut pool, colliding(alloc, i)?)?;
            sum = sum.wrapping_add(u64::from(number));
        }
    }
    Ok(sum)
}

/// The document of a text, with another attribute for each stretch of so many units.
pub fn doc(alloc: Global, text: &Units, pool: &Pool, run: usize) -> Result<Doc> {
    if !text.well_formed() {
        return Err(anyhow!("half of a pair stands alone"));
    }
    let attribs = attribs(alloc, text.as_slice(), run.max(1))?;
    let change = read_attribs(alloc, text, &attribs, pool)?;
    let empty = Doc::empty(alloc);
    match fits(&empty, &change) {
        Ok(()) => Ok(apply(alloc, &empty, &change)?),
        Err(_) => Err(anyhow!("the text is too long")),
    }
}

/// Small edits of a document, which fit it.
pub fn fitting_edits(
    alloc: Global,
    doc: &Doc,
    pool: &Pool,
    draws: &mut Draws,
) -> Result<Vec<Change>>
    ensures { IfOk result (λ changes. All (λ change. Fits change doc.now) changes.items) }
{
    let mut changes = Vec::new(alloc);
    for _ in 0..DOC_EDITS {
        let text = edit(alloc, doc.text(alloc)?.as_slice(), draws)?;
        let change = read_one(alloc, &text, pool)?;
        if fits(doc, &change).is_err() {
            return Err(anyhow!("an edit doesn't fit"));
        }
        changes.push(change)?;
    }
    Ok(changes)
}

fn try_edits(alloc: Global, units: u32, count: u32) -> Result<u64> {
    let mut draws = Draws::new(7);
    let pool = authors(alloc, AUTHORS)?;
    let text = document(alloc, units as usize, &mut draws)?;
    let doc = doc(alloc, &text, &pool, text.len())?;
    let changes = fitting_edits(alloc, &doc, &pool, &mut draws)?;
    let mut sum: u64 = 0;
    for (_, change) in (0..count).zip(changes.iter().cycle()) {
        if fits(&doc, change).is_ok() {
            sum = sum.wrapping_add(1);
        }
    }
    Ok(sum)
}

fn apply_edits(alloc: Global, units: u32, run: usize, count: u32) -> Result<u64> {
    let mut draws = Draws::new(7);
    let pool = authors(alloc, AUTHORS)?;
    let text = document(alloc, units as usize, &mut draws)?;
    let doc = doc(alloc, &text, &pool, run)?;
    let changes = fitting_edits(alloc, &doc, &pool, &mut draws)?;
    let mut sum: u64 = 0;
    for i in 0..count as usize {
        if let Some(change) = changes.get(i % DOC_EDITS) {
            let after = apply(alloc, &doc, change)?;
            sum = sum.wrapping_add(u64::from(after.len()));
        }
    }
    Ok(sum)
}
