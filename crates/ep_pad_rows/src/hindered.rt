//! Inserts that a fault or a stop hinders.

use crate::appended::count;
use crate::images::image;
use crate::opened::{LIMITS, left};
use anyhow::{Context, Result, anyhow};
use ep_cs::Change;
use ep_csread::read;
use ep_disk_mem::MemDisk;
use ep_outside::Image;
use ep_pad::{PadBad, PadMachine};
use ep_pool::Pool;
use ep_units::{Grant, PadId, Session, Units};
use std::alloc::Global;

/// A pad with the text of `ab`, and two sessions.
#[derive(Drop)]
struct Shared {
    pad: PadMachine<MemDisk>,
    first: Session,
    other: Session,
}

fn grant(alloc: Global, author: &str) -> Result<Grant> {
    let name = Units::from_str(alloc, "pad")?;
    let pad = PadId::read(alloc, &name)?.context("no pad's id")?;
    Ok(Grant {
        pad,
        asked: name,
        author: Units::from_str(alloc, author)?,
        token_author: Units::from_str(alloc, author)?,
        member: false,
        read_only: false,
    })
}

fn shared_pad(alloc: Global) -> Result<Shared> {
    let disk = MemDisk::new(alloc, Vec::new(alloc), Vec::new(alloc))?;
    let mut pad = match PadMachine::open(alloc, disk, LIMITS) {
        Ok(pad) => pad,
        Err(refused) => return Err(anyhow!("{}", refused.why)),
    };
    pad.create(&Units::from_str(alloc, "ab")?, 1)?;
    let first = pad.login(&grant(alloc, "a.A")?, 2)?.session;
    let other = pad.login(&grant(alloc, "a.B")?, 3)?.session;
    Ok(Shared { pad, first, other })
}

/// An `X` between the two letters.
fn insert(alloc: Global) -> Result<Change> {
    let text = Units::from_str(alloc, "Z:3>1=1+1$X")?;
    Ok(read(alloc, &text, &Pool::new(alloc))?)
}

/// A refusal, or `ok`.
fn said(alloc: Global, bad: Option<PadBad>) -> Result<String> {
    match bad {
        None => Ok(String::from_str(alloc, "ok")?),
        Some(bad) => Ok(format!(in alloc; "{bad:?}")?),
    }
}

/// A fault at this call of the insert's append.
pub fn faulted(alloc: Global, words: &str) -> Result<String> {
    let call = words.parse::<u64>()?;
    let mut shared = shared_pad(alloc)?;
    let insert = insert(alloc)?;
    shared.pad.stop_after(call.saturating_sub(1), Image::Old);
    let taken = shared.pad.accept(shared.first, 0, insert, 4);
    shared.pad.stop_after(u64::MAX, Image::Old);
    let status = shared.pad.status()?;
    let told = shared.pad.fetch(shared.other, 0, 0);
    let epoch = shared.pad.epoch();
    let head = status.head;
    let taken = said(alloc, taken.err())?;
    let told = said(alloc, told.err())?;
    Ok(format!(in alloc; "{taken} epoch {epoch} head {head} other {told}")?)
}

/// A stop after so many calls of it, with an image.
pub fn stopped(alloc: Global, words: &str) -> Result<String> {
    let mut words = words.split(' ');
    let calls = words.next().context("CALLS")?.parse::<u64>()?;
    let asked = image(
        alloc,
        words.next().context("IMAGE")?,
        words.next().context("LENGTH")?,
    )?;
    let mut shared = shared_pad(alloc)?;
    let insert = insert(alloc)?;
    let taken = shared
        .pad
        .accept_stopped(calls, asked, shared.first, 0, insert, 4)?;
    let head = shared.pad.status()?.head;
    let epoch = shared.pad.epoch();
    let records = count(alloc, &left(alloc, shared.pad.into_disk())?)?;
    let taken = said(alloc, taken.err())?;
    Ok(format!(in alloc; "{taken} epoch {epoch} head {head} records {records}")?)
}
