//! Pads on a disk in memory: edits that are taken, and openings.

ghost use Rattle.std.specs.Prelude.{◌≡◌, true};
ghost use Rattle.ep_units.specs.Text.{is_well_formed};

use crate::data::document;
use crate::draws::Draws;
use crate::revising::{AUTHOR, NOW};
use crate::typing::letter;
use anyhow::{Context, Result, anyhow};
use ep_apply::{Doc, apply};
use ep_cs::Change;
use ep_disk_mem::MemDisk;
use ep_outside::{Disk, Limits};
use ep_pad::PadMachine;
use ep_units::{Grant, PadId, Session, Units};
use std::alloc::Global;
use std::env;
use std::time::{Duration, Instant};

const USAGE: &str = "usage: ep_bench accept UNITS BEHIND EDITS | open REVISIONS";

/// None of them is met.
const LIMITS: Limits = Limits {
    live: 1_000,
    logins: 1_000_000,
    units: 1_000_000_000,
    journal: 1_000_000_000_000,
    openings: 0,
    pads: 1,
};

/// So many edits are made before they are taken.
const ROW: u64 = 15;

/// How many units a pad has that is opened.
const SMALL: u32 = 1_000;

/// A session that types letters all over a pad.
struct Typist {
    pad: PadMachine<MemDisk>,
    session: Session,
    draws: Draws,
}

impl Drop for Typist {
    fn drop(self) {
        let Typist {
            pad: _,
            session: _,
            draws: _,
        } = self;
    }
}

fn opened<D: Disk + Drop>(alloc: Global, disk: D) -> Result<PadMachine<D>> {
    match PadMachine::open(alloc, disk, LIMITS) {
        Ok(pad) => Ok(pad),
        Err(refused) => Err(anyhow!("{}", refused.why)),
    }
}

fn create<D: Disk>(pad: &mut PadMachine<D>, text: &Units) -> Result<()>
    requires { is_well_formed text.now ≡ true }
{
    pad.create(text, NOW)?;
    Ok(())
}

fn login<D: Disk>(pad: &mut PadMachine<D>, grant: &Grant) -> Result<Session> {
    Ok(pad.login(grant, NOW)?.session)
}

fn head<D: Disk>(pad: &mut PadMachine<D>) -> Result<u64> {
    Ok(pad.status()?.head)
}

fn text_at<D: Disk>(pad: &mut PadMachine<D>, rev: u64) -> Result<Doc> {
    Ok(pad.text(Some(rev))?)
}

/// The time of one call alone.
fn take<D: Disk>(
    rt: &HostRuntime,
    pad: &mut PadMachine<D>,
    session: Session,
    base: u64,
    change: Change,
) -> Result<Duration> {
    let start = Instant::now(rt)?;
    pad.accept(session, base, change, NOW)?;
    Ok(start.elapsed(rt)?)
}

fn grant(alloc: Global) -> Result<Grant> {
    let name = Units::from_str(alloc, "pad")?;
    let pad = PadId::read(alloc, &name)?.context("no pad's id")?;
    Ok(Grant {
        pad,
        asked: name,
        author: Units::from_str(alloc, AUTHOR)?,
        token_author: Units::from_str(alloc, AUTHOR)?,
        member: false,
        read_only: false,
    })
}

fn empty_pad(alloc: Global) -> Result<PadMachine<MemDisk>> {
    let room = Vec::with_capacity(alloc, 4_000_000)?;
    let disk = MemDisk::new(alloc, room, Vec::new(alloc))?;
    opened(alloc, disk)
}

/// A pad of so many units.
fn created(alloc: Global, units: u32, draws: &mut Draws) -> Result<PadMachine<MemDisk>> {
    let text = document(alloc, units as usize, draws)?;
    if !text.well_formed() {
        return Err(anyhow!("the text is none"));
    }
    let mut pad = empty_pad(alloc)?;
    create(&mut pad, &text)?;
    Ok(pad)
}

impl Typist {
    /// A pad of so many units, and a session of it.
    fn new(alloc: Global, units: u32) -> Result<Typist> {
        let mut draws = Draws::new(7);
        let mut pad = created(alloc, units, &mut draws)?;
        let grant = grant(alloc)?;
        let session = login(&mut pad, &grant)?;
        Ok(Typist {
            pad,
            session,
            draws,
        })
    }

    fn into_disk(self) -> MemDisk {
        let Typist {
            pad,
            session: _,
            draws: _,
        } = self;
        pad.into_disk()
    }

    /// Types one letter into the revision that is so many behind the head, and answers the time of the call alone.
    fn types(&mut self, rt: &HostRuntime, behind: u64) -> Result<Duration> {
        let base = head(&mut self.pad)?.saturating_sub(behind);
        let doc = text_at(&mut self.pad, base)?;
        let at = self.draws.pick((doc.len() as usize).max(1)) as u32;
        let change = letter(rt.alloc(), &doc, at)?;
        take(rt, &mut self.pad, self.session, base, change)
    }

    /// So many letters, each at a place of what the head is after those before it.
    fn letters(&mut self, alloc: Global, edits: u64) -> Result<Vec<Change>> {
        let base = head(&mut self.pad)?;
        let mut doc = text_at(&mut self.pad, base)?;
        let mut changes = Vec::new(alloc);
        for _ in 0..edits {
            let at = self.draws.pick((doc.len() as usize).max(1)) as u32;
            let change = letter(alloc, &doc, at)?;
            doc = apply(alloc, &doc, &change)?;
            changes.push(change)?;
        }
        Ok(changes)
    }

    /// Changes of the head are taken in a row, and how long all calls took is answered.
    fn takes(&mut self, rt: &HostRuntime, changes: Vec<Change>) -> Result<Duration> {
        let mut base = head(&mut self.pad)?;
        let start = Instant::now(rt)?;
        for change in changes {
            self.pad.accept(self.session, base, change, NOW)?;
            base = base.wrapping_add(1);
        }
        Ok(start.elapsed(rt)?)
    }

    /// Types letters into the head, in rows that are made before they are taken, and answers the time of the calls alone.
    fn types_rows(&mut self, rt: &HostRuntime, edits: u64) -> Result<Duration> {
        let mut spent = Duration::ZERO;
        for row in 0..edits.div_ceil(ROW) {
            let changes = self.letters(
                rt.alloc(),
                ROW.min(edits.saturating_sub(row.saturating_mul(ROW))),
            )?;
            spent = spent.saturating_add(self.takes(rt, changes)?);
        }
        Ok(spent)
    }

    fn types_all(&mut self, rt: &HostRuntime, behind: u64, edits: u64) -> Result<Duration> {
        let mut spent = Duration::ZERO;
        for _ in 0..edits {
            spent = spent.saturating_add(self.types(rt, behind)?);
        }
        Ok(spent)
    }
}

/// How long it takes to take edits so many revisions behind the head, and the head then; at the head they are taken in rows.
fn taken_by(
    rt: &HostRuntime,
    typist: &mut Typist,
    behind: u64,
    edits: u64,
) -> Result<(Duration, u64)> {
    typist.types_all(rt, 0, behind)?;
    let spent = if behind == 0 {
        typist.types_rows(rt, edits)?
    } else {
        typist.types_all(rt, behind, edits)?
    };
    Ok((spent, head(&mut typist.pad)?))
}

/// Edits that are taken so many revisions behind the head.
fn taken(rt: &HostRuntime, units: u32, behind: u64, edits: u64) -> Result<()> {
    let mut typist = Typist::new(rt.alloc(), units)?;
    let (spent, head) = taken_by(rt, &mut typist, behind, edits)?;
    println!(rt; "{edits} edits taken {behind} revisions behind the head, which is {head} then")?;
    eprintln!(rt; "{} ns", spent.as_nanos())?;
    Ok(())
}

/// The head of a pad that is opened, and how long that took.
fn open_in_time<D: Disk + Drop>(rt: &HostRuntime, disk: D) -> Result<(u64, Duration)> {
    let start = Instant::now(rt)?;
    let mut pad = opened(rt.alloc(), disk)?;
    let spent = start.elapsed(rt)?;
    Ok((head(&mut pad)?, spent))
}

/// A pad of so many revisions that is opened.
fn reopened(rt: &HostRuntime, revisions: u64) -> Result<()> {
    let mut typist = Typist::new(rt.alloc(), SMALL)?;
    typist.types_all(rt, 0, revisions)?;
    let (head, spent) = open_in_time(rt, typist.into_disk())?;
    println!(rt; "opened at revision {head}")?;
    eprintln!(rt; "{} ns", spent.as_nanos())?;
    Ok(())
}

/// With the words `accept UNITS BEHIND EDITS` or `open REVISIONS` times these, and says how long the calls took on standard
/// error. `false` with another first word.
pub fn run(rt: &HostRuntime) -> Result<bool> {
    let mut words = env::args(rt)?.skip(1);
    let Some(word) = words.next() else {
        return Ok(false);
    };
    if word.as_str() == "accept" {
        let units = words.next().context(USAGE)?.parse::<u32>().context(USAGE)?;
        let behind = words.next().context(USAGE)?.parse::<u64>().context(USAGE)?;
        let edits = words.next().context(USAGE)?.parse::<u64>().context(USAGE)?;
        taken(rt, units, behind, edits)?;
        return Ok(true);
    }
    if word.as_str() == "open" {
        let revisions = words.next().context(USAGE)?.parse::<u64>().context(USAGE)?;
        reopened(rt, revisions)?;
        return Ok(true);
    }
    Ok(false)
}
