//! A pad over a disk in memory.

use crate::grants::grant;
use ep_disk_mem::MemDisk;
use ep_history::Why;
use ep_outside::{Image, Limits};
use ep_pad::{PadBad, PadMachine};
use ep_step::newline_change;
use ep_units::{Session, Units};
use std::alloc::Global;

const LIMITS: Limits = Limits {
    live: 2,
    logins: 9,
    units: 99,
    journal: 999,
    openings: 0,
    pads: 1,
};

const FIRST: Session = Session { epoch: 1, count: 1 };

fn opened(alloc: Global) -> Result<PadMachine<MemDisk>, PadBad> {
    opened_within(alloc, LIMITS)
}

fn opened_within(alloc: Global, limits: Limits) -> Result<PadMachine<MemDisk>, PadBad> {
    let disk = MemDisk::new(alloc, Vec::new(alloc), Vec::new(alloc))?;
    match PadMachine::open(alloc, disk, limits) {
        Ok(pad) => Ok(pad),
        Err(refused) => Err(refused.why),
    }
}

fn log_in(alloc: Global, pad: &mut PadMachine<MemDisk>, now: u64) -> Result<Session, PadBad> {
    let grant = grant(alloc, "pad", "a.1")?;
    Ok(pad.login(&grant, now)?.session)
}

/// The session that comes back at the first revision of the first birth.
fn resume(alloc: Global, pad: &mut PadMachine<MemDisk>, now: u64) -> Result<Session, PadBad> {
    let grant = grant(alloc, "pad", "a.1")?;
    Ok(pad.resume(&grant, 0, Some(1), None, now)?.session)
}

/// The head that a fetch tells.
fn fetch_head(pad: &mut PadMachine<MemDisk>, session: Session) -> Result<u64, PadBad> {
    Ok(pad.fetch(session, 0, 0)?.head)
}

/// How many of the first nine revisions there are.
fn count_revs(pad: &mut PadMachine<MemDisk>, session: Session) -> Result<usize, PadBad> {
    Ok(pad.history(session, 0, 9)?.revs.len())
}

/// The birth, the head and how many sessions are live.
fn status(pad: &mut PadMachine<MemDisk>) -> Result<(u64, u64, u64), PadBad> {
    let status = pad.status()?;
    Ok((status.birth, status.head, status.live))
}

#[test]
fn a_pad_comes_back(rt: HostRuntime) -> Result<(), PadBad> {
    let alloc = rt.alloc();
    let mut pad = opened(alloc)?;
    assert_eq!(rt; log_in(alloc, &mut pad, 5), Ok(FIRST));
    assert_eq!(rt; pad.restart(), Ok(()));
    assert_eq!(rt; pad.epoch(), 2);
    let dead = PadBad::Dead(Why::Reopened(2));
    assert_eq!(rt; fetch_head(&mut pad, FIRST), Err(dead));
    assert_eq!(rt; status(&mut pad), Ok((1, 0, 0)));
    Ok(())
}

fn set_text(
    alloc: Global,
    pad: &mut PadMachine<MemDisk>,
    text: &str,
    now: u64,
) -> Result<u64, PadBad> {
    let text = Units::from_str(alloc, text)?;
    Ok(pad.set_text(&text, now)?.rev)
}

/// What is told of a session's newline at the end: the revision, whether one more was needed, and whether it was nothing.
fn add_newline(
    alloc: Global,
    pad: &mut PadMachine<MemDisk>,
    session: Session,
    now: u64,
) -> Result<(u64, bool, bool), PadBad> {
    let doc = pad.text(None)?;
    if doc.len() > 9 {
        return Err(PadBad::NoMemory);
    }
    let change = newline_change(alloc, &doc)?;
    let told = pad.accept(session, 1, change, now)?;
    Ok((told.rev, told.fixed, told.nop))
}

#[test]
fn edits_are_read(rt: HostRuntime) -> Result<(), PadBad> {
    let alloc = rt.alloc();
    let mut pad = opened(alloc)?;
    assert_eq!(rt; log_in(alloc, &mut pad, 5), Ok(FIRST));
    assert_eq!(rt; set_text(alloc, &mut pad, "ab", 6), Ok(1));
    assert_eq!(rt;
        add_newline(alloc, &mut pad, FIRST, 7),
        Ok((2, false, false))
    );
    assert_eq!(rt; count_revs(&mut pad, FIRST), Ok(2));
    assert_eq!(rt; fetch_head(&mut pad, FIRST), Ok(2));
    Ok(())
}

fn create(
    alloc: Global,
    pad: &mut PadMachine<MemDisk>,
    text: &str,
    now: u64,
) -> Result<u64, PadBad> {
    let text = Units::from_str(alloc, text)?;
    pad.create(&text, now)
}

#[test]
fn births_and_a_stop(rt: HostRuntime) -> Result<(), PadBad> {
    let alloc = rt.alloc();
    let mut pad = opened(alloc)?;
    assert_eq!(rt; log_in(alloc, &mut pad, 5), Ok(FIRST));
    let again = Session { epoch: 1, count: 2 };
    assert_eq!(rt; resume(alloc, &mut pad, 8), Ok(again));
    assert_eq!(rt; pad.leave(again), Ok(()));
    assert_eq!(rt; pad.set_public(true), Ok(()));
    assert_eq!(rt; pad.delete(9), Ok(()));
    assert_eq!(rt; create(alloc, &mut pad, "c", 10), Ok(2));
    pad.stop_after(0, Image::Old);
    assert_eq!(rt; pad.delete(11), Err(PadBad::Store(1)));
    Ok(())
}

/// A pad's journal takes no more text. Openings have so much room more: it is opened anew, its length is read, and it is
/// deleted.
fn full_pad(alloc: Global, openings: u64) -> Result<u32, PadBad> {
    let limits = Limits {
        journal: 102,
        openings,
        ..LIMITS
    };
    let mut pad = opened_within(alloc, limits)?;
    log_in(alloc, &mut pad, 5)?;
    set_text(alloc, &mut pad, "ab", 6)?;
    if set_text(alloc, &mut pad, "cd", 7).is_ok() {
        return Ok(0);
    }
    pad.restart()?;
    let length = pad.text(None)?.len();
    pad.delete(8)?;
    Ok(length)
}

#[test]
fn a_full_pad_is_opened_and_deleted(rt: HostRuntime) {
    let rows = [
        (28, Ok(3)),
        (27, Err(PadBad::JournalFull(130))),
        (0, Err(PadBad::JournalFull(116))),
    ];
    for (openings, answer) in rows {
        assert_eq!(rt; full_pad(rt.alloc(), openings), answer);
    }
}
