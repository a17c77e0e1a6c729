//! Who sits in an opening of a pad, and who may enter it.

use crate::grants::grant;
use ep_outside::Limits;
use ep_seats::{PadBad, PadFacts, Seats, Why};
use ep_units::{Grant, NoMemory, Session, Units};
use std::alloc::Global;

/// How a group's pad stands to who isn't a member.
#[derive(Clone, Copy, Debug)]
enum Door {
    /// It isn't there.
    Absent,
    /// Everybody may enter.
    Open,
    /// Members alone may enter.
    Closed,
}

impl Door {
    /// One may be live, and one may enter.
    const LIMITS: Limits = Limits {
        live: 1,
        logins: 1,
        units: 1,
        journal: 1,
        openings: 0,
        pads: 1,
    };

    fn facts(self) -> PadFacts {
        PadFacts {
            limits: Door::LIMITS,
            present: !matches!(self, Door::Absent),
            public: !matches!(self, Door::Closed),
            births: 1,
            head: 7,
        }
    }
}

fn ann(alloc: Global) -> Result<Grant, NoMemory> {
    grant(alloc, "g.0aA9bB8cC7dD6eE5$pad", "a.ann")
}

/// What the first who logs in is answered.
fn log_in(alloc: Global, door: Door) -> Result<(), PadBad> {
    let grant = ann(alloc)?;
    Seats::new(alloc, 1).check_login(&door.facts(), &grant)
}

#[test]
fn logins_to_a_group_pad(rt: HostRuntime) {
    for (door, answer) in [
        (Door::Absent, Err(PadBad::Denied(4))),
        (Door::Closed, Err(PadBad::Denied(6))),
        (Door::Open, Ok(())),
    ] {
        assert_eq!(rt; log_in(rt.alloc(), door), answer, "{door:?}");
    }
}

/// The author whom somebody names who comes back.
fn named(alloc: Global, author: Option<&str>) -> Result<Option<Units>, NoMemory> {
    match author {
        None => Ok(None),
        Some(author) => Ok(Some(Units::from_str(alloc, author)?)),
    }
}

/// What the first who comes back is answered, who may name the birth and an author.
fn resume(
    alloc: Global,
    door: Door,
    rev: u64,
    birth: Option<u64>,
    author: Option<&str>,
) -> Result<(), PadBad> {
    let named = named(alloc, author)?;
    let grant = ann(alloc)?;
    Seats::new(alloc, 1).check_resume(&door.facts(), &grant, rev, birth, named.as_ref())
}

#[test]
fn resumptions_of_a_group_pad(rt: HostRuntime) {
    for (door, rev, birth, author, answer) in [
        (Door::Open, 7, None, None, Ok(())),
        (Door::Open, 8, Some(1), None, Err(PadBad::BadRev(7))),
        (Door::Open, 8, Some(2), None, Err(PadBad::Gone)),
        (Door::Absent, 7, None, None, Err(PadBad::Gone)),
        (Door::Closed, 7, None, Some("a.bob"), Err(PadBad::Denied(6))),
        (Door::Open, 7, None, Some("a.bob"), Err(PadBad::Denied(7))),
    ] {
        let answered = resume(rt.alloc(), door, rev, birth, author);
        assert_eq!(rt; answered, answer, "{door:?} at {rev}");
    }
}

/// Two may be live.
const TWO: Limits = Limits {
    live: 2,
    logins: 4,
    units: 0,
    journal: 0,
    openings: 0,
    pads: 0,
};

fn enter(
    alloc: Global,
    seats: &mut Seats,
    author: &str,
    read_only: bool,
) -> Result<Session, PadBad> {
    let author = Units::from_str(alloc, author)?;
    seats.check_full(&TWO, &author)?;
    seats.reserve()?;
    Ok(seats.enter(author, read_only))
}

fn has_live(alloc: Global, seats: &Seats, author: &str) -> Result<bool, PadBad> {
    let author = Units::from_str(alloc, author)?;
    Ok(seats.has_live(&author))
}

/// Whether a session may write, and is this author's.
fn is_writer(alloc: Global, seats: &Seats, session: Session, author: &str) -> Result<bool, PadBad> {
    let author = Units::from_str(alloc, author)?;
    Ok(*seats.writer(session)? == author)
}

#[test]
fn an_opening(rt: HostRuntime) {
    let alloc = rt.alloc();
    let mut seats = Seats::new(alloc, 3);
    assert_eq!(rt; seats.epoch(), 3);
    let first = Session { epoch: 3, count: 1 };
    let second = Session { epoch: 3, count: 2 };
    let third = Session { epoch: 3, count: 3 };
    assert_eq!(rt; enter(alloc, &mut seats, "a.ann", false), Ok(first));
    assert_eq!(rt; enter(alloc, &mut seats, "a.bob", true), Ok(second));
    assert_eq!(rt;
        enter(alloc, &mut seats, "a.cid", false),
        Err(PadBad::Full(2))
    );
    assert_eq!(rt; enter(alloc, &mut seats, "a.ann", false), Ok(third));
    let replaced = PadBad::Dead(Why::Replaced(third));
    assert_eq!(rt; seats.live(first).err(), Some(replaced));
    assert_eq!(rt; seats.writer(second).err(), Some(PadBad::ReadOnly));
    assert_eq!(rt; is_writer(alloc, &seats, third, "a.ann"), Ok(true));
    assert_eq!(rt; seats.live_count(), 2);
    let older = Session { epoch: 2, count: 3 };
    assert_eq!(rt; seats.leave(older), Err(PadBad::Dead(Why::Reopened(3))));
    assert_eq!(rt; seats.leave(third), Ok(()));
    assert_eq!(rt; has_live(alloc, &seats, "a.ann"), Ok(false));
    seats.end_all(1);
    let deleted = PadBad::Dead(Why::Deleted(1));
    assert_eq!(rt; seats.live(second).err(), Some(deleted));
    assert_eq!(rt; seats.live(third).err(), Some(PadBad::Dead(Why::Left)));
}
