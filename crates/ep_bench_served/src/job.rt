//! The sessions, ready to be served.

use crate::alarm::AlarmEar;
use crate::plan::Plan;
use crate::tally::Tally;
use crate::typist::Typist;
use ep_disk_mem::{MemClock, MemDraws, MemShelf};
use ep_groups::DirPort;
use ep_keep::MapKeeper;
use ep_link::Link;
use ep_outside::{Keeper, Limits, Shelf};
use ep_pad::PadPort;
use ep_pad_port::{House, HouseOf, PadCalls};
use ep_ring::{Bells, Ringing};
use ep_session::serve_session;
use ep_units::NoMemory;
use std::alloc::Global;
use std::sync::{Arc, Wait};

/// Pads and a directory in memory.
type MemHouse = House<MemShelf, MapKeeper>;

const LIMITS: Limits = Limits {
    live: 1_024,
    logins: 1_000_000,
    units: 10_000_000,
    journal: 4_000_000_000,
    openings: 0,
    pads: 8,
};

/// How many numbers a session draws.
const DRAWS: u64 = 10;

/// Numbers for the draws of a session, which no other session has.
fn drawn(alloc: Global, number: u64) -> Result<Vec<u64>, NoMemory> {
    let mut numbers = Vec::new(alloc);
    let mut rest = number;
    for _ in 0..DRAWS {
        numbers.push(rest % 36)?;
        rest /= 36;
    }
    Ok(numbers)
}

/// Serves somebody on these pads, up to the end.
fn serve_on<R: Wait, P: PadPort, G: DirPort>(
    rt: &R,
    alloc: Global,
    pads: &P,
    dir: &G,
    typist: Typist,
) -> Result<(), NoMemory> {
    let mut link = typist;
    let clock = MemClock::new(Vec::from_slice(alloc, &[5])?);
    let numbers = drawn(alloc, link.number())?;
    let mut draws = MemDraws::new(&numbers);
    let report = serve_session(rt, alloc, pads, dir, &mut link, &clock, &mut draws);
    drop(report);
    Ok(())
}

/// A session on any pads, that is still to be served.
#[derive(Drop)]
struct Sitting<P: Drop> {
    alloc: Global,
    pads: Ringing<P, AlarmEar>,
    typist: Typist,
}

impl<P: PadPort + DirPort + Drop> Sitting<P> {
    /// Serves it, up to its end. Without memory for its clock and its draws it isn't served.
    fn go<R: Wait>(self, rt: &R) {
        let Sitting {
            alloc,
            pads,
            typist,
        } = self;
        let _served = serve_on(rt, alloc, &pads, &*pads.pads, typist);
        pads.end(rt);
    }
}

/// A session that is still to be served. Its type says nothing of the house, so that proofs that stand on it are short.
#[derive(Drop)]
pub struct ServedJob {
    sitting: Sitting<MemHouse>,
}

// Serves a session on a house, up to its end. That a house is both ports is proved of any, and not again of one in memory.
fn go_at<R: Wait, H: Shelf + Drop, P: PadCalls<H::D> + Drop, K: Keeper + Drop>(
    rt: &R,
    sitting: Sitting<HouseOf<H, P, K>>,
) {
    sitting.go(rt);
}

impl ServedJob {
    /// Serves it, up to its end.
    pub fn go<R: Wait>(self, rt: &R) {
        go_at(rt, self.sitting);
    }
}

/// What all sessions share.
#[derive(Drop)]
struct Desk {
    alloc: Global,
    house: Arc<MemHouse>,
    bells: Arc<Bells<AlarmEar>>,
}

impl Desk {
    /// A house without pads.
    fn new(alloc: Global) -> Result<Desk, NoMemory> {
        let shelf = MemShelf::new(alloc, Vec::new(alloc), Vec::new(alloc))?;
        let keeper = MapKeeper::new(alloc, Vec::new(alloc));
        Ok(Desk {
            alloc,
            house: Arc::new(alloc, House::open(alloc, shelf, keeper, LIMITS)?)?,
            bells: Arc::new(alloc, Bells::new(alloc))?,
        })
    }

    /// The session of somebody.
    fn job(&self, typist: Typist) -> Result<ServedJob, NoMemory> {
        let house = Arc::try_clone(&self.house)?;
        let bells = Arc::try_clone(&self.bells)?;
        Ok(ServedJob {
            sitting: Sitting {
                alloc: self.alloc,
                pads: Ringing::new(house, bells, typist.ear()),
                typist,
            },
        })
    }
}

/// The sessions of a plan, on an empty house.
pub fn jobs(alloc: Global, plan: &Plan, tally: &Arc<Tally>) -> Result<Vec<ServedJob>, NoMemory> {
    let desk = Desk::new(alloc)?;
    let mut jobs = Vec::new(alloc);
    for number in 0..plan.sessions {
        let typist = Typist::new(alloc, number, *plan, Arc::try_clone(tally)?)?;
        jobs.push(desk.job(typist)?)?;
    }
    Ok(jobs)
}
