//! A writer and the session that serves it.

use crate::side::{Side, connection};
use ep_disk_mem::{MemClock, MemDraws, MemShelf, MemSource};
use ep_groups::DirPort;
use ep_keep::MapKeeper;
use ep_outside::{Keeper, Limits, Shelf};
use ep_pad::PadPort;
use ep_pad_port::{House, HouseOf, PadCalls};
use ep_peer::{PeerBad, Reason, write_session};
use ep_session::{End, serve_session};
use ep_units::{NoMemory, PadId, Units};
use std::alloc::Global;
use std::sync::Wait;
use std::thread::{Threads, join};

/// A house in memory.
type MemHouse = House<MemShelf, MapKeeper>;

const PAD: &str = "p";

const TOKEN: &str = "t.1";

const DRAWS: &[u64] = &[10, 11, 12, 13, 14, 15, 16, 17, 18, 19];

const LIMITS: Limits = Limits {
    live: 8,
    logins: 8,
    units: 1_000_000,
    journal: 10_000_000,
    openings: 0,
    pads: 8,
};

/// What a writer ended with.
#[derive(Drop)]
pub enum Wrote {
    /// The revision and the text that it sees.
    Written(u64, String),
    /// The place of this line's edit is past the end of the text.
    Place(u64),
    /// It stopped for another reason.
    Stopped,
}

/// What a session came to, and what another caller reads of its pad then.
pub struct Served {
    /// It ended since the writer was gone.
    pub is_closed: bool,
    pub taken: u64,
    pub cursor: u64,
    pub head: u64,
    /// How many sessions of the pad are live.
    pub live: u64,
    pub text: String,
}

impl Drop for Served {
    fn drop(self) {
        let Served {
            is_closed: _,
            taken: _,
            cursor: _,
            head: _,
            live: _,
            text: _,
        } = self;
    }
}

/// What both came to.
#[derive(Drop)]
pub struct Both {
    pub wrote: Result<Wrote, NoMemory>,
    pub served: Result<Option<Served>, NoMemory>,
}

fn pad_id(alloc: Global) -> Result<Option<PadId>, NoMemory> {
    let name = Units::from_str(alloc, PAD)?;
    PadId::read(alloc, &name)
}

/// What a pass reads of its pad.
fn read_by<R: Wait, P: PadPort>(
    rt: &R,
    alloc: Global,
    pads: &P,
    pass: &mut P::Pass,
    served: &mut Served,
) -> Result<bool, NoMemory>
    requires { P.is_of pads.now pass.old }
{
    let Ok(status) = ep_pad_calls::status(rt, pads, pass) else {
        return Ok(false);
    };
    let Ok(doc) = ep_pad_calls::text(rt, pads, pass, None) else {
        return Ok(false);
    };
    served.head = status.head;
    served.live = status.live;
    let text = doc.text(alloc)?;
    served.text = text.to_text_lossy(alloc)?;
    Ok(true)
}

/// What another caller reads of the pad behind a session.
fn read_pad<R: Wait, P: PadPort>(
    rt: &R,
    alloc: Global,
    pads: &P,
    served: &mut Served,
) -> Result<bool, NoMemory> {
    let Some(pad) = pad_id(alloc)? else {
        return Ok(false);
    };
    let mut hall = pads.hall(rt);
    let Ok(mut pass) = pads.pass(rt, &mut hall, &pad, false) else {
        return Ok(false);
    };
    read_by(rt, alloc, pads, &mut pass, served)
}

/// Serves a side, and reads the pad then.
fn serve_on<R: Wait, P: PadPort, G: DirPort>(
    rt: &R,
    alloc: Global,
    pads: &P,
    dir: &G,
    side: Side,
) -> Result<Option<Served>, NoMemory> {
    let moments = Vec::from_slice(alloc, &[5])?;
    let clock = MemClock::new(moments);
    let mut draws = MemDraws::new(DRAWS);
    let mut link = side;
    let report = serve_session(rt, alloc, pads, dir, &mut link, &clock, &mut draws);
    let mut served = Served {
        is_closed: matches!(report.end, End::Closed),
        taken: report.taken,
        cursor: report.cursor,
        head: 0,
        live: 0,
        text: String::new(alloc),
    };
    if read_pad(rt, alloc, pads, &mut served)? {
        Ok(Some(served))
    } else {
        Ok(None)
    }
}

// The same by a house. That it is both ports is proved of any, and not again of one in memory.
fn serve_at<R: Wait, H: Shelf + Drop, P: PadCalls<H::D>, K: Keeper + Drop>(
    rt: &R,
    alloc: Global,
    house: &HouseOf<H, P, K>,
    side: Side,
) -> Result<Option<Served>, NoMemory> {
    serve_on(rt, alloc, house, house, side)
}

/// Serves a side on an empty house.
fn serve<R: Wait>(rt: &R, alloc: Global, side: Side) -> Result<Option<Served>, NoMemory> {
    let shelf = MemShelf::new(alloc, Vec::new(alloc), Vec::new(alloc))?;
    let keeper = MapKeeper::new(alloc, Vec::new(alloc));
    let house = MemHouse::open(alloc, shelf, keeper, LIMITS)?;
    serve_at(rt, alloc, &house, side)
}

/// Writes a script to the pad on a side.
fn write<R: Wait>(rt: &R, alloc: Global, side: Side, script: &str) -> Result<Wrote, NoMemory> {
    let bytes = Vec::from_slice(alloc, script.as_bytes())?;
    let mut source = MemSource::new(bytes, Vec::new(alloc));
    let pad = Units::from_str(alloc, PAD)?;
    let token = Units::from_str(alloc, TOKEN)?;
    let mut link = side;
    match write_session(rt, alloc, &mut link, &mut source, &pad, &token) {
        Ok(written) => {
            let text = written.text.to_text_lossy(alloc)?;
            Ok(Wrote::Written(written.rev, text))
        }
        Err(PeerBad::Script(line, Reason::Place)) => Ok(Wrote::Place(line)),
        Err(_) => Ok(Wrote::Stopped),
    }
}

/// A writer of a script, and its session.
pub fn talk<R: Threads + Wait + Sync>(
    rt: &R,
    alloc: Global,
    script: &str,
) -> Result<Both, NoMemory> {
    let (here, there) = connection(alloc)?;
    let (served, wrote) = join(
        rt,
        move || serve(rt, alloc, there),
        move || write(rt, alloc, here, script),
    );
    Ok(Both { wrote, served })
}
