//! Servers with callers.

mod doors;
mod wire;

use doors::{Api, Caller, Callers};
use ep_disk_mem::{MemClock, MemDraws, MemShelf};
use ep_doors::{Host, Job, MemSpawner, Served, Spawner, ThreadSpawner, serve, start_all};
use ep_keep::MapKeeper;
use ep_outside::{Keeper, Limits, Shelf};
use ep_pad_port::{House, HouseOf, PadCalls};
use ep_serve::{Server, Serving};
use ep_units::NoMemory;
use std::alloc::Global;
use std::collections::VecDeque;
use std::sync::atomic::{AtomicBool, Ordering};
use std::sync::{Arc, Wait};
use std::test::Fail;
use std::thread::join;
use wire::{Bell, Wire, WireLink};

const TYPED: &str =
    "{\"data\":{\"apool\":{\"nextNum\":0,\"numToAttrib\":{}},\"baseRev\":0,\"changeset\":\"Z:1>1+1$!\",\"type\":\"USER_CHANGES\"},\"type\":\"COLLABROOM\"}";

const REQUEST: &[u8] = b"GET /api/1/createPad?apikey=k&padID=p HTTP/1.1\r\n\r\n";

const DRAWS: &[u64] = &[1, 2, 3, 4, 5, 6, 7, 8, 9, 10];

const LIMITS: Limits = Limits {
    live: 64,
    logins: 64,
    units: 1_000,
    journal: 10_000,
    openings: 0,
    pads: 8,
};

type MemHouse = House<MemShelf, MapKeeper>;

/// What is done for a caller of a server in memory.
struct MemJob {
    work: Serving<MemHouse, WireLink, Api, MemClock, MemDraws<'static>>,
}

impl Drop for MemJob {
    fn drop(self) {
        let MemJob { work: _ } = self;
    }
}

// What is done by a house, and by a server of one. That a house is both ports is proved of any, and not again of one in
// memory.
fn go_at<R: Wait, H: Shelf + Drop, P: PadCalls<H::D> + Drop, K: Keeper + Drop>(
    rt: &R,
    work: WorkOf<H, P, K>,
) {
    work.go(rt);
}

impl Job for MemJob {
    fn go<R: Wait>(self, rt: &R) {
        let MemJob { work } = self;
        go_at(rt, work);
    }
}

/// A server in memory.
struct MemServer {
    server: Server<MemHouse, Bell, MemClock, MemDraws<'static>>,
}

impl Drop for MemServer {
    fn drop(self) {
        let MemServer { server: _ } = self;
    }
}

type ServerOf<H, P, K> = Server<HouseOf<H, P, K>, Bell, MemClock, MemDraws<'static>>;

type WorkOf<H, P, K> = Serving<HouseOf<H, P, K>, WireLink, Api, MemClock, MemDraws<'static>>;

fn pad_at<H: Shelf + Drop, P: PadCalls<H::D> + Drop, K: Keeper + Drop>(
    server: &mut ServerOf<H, P, K>,
    link: WireLink,
) -> Result<WorkOf<H, P, K>, NoMemory> {
    server.pad(link)
}

fn api_at<H: Shelf + Drop, P: PadCalls<H::D> + Drop, K: Keeper + Drop>(
    server: &mut ServerOf<H, P, K>,
    caller: Api,
) -> Result<WorkOf<H, P, K>, NoMemory> {
    server.api(caller)
}

impl Host<WireLink, Api> for MemServer {
    type Work = MemJob;

    fn pad(&mut self, link: WireLink) -> Result<MemJob, NoMemory> {
        Ok(MemJob {
            work: pad_at(&mut self.server, link)?,
        })
    }

    fn api(&mut self, caller: Api) -> Result<MemJob, NoMemory> {
        Ok(MemJob {
            work: api_at(&mut self.server, caller)?,
        })
    }
}

fn house(alloc: Global) -> Result<MemHouse, NoMemory> {
    let shelf = MemShelf::new(alloc, Vec::new(alloc), Vec::new(alloc))?;
    let keeper = MapKeeper::new(alloc, Vec::new(alloc));
    Ok(House::open(alloc, shelf, keeper, LIMITS)?)
}

fn server(alloc: Global) -> Result<MemServer, NoMemory> {
    let key = String::from_str(alloc, "k")?;
    let clock = MemClock::new(Vec::from_slice(alloc, &[5])?);
    let server = Server::new(alloc, house(alloc)?, clock, MemDraws::new(DRAWS), key)?;
    Ok(MemServer { server })
}

/// The first message of somebody.
fn ready(alloc: Global, number: usize) -> Result<String, NoMemory> {
    Ok(format!(in alloc; "{{\"padId\":\"p\",\"token\":\"t.{number}\",\"type\":\"CLIENT_READY\"}}")?)
}

/// So many wires.
fn wires(alloc: Global, count: usize) -> Result<Vec<Arc<Wire>>, NoMemory> {
    let mut wires = Vec::with_capacity(alloc, count)?;
    for _ in 0..count {
        wires.push(Arc::new(alloc, Wire::new(alloc))?)?;
    }
    Ok(wires)
}

/// Callers of pads.
fn callers(alloc: Global, wires: &[Arc<Wire>]) -> Result<VecDeque<Caller>, NoMemory> {
    let mut coming = VecDeque::new(alloc);
    for wire in wires {
        coming.push_back(Caller::Pad(Arc::try_clone(wire)?))?;
    }
    Ok(coming)
}

/// Callers of pads, and one of the API.
fn all_callers(
    alloc: Global,
    wires: &[Arc<Wire>],
    good: &Arc<AtomicBool>,
) -> Result<VecDeque<Caller>, NoMemory> {
    let mut coming = callers(alloc, wires)?;
    let request = Vec::from_slice(alloc, REQUEST)?;
    coming.push_back(Caller::Api(request, Arc::try_clone(good)?))?;
    Ok(coming)
}

/// Serves these callers.
fn serve_all<R: Wait, S: Spawner<MemJob>>(
    rt: &R,
    alloc: Global,
    coming: VecDeque<Caller>,
    spawner: &mut S,
) -> Result<Served, NoMemory> {
    let mut server = server(alloc)?;
    let mut doors = Callers::new(alloc, coming);
    Ok(serve(rt, &mut doors, &mut server, spawner))
}

/// Serves these wires and a caller of the API, one behind the other.
fn serve_each<R: Wait>(
    rt: &R,
    alloc: Global,
    wires: &[Arc<Wire>],
    good: &Arc<AtomicBool>,
) -> Result<Served, NoMemory> {
    let coming = all_callers(alloc, wires, good)?;
    serve_all(rt, alloc, coming, &mut MemSpawner::new(Vec::new(alloc)))
}

/// Everybody says who it is, and goes.
fn come_and_go<R: Wait>(rt: &R, alloc: Global, wires: &[Arc<Wire>]) -> Result<(), NoMemory> {
    for (number, wire) in wires.iter().enumerate() {
        wire.say(rt, alloc, &ready(alloc, number)?)?;
        wire.close(rt)?;
    }
    Ok(())
}

#[test]
fn each_connection_has_its_job(rt: HostRuntime) -> Result<(), Fail> {
    let alloc = rt.alloc();
    let wires = wires(alloc, 3)?;
    come_and_go(&rt, alloc, &wires)?;
    let good = Arc::new(alloc, AtomicBool::new(false))?;
    let served = serve_each(&rt, alloc, &wires, &good)?;
    assert_eq!(&rt; served, Served::Ended);
    for wire in &wires {
        assert_eq!(&rt; wire.heard(&rt, "CLIENT_VARS"), 1);
    }
    assert!(&rt; good.load(Ordering::SeqCst));
    Ok(())
}

/// Somebody comes in, and its session waits.
fn enter<R: Wait>(rt: &R, alloc: Global, wire: &Wire, number: usize) -> Result<bool, NoMemory> {
    wire.say(rt, alloc, &ready(alloc, number)?)?;
    Ok(wire.waits_for(rt, "CLIENT_VARS").is_some() && wire.is_quiet())
}

/// The first types: it hears that, and each other hears it in the turn that its one ring began.
fn type_first<R: Wait>(rt: &R, alloc: Global, wires: &[Arc<Wire>]) -> Result<bool, NoMemory> {
    let Some((first, others)) = wires.split_first() else {
        return Ok(false);
    };
    first.say(rt, alloc, TYPED)?;
    let mut heard = first.waits_for(rt, "ACCEPT_COMMIT") == Some(0);
    for other in others {
        heard &= other.waits_for(rt, "NEW_CHANGES") == Some(1);
    }
    Ok(heard)
}

/// All come in, the first types, and all go.
fn talk<R: Wait>(rt: &R, alloc: Global, wires: &[Arc<Wire>]) -> Result<bool, NoMemory> {
    let mut heard = true;
    for (number, wire) in wires.iter().enumerate() {
        heard &= enter(rt, alloc, wire, number)?;
    }
    heard &= type_first(rt, alloc, wires)?;
    for wire in wires {
        wire.close(rt)?;
    }
    Ok(heard)
}

/// Serves these wires by threads that the spawner asks for.
fn serve_by_threads<R: Wait>(
    rt: &R,
    alloc: Global,
    spawner: ThreadSpawner<MemJob>,
    wires: &[Arc<Wire>],
) -> Result<Served, NoMemory> {
    let mut spawner = spawner;
    let coming = callers(alloc, wires)?;
    serve_all(rt, alloc, coming, &mut spawner)
}

/// The same, and then they talk: how the serving ended, and whether all was heard.
fn serve_talk<R: Wait>(
    rt: &R,
    alloc: Global,
    spawner: ThreadSpawner<MemJob>,
    wires: &[Arc<Wire>],
) -> Result<(Served, bool), NoMemory> {
    let served = serve_by_threads(rt, alloc, spawner, wires)?;
    Ok((served, talk(rt, alloc, wires)?))
}

/// Sixteen sessions of one pad, each in its thread. A receive gives nothing only where its link was rung.
#[test]
fn others_hear_in_the_turn_of_a_ring(rt: HostRuntime) -> Result<(), Fail> {
    let alloc = rt.alloc();
    let wires = wires(alloc, 16)?;
    let (spawner, starter) = ThreadSpawner::new(alloc)?;
    let (talked, ()) = join(
        &rt,
        move || serve_talk(&rt, alloc, spawner, &wires),
        || start_all(&rt, starter),
    );
    let (served, heard) = talked?;
    assert_eq!(&rt; served, Served::Ended);
    assert!(&rt; heard);
    Ok(())
}
