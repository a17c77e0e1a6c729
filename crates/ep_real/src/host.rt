//! Who does what is done for a caller.

ghost use Rattle.std.specs.Prelude.{◌≡◌, IfOk};
ghost use Rattle.ep_pad_port.specs.House.{limits_of};
ghost use Rattle.ep_real.specs.Limits.{server_limits};

use crate::keeping::RealKeeper;
use crate::opened::Opened;
use crate::shelf::RealShelf;
use ep_doors::{Host, Job};
use ep_edge::{SysClock, SysDraws};
use ep_net::{ApiStream, WakeEar, WsLink};
use ep_outside::{Keeper, Limits, Shelf};
use ep_pad_port::{House, HouseOf, PadCalls};
use ep_serve::{Server, Serving};
use ep_units::NoMemory;
use std::alloc::Global;
use std::net::Net;
use std::random::RandomSource;
use std::sync::Wait;
use std::time::Clock;

/// What the pads of a server are held to.
const LIMITS: Limits = Limits {
    live: 500,
    logins: 1_000_000,
    units: 1_000_000,
    journal: 268_369_920,
    openings: 65_536,
    pads: 10_000,
};

/// The pads of a folder, and their directory, whose database another thread has.
type RealHouse<R> = House<RealShelf, RealKeeper<R>>;

/// What `ep_serve` does for a caller of a house, and the server of one.
type WorkOf<R, H, P, K> = Serving<
    HouseOf<H, P, K>,
    WsLink<R>,
    ApiStream<R>,
    SysClock<R>,
    SysDraws<R>,
>;

type ServerOf<R, H, P, K> = Server<HouseOf<H, P, K>, WakeEar, SysClock<R>, SysDraws<R>>;

/// What is done for a caller of a folder's pads.
type RealWork<R> = Serving<RealHouse<R>, WsLink<R>, ApiStream<R>, SysClock<R>, SysDraws<R>>;

/// What is done for a caller. Its type says nothing of the house, so that those that stand on it are short.
pub struct RealJob<R: Wait + Net + RandomSource + Clock + Copy + Drop> {
    work: RealWork<R>,
}

impl<R: Wait + Net + RandomSource + Clock + Copy + Drop> Drop for RealJob<R> {
    fn drop(self) {
        let RealJob { work: _ } = self;
    }
}

// What is done by a house, and by a server of one. That a house is both ports is proved of any, and not again of a folder's.
fn go_at<W: Wait, R, H: Shelf + Drop, P: PadCalls<H::D> + Drop, K: Keeper + Drop>(
    rt: &W,
    work: WorkOf<R, H, P, K>,
)
where
    R: Wait + Net + RandomSource + Clock + Copy + Drop,
{
    work.go(rt);
}

fn pad_at<R, H: Shelf + Drop, P: PadCalls<H::D> + Drop, K: Keeper + Drop>(
    server: &mut ServerOf<R, H, P, K>,
    link: WsLink<R>,
) -> Result<WorkOf<R, H, P, K>, NoMemory>
where
    R: Wait + Net + RandomSource + Clock + Copy + Drop,
{
    server.pad(link)
}

fn api_at<R, H: Shelf + Drop, P: PadCalls<H::D> + Drop, K: Keeper + Drop>(
    server: &mut ServerOf<R, H, P, K>,
    caller: ApiStream<R>,
) -> Result<WorkOf<R, H, P, K>, NoMemory>
where
    R: Wait + Net + RandomSource + Clock + Copy + Drop,
{
    server.api(caller)
}

impl<R: Wait + Net + RandomSource + Clock + Copy + Drop> Job for RealJob<R> {
    fn go<W: Wait>(self, rt: &W) {
        let RealJob { work } = self;
        go_at(rt, work);
    }
}

/// The server over a folder's pads.
#[derive(Drop)]
pub struct RealServer<R: Wait + Net + RandomSource + Clock + Copy + Drop> {
    server: Server<RealHouse<R>, WakeEar, SysClock<R>, SysDraws<R>>,
}

/// The house of a folder's pads, held to the limits of a server.
fn house_over<R: Wait + Drop>(
    alloc: Global,
    pads: RealShelf,
    keeper: RealKeeper<R>,
) -> Result<RealHouse<R>, NoMemory>
    ensures limits { IfOk result (λ house. limits_of house ≡ server_limits) }
{
    House::open(alloc, pads, keeper, LIMITS)
}

impl<R: Wait + Net + RandomSource + Clock + Copy + Drop> RealServer<R> {
    /// The server of what was opened.
    pub fn new(
        rt: R,
        alloc: Global,
        opened: Opened,
        keeper: RealKeeper<R>,
    ) -> Result<RealServer<R>, NoMemory> {
        let Opened { pads, key } = opened;
        let house = house_over(alloc, pads, keeper)?;
        let server = Server::new(alloc, house, SysClock::new(rt), SysDraws::new(rt), key)?;
        Ok(RealServer { server })
    }
}

impl<R: Wait + Net + RandomSource + Clock + Copy + Drop> Host<WsLink<R>, ApiStream<R>>
    for RealServer<R> {
    type Work = RealJob<R>;

    fn pad(&mut self, link: WsLink<R>) -> Result<RealJob<R>, NoMemory> {
        Ok(RealJob {
            work: pad_at(&mut self.server, link)?,
        })
    }

    fn api(&mut self, caller: ApiStream<R>) -> Result<RealJob<R>, NoMemory> {
        Ok(RealJob {
            work: api_at(&mut self.server, caller)?,
        })
    }
}
