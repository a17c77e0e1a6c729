//! The doors that the words speak of.

ghost use Rattle.std.specs.Prelude.{◌≡◌, None, IfOk};

use crate::missing::Missing;
use crate::spoken::{Spoken, spoken_by};
use ep_doors::{Came, Doors};
use ep_link::LinkBad;
use ep_net::{ApiStream, Bounds, TcpDoors, WsLink, connections_under};
use ep_outside::Device;
use std::fs;
use std::fs::{File, Files};
use std::net::{Net, SocketAddr};
use std::random::RandomSource;
use std::sync::Wait;
use std::time::Clock;

// Where the system tells what a process may have.
const LIMITS_OF_PROCESS: &str = "/proc/self/limits";

/// Doors over sockets, or the way to a server's. Any number of callers may come, or just so many: then nobody comes any
/// more, as who tries a server may want.
pub struct RealDoors<R> {
    doors: TcpDoors<R>,
    // how many may come yet; none where it is any number
    left: Option<u64>,
}

impl<R: Drop> Drop for RealDoors<R> {
    fn drop(self) {
        let RealDoors { doors: _, left: _ } = self;
    }
}

// Connections are as many as the process has room for.
fn opened<R: Files<File = File> + Net + RandomSource + Clock + AllocGlobal + Copy + Drop>(
    rt: R,
    spoken: &Spoken<'_>,
) -> Result<TcpDoors<R>, Missing>
    ensures faultless { IfOk result (λ d. ⟦<TcpDoors<R> as Device>⟧.failures d ≡ 0) }
    ensures fresh { IfOk result (λ d. ⟦<TcpDoors<R> as Doors>⟧.count d ≡ 0) }
{
    let alloc = rt.alloc();
    if !spoken.server.is_empty() {
        return Ok(TcpDoors::calling(rt, alloc, spoken.server)?);
    }
    let limits = fs::read_to_string(&rt, LIMITS_OF_PROCESS).unwrap_or(String::new(alloc));
    let bounds = Bounds::of_connections(connections_under(limits.as_str()));
    let doors = TcpDoors::open(rt, alloc, spoken.pads, spoken.api, bounds)?;
    if spoken.serves && doors.pads_address().is_none() {
        return Err(Missing::Address);
    }
    Ok(doors)
}

impl<R: Files<File = File> + Net + RandomSource + Clock + AllocGlobal + Copy + Drop> RealDoors<R> {
    /// The doors that the words speak of, or the way to them. Nobody has come yet, and any number may.
    pub fn by(rt: R, words: &[String]) -> Result<RealDoors<R>, Missing>
        ensures faultless { IfOk result (λ d. ⟦<RealDoors<R> as Device>⟧.failures d ≡ 0) }
        ensures fresh { IfOk result (λ d. ⟦<RealDoors<R> as Doors>⟧.count d ≡ 0) }
        ensures endless { IfOk result (λ d. d.left ≡ None) }
    {
        let spoken = spoken_by(rt.alloc(), words)?;
        Ok(RealDoors {
            doors: opened(rt, &spoken)?,
            left: None,
        })
    }
}

impl<R> RealDoors<R> {
    /// So many more may come.
    pub fn end_after(&mut self, callers: u64)
        ensures left { self.new.left ≡ Some callers }
        ensures same { self.new.doors ≡ self.old.doors }
    {
        self.left = Some(callers);
    }

    /// The addresses at which callers of pads come, and those of the API; none where they are not to be had.
    pub fn addresses(&self) -> Option<(SocketAddr, SocketAddr)> {
        Some((self.doors.pads_address()?, self.doors.api_address()?))
    }
}

impl<R> Device for RealDoors<R> {
    ghost use Rattle.std.specs.Prelude.{false};
    ghost use Rattle.std.proofs.Common.{true≢false, sym};

    ghost failures = { λ d. ⟦<TcpDoors<R> as Device>⟧.failures d.doors };

    ghost is_steady = { λ _. false };

    ghost never_fails = { λ _ steady. absurd (true≢false (sym steady)) };

    fn faults(&self) -> u64 {
        self.doors.faults()
    }
}

impl<R: Net + RandomSource + Clock + Copy + Drop> Doors for RealDoors<R> {
    ghost use Rattle.std.specs.Prelude.{◌≡◌, Some};

    type Pad = WsLink<R>;

    type Api = ApiStream<R>;

    ghost count = { λ d. ⟦<TcpDoors<R> as Doors>⟧.count d.doors };

    ghost is_over = { λ d. d.left ≡ Some 0 };

    fn given(&self) -> u64 {
        self.doors.given()
    }

    fn accept<W: Wait>(&mut self, rt: &W) -> Came<WsLink<R>, ApiStream<R>> {
        if let Some(0) = self.left {
            return Came::End;
        }
        let came = self.doors.accept(rt);
        if matches!(came, Came::Pad(_) | Came::Api(_)) {
            self.left = one_less(self.left);
        }
        came
    }

    fn connect<W: Wait>(&mut self, rt: &W) -> Result<WsLink<R>, LinkBad> {
        self.doors.connect(rt)
    }
}

fn one_less(left: Option<u64>) -> Option<u64> {
    match left {
        None => None,
        Some(left) => Some(left.saturating_sub(1)),
    }
}
