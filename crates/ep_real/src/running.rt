//! All that the program does, over the real devices.

ghost use Rattle.std.specs.Prelude.{map, Contains, IfOk};
ghost use Rattle.std.specs.String.{string_bytes};
ghost use Rattle.ep_words.specs.Lines.{line_in};
ghost use Rattle.ep_run.specs.Run.{statuses};

use crate::begun::{Begun, begin};
use crate::doors::RealDoors;
use crate::host::{RealJob, RealServer};
use crate::missing::Missing;
use crate::opened::judged_at;
use crate::spoken::spoken_by;
use ep_doors::ThreadSpawner;
use ep_edge::{StdSink, StdSource};
use ep_run::{Status, run};
use ep_shown::ShownShelf;
use std::fs::{File, Files};
use std::io;
use std::io::{Eprint, Input, Print};
use std::net::Net;
use std::random::RandomSource;
use std::sync::Wait;
use std::thread::Threads;
use std::time::Clock;

/// Runs the program over the real devices, this host and this spawner.
fn run_over<R>(
    rt: R,
    is_watched: bool,
    words: &[String],
    mut host: RealServer<R>,
    mut spawner: ThreadSpawner<RealJob<R>>,
    doors: &mut RealDoors<R>,
) -> Result<Status, Missing>
where
    R: Wait
        + Threads
        + Net
        + RandomSource
        + Clock
        + Input
        + Print
        + Eprint
        + AllocGlobal
        + Files<File = File>
        + Copy
        + Drop,
    ensures { IfOk result (λ status. Contains (statuses (line_in (map string_bytes words.now))) status.code) }
{
    let alloc = rt.alloc();
    let mut source = StdSource::new(rt.reader());
    let mut sink = StdSink::new(io::writer(&rt));
    let judged = judged_at(&rt, spoken_by(alloc, words)?.judged)?;
    let mut shelf = ShownShelf::new(judged, rt, is_watched);
    Ok(run(
        &rt,
        alloc,
        words,
        &mut source,
        &mut sink,
        &mut shelf,
        doors,
        &mut host,
        &mut spawner,
    ))
}

/// Runs the program over what was begun, and over doors. Where a person watches standard error, it shows there how far
/// long work is. Who starts the threads of callers works beside it.
pub fn run_begun<R>(
    rt: R,
    is_watched: bool,
    words: &[String],
    begun: Begun<R>,
    doors: &mut RealDoors<R>,
) -> Result<Status, Missing>
where
    R: Wait
        + Threads
        + Net
        + RandomSource
        + Clock
        + Input
        + Print
        + Eprint
        + AllocGlobal
        + Files<File = File>
        + Copy
        + Drop,
    ensures { IfOk result (λ status. Contains (statuses (line_in (map string_bytes words.now))) status.code) }
{
    let Begun {
        opened,
        keeper,
        spawner,
    } = begun;
    let host = RealServer::new(rt, rt.alloc(), opened, keeper)?;
    run_over(rt, is_watched, words, host, spawner, doors)
}

/// Runs the program over words that serve nobody: no callers' threads are started.
pub fn run_words<R>(
    rt: R,
    files: HostRuntime,
    is_watched: bool,
    words: &[String],
) -> Result<Status, Missing>
where
    R: Wait
        + Threads
        + Net
        + RandomSource
        + Clock
        + Input
        + Print
        + Eprint
        + AllocGlobal
        + Files<File = File>
        + Copy
        + Send
        + Drop
        + 'static,
    ensures { IfOk result (λ status. Contains (statuses (line_in (map string_bytes words.now))) status.code) }
{
    let (begun, _beside) = begin(rt, files, words)?;
    let mut doors = RealDoors::by(rt, words)?;
    run_begun(rt, is_watched, words, begun, &mut doors)
}
