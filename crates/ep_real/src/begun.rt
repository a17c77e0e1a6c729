//! What stands before the devices are used.

use crate::host::RealJob;
use crate::keeping::{RealKeeper, kept_afar};
use crate::missing::Missing;
use crate::opened::Opened;
use crate::spoken::spoken_by;
use ep_doors::{Starter, ThreadSpawner};
use std::net::Net;
use std::random::RandomSource;
use std::sync::Wait;
use std::thread::{JoinHandle, Threads};
use std::time::Clock;

/// What the words speak of, opened but for the doors.
#[derive(Drop)]
pub struct Begun<R: Wait + Net + RandomSource + Clock + Copy + Drop> {
    pub(crate) opened: Opened,
    pub(crate) keeper: RealKeeper<R>,
    pub(crate) spawner: ThreadSpawner<RealJob<R>>,
}

/// What is to be done beside what was begun.
#[derive(Drop)]
pub struct Beside<R: Wait + Net + RandomSource + Clock + Copy + Drop> {
    /// Who starts the threads of callers, in a thread of its own. It ends once what was begun is gone.
    pub starter: Starter<RealJob<R>>,
    /// The thread that has the database. It ends once all that was begun is gone, and the jobs that it started.
    pub database: JoinHandle<()>,
}

/// Opens what the words speak of.
pub fn begin<R: Threads + Wait + Net + RandomSource + Clock + Copy + Send + Drop + 'static>(
    rt: R,
    files: HostRuntime,
    words: &[String],
) -> Result<(Begun<R>, Beside<R>), Missing> {
    let spoken = spoken_by(files.alloc(), words)?;
    let (spawner, starter) = ThreadSpawner::new(files.alloc())?;
    let opened = Opened::by(&files, &spoken)?;
    let (keeper, database) = kept_afar(rt, files, spoken.folder, spoken.serves)?;
    let begun = Begun {
        opened,
        keeper,
        spawner,
    };
    Ok((begun, Beside { starter, database }))
}
