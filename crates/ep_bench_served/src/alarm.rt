//! What ends the wait of a link.

use ep_link::Ear;
use ep_units::NoMemory;
use std::alloc::Global;
use std::sync::{Arc, Wait};
use std::thread::Parker;
use std::time::Duration;

/// How long a wait is at most, as over a real link.
const WAIT_MS: u64 = 20;

/// A wait that a ring ends.
#[derive(Drop)]
pub struct Alarm {
    parker: Arc<Parker>,
}

impl Alarm {
    pub fn new(alloc: Global) -> Result<Alarm, NoMemory> {
        Ok(Alarm {
            parker: Arc::new(alloc, Parker::new())?,
        })
    }

    /// Waits a while, or until a ring. One that rang since the last wait ends it at once.
    pub fn wait<R: Wait>(&self, rt: &R) {
        self.parker.park_timeout(rt, Duration::from_millis(WAIT_MS));
    }

    /// What rings it.
    pub fn ear(&self) -> Result<AlarmEar, NoMemory> {
        Ok(AlarmEar {
            parker: Arc::try_clone(&self.parker)?,
        })
    }
}

/// Rings an alarm.
#[derive(Drop)]
pub struct AlarmEar {
    parker: Arc<Parker>,
}

impl Ear for AlarmEar {
    fn ring(&self) -> bool {
        self.parker.unpark();
        true
    }
}
