//! Doors within the test.

ghost use Rattle.std.specs.Prelude.{◌≡◌, ◌<◌, [], length, true, refl, None};
ghost use Rattle.ep_disk_mem.specs.Faults.{none_failed};

use crate::serve::wire::{Wire, WireLink};
use ep_disk_mem::MemSource;
use ep_doors::{Came, Doors};
use ep_link::LinkBad;
use ep_outside::{Device, Failed, Got, Sink, Source};
use std::alloc::Global;
use std::collections::VecDeque;
use std::sync::atomic::{AtomicBool, Ordering};
use std::sync::{Arc, Wait};

/// A caller of the API, who marks whether what it hears begins as a good reply does.
pub struct Api {
    request: MemSource,
    good: Arc<AtomicBool>,
}

impl Drop for Api {
    fn drop(self) {
        let Api {
            request: _,
            good: _,
        } = self;
    }
}

impl Device for Api {
    ghost failures = { λ a. ⟦<MemSource as Device>⟧.failures a.request };

    ghost is_steady = { λ a. ⟦<MemSource as Device>⟧.is_steady a.request };

    ghost never_fails = { λ a steady. none_failed a.request.faults steady };

    fn faults(&self) -> u64 {
        self.request.faults()
    }
}

impl Source for Api {
    ghost left = { λ a. ⟦<MemSource as Source>⟧.left a.request };

    fn read(&mut self, room: &mut [u8]) -> Got {
        self.request.read(room)
    }
}

impl Sink for Api {
    ghost held = { λ _. None };

    fn write(&mut self, bytes: &[u8]) -> Result<(), Failed> {
        if bytes.starts_with(b"HTTP/1.1 200 OK\r\n") {
            self.good.store(true, Ordering::SeqCst);
        }
        Ok(())
    }
}

/// Who comes to the doors.
#[derive(Drop)]
pub enum Caller {
    Pad(Arc<Wire>),
    Api(Vec<u8>, Arc<AtomicBool>),
}

/// Doors to which these come, and then nobody.
pub struct Callers {
    alloc: Global,
    coming: VecDeque<Caller>,
    given: u64,
}

impl Drop for Callers {
    fn drop(self) {
        let Callers {
            alloc: _,
            coming: _,
            given: _,
        } = self;
    }
}

impl Callers {
    pub fn new(alloc: Global, coming: VecDeque<Caller>) -> Callers {
        Callers {
            alloc,
            coming,
            given: 0,
        }
    }
}

impl Device for Callers {
    ghost failures = { λ _. 0 };

    ghost is_steady = { λ _. true };

    ghost never_fails = { λ _ _. refl };

    fn faults(&self) -> u64 {
        0
    }
}

impl Doors for Callers {
    type Pad = WireLink;

    type Api = Api;

    ghost count = { λ d. d.given };

    ghost is_over = { λ d. d.coming.items ≡ [] };

    fn given(&self) -> u64 {
        self.given
    }

    fn accept<R: Wait>(&mut self, _rt: &R) -> Came<WireLink, Api> {
        let Some(caller) = self.coming.pop_front() else {
            return Came::End;
        };
        self.given = self.given.saturating_add(1);
        match caller {
            Caller::Pad(wire) => Came::Pad(WireLink::new(self.alloc, wire)),
            Caller::Api(request, good) => Came::Api(Api {
                request: MemSource::new(request, Vec::new(self.alloc)),
                good,
            }),
        }
    }

    fn connect<R: Wait>(&mut self, _rt: &R) -> Result<WireLink, LinkBad> {
        Err(LinkBad::NoMemory)
    }
}
