//! Doors within the test.

ghost use Rattle.std.specs.Prelude.{◌≡◌, false, true, refl, None, IfOk};

use ep_doors::{Came, Doors, Host, Job};
use ep_link::{Coming, LinkBad, MemLink};
use ep_outside::{Device, Failed, Got, Sink, Source, Text};
use ep_units::NoMemory;
use std::alloc::Global;
use std::collections::VecDeque;
use std::sync::Wait;

/// Nothing to do.
#[derive(Drop)]
pub struct Idle;

impl Job for Idle {
    fn go<R: Wait>(self, _rt: &R) {}
}

/// A host who does nothing.
#[derive(Drop)]
pub struct Absent;

impl<P: Drop, A: Drop> Host<P, A> for Absent {
    type Work = Idle;

    fn pad(&mut self, _link: P) -> Result<Idle, NoMemory> {
        Ok(Idle)
    }

    fn api(&mut self, _caller: A) -> Result<Idle, NoMemory> {
        Ok(Idle)
    }
}

/// A caller of the API who asks nothing.
#[derive(Drop)]
pub struct Silent;

impl Device for Silent {
    ghost failures = { λ _. 0 };

    ghost is_steady = { λ _. true };

    ghost never_fails = { λ _ _. refl };

    fn faults(&self) -> u64 {
        0
    }
}

impl Source for Silent {
    ghost left = { λ _. None };

    fn read(&mut self, _room: &mut [u8]) -> Got {
        Got::End
    }
}

impl Sink for Silent {
    ghost held = { λ _. None };

    fn write(&mut self, _bytes: &[u8]) -> Result<(), Failed> {
        Ok(())
    }
}

/// Doors to which nobody comes; a server behind the way out tells this.
#[derive(Drop)]
pub struct Quiet<'a> {
    pub alloc: Global,
    /// A message a line.
    pub told: &'a str,
}

impl<'a> Quiet<'a> {
    fn link(&self) -> Result<MemLink, NoMemory>
        ensures { IfOk result (λ l. ⟦<MemLink as Device>⟧.failures l ≡ 0) }
    {
        let mut coming = VecDeque::new(self.alloc);
        for text in self.told.lines() {
            coming.push_back(Coming::Message(Text::from_str(self.alloc, text)?))?;
        }
        Ok(MemLink::new(self.alloc, coming, Vec::new(self.alloc)))
    }
}

impl<'a> Device for Quiet<'a> {
    ghost failures = { λ _. 0 };

    ghost is_steady = { λ _. false };

    ghost never_fails = { λ _ _. refl };

    fn faults(&self) -> u64 {
        0
    }
}

impl<'a> Doors for Quiet<'a> {
    type Pad = MemLink;

    type Api = Silent;

    ghost count = { λ _. 0 };

    ghost is_over = { λ _. Unit {0} };

    fn given(&self) -> u64 {
        0
    }

    fn accept<R: Wait>(&mut self, _rt: &R) -> Came<MemLink, Silent> {
        Came::End
    }

    fn connect<R: Wait>(&mut self, _rt: &R) -> Result<MemLink, LinkBad> {
        let Ok(link) = self.link() else {
            return Err(LinkBad::NoMemory);
        };
        Ok(link)
    }
}
