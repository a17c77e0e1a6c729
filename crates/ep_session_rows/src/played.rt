//! A link on which other callers act between the receives.

ghost use Rattle.std.specs.Prelude.{◌≡◌};
ghost use Rattle.ep_disk_mem.specs.Faults.{none_failed};

use crate::called::Ports;
use ep_link::{Link, LinkBad, LinkGot, MemLink, NoEar};
use ep_outside::Device;
use serde_json::Value;
use std::sync::Wait;

/// A link in memory; the calls of others are made before the receive that they stand before.
#[derive(Drop)]
pub struct Played<'a> {
    pub link: MemLink,
    pub ports: &'a Ports,
    /// What is to come, calls among receives.
    pub steps: &'a [Value],
}

impl Played<'_> {
    // Makes the calls up to the next receive, which is passed over.
    fn make_calls<R: Wait>(&mut self, rt: &R)
        ensures { self.new.link ≡ self.old.link }
    {
        let steps = self.steps;
        let calls = steps
            .iter()
            .take_while(|step| step.get("call").is_some())
            .count();
        for step in steps.iter().take(calls) {
            drop(self.ports.call(rt, step));
        }
        self.steps = steps.get(calls.saturating_add(1)..).unwrap_or(&[]);
    }
}

impl Device for Played<'_> {
    ghost failures = { λ l. ⟦<MemLink as Device>⟧.failures l.link };

    ghost is_steady = { λ l. ⟦<MemLink as Device>⟧.is_steady l.link };

    ghost plan = { λ l. ⟦<MemLink as Device>⟧.plan l.link };

    ghost never_fails = { λ l steady. none_failed l.link.faults steady };

    fn faults(&self) -> u64 {
        self.link.faults()
    }
}

impl Link for Played<'_> {
    type Ear = NoEar;

    ghost traffic = { λ l. ⟦<MemLink as Link>⟧.traffic l.link };

    fn recv<R: Wait>(&mut self, rt: &R) -> LinkGot {
        self.make_calls(rt);
        self.link.recv(rt)
    }

    fn send<R: Wait>(&mut self, rt: &R, text: &str) -> Result<(), LinkBad> {
        self.link.send(rt, text)
    }

    fn ear(&self) -> Option<NoEar> {
        self.link.ear()
    }
}
