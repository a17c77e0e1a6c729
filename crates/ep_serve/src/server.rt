//! What all callers of a server share.

ghost use Rattle.std.specs.Prelude.{◌≡◌, IfOk};
ghost use Rattle.std.specs.Arc.{arc_value};
ghost use Rattle.ep_serve.specs.Server.{IfApi, IfPad};

use crate::work::{Asking, Serving, Sitting, Work};
use ep_doors::Host;
use ep_groups::DirPort;
use ep_link::{Ear, Link};
use ep_outside::{Clock, Draws, Sink, Source};
use ep_pad::PadPort;
use ep_ring::{Bells, Ringing};
use ep_units::NoMemory;
use std::alloc::Global;
use std::sync::Arc;

/// Pads and a directory with the pads' bells, a clock, draws of which each caller gets its own, and the key of the API.
pub struct Server<P: Drop, E: Ear, C: Drop, D: Drop> {
    alloc: Global,
    port: Arc<P>,
    bells: Arc<Bells<E>>,
    clock: Arc<C>,
    draws: D,
    key: Arc<String>,
}

impl<P: Drop, E: Ear + Drop, C: Drop, D: Drop> Drop for Server<P, E, C, D> {
    fn drop(self) {
        let Server {
            alloc: _,
            port: _,
            bells: _,
            clock: _,
            draws: _,
            key: _,
        } = self;
    }
}

impl<P: Drop, E: Ear, C: Drop, D: Drop> Server<P, E, C, D> {
    /// A server of these pads and this directory.
    pub fn new(
        alloc: Global,
        port: P,
        clock: C,
        draws: D,
        key: String,
    ) -> Result<Server<P, E, C, D>, NoMemory>
        ensures port { IfOk result (λ s. arc_value s.port ≡ port) }
        ensures clock { IfOk result (λ s. arc_value s.clock ≡ clock) }
        ensures draws { IfOk result (λ s. s.draws ≡ draws) }
        ensures key { IfOk result (λ s. arc_value s.key ≡ key) }
    {
        Ok(Server {
            alloc,
            port: Arc::new(alloc, port)?,
            bells: Arc::new(alloc, Bells::new(alloc))?,
            clock: Arc::new(alloc, clock)?,
            draws,
            key: Arc::new(alloc, key)?,
        })
    }

    // The pads, for one caller.
    fn pads(&self, ear: Option<E>) -> Result<Ringing<P, E>, NoMemory>
        ensures port { IfOk result (λ pads. arc_value pads.pads ≡ arc_value self.now.port) }
    {
        let port = Arc::try_clone(&self.port)?;
        let bells = Arc::try_clone(&self.bells)?;
        Ok(Ringing::new(port, bells, ear))
    }
}

impl<
    P: PadPort + DirPort + Drop,
    L: Link + Drop,
    A: Source + Sink + Drop,
    C: Clock + Drop,
    D: Draws + Drop,
> Host<L, A> for Server<P, L::Ear, C, D> {
    type Work = Serving<P, L, A, C, D>;

    /// A session on the server's port, over this link, by the server's clock.
    fn pad(&mut self, link: L) -> Result<Serving<P, L, A, C, D>, NoMemory>
        ensures work { IfOk result (IfPad (λ sitting. (arc_value sitting.pads.pads ≡ arc_value self.old.port) × (sitting.link ≡ link) × (arc_value sitting.clock ≡ arc_value self.old.clock) × (D.to_come sitting.draws ≡ D.to_come self.old.draws))) }
        ensures server { (self.new.port ≡ self.old.port) × (self.new.clock ≡ self.old.clock) × (self.new.key ≡ self.old.key) × (D.to_come self.new.draws ≡ D.to_come self.old.draws) }
    {
        Ok(Work::Pad(Sitting {
            alloc: self.alloc,
            pads: self.pads(link.ear())?,
            link,
            clock: Arc::try_clone(&self.clock)?,
            draws: self.draws.fork(),
        }))
    }

    /// One request at the server's port, by its clock and its key.
    fn api(&mut self, caller: A) -> Result<Serving<P, L, A, C, D>, NoMemory>
        ensures work { IfOk result (IfApi (λ asking. (arc_value asking.pads.pads ≡ arc_value self.old.port) × (asking.caller ≡ caller) × (arc_value asking.clock ≡ arc_value self.old.clock) × (arc_value asking.key ≡ arc_value self.old.key) × (D.to_come asking.draws ≡ D.to_come self.old.draws))) }
        ensures server { (self.new.port ≡ self.old.port) × (self.new.clock ≡ self.old.clock) × (self.new.key ≡ self.old.key) × (D.to_come self.new.draws ≡ D.to_come self.old.draws) }
    {
        Ok(Work::Api(Asking {
            alloc: self.alloc,
            pads: self.pads(None)?,
            caller,
            clock: Arc::try_clone(&self.clock)?,
            draws: self.draws.fork(),
            key: Arc::try_clone(&self.key)?,
        }))
    }
}
