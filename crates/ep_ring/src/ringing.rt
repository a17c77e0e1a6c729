//! A port round the pads' port.

ghost use Rattle.std.specs.Prelude.{◌≡◌};

use crate::bell::NOBODY;
use crate::bells::Bells;
use ep_link::Ear;
use ep_outside::Limits;
use ep_pad::{PadEntry, PadPort, PadReply, PassBad};
use ep_units::{NoMemory, PadId, Units};
use std::alloc::Global;
use std::sync::{Arc, Mutex, Wait};

/// A pass of the port inside, and the name of its pad.
#[derive(Drop)]
pub struct RingPass<A: Drop> {
    pub pass: A,
    pad: Units,
}

/// The pad for which a session's ear waits, and its number there.
#[derive(Drop)]
struct Listening {
    pad: Units,
    number: u64,
}

/// The port of one session: the pads that all share, all bells, and the ear of its link until that hangs on a bell.
pub struct Ringing<P: Drop, E: Ear> {
    pub pads: Arc<P>,
    bells: Arc<Bells<E>>,
    ear: Mutex<Option<E>>,
    listening: Mutex<Option<Listening>>,
}

impl<P: Drop, E: Ear + Drop> Drop for Ringing<P, E> {
    fn drop(self) {
        let Ringing {
            pads: _,
            bells: _,
            ear: _,
            listening: _,
        } = self;
    }
}

impl<P: Drop, E: Ear> Ringing<P, E> {
    /// Whoever has no ear is woken by nobody.
    pub fn new(pads: Arc<P>, bells: Arc<Bells<E>>, ear: Option<E>) -> Ringing<P, E>
        ensures pads { result.pads ≡ pads }
    {
        Ringing {
            pads,
            bells,
            ear: Mutex::new(ear),
            listening: Mutex::new(None),
        }
    }

    fn hang<R: Wait>(&self, rt: &R, pad: &Units, ear: E) -> Result<Listening, NoMemory> {
        let pad = pad.copy(self.bells.alloc())?;
        let number = self.bells.hang(rt, &pad, ear)?;
        Ok(Listening { pad, number })
    }

    // The ear waits for the pad from now on. Where there is no memory for it the session is woken by nobody.
    fn listen<R: Wait>(&self, rt: &R, pad: &Units) {
        let ear = self.ear.lock(rt).take();
        if let Some(ear) = ear {
            if let Ok(hung) = self.hang(rt, pad, ear) {
                let mut listening = self.listening.lock(rt);
                *listening = Some(hung);
            }
        }
    }

    // Wakes the others that wait for the pad.
    fn ring<R: Wait>(&self, rt: &R, pad: &Units) {
        let own = match &*self.listening.lock(rt) {
            Some(hung) => hung.number,
            None => NOBODY,
        };
        self.bells.ring(rt, pad, own);
    }

    /// The session is over: its ear goes with it.
    pub fn end<R: Wait>(&self, rt: &R) {
        let hung = self.listening.lock(rt).take();
        if let Some(hung) = hung {
            self.bells.take_down(rt, &hung.pad, hung.number);
        }
    }
}

impl<P: PadPort + Drop, E: Ear> PadPort for Ringing<P, E> {
    ghost use Rattle.std.specs.Arc.{arc_value};

    type Store = P::Store;

    type Hall = P::Hall;

    type Pass = RingPass<P::Pass>;

    ghost limits_of = { λ port. P.limits_of (arc_value port.pads) };

    ghost is_hall = { λ port hall. P.is_hall (arc_value port.pads) hall };

    ghost hall_known = { P.hall_known };

    ghost is_register = { P.is_register };

    ghost is_of = { λ port pass. P.is_of (arc_value port.pads) pass.pass };

    ghost name_of = { λ pass. P.name_of pass.pass };

    ghost cell_of = { λ pass. P.cell_of pass.pass };

    ghost begun = { λ pass. P.begun pass.pass };

    ghost known = { λ pass. P.known pass.pass };

    fn alloc(&self) -> Global {
        self.pads.alloc()
    }

    fn limits(&self) -> Limits {
        self.pads.limits()
    }

    fn hall<R: Wait>(&self, rt: &R) -> P::Hall {
        self.pads.hall(rt)
    }

    fn pass<R: Wait>(
        &self,
        rt: &R,
        hall: &mut P::Hall,
        pad: &PadId,
        makes: bool,
    ) -> Result<RingPass<P::Pass>, PassBad> {
        let Ok(name) = Units::from_slice(self.bells.alloc(), pad.as_slice()) else {
            return Err(PassBad::NoMemory);
        };
        match self.pads.pass(rt, hall, pad, makes) {
            Ok(pass) => Ok(RingPass { pass, pad: name }),
            Err(bad) => Err(bad),
        }
    }

    fn meet(&self, one: &mut RingPass<P::Pass>, other: &mut RingPass<P::Pass>) {
        self.pads.meet(&mut one.pass, &mut other.pass);
    }

    fn ask<R: Wait>(&self, rt: &R, pass: &mut RingPass<P::Pass>, entry: PadEntry) -> PadReply {
        let deletes = matches!(entry, PadEntry::Delete { .. });
        let reply = self.pads.ask(rt, &mut pass.pass, entry);
        match &reply {
            PadReply::Welcome(Ok(_)) | PadReply::CatchUp(Ok(_)) => self.listen(rt, &pass.pad),
            PadReply::Committed(Ok(_)) => self.ring(rt, &pass.pad),
            PadReply::Done(Ok(())) => {
                if deletes {
                    self.ring(rt, &pass.pad);
                }
            }
            _ => {}
        }
        reply
    }
}
