//! The calls of the pads' port.

use crate::house::HouseOf;
use crate::pad_calls::PadCalls;
use ep_house::{Hall, PadPass};
use ep_outside::{Keeper, Limits, Shelf};
use ep_pad::{PadEntry, PadPort, PadReply, PassBad};
use ep_units::PadId;
use std::alloc::Global;
use std::sync::Wait;

impl<H: Shelf + Drop, P: PadCalls<H::D>, K: Keeper + Drop> PadPort for HouseOf<H, P, K> {
    ghost use Rattle.ep_house.specs.Register.{IsLegal};
    ghost use Rattle.ep_house.specs.Pads.{IsHallOf, IsPassOf};
    ghost use Rattle.ep_house.specs.Pads as pads;

    type Store = H::D;

    type Hall = Hall<H, P>;

    type Pass = PadPass<H, P>;

    ghost limits_of = { λ house. pads.limits_of house.pads };

    ghost is_hall = { λ house hall. IsHallOf house.pads hall };

    ghost hall_known = { λ hall. pads.hall_known hall };

    ghost is_register = { λ limits names. IsLegal H.failures H.names H.told H.D.failures H.D.told limits.pads names };

    ghost is_of = { λ house pass. IsPassOf house.pads pass };

    ghost name_of = { λ pass. pads.name_of pass };

    ghost cell_of = { λ pass. pads.cell_of pass };

    ghost begun = { λ pass. P.begun (pads.begun_of pass) };

    ghost known = { λ pass. pads.known pass };

    fn alloc(&self) -> Global {
        self.alloc
    }

    fn limits(&self) -> Limits {
        self.pads.limits()
    }

    fn hall<R: Wait>(&self, rt: &R) -> Hall<H, P> {
        self.pads.hall(rt)
    }

    fn pass<R: Wait>(
        &self,
        rt: &R,
        hall: &mut Hall<H, P>,
        pad: &PadId,
        makes: bool,
    ) -> Result<PadPass<H, P>, PassBad> {
        self.pads.pass(rt, hall, pad, makes)
    }

    fn meet(&self, one: &mut PadPass<H, P>, other: &mut PadPass<H, P>) {
        self.pads.meet(one, other);
    }

    fn ask<R: Wait>(&self, rt: &R, pass: &mut PadPass<H, P>, entry: PadEntry) -> PadReply {
        pass.call(rt, entry)
    }
}
