//! Halls and passes of pads.

ghost use Rattle.std.specs.Prelude.{◌≡◌, Some, IfOk};
ghost use Rattle.ep_cell.specs.History.{pairs};
ghost use Rattle.ep_cell.specs.Passes.{IsFresh, Makes, Meets};
ghost use Rattle.ep_house.specs.Register.{IsLegal};
ghost use Rattle.ep_house.specs.Pads.{IsHallOf, IsPassOf, IsSamePad, begun_of, cell_of, hall_known, known, limits_of, name_of};
ghost use Rattle.ep_pad.specs.Halls.{IsUnmade, NotesOrNone, cell_in, told_of, want};

use crate::pad_over::PadOver;
use crate::pads::{Hall, PadPass, Pads};
use crate::registry::Registry;
use ep_cell::Cell;
use ep_outside::{Limits, Shelf};
use ep_pad::{PassBad, Wanted};
use ep_units::{NoMemory, PadId};
use std::alloc::Global;
use std::sync::Wait;

impl<H: Shelf + Drop, P: PadOver<H::D>> Pads<H, P> {
    /// No pad has a place.
    pub fn open(alloc: Global, shelf: H, limits: Limits) -> Result<Pads<H, P>, NoMemory>
        ensures limits { IfOk result (λ pads. limits_of pads ≡ limits) }
    {
        match Cell::new(alloc, Registry::new(alloc, shelf, limits)) {
            Ok(registry) => Ok(Pads {
                alloc,
                limits,
                registry,
            }),
            Err(refused) => Err(refused.why),
        }
    }

    pub fn limits(&self) -> Limits
        ensures { result ≡ limits_of self.now }
    {
        self.limits
    }

    /// A hall that has seen the names so far.
    pub fn hall<R: Wait>(&self, rt: &R) -> Hall<H, P>
        ensures of { IsHallOf self.now result }
        ensures fresh { IsFresh (hall_known result) }
        ensures legal { IsLegal H.failures H.names H.told H.D.failures H.D.told (limits_of self.now).pads (pairs (hall_known result).seen) }
    {
        Hall {
            pass: self.registry.new_pass(rt),
        }
    }

    /// A pass of a pad, which is opened by its first call. One that nobody has made gets a place only for who makes it.
    pub fn pass<R: Wait>(
        &self,
        rt: &R,
        hall: &mut Hall<H, P>,
        pad: &PadId,
        makes: bool,
    ) -> Result<PadPass<H, P>, PassBad>
        requires of { IsHallOf self.now hall.old }
        ensures hall { IsHallOf self.now hall.new }
        ensures noted { NotesOrNone (IsLegal H.failures H.names H.told H.D.failures H.D.told (limits_of self.now).pads) (hall_known hall.old) (want pad.now makes) (told_of cell_of result) (hall_known hall.new) }
        ensures unmade { IsUnmade result (pairs (hall_known hall.new).seen) pad.now }
        ensures of { IfOk result (λ pass. IsPassOf self.now pass) }
        ensures name { IfOk result (λ pass. name_of pass ≡ pad.now) }
        ensures fresh { IfOk result (λ pass. IsFresh (known pass)) }
        ensures limits { IfOk result (λ pass. P.limits_of (begun_of pass) ≡ limits_of self.now) }
        ensures legal { IfOk result (λ pass. P.legal (begun_of pass) (pairs (known pass).seen)) }
        // The name's first cell is its one cell.
        ensures one { IfOk result (λ pass. cell_in (pairs (hall_known hall.new).seen) pad.now ≡ Some (cell_of pass)) }
    {
        let (Ok(name), Ok(asked)) = (pad.copy(self.alloc), pad.copy(self.alloc)) else {
            return Err(PassBad::NoMemory);
        };
        let wanted = Wanted { name: asked, makes };
        let mut second = self.registry.new_pass(rt);
        self.registry.meet(&mut hall.pass, &mut second);
        let cell = match self.registry.call(rt, &mut hall.pass, wanted) {
            Ok(cell) => cell,
            Err(error) => return Err(error),
        };
        self.registry.meet(&mut second, &mut hall.pass);
        let pass = cell.new_pass(rt);
        Ok(PadPass {
            name,
            cell,
            pass,
            second,
        })
    }

    /// Both passes of one pad have seen the longer of their two histories, which the shorter begins.
    pub fn meet(&self, one: &mut PadPass<H, P>, other: &mut PadPass<H, P>)
        requires one { IsPassOf self.now one.old }
        requires other { IsPassOf self.now other.old }
        requires pad { name_of one.old ≡ name_of other.old }
        ensures one { IsSamePad one.old one.new }
        ensures other { IsSamePad other.old other.new }
        ensures cell { (cell_of one.new ≡ cell_of other.new) × (begun_of one.new ≡ begun_of other.new) }
        ensures meets { Meets (known one.old) (known other.old) (known one.new) (known other.new) }
    {
        self.registry.meet(&mut one.second, &mut other.second);
        one.cell.meet(&mut one.pass, &mut other.pass);
    }
}

impl<H: Shelf + Drop, P: PadOver<H::D>> PadPass<H, P> {
    /// Waits for the pad and makes one call.
    pub fn call<R: Wait>(&mut self, rt: &R, entry: P::Entry) -> P::Reply
        requires allowed { P.allows entry }
        ensures pad { IsSamePad self.old self.new }
        ensures makes { Makes (known self.old) entry result (known self.new) }
        ensures legal { P.legal (begun_of self.new) (pairs (known self.new).seen) }
    {
        self.cell.call(rt, &mut self.pass, entry)
    }
}
