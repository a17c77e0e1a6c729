//! The pads of a house, each behind a lock of its own.

ghost use Rattle.std.specs.Prelude.{◌≡◌, Some};
ghost use Rattle.std.proofs.Props.{props};
ghost use Rattle.ep_cell.specs.History.{pairs};
ghost use Rattle.ep_cell.specs.Passes.{IsFrom, first_of, seen};
ghost use Rattle.ep_house.specs.Register.{all_told};
ghost use Rattle.ep_pad.specs.Halls.{cell_in};
ghost use Rattle.std.specs.Arc.{arc_value};
ghost use Rattle.ep_house.specs.Named.{shared_id};

use crate::pad_over::PadOver;
use crate::registry::Registry;
use ep_cell::{Cell, Pass};
use ep_outside::{Limits, Shelf};
use ep_units::PadId;
use std::alloc::Global;
use std::sync::Arc;

/// The pads that were opened, each behind a lock of its own, and the registry that finds them.
pub struct Pads<H: Shelf + Drop, P: PadOver<H::D>> {
    pub(crate) alloc: Global,
    pub(crate) limits: Limits,
    pub(crate) registry: Cell<Registry<H, P>>,
    ghost begun: { (first_of registry).limits ≡ limits } by { Prim.hlevel props },
}

impl<H: Shelf + Drop, P: PadOver<H::D> + Drop> Drop for Pads<H, P> {
    fn drop(self) {
        let Pads {
            alloc: _,
            limits: _,
            registry: _,
        } = self;
    }
}

/// A pass of the registry.
#[derive(Drop)]
pub struct Hall<H: Shelf + Drop, P: PadOver<H::D>> {
    pub(crate) pass: Pass<Registry<H, P>>,
}

/// A pass of a pad, with the cell that it is of, and a pass of the registry that has seen which cell the name has.
#[derive(Drop)]
pub struct PadPass<H: Shelf + Drop, P: PadOver<H::D>> {
    pub(crate) name: PadId,
    pub(crate) cell: Arc<Cell<P>, Global>,
    pub(crate) pass: Pass<P>,
    pub(crate) second: Pass<Registry<H, P>>,
    ghost same: { IsFrom (arc_value cell) pass } by { Prim.hlevel props },
    ghost found: { cell_in (all_told shared_id (pairs (seen second))) name ≡ Some (shared_id cell) } by { Prim.hlevel props },
}
