//! A cell is closed.

ghost use Rattle.std.specs.Prelude.{◌≡◌, [], All, Some, false, map};
ghost use Rattle.ep_cell.specs.History.{StartsWith};
ghost use Rattle.ep_cell.specs.Passes.{IsOf, StandsBehind, first_of, seen};

use crate::calls::nothing;
use crate::cell::{Cell, Pass};
use crate::rule::SeatOf;
use crate::view::Held;
use ep_outside::Machine;
use std::sync::Wait;

impl<M: Machine + Drop> Cell<M> {
    /// The machine, which from the one that was put in stands for a history that each of the passes has seen a
    /// beginning of.
    pub fn close<R: Wait>(self, rt: &R, passes: Vec<Pass<M>>) -> M
        requires of { All (IsOf self) passes.items }
        ensures stands { StandsBehind (M.stands (first_of self)) result (map seen passes.items) }
    {
        let mut seat = self.gather(passes);
        self.take(rt, &mut seat);
        let held = self.board.shared.exchange(&mut seat, 0, nothing());
        let Held { machine, last: _ } = held;
        let Some(machine) = machine else {
            unreachable!()
        };
        machine
    }

    // A seat that has seen what each of the passes has.
    fn gather(&self, passes: Vec<Pass<M>>) -> SeatOf<M>
        requires of { All (λ p. p.seat.table_id ≡ self.now.board.shared.table_id) passes.items }
        ensures of { result.table_id ≡ self.now.board.shared.table_id }
        ensures idle { (result.me.1 ≡ []) × (result.me.0.has_machine ≡ false) }
        ensures begun { result.me.0.begun ≡ Some (first_of self.now) }
        ensures begins { All (λ p. StartsWith result.me.0.seen p.seat.me.0.seen) passes.items }
    {
        let mut seat = self.enter();
        for pass in passes {
            self.join(&mut seat, pass.seat);
        }
        seat
    }
}
