//! A call waits for the machine, and stands in the history.

ghost use mathlib.Core.Option as m;
ghost use Rattle.std.specs.Prelude.{◌≡◌, ◌-◌, ◌<◌, ◌^◌, [], ◌∷◌, length, true};
ghost use Rattle.atomic_table.specs.Table.{step};
ghost use Rattle.ep_cell.specs.declared.view.Held.{Held};
ghost use Rattle.ep_cell.specs.History.{pairs};
ghost use Rattle.ep_cell.specs.Passes.{IsOf, Makes, first, known, seen};
ghost use Rattle.ep_cell.specs.Steps.{IsHeld, Takes, HasMade};

use crate::cell::{Cell, Pass};
use crate::rule::{Append, Count, Put, SeatOf, Take};
use crate::view::{Held, Last};
use ep_outside::Machine;
use std::snapshot::Snapshot;
use std::sync::Wait;

impl<M: Machine> Cell<M> {
    /// Waits for the machine and makes one call, behind which the history ends that the pass has then seen.
    /// It waits for good where the history has 2^64 - 1 calls.
    pub fn call<R: Wait>(&self, rt: &R, pass: &mut Pass<M>, entry: M::Entry) -> M::Reply
        requires of { IsOf self.now pass.old }
        requires allowed { M.allows entry }
        ensures of { IsOf self.now pass.new }
        ensures first { first pass.new ≡ first pass.old }
        ensures makes { Makes (known pass.old) entry result (known pass.new) }
        ensures legal { M.legal (first pass.new) (pairs (seen pass.new)) }
    {
        let turn = self.turn.lock(rt);
        self.take(rt, &mut pass.seat);
        let count = self.count(rt, &mut pass.seat);
        let reply = self.make(&mut pass.seat, entry);
        self.board
            .shared
            .compare_exchange::<Append<M>>(&mut pass.seat, 0, count, count + 1);
        self.board.shared.store::<Put<M>>(&mut pass.seat, 2, 0);
        drop(turn);
        reply
    }

    // The machine, with all of its history.
    pub(crate) fn take<R: Wait>(&self, rt: &R, seat: &mut SeatOf<M>)
        requires of { seat.old.table_id ≡ self.now.board.shared.table_id }
        ensures of { (seat.new.table_id ≡ seat.old.table_id) × (seat.new.id ≡ seat.old.id) }
        ensures taken { Takes M.stands M.legal (step 1 2 0 1 m.none) seat.old.me 0 seat.new.me }
    {
        for _ in rt.forever() {
            if self.board.shared.compare_exchange::<Take<M>>(seat, 2, 0, 1) == 0 {
                return;
            }
        }
        unreachable!()
    }

    // The history's length, by the seat that has the machine.
    fn count<R: Wait>(&self, rt: &R, seat: &mut SeatOf<M>) -> u64
        requires of { seat.old.table_id ≡ self.now.board.shared.table_id }
        requires has_machine { seat.old.me.0.has_machine ≡ true }
        ensures same { (seat.new.table_id ≡ seat.old.table_id) × (seat.new.id ≡ seat.old.id) × (seat.new.me ≡ seat.old.me) }
        ensures count { (result ≡ length seat.old.me.0.seen) × (result < 2 ^ 64 - 1) }
    {
        let found = self.board.shared.load::<Count<M>>(seat, 0);
        if found == u64::MAX {
            for _ in rt.forever() {}
            unreachable!()
        }
        found
    }

    // The machine makes a call, in the slot that the seat has.
    fn make(&self, seat: &mut SeatOf<M>, entry: M::Entry) -> M::Reply
        requires of { seat.old.table_id ≡ self.now.board.shared.table_id }
        requires has { (h : Held M M.Entry M.Reply) × (seat.old.me.1 ≡ (0, h) ∷ []) × IsHeld M.stands M.legal seat.old.me.0.begun h seat.old.me.0.seen }
        requires allowed { M.allows entry }
        ensures of { (seat.new.table_id ≡ seat.old.table_id) × (seat.new.id ≡ seat.old.id) × (seat.new.me.0 ≡ seat.old.me.0) }
        ensures made { (h : Held M M.Entry M.Reply) × (seat.new.me.1 ≡ (0, h) ∷ []) × HasMade M.stands M.legal seat.old.me.0.begun h seat.old.me.0.seen entry result }
    {
        let asked = Snapshot::of(&entry);
        let held = self.board.shared.exchange(seat, 0, nothing());
        let Held { machine, last: _ } = held;
        let Some(mut machine) = machine else {
            unreachable!()
        };
        let reply = machine.call(entry);
        let last = Some(Last {
            entry: asked,
            reply: Snapshot::of(&reply),
        });
        let held = Held {
            machine: Some(machine),
            last,
        };
        let Held { machine, last: _ } = self.board.shared.exchange(seat, 0, held);
        let None = machine else { unreachable!() };
        reply
    }
}

// A slot from which the machine was taken.
pub fn nothing<M, E, R>() -> Held<M, E, R>
    ensures { result ≡ record { machine = None; last = None } }
{
    Held {
        machine: None,
        last: None,
    }
}
