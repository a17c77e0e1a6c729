//! Passes are made, look and meet. None of this waits for the machine.

ghost use Rattle.std.specs.Prelude.{◌≡◌, ◌≢◌, ◌≤◌, [], Some, false, length};
ghost use Rattle.std.specs.Option.{ForSome};
ghost use Rattle.ep_cell.specs.History.{StartsWith, calls_by, longer, pairs};
ghost use Rattle.ep_cell.specs.Passes.{IsOf, IsFresh, Meets, first, first_of, floor, known, seen};
ghost use Rattle.ep_cell.specs.Rule.{greater};

use crate::cell::{Cell, Pass, PassOf};
use crate::rule::{Enter, Learn, Note, Number, SeatOf};
use ep_outside::Machine;
use std::snapshot::Snapshot;
use std::sync::Wait;

impl<M: Machine> Cell<M> {
    /// A pass that has seen the history so far. It waits for good where 2^64 - 1 passes were made.
    pub fn new_pass<R: Wait>(&self, rt: &R) -> Pass<M>
        ensures of { IsOf self.now result }
        ensures fresh { IsFresh (known result) }
        ensures first { first result ≡ first_of self.now }
        ensures legal { M.legal (first result) (pairs (seen result)) }
    {
        let mut seat = self.enter();
        self.number(rt, &mut seat);
        PassOf {
            seat,
            first: Snapshot::of(&self.first),
        }
    }

    /// The history's length now. The next call of the pass has at least so many before it.
    pub fn look(&self, pass: &mut Pass<M>) -> u64
        requires of { IsOf self.now pass.old }
        ensures of { IsOf self.now pass.new }
        ensures first { first pass.new ≡ first pass.old }
        ensures told { known pass.new ≡ record (known pass.old) { floor = result } }
        ensures seen { length (seen pass.old) ≤ result }
        ensures rises { floor pass.old ≤ result }
    {
        self.board.shared.load::<Learn<M>>(&mut pass.seat, 0)
    }

    /// Both passes have seen the longer of their two histories, which the shorter begins. Both began with one
    /// machine.
    pub fn meet(&self, one: &mut Pass<M>, other: &mut Pass<M>)
        requires one { IsOf self.now one.old }
        requires other { IsOf self.now other.old }
        ensures one { IsOf self.now one.new }
        ensures other { IsOf self.now other.new }
        ensures first { (first one.new ≡ first one.old) × (first other.new ≡ first other.old) × (first other.old ≡ first one.old) }
        ensures meets { Meets (known one.old) (known other.old) (known one.new) (known other.new) }
    {
        let theirs = self.board.shared.split_seat::<Note>(&mut other.seat);
        self.join(&mut one.seat, theirs);
        let ours = self.board.shared.split_seat::<Note>(&mut one.seat);
        self.join(&mut other.seat, ours);
    }

    // A seat that has seen the history so far and has no number.
    pub(crate) fn enter(&self) -> SeatOf<M>
        ensures of { result.table_id ≡ self.now.board.shared.table_id }
        ensures idle { (result.me.1 ≡ []) × (result.me.0.has_machine ≡ false) }
        ensures begun { result.me.0.begun ≡ Some (first_of self.now) }
        ensures legal { M.legal (first_of self.now) (pairs result.me.0.seen) }
        ensures floor { result.me.0.floor ≡ length result.me.0.seen }
    {
        let (_, seat) = self.board.shared.load_new_seat::<Enter<M>>(0);
        seat
    }

    fn number<R: Wait>(&self, rt: &R, seat: &mut SeatOf<M>)
        requires of { seat.old.table_id ≡ self.now.board.shared.table_id }
        requires idle { (seat.old.me.0.has_machine ≡ false) × (seat.old.me.1 ≡ []) }
        ensures begun { seat.new.me.0.begun ≡ seat.old.me.0.begun }
        ensures same { (seat.new.table_id ≡ seat.old.table_id) × (seat.new.me.1 ≡ []) × (seat.new.me.0.has_machine ≡ false) × (seat.new.me.0.seen ≡ seat.old.me.0.seen) × (seat.new.me.0.floor ≡ seat.old.me.0.floor) }
        ensures numbered { (seat.new.me.0.number ≢ 0) × (calls_by seat.new.me.0.number seat.new.me.0.seen ≡ []) }
    {
        for _ in rt.forever() {
            let next = self.board.shared.peek(1);
            if next < u64::MAX
                && self
                    .board
                    .shared
                    .compare_exchange::<Number<M>>(seat, 1, next, next + 1)
                    == next
            {
                return;
            }
        }
        unreachable!()
    }

    // The seat takes in what another has seen, and learns that both were beginnings of one history, from one machine.
    pub(crate) fn join(&self, seat: &mut SeatOf<M>, other: SeatOf<M>)
        requires of { (seat.old.table_id ≡ self.now.board.shared.table_id) × (other.table_id ≡ self.now.board.shared.table_id) }
        requires idle { (seat.old.me.0.has_machine ≡ false) × (other.me.1 ≡ []) }
        ensures of { seat.new.table_id ≡ seat.old.table_id }
        ensures idle { (seat.new.me.0.has_machine ≡ false) × (seat.new.me.1 ≡ seat.old.me.1) }
        ensures begun { seat.new.me.0.begun ≡ seat.old.me.0.begun }
        ensures one { ForSome seat.old.me.0.begun (λ ours. ForSome other.me.0.begun (λ theirs. ours ≡ theirs)) }
        ensures seen { seat.new.me.0.seen ≡ longer seat.old.me.0.seen other.me.0.seen }
        ensures number { seat.new.me.0.number ≡ seat.old.me.0.number }
        ensures begins { StartsWith seat.new.me.0.seen seat.old.me.0.seen × StartsWith seat.new.me.0.seen other.me.0.seen }
        ensures own { seat.old.me.0.number ≢ 0 → calls_by seat.old.me.0.number seat.new.me.0.seen ≡ calls_by seat.old.me.0.number seat.old.me.0.seen }
        ensures floor { greater seat.old.me.0.floor other.me.0.floor ≤ seat.new.me.0.floor }
    {
        self.board.shared.join_seat::<Note>(seat, other);
        self.board.shared.load::<Learn<M>>(seat, 0);
    }
}
