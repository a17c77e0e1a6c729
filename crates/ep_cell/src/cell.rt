//! The cell and its passes.

ghost use Rattle.std.specs.Prelude.{◌≡◌, ◌≢◌, [], Some, false};

use crate::rule::Board;
use crate::view::{Held, View};
use atomic_table::Seat;
use ep_outside::Machine;
use std::snapshot::Snapshot;
use std::sync::Mutex;

/// A machine behind a lock.
///
/// The machine lies in the one slot of the table. Word 0 is the length of its history, word 1 the number of
/// the next pass, and word 2 is 0 exactly while the machine is at home. The `Mutex` only queues the callers.
#[derive(Drop)]
pub struct Cell<M: Machine> {
    pub(crate) turn: Mutex<()>,
    pub(crate) board: Board<M>,
    // the machine as it was put in
    pub(crate) first: Snapshot<M>,
    ghost words: { board.shared.table_id.words ≡ 3 },
    ghost slots: { board.shared.table_id.slots ≡ 1 },
    ghost key: { board.shared.key ≡ first },
}

/// A pass of a cell round such a machine.
pub type Pass<M> = PassOf<M, <M as Machine>::Entry, <M as Machine>::Reply>;

/// What one caller has seen of a cell's history, and the machine with which it began. It takes no bytes.
#[derive(Drop)]
pub struct PassOf<M, E, R> {
    pub(crate) seat: Seat<Held<M, E, R>, View<M, E, R>>,
    pub(crate) first: Snapshot<Snapshot<M>>,
    ghost empty_handed: { seat.me.1 ≡ [] },
    ghost idle: { seat.me.0.has_machine ≡ false },
    ghost numbered: { seat.me.0.number ≢ 0 },
    ghost begun: { seat.me.0.begun ≡ Some first.value.value },
}

unsafe impl<M: Machine + Send> Send for Cell<M> {}

unsafe impl<M: Machine + Send> Sync for Cell<M> {}
