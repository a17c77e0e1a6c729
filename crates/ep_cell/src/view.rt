//! What stands in a cell's table: its views, and what lies in its slot.

use std::collections::LinkedList;
use std::snapshot::Snapshot;

/// One call of a machine: the number of the pass that made it, the entry and the reply. No value of it is made.
pub struct Call<E, R> {
    pub by: u64,
    pub entry: E,
    pub reply: R,
}

/// What a seat knows. No value of it is made.
pub struct View<M, E, R> {
    /// The machine as it was put in. A seat that another took in knows none.
    pub begun: Option<M>,
    /// The same, as the other seat of the last join knew it.
    pub theirs: Option<M>,
    /// 0 is no pass's number.
    pub number: u64,
    pub seen: LinkedList<Call<E, R>>,
    /// The history is known to be at least so long.
    pub floor: u64,
    pub has_machine: bool,
    /// The histories that were put together at the last join, its own first.
    pub one: LinkedList<Call<E, R>>,
    pub two: LinkedList<Call<E, R>>,
}

/// The call that a machine has just made. It takes no bytes.
#[derive(Drop)]
pub struct Last<E, R> {
    pub entry: Snapshot<E>,
    pub reply: Snapshot<R>,
}

/// What lies in the slot.
#[derive(Drop)]
pub struct Held<M, E, R> {
    pub machine: Option<M>,
    pub last: Option<Last<E, R>>,
}
