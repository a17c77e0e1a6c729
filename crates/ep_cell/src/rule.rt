//! The rule that a cell's table keeps, and the kinds of step that keep it.

ghost use Rattle.std.specs.Prelude.{false, [], Some, None};
ghost use Rattle.ep_cell.specs.Rule.{IsCounted, viewing, joined};
ghost use Rattle.ep_cell.specs.Steps.{Enters, Numbers, Takes, Counts, Appends, Puts, Learns};

use crate::view::{Held, View};
use atomic_table::{Join, Play, Seat, Split, Table, TableRule};
use ep_outside::Machine;
use std::alloc::Global;
use std::marker::PhantomData;
use std::snapshot::Snapshot;

pub type HeldOf<M> = Held<M, <M as Machine>::Entry, <M as Machine>::Reply>;

pub type ViewOf<M> = View<M, <M as Machine>::Entry, <M as Machine>::Reply>;

pub type SeatOf<M> = Seat<HeldOf<M>, ViewOf<M>>;

pub type Board<M> = Table<HeldOf<M>, ViewOf<M>, Snapshot<M>, Counted<M>, Global>;

/// The rule of a cell. Its key is the machine as it was put in.
pub struct Counted<M> {
    of: PhantomData<M>,
}

impl<M: Machine> TableRule<HeldOf<M>, ViewOf<M>, Snapshot<M>> for Counted<M> {
    ghost holds = { λ key s. IsCounted key.value (M.stands key.value) (M.legal key.value) s };

    ghost first = { λ key. viewing (Some key.value) 0 0 false [] };
}

/// A new seat has seen the history so far.
pub struct Enter<M> {
    of: PhantomData<M>,
}

impl<M: Machine> Play<HeldOf<M>, ViewOf<M>> for Enter<M> {
    ghost then = { Enters M.stands M.legal };
}

/// A seat gets its number.
pub struct Number<M> {
    of: PhantomData<M>,
}

impl<M: Machine> Play<HeldOf<M>, ViewOf<M>> for Number<M> {
    ghost then = { Numbers };
}

/// The machine is taken.
pub struct Take<M> {
    of: PhantomData<M>,
}

impl<M: Machine> Play<HeldOf<M>, ViewOf<M>> for Take<M> {
    ghost then = { Takes M.stands M.legal };
}

/// The seat that has the machine counts its history.
pub struct Count<M> {
    of: PhantomData<M>,
}

impl<M: Machine> Play<HeldOf<M>, ViewOf<M>> for Count<M> {
    ghost then = { Counts };
}

/// The history gets a call.
pub struct Append<M> {
    of: PhantomData<M>,
}

impl<M: Machine> Play<HeldOf<M>, ViewOf<M>> for Append<M> {
    ghost then = { Appends };
}

/// The machine is put back.
pub struct Put<M> {
    of: PhantomData<M>,
}

impl<M: Machine> Play<HeldOf<M>, ViewOf<M>> for Put<M> {
    ghost then = { Puts };
}

/// A seat learns the history's length.
pub struct Learn<M> {
    of: PhantomData<M>,
}

impl<M: Machine> Play<HeldOf<M>, ViewOf<M>> for Learn<M> {
    ghost then = { Learns };
}

/// A note of what a seat has seen is split off, or taken in by another seat.
pub struct Note;

impl<M, E, R> Split<View<M, E, R>> for Note {
    ghost left = { λ v. v };

    ghost right = { λ v. viewing v.begun 0 v.floor false v.seen };
}

impl<M, E, R> Join<View<M, E, R>> for Note {
    ghost both = { joined };

    ghost spent = { viewing None 0 0 false [] };
}
