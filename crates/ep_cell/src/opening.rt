//! A cell is made.

ghost use Rattle.std.specs.Prelude.{◌≡◌, [], ◌∷◌, Some, None, IfOk, IfErr, OnOk, IsOk, IsSome};
ghost use Rattle.ep_cell.specs.declared.view.Held.{Held};
ghost use Rattle.ep_cell.specs.Passes.{first_of};

use crate::cell::Cell;
use crate::rule::{Board, HeldOf, SeatOf};
use crate::view::Held;
use atomic_table::Table;
use ep_outside::{Machine, Refused};
use ep_units::NoMemory;
use std::alloc::Global;
use std::snapshot::Snapshot;
use std::sync::Mutex;

impl<M: Machine> Cell<M> {
    /// A cell round a machine that has done nothing yet.
    pub fn new(alloc: Global, machine: M) -> Result<Cell<M>, Refused<M, NoMemory>>
        requires begun { M.stands machine machine [] }
        ensures first { IfOk result (λ cell. first_of cell ≡ machine) }
        ensures refused { IfErr result (λ r. r.back ≡ machine) }
    {
        let first = Snapshot::of(&machine);
        let slots = one_slot(alloc, machine)?;
        let made = Cell::table(alloc, slots, &first);
        Cell::over(made, first)
    }

    fn table(
        alloc: Global,
        slots: Vec<HeldOf<M>>,
        first: &Snapshot<M>,
    ) -> Result<(Board<M>, SeatOf<M>), atomic_table::Refused<HeldOf<M>, Global>>
        requires { (slots.items ≡ record { machine = Some first.now.value; last = None } ∷ []) × M.stands first.now.value first.now.value [] }
        ensures ok { IfOk result (λ t. (t.0.shared.table_id.words ≡ 3) × (t.0.shared.table_id.slots ≡ 1) × (t.0.shared.key ≡ first.now)) }
        ensures err { IfErr result (λ r. r.slots.items ≡ slots.items) }
    {
        let words = [0, 1, 0];
        Table::new(alloc, &words, slots, first)
    }

    fn over(
        made: Result<(Board<M>, SeatOf<M>), atomic_table::Refused<HeldOf<M>, Global>>,
        first: Snapshot<M>,
    ) -> Result<Cell<M>, Refused<M, NoMemory>>
        requires ok { IfOk made (λ t. (t.0.shared.table_id.words ≡ 3) × (t.0.shared.table_id.slots ≡ 1) × (t.0.shared.key ≡ first)) }
        requires err { IfErr made (λ r. (h : Held M M.Entry M.Reply) × (r.slots.items ≡ h ∷ []) × IsSome h.machine) }
        ensures ok { OnOk made (IsOk result) }
        ensures first { IfOk result (λ cell. first_of cell ≡ first.value) }
        ensures err { IfErr made (λ e. IfErr result (λ r. (h : Held M M.Entry M.Reply) × (e.slots.items ≡ h ∷ []) × (h.machine ≡ Some r.back))) }
    {
        match made {
            Ok((board, _seat)) => Ok(Cell {
                turn: Mutex::new(()),
                board,
                first,
            }),
            Err(refused) => {
                let mut slots = refused.slots;
                let Some(held) = slots.pop() else {
                    unreachable!()
                };
                slots.destroy_empty();
                Err(back(held))
            }
        }
    }
}

fn one_slot<M, E: Drop, R: Drop>(
    alloc: Global,
    machine: M,
) -> Result<Vec<Held<M, E, R>>, Refused<M, NoMemory>>
    ensures ok { IfOk result (λ v. v.items ≡ record { machine = Some machine; last = None } ∷ []) }
    ensures err { IfErr result (λ r. r.back ≡ machine) }
{
    let mut slots = Vec::new(alloc);
    let held = Held {
        machine: Some(machine),
        last: None,
    };
    match slots.push(held) {
        Ok(()) => Ok(slots),
        Err(failed) => {
            slots.destroy_empty();
            Err(back(failed.value))
        }
    }
}

fn back<M, E: Drop, R: Drop>(held: Held<M, E, R>) -> Refused<M, NoMemory>
    requires { IsSome held.machine }
    ensures { Some result.back ≡ held.machine }
{
    let Held { machine, last: _ } = held;
    match machine {
        Some(machine) => Refused {
            back: machine,
            why: NoMemory,
        },
        None => unreachable!(),
    }
}
