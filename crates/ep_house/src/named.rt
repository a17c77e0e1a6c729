//! Names with their cells, and what waits for a name.

ghost use Rattle.std.specs.Prelude.{◌≡◌, ◌≤◌, Some, None, MatchOption, IfSome, bytes_eq, vec_len, vec_capacity};
ghost use Rattle.ep_house.specs.Register.{found_in, without};
ghost use Rattle.std.specs.List.{All};
ghost use Rattle.ep_outside.specs.declared.limits.Limits.{Limits};
ghost use Rattle.ep_house.specs.Named.{IsWithin, MayWait, cells_of, shared_id, waits_of, wait_of};

use ep_cell::Cell;
use ep_outside::Machine;
use ep_units::PadId;
use std::alloc::Global;
use std::sync::Arc;

/// A name with its cell.
#[derive(Drop)]
pub struct Named<M: Machine + Drop> {
    pub name: PadId,
    pub cell: Arc<Cell<M>, Global>,
}

/// What waits for the next pass of a name: a disk that found no memory for its cell, or a cell that found none for its
/// place.
#[derive(Drop)]
pub enum Waiting<D, M: Machine + Drop> {
    Disk(D),
    Cell(Cell<M>),
    Shared(Arc<Cell<M>, Global>),
}

/// A name for which something waits.
#[derive(Drop)]
pub struct Kept<W> {
    pub name: PadId,
    pub what: W,
}

fn is_same(a: &PadId, b: &PadId) -> bool
    ensures { result ≡ bytes_eq a.now b.now }
{
    a.as_slice() == b.as_slice()
}

/// The cell of a name.
pub fn find<'a, M: Machine + Drop>(cells: &'a [Named<M>], name: &PadId) -> Option<&'a Named<M>>
    ensures found { MatchOption result (found_in (cells_of cells.now) name.now ≡ None) (λ n. found_in (cells_of cells.now) name.now ≡ Some (shared_id n.now.cell)) }
    ensures within { (limits_of : M → Limits) (limits : Limits) → All (λ n. IsWithin limits_of limits n.cell) cells.now → IfSome result (λ n. IsWithin limits_of limits n.now.cell) }
{
    for named in cells {
        if is_same(name, &named.name) {
            return Some(named);
        }
    }
    None
}

/// What waits for a name is taken out.
pub fn take_kept<D: Drop, M: Machine + Drop>(
    kept: &mut Vec<Kept<Waiting<D, M>>>,
    name: &PadId,
) -> Option<Waiting<D, M>>
    ensures found { MatchOption result ((found_in (waits_of wait_of kept.old.items) name.now ≡ None) × (kept.new.items ≡ kept.old.items)) (λ w. found_in (waits_of wait_of kept.old.items) name.now ≡ Some (wait_of w)) }
    ensures taken { waits_of wait_of kept.new.items ≡ without (waits_of wait_of kept.old.items) name.now }
    ensures within { (limits_of : M → Limits) (limits : Limits) → All (λ k. MayWait limits_of limits k.what) kept.old.items
        → All (λ k. MayWait limits_of limits k.what) kept.new.items × IfSome result (MayWait limits_of limits) }
    ensures capacity { (vec_capacity kept.new ≡ vec_capacity kept.old) × (vec_len kept.new ≤ vec_len kept.old) }
{
    let mut at = 0;
    while at < kept.len() {
        if is_same(name, &kept[at].name) {
            let Kept { name: _, what } = kept.remove(at);
            return Some(what);
        }
        at += 1;
    }
    None
}
