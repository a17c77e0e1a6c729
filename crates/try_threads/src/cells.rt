//! Cells of a counter, with threads.

ghost use Rattle.ep_cell.specs.Passes.{IsOf};

use ep_cell::{Cell, Pass};
use ep_outside::Machine;
use ep_units::NoMemory;
use std::alloc::Global;
use std::sync::Wait;
use std::test::Fail;
use std::thread::join;

/// A machine whose entry is added, and whose reply is the total.
#[derive(Drop)]
struct Counter {
    total: u64,
}

impl Machine for Counter {
    type Entry = u64;

    type Reply = u64;

    ghost allows = { λ _. Unit {0} };

    ghost stands = { λ _ _ _. Unit {0} };

    ghost legal = { λ _ _. Unit {0} };

    ghost stands_legal = { λ _ _ _ all. all };

    fn call(&mut self, entry: u64) -> u64 {
        self.total = self.total.wrapping_add(entry);
        self.total
    }
}

fn counting(alloc: Global) -> Result<Cell<Counter>, NoMemory> {
    Cell::new(alloc, Counter { total: 0 }).map_err(|refused| refused.why)
}

/// Adds 1 so many times.
fn add<R: Wait>(rt: &R, cell: &Cell<Counter>, times: u64) -> Pass<Counter>
    ensures { IsOf cell.now result }
{
    let mut pass = cell.new_pass(rt);
    for _ in 0..times {
        cell.call(rt, &mut pass, 1);
    }
    pass
}

#[test]
fn each_pass_reads_what_the_other_wrote(rt: HostRuntime) -> Result<(), Fail> {
    let alloc = rt.alloc();
    let cell = counting(alloc)?;
    let mut one = cell.new_pass(&rt);
    let mut other = cell.new_pass(&rt);
    assert_eq!(&rt; cell.call(&rt, &mut one, 5), 5);
    assert_eq!(&rt; cell.call(&rt, &mut other, 3), 8);
    assert_eq!(&rt; cell.look(&mut one), 2);
    assert_eq!(&rt; cell.call(&rt, &mut one, 0), 8);
    assert_eq!(&rt; cell.look(&mut other), 3);
    cell.meet(&mut one, &mut other);
    let passes = vec![in alloc; one, other]?;
    assert_eq!(&rt; cell.close(&rt, passes).total, 8);
    Ok(())
}

#[test]
fn calls_of_two_threads_all_count(rt: HostRuntime) -> Result<(), Fail> {
    let alloc = rt.alloc();
    let cell = counting(alloc)?;
    let (one, other) = join(&rt, || add(&rt, &cell, 1_000), || add(&rt, &cell, 1_000));
    assert_eq!(&rt; cell.look(&mut cell.new_pass(&rt)), 2_000);
    let passes = vec![in alloc; one, other]?;
    assert_eq!(&rt; cell.close(&rt, passes).total, 2_000);
    Ok(())
}
