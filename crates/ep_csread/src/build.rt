//! The change that operations stand for.

ghost use Rattle.std.specs.Prelude.{◌≡◌, ◌+◌, ◌-◌, ◌≤◌, ◌<◌, ◌^◌, length, IfOk, OnOk};
ghost use Rattle.ep_cs.specs.Change.{change_of};
ghost use Rattle.ep_cs.specs.Draft.{inserted_by};
ghost use Rattle.ep_cs.specs.Fits.{AreDocuments};
ghost use Rattle.ep_cs.specs.NormalRuns.{AreLined};
ghost use Rattle.ep_cs.specs.Runs.{all_inserted, all_passed, passed as passed_by};
ghost use Rattle.ep_cs.specs.Steps.{passed};
ghost use Rattle.ep_csread.specs.Reading.{all_dropped};
ghost use Rattle.ep_csread.specs.Built.{NewHaveNoEmpty, putting};

use ep_cs::{Builder, Change, Kind, Op};
use ep_units::NoMemory;
use std::alloc::Global;

/// The change of operations over all of a bank.
pub fn built(alloc: Global, old_len: u32, ops: Vec<Op>, bank: &[u16]) -> Result<Change, NoMemory>
    requires whole { all_inserted ops.items ≡ length bank.now }
    requires inside { all_passed ops.items ≤ old_len }
    requires lined { AreLined ops.items }
    requires no_empty { NewHaveNoEmpty ops.items }
    requires short { old_len - all_dropped ops.items + all_inserted ops.items < 2 ^ 32 }
    requires pieces { let c = change_of old_len ops.items bank.now in AreDocuments c.edit.places c.edit.last }
    ensures { IfOk result (λ c. c ≡ change_of old_len ops.items bank.now) }
{
    let mut change = Builder::new(alloc, old_len);
    let mut used = 0;
    for op in ops {
        let next = used + op.inserted() as usize;
        put(&mut change, op, &bank[used..next])?;
        used = next;
    }
    change.finish()
}

/// Says an operation to a builder.
fn put(change: &mut Builder, op: Op, text: &[u16]) -> Result<(), NoMemory>
    requires inside { passed change.old.steps + passed_by op.kind op.units ≤ change.old.old }
    requires lined { op.lines ≤ op.units }
    requires few { inserted_by change.old.steps + length text.now < 2 ^ 32 }
    ensures { OnOk result (change.new ≡ putting op.kind change.old op.units op.lines op.attrs text.now) }
{
    match op.kind {
        Kind::Keep => change.keep_owned(op.units, op.lines, op.attrs),
        Kind::Drop => change.drop_units(op.units, op.lines),
        Kind::Insert => change.insert_owned(text, op.attrs),
    }
}
