//! How many units operations pass, drop and insert.

ghost use Rattle.std.specs.Prelude.{◌≡◌, ◌≤◌, ◌<◌, ◌==◌, length, min, None};
ghost use Rattle.std.specs.List.{flat_map};
ghost use Rattle.ep_cs.specs.Runs.{all_inserted, all_passed};
ghost use Rattle.ep_csread.specs.Reading.{all_dropped, bank_refused, dropped, has_lengths, largest};

use crate::bad::ReadBad;
use ep_cs::{Kind, Op};
use ep_units::MOST_READ;

/// Units of operations, where the greatest `u64` stands for all larger numbers.
#[derive(Clone, Copy)]
struct Totals {
    passed: u64,
    dropped: u64,
    inserted: u64,
}

impl Totals {
    fn of(ops: &[Op]) -> Totals
        ensures passed { result.passed ≡ min (all_passed ops.now) largest }
        ensures dropped { result.dropped ≡ min (all_dropped ops.now) largest }
        ensures inserted { result.inserted ≡ min (all_inserted ops.now) largest }
    {
        let mut passed = 0u64;
        let mut dropped = 0u64;
        let mut inserted = 0u64;
        for op in ops {
            passed = passed.saturating_add(u64::from(op.passed()));
            dropped = dropped.saturating_add(u64::from(dropped_by(op)));
            inserted = inserted.saturating_add(u64::from(op.inserted()));
        }
        Totals {
            passed,
            dropped,
            inserted,
        }
    }
}

fn dropped_by(op: &Op) -> u32
    ensures { result ≡ dropped op.now.kind op.now.units }
{
    match op.kind {
        Kind::Drop => op.units,
        _ => 0,
    }
}

/// Whether the bank is too short or too long.
pub fn bank_bad(ops: &[Op], bank: &[u16]) -> Option<ReadBad>
    ensures { result ≡ bank_refused ops.now bank.now }
{
    let need = Totals::of(ops).inserted;
    let has = bank.len() as u64;
    if need == has {
        None
    } else {
        Some(ReadBad::Bank(need, has))
    }
}

/// The length of a changeset's document, and how it says that it changes.
#[derive(Clone, Copy)]
pub struct Lengths {
    pub old: u64,
    pub shrinks: bool,
    pub difference: u64,
}

impl Lengths {
    /// Whether the operations pass no more than there is and make what is said.
    pub fn are_of(&self, ops: &[Op]) -> bool
        requires old { self.now.old ≤ MOST_READ }
        requires difference { self.now.difference ≤ MOST_READ }
        ensures { result ≡ has_lengths self.now.old self.now.shrinks self.now.difference ops.now }
    {
        let totals = Totals::of(ops);
        if totals.passed > self.old {
            return false;
        }
        let new = (self.old - totals.dropped).saturating_add(totals.inserted);
        let is_said = if self.shrinks {
            new.saturating_add(self.difference) == self.old
        } else {
            new == self.old + self.difference
        };
        is_said && new <= MOST_READ
    }
}
