//! What is left of a change that is walked from its first run to its last.

ghost use Rattle.std.specs.Prelude.{◌≡◌, ◌≤◌, [], MatchOption};
ghost use Rattle.ep_cs.specs.NormalRuns.{IsNormal};
ghost use Rattle.ep_cs.specs.Written.{AreWritten};
ghost use Rattle.ep_cursor.specs.Left.{left_of, advanced, skipped, first_units, first_lines};
ghost use Rattle.ep_cursor.specs.Heads.{IsHead};

use ep_attr::AttrMap;
use ep_cs::{Change, Kind, Op};
use std::marker::Model;

/// What is left of the first run, and of the text that it inserts.
#[derive(Clone, Copy, Drop)]
pub struct Head<'a> {
    pub kind: Kind,
    pub units: u32,
    pub lines: u32,
    pub attrs: &'a AttrMap,
    pub text: &'a [u16],
}

/// What is left of a change, and of the places of the old text.
#[derive(Drop)]
pub struct Cursor<'a> {
    ops: &'a [Op],
    units: u32,
    lines: u32,
    bank: &'a [u16],
    places: u32,
}

impl<'a> Model for Cursor<'a> {
    ghost use Rattle.ep_cursor.specs.Left.{Left, coded_left};

    ghost Value = { Left };

    ghost coded = { coded_left };

    ghost use Rattle.ep_cursor.specs.Heads.{cursor_left, IsCursor};

    ghost view = { cursor_left };

    ghost invariant = { IsCursor };
}

fn units_of(ops: &[Op]) -> u32
    ensures { result ≡ first_units ops.now }
{
    match ops {
        [] => 0,
        [op, ..] => op.units,
    }
}

fn lines_of(ops: &[Op]) -> u32
    ensures { result ≡ first_lines ops.now }
{
    match ops {
        [] => 0,
        [op, ..] => op.lines,
    }
}

impl<'a> Cursor<'a> {
    /// All of a change.
    pub fn new(change: &'a Change) -> Cursor<'a>
        ensures left { result ≡ left_of change.now }
        ensures normal { IsNormal change.now }
    {
        let ops = change.ops();
        Cursor {
            ops,
            units: units_of(ops),
            lines: lines_of(ops),
            bank: change.bank().as_slice(),
            places: change.old_len(),
        }
    }

    /// What stands first.
    pub fn head(&self) -> Option<Head<'a>>
        ensures head { MatchOption result (self.now.ops ≡ []) (λ h. IsHead h self.now) }
        ensures written { AreWritten self.now.ops self.now.bank }
    {
        match self.ops {
            [] => None,
            [op, ..] => {
                let text = match op.kind {
                    Kind::Insert => &self.bank[..self.units as usize],
                    _ => &self.bank[..0],
                };
                Some(Head {
                    kind: op.kind,
                    units: self.units,
                    lines: self.lines,
                    attrs: &op.attrs,
                    text,
                })
            }
        }
    }

    /// Leaves out so many units of the first run, with their newlines.
    pub fn advance(&mut self, units: u32, lines: u32)
        requires some { 1 ≤ units }
        requires units { units ≤ first_units self.old.ops }
        requires lines { lines ≤ first_lines self.old.ops }
        ensures { self.new ≡ advanced units lines self.old }
    {
        match self.ops {
            [] => {}
            [op, later @ ..] => {
                match op.kind {
                    Kind::Insert => self.bank = &self.bank[units as usize..],
                    _ => self.places -= units,
                }
                if units < self.units {
                    self.units -= units;
                    self.lines -= lines;
                } else {
                    self.ops = later;
                    self.units = units_of(later);
                    self.lines = lines_of(later);
                }
            }
        }
    }

    /// Leaves out so many of the places that are kept after the last run.
    pub fn skip(&mut self, units: u32)
        requires { units ≤ self.old.rest }
        ensures { self.new ≡ skipped units self.old }
    {
        self.places -= units;
    }
}
