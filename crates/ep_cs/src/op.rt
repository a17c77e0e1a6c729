//! The operations of changeset text.

ghost use Rattle.std.specs.Prelude.{◌≡◌, true, false, ◌+◌, ◌<◌, ◌≤◌, ◌^◌};
ghost use Rattle.ep_attr.specs.AttrMap.{none};
ghost use Rattle.ep_cs.specs.Runs.{inserted, passed};
ghost use Rattle.ep_cs.specs.Normal.{joins, is_bare, same_kind};
ghost use Rattle.ep_cs.specs.Longer.{GoesOn};

use ep_attr::AttrMap;

/// What an operation does with its units.
#[derive(Clone, Copy, Debug, PartialEq, Eq)]
pub enum Kind {
    Keep,
    Drop,
    Insert,
}

impl Kind {
    /// Whether both are the same.
    fn is(self, other: Kind) -> bool
        ensures { result ≡ same_kind self other }
    {
        match (self, other) {
            (Kind::Keep, Kind::Keep) => true,
            (Kind::Drop, Kind::Drop) => true,
            (Kind::Insert, Kind::Insert) => true,
            (_, _) => false,
        }
    }
}

/// An operation: so many units, and the newlines that they hold, the last of them at their end.
#[derive(Drop)]
pub struct Op {
    pub kind: Kind,
    pub units: u32,
    pub lines: u32,
    pub attrs: AttrMap,
}

impl Op {
    /// How many units of the bank it inserts.
    pub fn inserted(&self) -> u32
        ensures is { result ≡ inserted self.now.kind self.now.units }
        ensures within { result ≤ self.now.units }
    {
        match self.kind {
            Kind::Insert => self.units,
            _ => 0,
        }
    }

    /// How many units of the old text it passes.
    pub fn passed(&self) -> u32
        ensures is { result ≡ passed self.now.kind self.now.units }
        ensures within { result ≤ self.now.units }
    {
        match self.kind {
            Kind::Insert => 0,
            _ => self.units,
        }
    }

    /// Whether the run and the next are written as one.
    pub fn joins(&self, next: &Op) -> bool
        ensures { result ≡ joins self.now next.now }
    {
        self.kind.is(next.kind) && (next.lines > 0 || !(self.lines > 0)) && self.attrs == next.attrs
    }

    /// Whether the run is not written at the end.
    pub fn is_bare(&self) -> bool
        ensures { result ≡ is_bare self.now }
    {
        match self.kind {
            Kind::Keep => self.attrs.is_none(),
            _ => false,
        }
    }

    /// Keeps so many units more, where it keeps units without newlines with the same map.
    pub(crate) fn go_on(&mut self, units: u32, lines: u32, attrs: &AttrMap) -> bool
        requires room { passed self.old.kind self.old.units + units < 2 ^ 32 }
        ensures longer { result ≡ true → GoesOn self.old units lines attrs.now self.new }
        ensures same { result ≡ false → self.new ≡ self.old }
    {
        let Kind::Keep = self.kind else {
            return false;
        };
        if self.lines > 0 {
            return false;
        }
        let same = self.attrs == *attrs;
        if same {
            self.units += units;
            self.lines = lines;
        }
        same
    }

    /// Keeps so many units more, where it keeps units without newlines and with no attributes.
    pub(crate) fn go_on_bare(&mut self, units: u32, lines: u32) -> bool
        requires room { passed self.old.kind self.old.units + units < 2 ^ 32 }
        ensures longer { result ≡ true → GoesOn self.old units lines none self.new }
        ensures same { result ≡ false → self.new ≡ self.old }
    {
        if self.lines > 0 || !self.is_bare() {
            return false;
        }
        self.units += units;
        self.lines = lines;
        true
    }
}
