//! What follows, as it is written. Kept units without attributes wait until something else comes, so that they are
//! written as one run.

ghost use Rattle.std.specs.Prelude.{◌≡◌, ◌+◌, ◌<◌, ◌≤◌, ◌^◌, length, OnOk};
ghost use Rattle.ep_cs.specs.Draft.{keeping, dropping, inserting, inserted_by};
ghost use Rattle.ep_follow.specs.Writing.{said, settled, waiting, IsKept, HasRoom};

use ep_attr::AttrMap;
use ep_cs::Builder;
use ep_units::NoMemory;

/// What is written, and the kept units that wait behind it: some with their newlines, the last of them at their end,
/// and then some without newlines.
#[derive(Drop)]
pub struct Writer {
    pub out: Builder,
    lined: u32,
    lines: u32,
    plain: u32,
}

impl Writer {
    /// No units wait.
    pub fn new(out: Builder) -> Writer
        ensures { result ≡ settled out }
    {
        Writer {
            out,
            lined: 0,
            lines: 0,
            plain: 0,
        }
    }

    /// Keeps so many units with the map without pairs.
    pub fn keep_bare(&mut self, units: u32, lines: u32)
        requires room { HasRoom self.old units }
        requires lined { lines ≤ units }
        ensures { self.new ≡ waiting self.old units lines }
    {
        if lines == 0 {
            self.plain += units;
        } else {
            self.lined += self.plain + units;
            self.lines += lines;
            self.plain = 0;
        }
    }

    /// Writes the units that wait.
    fn settle(&mut self) -> Result<(), NoMemory>
        requires { HasRoom self.old 0 }
        ensures { OnOk result (self.new ≡ settled (said self.old)) }
    {
        self.out.keep_bare(self.lined, self.lines)?;
        self.out.keep_bare(self.plain, 0)?;
        self.lined = 0;
        self.lines = 0;
        self.plain = 0;
        Ok(())
    }

    /// Keeps so many units with a map.
    pub fn keep(&mut self, units: u32, lines: u32, attrs: &AttrMap) -> Result<(), NoMemory>
        requires room { HasRoom self.old units }
        requires lined { lines ≤ units }
        ensures { OnOk result (IsKept self.old units lines attrs.now self.new) }
    {
        if attrs.is_none() {
            self.keep_bare(units, lines);
            return Ok(());
        }
        self.settle()?;
        self.out.keep(units, lines, attrs)
    }

    /// The same with a map that is given away, which is written at once.
    pub fn keep_owned(&mut self, units: u32, lines: u32, attrs: AttrMap) -> Result<(), NoMemory>
        requires room { HasRoom self.old units }
        requires lined { lines ≤ units }
        ensures { OnOk result (self.new ≡ settled (keeping (said self.old) units lines attrs)) }
    {
        self.settle()?;
        self.out.keep_owned(units, lines, attrs)
    }

    /// Drops so many units.
    pub fn drop_units(&mut self, units: u32, lines: u32) -> Result<(), NoMemory>
        requires room { HasRoom self.old units }
        requires lined { lines ≤ units }
        ensures { OnOk result (self.new ≡ settled (dropping (said self.old) units lines)) }
    {
        self.settle()?;
        self.out.drop_units(units, lines)
    }

    /// Inserts a text with a map.
    pub fn insert(&mut self, text: &[u16], attrs: &AttrMap) -> Result<(), NoMemory>
        requires room { HasRoom self.old 0 }
        requires short { inserted_by (said self.old).steps + length text.now < 2 ^ 32 }
        ensures { OnOk result (self.new ≡ settled (inserting (said self.old) text.now attrs.now)) }
    {
        self.settle()?;
        self.out.insert(text, attrs)
    }
}
