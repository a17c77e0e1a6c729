//! Cells that are moved as they are.

ghost use Rattle.std.specs.Prelude.{◌≡◌, ◌≤◌, ◌<◌, ◌^◌, ◌+◌, ◌++◌, length, take, drop, OnOk, IfOk};

use crate::reading::Reading;
use crate::writer::Writer;
use ep_units::NoMemory;

/// Moves what is next, of at most so many units, where no block is begun, and answers how many it has: pages, groups or blocks
/// that are shared, or else a part of a block.
fn keep_piece(out: &mut Writer, rest: &mut Reading<'_>, most: u32) -> Result<u32, NoMemory>
    requires some { 1 ≤ most }
    requires inside { most ≤ length rest.old }
    requires short { length out.old + most < 2 ^ 32 }
    ensures units { IfOk result (λ n. (1 ≤ n) × (n ≤ most)) }
    ensures done { IfOk result (λ n. out.new ≡ out.old ++ take n rest.old) }
    ensures rest { IfOk result (λ n. rest.new ≡ drop n rest.old) }
{
    let pages = rest.take_pages(most);
    if pages.units > 0 {
        out.push_pages(pages.items)?;
        return Ok(pages.units);
    }
    let groups = rest.take_groups(most);
    if groups.units > 0 {
        out.push_groups(groups.items)?;
        return Ok(groups.units);
    }
    let blocks = rest.take_blocks(most);
    if blocks.units > 0 {
        out.push_blocks(blocks.items)?;
        return Ok(blocks.units);
    }
    rest.give_next(out, most)
}

impl Writer {
    /// Moves so many cells as they are: what is whole among them is shared.
    pub fn keep(&mut self, rest: &mut Reading<'_>, units: u32) -> Result<(), NoMemory>
        requires inside { units ≤ length rest.old }
        requires short { length self.old + units < 2 ^ 32 }
        ensures done { OnOk result (self.new ≡ self.old ++ take units rest.old) }
        ensures rest { OnOk result (rest.new ≡ drop units rest.old) }
    {
        let mut left = units - rest.give(self, units)?;
        'pieces: while left > 0 {
            left -= keep_piece(self, rest, left)?;
        }
        Ok(())
    }
}
