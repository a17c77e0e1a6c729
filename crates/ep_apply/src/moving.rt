//! What a run keeps of a document.

ghost use Rattle.std.specs.Prelude.{◌≡◌, ◌≤◌, ◌<◌, ◌^◌, ◌+◌, ◌++◌, length, take, drop, map, OnOk, IfOk};
ghost use Rattle.ep_cs.specs.Doc.{painted};

use ep_attr::AttrMap;
use ep_blocks::{Reading, Writer};
use ep_units::NoMemory;
use std::alloc::Global;

/// Moves the next stretch, of at most so many units, after a map, and answers how many it has.
fn paint_piece(
    alloc: Global,
    out: &mut Writer,
    rest: &mut Reading<'_>,
    most: u32,
    attrs: &AttrMap,
) -> Result<u32, NoMemory>
    requires some { 1 ≤ most }
    requires inside { most ≤ length rest.old }
    requires short { length out.old + most < 2 ^ 32 }
    ensures units { IfOk result (λ n. (1 ≤ n) × (n ≤ most)) }
    ensures done { IfOk result (λ n. out.new ≡ out.old ++ map (λ c. painted c attrs.now) (take n rest.old)) }
    ensures rest { IfOk result (λ n. rest.new ≡ drop n rest.old) }
{
    match rest.take(most) {
        None => Ok(most),
        Some(stretch) => {
            let painted = stretch.attrs.apply_doc(alloc, attrs)?;
            out.push(stretch.text, &painted)?;
            Ok(stretch.text.len() as u32)
        }
    }
}

/// Moves so many cells after a map.
fn keep_painted(
    alloc: Global,
    out: &mut Writer,
    rest: &mut Reading<'_>,
    units: u32,
    attrs: &AttrMap,
) -> Result<(), NoMemory>
    requires inside { units ≤ length rest.old }
    requires short { length out.old + units < 2 ^ 32 }
    ensures done { OnOk result (out.new ≡ out.old ++ map (λ c. painted c attrs.now) (take units rest.old)) }
    ensures rest { OnOk result (rest.new ≡ drop units rest.old) }
{
    let mut left = units;
    'pieces: while left > 0 {
        left -= paint_piece(alloc, out, rest, left, attrs)?;
    }
    Ok(())
}

/// Moves so many cells after a map.
pub fn keep(
    alloc: Global,
    out: &mut Writer,
    rest: &mut Reading<'_>,
    units: u32,
    attrs: &AttrMap,
) -> Result<(), NoMemory>
    requires inside { units ≤ length rest.old }
    requires short { length out.old + units < 2 ^ 32 }
    ensures done { OnOk result (out.new ≡ out.old ++ map (λ c. painted c attrs.now) (take units rest.old)) }
    ensures rest { OnOk result (rest.new ≡ drop units rest.old) }
{
    if attrs.is_none() {
        out.keep(rest, units)
    } else {
        keep_painted(alloc, out, rest, units, attrs)
    }
}
