//! Generated documents and small edits of them.

ghost use Rattle.std.specs.Prelude.{◌≤◌};

use crate::draws::Draws;
use ep_units::{NoMemory, Units, write36};
use std::alloc::Global;

const NEWLINE: u16 = 10;

/// How many attributes the stretches of a document have in turn.
pub const AUTHORS: usize = 8;

/// A lower-case letter.
fn letter(draws: &mut Draws) -> u16 {
    u16::from(b'a') + draws.pick(26) as u16
}

/// A text of so many units, of which one in 60 is a newline.
pub fn document(alloc: Global, units: usize, draws: &mut Draws) -> Result<Units, NoMemory> {
    let mut text = Units::new(alloc);
    for _ in 0..units {
        let unit = if draws.pick(60) == 0 {
            NEWLINE
        } else {
            letter(draws)
        };
        text.push(unit)?;
    }
    Ok(text)
}

/// Where the last line of a text begins.
fn last_line(text: &[u16]) -> usize {
    match text.iter().rposition(|unit| *unit == NEWLINE) {
        Some(at) => at.saturating_add(1),
        None => 0,
    }
}

/// The sign of an attribute by its number.
fn write_attr(attr: Option<usize>, out: &mut Units) -> Result<(), NoMemory> {
    if let Some(number) = attr {
        out.push(u16::from(b'*'))?;
        write36(number as u64, out)?;
    }
    Ok(())
}

/// An operation of changeset text on a stretch of a document, as its whole lines and its rest.
fn write_stretch(
    attr: Option<usize>,
    sign: u8,
    stretch: &[u16],
    out: &mut Units,
) -> Result<(), NoMemory> {
    let whole = last_line(stretch).min(stretch.len());
    let lines = stretch.iter().filter(|unit| **unit == NEWLINE).count();
    if whole > 0 {
        write_attr(attr, out)?;
        out.push(u16::from(b'|'))?;
        write36(lines as u64, out)?;
        out.push(u16::from(sign))?;
        write36(whole as u64, out)?;
    }
    if whole < stretch.len() {
        write_attr(attr, out)?;
        out.push(u16::from(sign))?;
        write36((stretch.len() - whole) as u64, out)?;
    }
    Ok(())
}

/// The operations that insert a text, of which each stretch of so many units has one of eight attributes in turn.
pub fn attribs(alloc: Global, text: &[u16], run: usize) -> Result<Units, NoMemory>
    requires { 1 ≤ run }
{
    let mut out = Units::new(alloc);
    for (i, stretch) in text.chunks(run).enumerate() {
        write_stretch(Some(i % AUTHORS), b'+', stretch, &mut out)?;
    }
    Ok(out)
}

fn write_ascii(text: &str, out: &mut Units) -> Result<(), NoMemory> {
    for byte in text.as_bytes() {
        out.push(u16::from(*byte))?;
    }
    Ok(())
}

/// Behind the length of a document, the changeset text that keeps these units and inserts so many equal ones with the first
/// attribute of the pool.
fn write_insertion(kept: &[u16], count: usize, unit: u16, out: &mut Units) -> Result<(), NoMemory> {
    write_ascii(">", out)?;
    write36(count as u64, out)?;
    write_stretch(None, b'=', kept, out)?;
    write_ascii("*0+", out)?;
    write36(count as u64, out)?;
    write_ascii("$", out)?;
    for _ in 0..count {
        out.push(unit)?;
    }
    Ok(())
}

/// Behind the length of a document, the changeset text that keeps these units and drops those.
fn write_removal(kept: &[u16], gone: &[u16], out: &mut Units) -> Result<(), NoMemory> {
    write_ascii("<", out)?;
    write36(gone.len() as u64, out)?;
    write_stretch(None, b'=', kept, out)?;
    write_stretch(None, b'-', gone, out)?;
    write_ascii("$", out)
}

fn write_edit(doc: &[u16], draws: &mut Draws, out: &mut Units) -> Result<(), NoMemory> {
    let at = draws
        .pick(doc.len().saturating_sub(10).max(1))
        .min(doc.len());
    let count = 1 + draws.pick(3);
    write_ascii("Z:", out)?;
    write36(doc.len() as u64, out)?;
    let kept = &doc[..at];
    if draws.pick(4) > 0 {
        let unit = letter(draws);
        return write_insertion(kept, count, unit, out);
    }
    let gone = &doc[at..];
    write_removal(kept, &gone[..count.min(gone.len())], out)
}

/// The changeset text of a small edit of a document: at a random place one to three equal letters are inserted with
/// the first attribute of the pool, or one to three units are dropped.
pub fn edit(alloc: Global, doc: &[u16], draws: &mut Draws) -> Result<Units, NoMemory> {
    let mut out = Units::new(alloc);
    write_edit(doc, draws, &mut out)?;
    Ok(out)
}
