//! Stretches of a text.

ghost use Rattle.std.specs.Prelude.{◌≡◌, ◌+◌, ◌≤◌, ◌<◌, ◌^◌, cond, length};
ghost use Rattle.ep_cs.specs.Doc.{text_of};
ghost use Rattle.ep_invert.specs.Stretch.{end_cut, Finds};

use crate::bad::SpliceBad;
use ep_apply::Doc;

/// The units from one place of a text to another.
#[derive(Clone, Copy)]
pub struct Stretch {
    pub at: u32,
    pub end: u32,
}

/// The first pair that is cut before a stretch, at its end, or at the end of the text.
fn end_cut(doc: &Doc, stretch: Stretch) -> Option<u32>
    requires order { stretch.at ≤ stretch.end }
    requires inside { stretch.end ≤ length doc.now }
    ensures { result ≡ end_cut stretch.at stretch.end (text_of doc.now) }
{
    let mut rest = doc.passing();
    if rest.pass(stretch.at).high {
        return Some(stretch.at);
    }
    if rest.pass(stretch.end - stretch.at).high {
        return Some(stretch.end);
    }
    if rest.ends_high() {
        Some(doc.len())
    } else {
        None
    }
}

/// What is altered: where nothing is, the stretch is of no units, at the start.
fn altered(at: u32, n: u32, alters: bool) -> Stretch
    requires { at + n < 2 ^ 32 }
    ensures at { result.at ≡ cond alters at 0 }
    ensures end { result.end ≡ cond alters (at + n) 0 }
{
    if alters {
        Stretch { at, end: at + n }
    } else {
        Stretch { at: 0, end: 0 }
    }
}

/// The stretch of so many units, where it is there, and where no pair is cut if it is altered.
pub fn find(doc: &Doc, at: u32, n: u32, alters: bool) -> Result<Stretch, SpliceBad>
    ensures { Finds at n alters doc.now result }
{
    if at as usize + n as usize > doc.len() as usize {
        return Err(SpliceBad::Place);
    }
    let stretch = altered(at, n, alters);
    match end_cut(doc, stretch) {
        None => Ok(stretch),
        Some(low) => Err(SpliceBad::CutsPair(u64::from(low))),
    }
}
