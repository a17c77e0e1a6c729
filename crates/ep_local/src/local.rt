//! Local edits, made of what a client sees.

ghost use Rattle.std.specs.Prelude.{◌≡◌, ◌∷◌, [], true, IfOk};
ghost use Rattle.ep_units.specs.Text.{is_well_formed};
ghost use Rattle.ep_attr.specs.AttrMap.{of_pairs};
ghost use Rattle.ep_event.specs.declared.event.Local.TheVariants as local;
ghost use Rattle.ep_local.specs.Local.{is_local_text};
ghost use Rattle.ep_local.specs.Makes.{EditsView, IsLocal};

use ep_apply::Doc;
use ep_attr::{Attr, AttrMap};
use ep_client::Client;
use ep_cs::{Change, MOST_UNITS};
use ep_event::Local;
use ep_invert::{SpliceBad, paint, splice};
use ep_units::{NoMemory, Units};
use std::alloc::Global;

/// A client makes a local edit of what it sees, or is told why that is none. By the rules a client refuses no change that
/// fits its view; if it did, that would be answered as want of memory.
pub fn edit_view(
    alloc: Global,
    client: &mut Client,
    edit: &Local,
) -> Result<Option<SpliceBad>, NoMemory>
    requires { is_local_text edit.now ≡ true }
    ensures { IfOk result (EditsView edit.now client.old client.new) }
{
    match local_change(alloc, client.view(), edit) {
        Ok(change) => {
            // It is one that an edit spells.
            let _normal = change.ops();
            match client.edit(alloc, &change) {
                Ok(()) => Ok(None),
                Err(_) => Err(NoMemory),
            }
        }
        Err(SpliceBad::NoMemory) => Err(NoMemory),
        Err(SpliceBad::Place) => Ok(Some(SpliceBad::Place)),
        Err(SpliceBad::CutsPair(at)) => Ok(Some(SpliceBad::CutsPair(at))),
    }
}

/// The change of a document that a local edit is.
pub fn local_change(alloc: Global, doc: &Doc, edit: &Local) -> Result<Change, SpliceBad>
    requires { is_local_text edit.now ≡ true }
    ensures { IsLocal edit.now doc.now result }
{
    match edit {
        Local::Insert { at, text } => insertion(alloc, doc, *at, text),
        Local::Delete { at, units } => deletion(alloc, doc, *at, *units),
        Local::Format {
            at,
            units,
            key,
            value,
        } => paint(alloc, doc, *at, *units, &one_pair(alloc, key, value)?),
    }
}

/// So many units fewer from a place on.
fn deletion(alloc: Global, doc: &Doc, at: u32, units: u32) -> Result<Change, SpliceBad>
    ensures { IsLocal (local.Delete at units) doc.now result }
{
    let nothing = Units::new(alloc);
    // Its length fits 32 bits.
    let _length = doc.len();
    splice(alloc, doc, at, units, &nothing, &AttrMap::none(alloc))
}

/// A text without attributes at a place; what would have 2^32 units or more is want of memory.
fn insertion(alloc: Global, doc: &Doc, at: u32, text: &Units) -> Result<Change, SpliceBad>
    requires { is_well_formed text.now ≡ true }
    ensures { IsLocal (local.Insert at text.now) doc.now result }
{
    let length = (doc.len() as u64).checked_add(text.len() as u64);
    match length {
        Some(length) if length <= u64::from(MOST_UNITS) => {
            splice(alloc, doc, at, 0, text, &AttrMap::none(alloc))
        }
        _ => Err(SpliceBad::NoMemory),
    }
}

/// The map of one attribute.
fn one_pair(alloc: Global, key: &Units, value: &Units) -> Result<AttrMap, NoMemory>
    ensures { IfOk result (λ m. m ≡ of_pairs ((key.now, value.now) ∷ [])) }
{
    AttrMap::read(
        alloc,
        &[Attr {
            key: key.copy(alloc)?,
            value: value.copy(alloc)?,
        }],
    )
}
