//! What is drawn for a round.

ghost use Rattle.std.specs.Prelude.{◌≡◌, ◌+◌, ◌<◌, IfOk};
ghost use Rattle.ep_event.specs.declared.event.Local.TheVariants as local;
ghost use Rattle.ep_make.specs.Generator.{following, pick};
ghost use Rattle.ep_make.specs.Draws.{drawn_edit, insertion, name_of};

use crate::generator::Generator;
use ep_event::Local;
use ep_units::{NoMemory, Units};
use std::alloc::Global;

/// The name of client k.
pub(crate) fn name_of(alloc: Global, k: u32) -> Result<Units, NoMemory>
    ensures { IfOk result (λ n. n ≡ name_of k) }
{
    let name = format!(in alloc; "c{k}")?;
    Units::from_str(alloc, &name)
}

/// The name of one of so many clients.
pub(crate) fn draw_name(
    alloc: Global,
    lots: &mut Generator,
    clients: u32,
) -> Result<Units, NoMemory>
    requires { 0 < clients }
    ensures name { IfOk result (λ n. n ≡ name_of (pick clients lots.old.number + 1)) }
    ensures number { lots.new.number ≡ following lots.old.number }
{
    name_of(alloc, lots.pick(clients) + 1)
}

/// The insertion of a letter into so many units; the place is drawn first.
fn draw_insertion(alloc: Global, lots: &mut Generator, length: u32) -> Result<Local, NoMemory>
    requires { 0 < length }
    ensures edit { IfOk result (λ e. e ≡ insertion length lots.old.number) }
    ensures number { lots.new.number ≡ following (following lots.old.number) }
{
    let at = lots.pick(length);
    let letter = lots.pick(26);
    let mut text = Units::new(alloc);
    text.push(u16::from(b'a') + letter as u16)?;
    Ok(Local::Insert { at, text })
}

/// What a client that sees so many units does to them.
pub(crate) fn draw_edit(alloc: Global, lots: &mut Generator, length: u32) -> Result<Local, NoMemory>
    requires { 0 < length }
    ensures { IfOk result (λ e. (e, lots.new.number) ≡ drawn_edit length lots.old.number) }
{
    if length < 2 || lots.pick(4) != 0 {
        return draw_insertion(alloc, lots, length);
    }
    Ok(Local::Delete {
        at: lots.pick(length - 1),
        units: 1,
    })
}
