//! What is written of a schedule.

ghost use Rattle.std.specs.Prelude.{◌≡◌, ◌++◌, IfOk, OnOk};
ghost use Rattle.std.specs.String.{string_bytes};
ghost use Rattle.ep_schedule.specs.World.{WorldState};
ghost use Rattle.ep_make.specs.Lines.{five_lines, line, lines_of, seen_by, sees};
ghost use Rattle.ep_make.specs.Made.{IsOf};
ghost use Rattle.ep_make.specs.Same.{doc_eq};

use crate::bad::Stopped;
use crate::drawing::name_of;
use crate::same::is_same;
use ep_apply::Doc;
use ep_client::Client;
use ep_event::Shown;
use ep_outside::Crash;
use ep_units::Units;
use ep_world::World;
use std::alloc::{AllocError, Global};

/// Whether a client shows this document.
fn shows(client: &Client, doc: &Doc) -> bool
    ensures { result ≡ doc_eq client.now.view doc.now }
{
    is_same(client.view(), doc)
}

/// Whether the client of a name sees this document.
fn sees<D: Crash>(world: &World<D>, name: &Units, doc: &Doc) -> bool
    ensures { (w : WorldState) → IsOf D.told D.failures D.stops_alone world.now w → result ≡ sees w name.now doc.now }
{
    let Some(client) = world.view(name) else {
        return false;
    };
    shows(client, doc)
}

/// How many clients see this document.
fn count_agreeing<D: Crash>(
    alloc: Global,
    world: &World<D>,
    clients: u32,
    doc: &Doc,
) -> Result<u32, Stopped>
    ensures { (w : WorldState) → IsOf D.told D.failures D.stops_alone world.now w → IfOk result (λ n. n ≡ seen_by w doc.now clients) }
{
    let mut agreeing = 0;
    for k in 0..clients {
        let name = name_of(alloc, k + 1)?;
        agreeing += u32::from(sees(world, &name, doc));
    }
    Ok(agreeing)
}

/// Adds a word and a number to a text.
fn add_line(alloc: Global, text: &mut String, word: &str, number: u64) -> Result<(), AllocError>
    ensures { OnOk result (string_bytes text.new ≡ string_bytes text.old ++ line word.now number) }
{
    let line = format!(in alloc; "{word} {number}\n")?;
    text.push_str(line.as_str())
}

fn write_lines(
    alloc: Global,
    clients: u32,
    edits: u32,
    revisions: u64,
    units: u32,
    agreeing: u32,
) -> Result<String, AllocError>
    ensures { IfOk result (λ text. string_bytes text ≡ lines_of clients edits revisions units agreeing) }
{
    let mut text = String::new(alloc);
    add_line(alloc, &mut text, "clients", u64::from(clients))?;
    add_line(alloc, &mut text, "edits", u64::from(edits))?;
    add_line(alloc, &mut text, "revisions", revisions)?;
    add_line(alloc, &mut text, "units", u64::from(units))?;
    add_line(alloc, &mut text, "agreeing", u64::from(agreeing))?;
    Ok(text)
}

/// The five lines. By the rules the pad is there, and its head is no last number of 64 bits.
pub(crate) fn five_lines<D: Crash>(
    alloc: Global,
    world: &mut World<D>,
    clients: u32,
    edits: u32,
) -> Result<String, Stopped>
    ensures { (w : WorldState) → IsOf D.told D.failures D.stops_alone world.old w → IfOk result (λ text. string_bytes text ≡ five_lines clients edits w) }
{
    let shown = world.head()?;
    let Shown::Head { rev, doc } = shown else {
        return Err(Stopped);
    };
    if rev == u64::MAX {
        return Err(Stopped);
    }
    let agreeing = count_agreeing(alloc, world, clients, &doc)?;
    let text = write_lines(alloc, clients, edits, rev + 1, doc.len(), agreeing)?;
    Ok(text)
}
