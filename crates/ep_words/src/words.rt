//! What the words ask for.

ghost use Rattle.std.specs.Prelude.{◌≡◌, map, Some, None, option_map, IfOk, IfSome, IsErrOf, MatchResult};
ghost use Rattle.std.specs.String.{string_bytes};
ghost use Rattle.ep_units.specs.PadId.{has_group};
ghost use Rattle.ep_units.specs.Utf8.{units_of};
ghost use Rattle.ep_words.specs.Forms.{form_of};
ghost use Rattle.ep_words.specs.Lines.{HasItsForm, line_by, line_in, line_of, make_line, play_line, serve_line, verify_line};

use crate::bad::WordsBad;
use crate::command::Command;
use crate::numbers::{number_in, number_within};
use crate::parts::{Parts, take_apart};
use ep_units::{PadId, Units};
use std::alloc::Global;

fn is_grouped(pad: &PadId) -> bool
    ensures { result ≡ has_group pad.now }
{
    pad.group().is_some()
}

fn play<'a>(alloc: Global, name: &str) -> Result<Command<'a>, WordsBad>
    ensures exact { MatchResult result (λ c. play_line (units_of name.now) ≡ Some (line_of c)) (λ e. e ≡ WordsBad.Usage → play_line (units_of name.now) ≡ None) }
    ensures form { IfOk result HasItsForm }
{
    let units = Units::from_str(alloc, name)?;
    let Some(pad) = PadId::read(alloc, &units)? else {
        return Err(WordsBad::Usage);
    };
    if is_grouped(&pad) {
        return Err(WordsBad::Usage);
    }
    Ok(Command::Play { pad })
}

fn serve<'a>(pads: &'a str, api: &'a str, dir: &'a str, key: &'a str) -> Option<Command<'a>>
    ensures exact { option_map line_of result ≡ serve_line pads.entry.now api.entry.now dir.entry.now key.entry.now }
    ensures form { IfSome result HasItsForm }
{
    if key.is_empty() {
        return None;
    }
    Some(Command::Serve {
        pads,
        api,
        dir,
        key,
    })
}

fn verify<'a>(dir: &'a str, workers: &str) -> Option<Command<'a>>
    ensures exact { option_map line_of result ≡ verify_line dir.entry.now workers.now }
    ensures form { IfSome result HasItsForm }
{
    let workers = number_within(1, 64, workers)?;
    Some(Command::Verify { dir, workers })
}

fn make<'a>(number: &str, clients: &str, edits: &str) -> Option<Command<'a>>
    ensures exact { option_map line_of result ≡ make_line number.now clients.now edits.now }
    ensures form { IfSome result HasItsForm }
{
    let number = number_in(number);
    let clients = number_within(1, 64, clients);
    let edits = number_within(0, 100_000, edits);
    match (number, clients, edits) {
        (Some(number), Some(clients), Some(edits)) => Some(Command::Make {
            number,
            clients,
            edits,
        }),
        _ => None,
    }
}

fn command_of<'a>(alloc: Global, parts: Parts<'a>) -> Result<Command<'a>, WordsBad>
    ensures exact { MatchResult result (λ c. line_by (form_of parts.entry) ≡ Some (line_of c)) (λ e. e ≡ WordsBad.Usage → line_by (form_of parts.entry) ≡ None) }
    ensures form { IfOk result HasItsForm }
{
    let asked = match parts {
        Parts::Play { name } => return play(alloc, name.unwrap_or("pad")),
        Parts::Serve {
            pads,
            api,
            dir,
            key,
        } => serve(pads, api, dir, key),
        Parts::Write { addr, pad, token } => Some(Command::Write { addr, pad, token }),
        Parts::Verify { dir, workers } => verify(dir, workers),
        Parts::Make {
            number,
            clients,
            edits,
        } => make(number, clients, edits),
    };
    asked.ok_or(WordsBad::Usage)
}

/// What the words behind the program's name ask for.
///
/// The command keeps the texts where they stand, in UTF-8.
pub fn read_words<'a>(alloc: Global, words: &'a [String]) -> Result<Command<'a>, WordsBad>
    ensures asked { IfOk result (λ command. line_in (map string_bytes words.entry.now) ≡ Some (line_of command)) }
    ensures usage { IsErrOf result WordsBad.Usage → line_in (map string_bytes words.entry.now) ≡ None }
    ensures form { IfOk result HasItsForm }
{
    match take_apart(alloc, words) {
        Ok(parts) => command_of(alloc, parts),
        Err(why) => Err(why),
    }
}
