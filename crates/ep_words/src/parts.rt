//! Words taken apart: a command with its texts.

ghost use Rattle.std.specs.Prelude.{◌≡◌, map, Some, None, option_map, MatchBool, MatchResult};
ghost use Rattle.std.specs.List.{list_any};
ghost use Rattle.std.specs.String.{string_bytes};
ghost use Rattle.clap.specs.Words.{found_of, first_of, kind_of, rows_of, subcommand_rows_of};
ghost use Rattle.ep_words.specs.Forms.{form_in, form_of, is_dash, serve, write, verify, make};
ghost use Rattle.ep_words.specs.App.{form_found, form_met, four, is_no_memory, text_in, three, two};

use crate::app::padd;
use crate::bad::WordsBad;
use clap::error::ErrorKind;
use clap::{ArgMatches, Error};
use std::alloc::Global;

/// The texts behind a command, as they stand in the words.
#[derive(Clone, Copy, Debug)]
pub enum Parts<'a> {
    Play {
        name: Option<&'a str>,
    },
    Serve {
        pads: &'a str,
        api: &'a str,
        dir: &'a str,
        key: &'a str,
    },
    Write {
        addr: &'a str,
        pad: &'a str,
        token: &'a str,
    },
    Verify {
        dir: &'a str,
        workers: &'a str,
    },
    Make {
        number: &'a str,
        clients: &'a str,
        edits: &'a str,
    },
}

fn is_dash(word: &str) -> bool
    ensures { result ≡ is_dash word.now }
{
    match word.as_bytes() {
        [first, ..] => *first == b'-',
        [] => false,
    }
}

fn has_dash(words: &[String]) -> bool
    ensures { result ≡ list_any (λ word. is_dash (string_bytes word)) words.now }
{
    words.iter().any(|word| is_dash(word.as_str()))
}

fn text<'a>(sub: &ArgMatches<'a>, id: &str) -> Option<&'a str>
    ensures { option_map (λ s. s.now) result ≡ first_of id.now (rows_of (found_of sub.now)) }
{
    sub.get_str(id)
}

fn serve_parts<'a>(
    pads: Option<&'a str>,
    api: Option<&'a str>,
    dir: Option<&'a str>,
    key: Option<&'a str>,
) -> Option<Parts<'a>>
    ensures { option_map form_of result ≡ four serve (text_in pads.entry) (text_in api.entry) (text_in dir.entry) (text_in key.entry) }
{
    match (pads, api, dir, key) {
        (Some(pads), Some(api), Some(dir), Some(key)) => Some(Parts::Serve {
            pads,
            api,
            dir,
            key,
        }),
        _ => None,
    }
}

fn write_parts<'a>(
    addr: Option<&'a str>,
    pad: Option<&'a str>,
    token: Option<&'a str>,
) -> Option<Parts<'a>>
    ensures { option_map form_of result ≡ three write (text_in addr.entry) (text_in pad.entry) (text_in token.entry) }
{
    match (addr, pad, token) {
        (Some(addr), Some(pad), Some(token)) => Some(Parts::Write { addr, pad, token }),
        _ => None,
    }
}

fn verify_parts<'a>(dir: Option<&'a str>, workers: Option<&'a str>) -> Option<Parts<'a>>
    ensures { option_map form_of result ≡ two verify (text_in dir.entry) (text_in workers.entry) }
{
    match (dir, workers) {
        (Some(dir), Some(workers)) => Some(Parts::Verify { dir, workers }),
        _ => None,
    }
}

fn make_parts<'a>(
    number: Option<&'a str>,
    clients: Option<&'a str>,
    edits: Option<&'a str>,
) -> Option<Parts<'a>>
    ensures { option_map form_of result ≡ three make (text_in number.entry) (text_in clients.entry) (text_in edits.entry) }
{
    match (number, clients, edits) {
        (Some(number), Some(clients), Some(edits)) => Some(Parts::Make {
            number,
            clients,
            edits,
        }),
        _ => None,
    }
}

// What was found for a command.
fn found<'a>(name: &str, sub: &ArgMatches<'a>) -> Option<Parts<'a>>
    ensures { option_map form_of result ≡ form_found name.now (rows_of (found_of sub.now)) }
{
    if name == "play" {
        return Some(Parts::Play {
            name: text(sub, "name"),
        });
    }
    if name == "serve" {
        return serve_parts(
            text(sub, "pads"),
            text(sub, "api"),
            text(sub, "dir"),
            text(sub, "key"),
        );
    }
    if name == "write" {
        return write_parts(text(sub, "addr"), text(sub, "pad"), text(sub, "token"));
    }
    if name == "verify" {
        return verify_parts(text(sub, "dir"), text(sub, "workers"));
    }
    if name == "make" {
        return make_parts(
            text(sub, "number"),
            text(sub, "clients"),
            text(sub, "edits"),
        );
    }
    None
}

fn parts_of<'a>(matches: &ArgMatches<'a>) -> Option<Parts<'a>>
    ensures { option_map form_of result ≡ form_met (subcommand_rows_of matches.now) }
{
    match matches.subcommand() {
        Some((name, sub)) => found(name, sub),
        None => None,
    }
}

fn refusal(error: &Error) -> WordsBad
    ensures { MatchBool (is_no_memory (kind_of error.now)) (result ≡ WordsBad.NoMemory) (result ≡ WordsBad.Usage) }
{
    match error.kind() {
        ErrorKind::OutOfMemory => WordsBad::NoMemory,
        _ => WordsBad::Usage,
    }
}

/// The words by command. Words that begin with `-`, and no words, are a usage fault too.
pub fn take_apart<'a>(alloc: Global, words: &'a [String]) -> Result<Parts<'a>, WordsBad>
    ensures { MatchResult result (λ p. form_in (map string_bytes words.entry.now) ≡ Some (form_of p)) (λ e. e ≡ WordsBad.Usage → form_in (map string_bytes words.entry.now) ≡ None) }
{
    if words.is_empty() {
        return Err(WordsBad::Usage);
    }
    if has_dash(words) {
        return Err(WordsBad::Usage);
    }
    let Ok(command) = padd(alloc) else {
        return Err(WordsBad::NoMemory);
    };
    match command.try_get_matches_from(words) {
        Ok(matches) => match parts_of(&matches) {
            Some(parts) => Ok(parts),
            None => Err(WordsBad::Usage),
        },
        Err(error) => Err(refusal(&error)),
    }
}
