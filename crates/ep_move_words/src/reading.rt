//! Words that ask for a pad to be moved.

ghost use Rattle.std.specs.Prelude.{◌≡◌, map, option_map, IfOk};
ghost use Rattle.std.specs.String.{string_bytes};
ghost use Rattle.ep_units.specs.Utf8.{units_of};
ghost use Rattle.ep_move_words.specs.Moves.{asked_by, asked_in, asked_of, id_in, is_dash, may_be, way_in};

use ep_units::{NoMemory, PadId, Units};
use std::alloc::Global;

/// Which way a pad is moved.
#[derive(Clone, Copy, Debug, PartialEq, Eq)]
pub enum Way {
    /// Its history is written.
    Out,
    /// A history is read, and put into its file.
    In,
}

/// A pad of a folder that is to be moved.
#[derive(Drop)]
pub struct Move<'a> {
    pub way: Way,
    pub dir: &'a str,
    pub pad: PadId,
}

fn way_in(word: &str) -> Option<Way>
    ensures { result ≡ way_in word.now }
{
    if word == "export" {
        return Some(Way::Out);
    }
    if word == "import" {
        return Some(Way::In);
    }
    None
}

fn is_dash(word: &str) -> bool
    ensures { result ≡ is_dash word.now }
{
    match word.as_bytes() {
        [first, ..] => *first == b'-',
        [] => false,
    }
}

/// Which way words are moved of which neither begins with `-`.
fn may_be(first: &str, dir: &str, pad: &str) -> Option<Way>
    ensures { result ≡ may_be first.now dir.now pad.now }
{
    if is_dash(dir) || is_dash(pad) {
        return None;
    }
    way_in(first)
}

/// The pad of a word.
fn id_in(alloc: Global, word: &str) -> Result<Option<PadId>, NoMemory>
    ensures { IfOk result (λ pad. pad ≡ id_in (units_of word.now)) }
{
    let units = Units::from_str(alloc, word)?;
    let id = PadId::read(alloc, &units)?;
    Ok(id)
}

/// What three words ask for.
fn asked_by<'a>(
    alloc: Global,
    first: &str,
    dir: &'a str,
    pad: &str,
) -> Result<Option<Move<'a>>, NoMemory>
    ensures { IfOk result (λ asked. option_map asked_of asked ≡ asked_by (may_be first.now dir.entry.now pad.now) dir.entry.now (id_in (units_of pad.now))) }
{
    let Some(way) = may_be(first, dir, pad) else {
        return Ok(None);
    };
    let Some(pad) = id_in(alloc, pad)? else {
        return Ok(None);
    };
    Ok(Some(Move { way, dir, pad }))
}

/// What the words behind the program's name ask for, where it is that a pad be moved.
#[tactic(auto, using(crate::proofs::Ids::none_but_three))]
pub fn read_move<'a>(alloc: Global, words: &'a [String]) -> Result<Option<Move<'a>>, NoMemory>
    ensures { IfOk result (λ asked. option_map asked_of asked ≡ asked_in (map string_bytes words.entry.now)) }
{
    if words.len() != 3 {
        return Ok(None);
    }
    match words {
        [first, dir, pad] => asked_by(alloc, first.as_str(), dir.as_str(), pad.as_str()),
        _ => unreachable!(),
    }
}
