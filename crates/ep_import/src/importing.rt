//! Reading a history.

ghost use Rattle.std.specs.Prelude.{◌≡◌, ◌↔◌, ◌<◌, ◌^◌, IfOk, IsTrue, Ok};
ghost use Rattle.serde_json.specs.View.{view};
ghost use Rattle.ep_units.specs.Utf8.{units_of};
ghost use Rattle.ep_apply.specs.Documents.{insertion};
ghost use Rattle.ep_csread.specs.Reading.{reading_attribs};
ghost use Rattle.ep_past.specs.Revisions.{AreRevisions};
ghost use Rattle.ep_import.specs.Answer.{Answers, Gives};
ghost use Rattle.ep_import.specs.Imported.{Compares, Imports, ReadsObject, Rest, json_in};
ghost use Rattle.ep_import.specs.Seen.{front_view, revs_of, said};
ghost use Rattle.ep_import.specs.Steps.{pool_refusal};

use crate::bad::ImportBad;
use crate::history::History;
use crate::members::flag;
use crate::place::Place;
use crate::replaying::replayed;
use crate::rows::{Front, read_front, rows};
use ep_apply::Doc;
use ep_csread::{ReadBad, read_attribs};
use ep_export::pad_key;
use ep_pool::{Pool, PoolBad};
use ep_replay::{Replay, same_change};
use ep_units::{NoMemory, PadId};
use ep_wire_words::members::units_from;
use serde_json::Value;
use serde_json::error::Category;
use std::alloc::Global;

/// So many bytes a text may have.
pub const MOST_BYTES: u64 = 268_435_456;

/// The JSON of a text within the limit.
fn json(alloc: Global, text: &str) -> Result<Value, ImportBad>
    ensures { Gives view result (json_in text.now) }
{
    let bytes = text.len() as u64;
    if bytes > MOST_BYTES {
        return Err(ImportBad::TooBig(bytes));
    }
    match Value::from_str(alloc, text) {
        Ok(value) => Ok(value),
        Err(error) if error.classify() == Category::Memory => Err(ImportBad::NoMemory),
        Err(_) => Err(ImportBad::NotJson),
    }
}

/// Whether a text with these attributes is a document.
#[tactic(auto, using(crate::proofs::Told::text_refused))]
fn is_text(
    alloc: Global,
    pool: &Pool,
    text: &str,
    attribs: &str,
    doc: &Doc,
) -> Result<bool, NoMemory>
    ensures { IfOk result (λ is. IsTrue is ↔ (reading_attribs pool.now.pairs (units_of text.now) (units_of attribs.now) ≡ Ok (insertion doc.now))) }
{
    let text = units_from(alloc, text)?;
    let attribs = units_from(alloc, attribs)?;
    match read_attribs(alloc, &text, &attribs, pool) {
        Ok(change) => {
            let insertion = doc.as_insert(alloc)?;
            Ok(same_change(&change, &insertion))
        }
        Err(ReadBad::NoMemory) => Err(NoMemory),
        Err(_) => Ok(false),
    }
}

/// The history, where the attributed text is its last document.
#[tactic(auto, using(crate::proofs::Told::compares_same, crate::proofs::Told::compares_other))]
fn compared(
    alloc: Global,
    pool: &Pool,
    front: Front<'_>,
    public: bool,
    replay: Replay,
) -> Result<History, ImportBad>
    ensures { Answers said (Compares pool.now.pairs (front_view front.entry) public (revs_of replay)) result }
{
    if !is_text(alloc, pool, front.text, front.attribs, &replay.doc)? {
        return Err(ImportBad::Replay);
    }
    let Replay { revs, .. } = replay;
    Ok(History { revs, public })
}

/// The history that the rest says with the pool.
fn rest(
    alloc: Global,
    value: &Value,
    key: &str,
    front: Front<'_>,
    pool: &Pool,
) -> Result<History, ImportBad>
    requires { front.head < 2 ^ 53 }
    ensures { Answers said (Rest key.now (view value.now) (front_view front.entry) pool.now.pairs) result }
{
    let public = flag(front.pad, "publicStatus", Place::PublicStatus)?;
    let rows = rows(alloc, value, key, front.head + 1)?;
    let replay = replayed(alloc, &rows, pool)?;
    compared(alloc, pool, front, public, replay)
}

/// A value that is no pool is wrong as a whole.
fn refusal_of(why: PoolBad) -> ImportBad
    ensures { result ≡ pool_refusal why }
{
    match why {
        PoolBad::Shape(_) | PoolBad::Gap(_) | PoolBad::Twice(_) => ImportBad::Shape(Place::Pool),
        PoolBad::NoMemory => ImportBad::NoMemory,
    }
}

/// The history that the object says.
fn object(alloc: Global, value: &Value, key: &str) -> Result<History, ImportBad>
    ensures { Answers said (ReadsObject key.now (view value.now)) result }
{
    let front = read_front(value, key)?;
    match Pool::from_json(alloc, front.pool) {
        Ok(pool) => rest(alloc, value, key, front, &pool),
        Err(why) => Err(refusal_of(why)),
    }
}

/// The history that a text says of a pad of this id.
///
/// Members that aren't named in `specs/Imported` are ignored.
pub fn import(alloc: Global, pad: &PadId, text: &str) -> Result<History, ImportBad>
    ensures answer { Answers said (Imports pad.now text.now) result }
    ensures revisions { IfOk result (λ h. AreRevisions h.revs.items) }
{
    let value = json(alloc, text)?;
    let key = pad_key(alloc, pad)?;
    object(alloc, &value, key.as_str())
}
