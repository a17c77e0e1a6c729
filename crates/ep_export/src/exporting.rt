//! Writing a history.

ghost use Rattle.std.specs.Prelude.{◌≡◌, ◌≤◌, ◌↔◌, ℕ, length, map, Some, None, IfOk, IsErrOf, OnOk};
ghost use Rattle.std.specs.String.{string_bytes};
ghost use Rattle.serde_json.specs.Data.{put as put_member};
ghost use Rattle.serde_json.specs.View.{members_view, view};
ghost use Rattle.serde_json.specs.Read.{read};
ghost use Rattle.serde_json.specs.Written.{compact_text};
ghost use Rattle.ep_cs.specs.Made.{AreMade};
ghost use Rattle.ep_csread.specs.Spelling.{printed};
ghost use Rattle.ep_history.specs.History.{newline};
ghost use Rattle.ep_export.specs.Exported.{changes_of, exported, head_of, last_doc, late, pad_json, pool_of, spelled_json};
ghost use Rattle.ep_export.specs.Keys.{rev_key};
ghost use Rattle.ep_export.specs.Spelled.{put_spelled};

use crate::bad::ExportBad;
use crate::keys::{pad_key, rev_key};
use crate::values::{pad_value, rev_value};
use ep_apply::{Doc, apply};
use ep_cs::Change;
use ep_csread::{Wires, for_wire_all};
use ep_history::Rev;
use ep_pool::Pool;
use ep_units::{NoMemory, PadId, Units};
use serde_json::{Map, Value, put};
use std::alloc::Global;

/// The greatest whole number that a browser has exactly.
const GREATEST: u64 = 9_007_199_254_740_991;

/// Puts a revision, whose changeset is spelled so.
fn put_rev(
    alloc: Global,
    key: &str,
    n: u64,
    spelled: &Units,
    rev: &Rev,
    members: &mut Map<String, Value>,
) -> Result<(), NoMemory>
    ensures { OnOk result (members_view members.new.entries ≡ put_member (rev_key key.now n) (spelled_json spelled.now rev.now) (members_view members.old.entries)) }
{
    let key = rev_key(alloc, key, n)?;
    let value = rev_value(alloc, spelled, rev)?;
    put(members, alloc, key.as_str(), value)?;
    Ok(())
}

/// Puts the revisions, whose changesets are spelled so.
fn put_revs(
    alloc: Global,
    key: &str,
    spelled: &[Units],
    revs: &[Rev],
    members: &mut Map<String, Value>,
) -> Result<(), NoMemory>
    requires { length spelled.now ≡ length revs.now }
    ensures { OnOk result (members_view members.new.entries ≡ put_spelled key.now 0 spelled.now revs.now (members_view members.old.entries)) }
{
    for n in 0..revs.len() {
        put_rev(alloc, key, n as u64, &spelled[n], &revs[n], members)?;
    }
    Ok(())
}

/// The change of each.
fn changes(alloc: Global, revs: &[Rev]) -> Result<Vec<Change>, NoMemory>
    ensures { IfOk result (λ cs. cs.items ≡ changes_of revs.now) }
{
    let mut changes = Vec::with_capacity(alloc, revs.len())?;
    for rev in revs {
        changes.push(rev.change.copy(alloc)?)?;
    }
    Ok(changes)
}

/// The document after the last.
fn last_doc(alloc: Global, revs: &[Rev]) -> Result<Doc, NoMemory>
    requires { AreMade newline (changes_of revs.now) }
    ensures { IfOk result (λ doc. doc ≡ last_doc revs.now) }
{
    let mut doc = Doc::newline(alloc)?;
    for rev in revs {
        doc = apply(alloc, &doc, &rev.change)?;
    }
    Ok(doc)
}

/// The first revision whose time is too great.
fn late(revs: &[Rev]) -> Option<u64>
    ensures { result ≡ late 0 revs.now }
{
    for (n, rev) in revs.iter().enumerate() {
        if rev.time > GREATEST {
            return Some(n as u64);
        }
    }
    None
}

/// What the pad is, where its revisions name a pool of these pairs.
fn front(alloc: Global, revs: &[Rev], pool: &Pool, public: bool) -> Result<Value, NoMemory>
    requires { AreMade newline (changes_of revs.now) }
    ensures { IfOk result (λ v. view v ≡ pad_json pool.now.pairs (last_doc revs.now) (head_of revs.now) public) }
{
    let doc = last_doc(alloc, revs)?;
    let head = revs.len().saturating_sub(1) as u64;
    pad_value(alloc, &doc, pool, head, public)
}

/// The changesets, and their pool.
fn spelled(alloc: Global, revs: &[Rev]) -> Result<Wires, NoMemory>
    ensures texts { IfOk result (λ wires. wires.texts.items ≡ map (printed (pool_of revs.now)) (changes_of revs.now)) }
    ensures pool { IfOk result (λ wires. wires.pool.pairs ≡ pool_of revs.now) }
{
    let changes = changes(alloc, revs)?;
    for_wire_all(alloc, &changes)
}

/// The exported object.
fn object(alloc: Global, pad: &PadId, revs: &[Rev], public: bool) -> Result<Value, NoMemory>
    requires { AreMade newline (changes_of revs.now) }
    ensures { IfOk result (λ v. view v ≡ exported pad.now revs.now public) }
{
    let key = pad_key(alloc, pad)?;
    let wires = spelled(alloc, revs)?;
    let front = front(alloc, revs, &wires.pool, public)?;
    let mut members = Map::new(alloc);
    put(&mut members, alloc, key.as_str(), front)?;
    put_revs(alloc, key.as_str(), &wires.texts, revs, &mut members)?;
    Ok(Value::Object(members))
}

/// The text of a birth's whole history: its revisions, the first of them its creation's, and whether anybody may enter.
pub fn export(alloc: Global, pad: &PadId, revs: &[Rev], public: bool) -> Result<String, ExportBad>
    requires some { 1 ≤ length revs.now }
    requires made { AreMade newline (changes_of revs.now) }
    ensures text { IfOk result (λ s. string_bytes s ≡ compact_text (exported pad.now revs.now public)) }
    ensures reads { IfOk result (λ s. read (string_bytes s) ≡ Some (exported pad.now revs.now public)) }
    ensures in_time { OnOk result (late 0 revs.now ≡ None) }
    ensures time { (n : ℕ) → IsErrOf result (ExportBad.Time n) ↔ (late 0 revs.now ≡ Some n) }
{
    if let Some(n) = late(revs) {
        return Err(ExportBad::Time(n));
    }
    let value = object(alloc, pad, revs, public)?;
    Ok(value.to_string(alloc)?)
}
