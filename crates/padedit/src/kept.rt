//! What is kept of an editor, as JSON.

ghost use Rattle.std.specs.Prelude.{◌≡◌, true, IfOk};
ghost use Rattle.ep_units.specs.Text.{is_well_formed};

use crate::members::Member;
use crate::refusal::Stopped;
use crate::reply::Reply;
use ep_apply::{Doc, apply, fits};
use ep_cs::Change;
use ep_csread::{ReadBad, for_wire, read, read_attribs};
use ep_editor::Kept;
use ep_pool::{Pool, PoolBad};
use ep_units::{NoMemory, Session, Units};
use ep_wire_words::WireBad;
use ep_wire_words::session::{session, session_text};
use serde_json::Value;
use std::alloc::Global;

impl From<PoolBad> for Stopped {
    fn from(bad: PoolBad) -> Stopped {
        match bad {
            PoolBad::NoMemory => Stopped::NoMemory,
            _ => Stopped::from(Member::Kept),
        }
    }
}

impl From<ReadBad> for Stopped {
    fn from(bad: ReadBad) -> Stopped {
        match bad {
            ReadBad::NoMemory => Stopped::NoMemory,
            _ => Stopped::from(Member::Kept),
        }
    }
}

impl From<WireBad> for Stopped {
    fn from(bad: WireBad) -> Stopped {
        match bad {
            WireBad::NoMemory => Stopped::NoMemory,
            _ => Stopped::from(Member::Kept),
        }
    }
}

// ---- it is read

fn value_in<'a>(value: &'a Value, name: &str) -> Result<&'a Value, Stopped> {
    Ok(value.get(name).ok_or(Member::Kept)?)
}

fn number_in(value: &Value, name: &str) -> Result<u64, Stopped> {
    Ok(value_in(value, name)?.as_u64().ok_or(Member::Kept)?)
}

fn flag_in(value: &Value, name: &str) -> Result<bool, Stopped> {
    Ok(value_in(value, name)?.as_bool().ok_or(Member::Kept)?)
}

fn units_in(alloc: Global, value: &Value, name: &str) -> Result<Units, Stopped>
    ensures { IfOk result (λ u. is_well_formed u ≡ true) }
{
    let text = value_in(value, name)?.as_str().ok_or(Member::Kept)?;
    Ok(Units::from_str(alloc, text)?)
}

fn pool_in(alloc: Global, value: &Value) -> Result<Pool, Stopped> {
    Ok(Pool::from_json(alloc, value_in(value, "pool")?)?)
}

fn read_change(alloc: Global, text: &Units, pool: &Pool) -> Result<Change, Stopped>
    requires { is_well_formed text.now ≡ true }
{
    Ok(read(alloc, text, pool)?)
}

fn change_in(alloc: Global, value: &Value) -> Result<Change, Stopped> {
    let pool = pool_in(alloc, value)?;
    let text = units_in(alloc, value, "changeset")?;
    read_change(alloc, &text, &pool)
}

fn read_insertion(alloc: Global, value: &Value, pool: &Pool) -> Result<Change, Stopped> {
    let text = units_in(alloc, value, "text")?;
    let attribs = units_in(alloc, value, "attribs")?;
    Ok(read_attribs(alloc, &text, &attribs, pool)?)
}

/// The document that a change makes of none.
fn made(alloc: Global, insertion: &Change) -> Result<Doc, Stopped> {
    let empty = Doc::empty(alloc);
    if fits(&empty, insertion).is_err() {
        return Err(Stopped::from(Member::Kept));
    }
    Ok(apply(alloc, &empty, insertion)?)
}

fn doc_in(alloc: Global, value: &Value) -> Result<Doc, Stopped> {
    let pool = pool_in(alloc, value)?;
    let insertion = read_insertion(alloc, value, &pool)?;
    made(alloc, &insertion)
}

/// What was submitted, where there is something.
fn sent_in(alloc: Global, kept: &Value) -> Result<Option<(Session, Change)>, Stopped> {
    let Some(sent) = kept.get("sent") else {
        return Ok(None);
    };
    let session = session(sent, ep_wire_words::Member::Session)?;
    Ok(Some((session, change_in(alloc, sent)?)))
}

fn kept_in(alloc: Global, value: &Value) -> Result<Kept, Stopped> {
    let read_only = flag_in(value, "readOnly")?;
    let birth = number_in(value, "birth")?;
    let rev = number_in(value, "rev")?;
    let author = units_in(alloc, value, "author")?;
    let doc = doc_in(alloc, value_in(value, "doc")?)?;
    let sent = sent_in(alloc, value)?;
    let local = change_in(alloc, value_in(value, "local")?)?;
    Ok(Kept {
        author,
        read_only,
        birth,
        rev,
        doc,
        sent,
        local,
    })
}

/// What was kept, where the request has it.
pub fn kept_of(alloc: Global, request: &Value) -> Result<Option<Kept>, Stopped> {
    match request.get(Member::Kept.name()) {
        Some(value) => Ok(Some(kept_in(alloc, value)?)),
        None => Ok(None),
    }
}

// ---- it is written

fn change_reply(alloc: Global, change: &Change) -> Result<Reply, NoMemory> {
    let wire = for_wire(alloc, change)?;
    let mut reply = Reply::new(alloc);
    reply.put_wire(alloc, "changeset", &wire)?;
    Ok(reply)
}

fn doc_reply(alloc: Global, doc: &Doc) -> Result<Reply, NoMemory> {
    let mut reply = Reply::new(alloc);
    reply.put_doc(alloc, doc)?;
    Ok(reply)
}

fn sent_reply(alloc: Global, session: Session, change: &Change) -> Result<Reply, NoMemory> {
    let mut reply = change_reply(alloc, change)?;
    let session = session_text(alloc, session)?;
    reply.put(alloc, "session", Value::String(session))?;
    Ok(reply)
}

/// Who it is, and the revision.
fn put_place(reply: &mut Reply, alloc: Global, kept: &Kept) -> Result<(), NoMemory> {
    reply.put_text(alloc, "author", &kept.author)?;
    reply.put(alloc, "readOnly", Value::Bool(kept.read_only))?;
    reply.put(alloc, "birth", Value::from(kept.birth))?;
    Ok(reply.put(alloc, "rev", Value::from(kept.rev))?)
}

fn put_sent(reply: &mut Reply, alloc: Global, kept: &Kept) -> Result<(), NoMemory> {
    match &kept.sent {
        Some((session, change)) => {
            let sent = sent_reply(alloc, *session, change)?;
            Ok(reply.put_reply(alloc, "sent", sent)?)
        }
        None => Ok(()),
    }
}

fn put_local(reply: &mut Reply, alloc: Global, kept: &Kept) -> Result<(), NoMemory> {
    let local = change_reply(alloc, &kept.local)?;
    Ok(reply.put_reply(alloc, "local", local)?)
}

fn put_kept_doc(reply: &mut Reply, alloc: Global, kept: &Kept) -> Result<(), NoMemory> {
    let doc = doc_reply(alloc, &kept.doc)?;
    Ok(reply.put_reply(alloc, "doc", doc)?)
}

fn kept_reply(alloc: Global, kept: &Kept) -> Result<Reply, NoMemory> {
    let mut reply = Reply::new(alloc);
    put_place(&mut reply, alloc, kept)?;
    put_kept_doc(&mut reply, alloc, kept)?;
    put_sent(&mut reply, alloc, kept)?;
    put_local(&mut reply, alloc, kept)?;
    Ok(reply)
}

/// This is to be kept.
pub fn keeps(alloc: Global, kept: &Kept) -> Result<Reply, NoMemory> {
    let kept = kept_reply(alloc, kept)?;
    let mut reply = Reply::new(alloc);
    reply.put_reply(alloc, "kept", kept)?;
    Ok(reply)
}
