//! The message of a value.

use crate::asked::{change, changes, doc, flag, ids, member, session, text, units, whole};
use crate::stop::Stop;
use ep_units::Units;
use ep_wire::{ClientMsg, Resume, ServerMsg, Word};
use serde_json::Value;
use std::alloc::Global;

fn whole_or_null(value: &Value, name: &str) -> Result<Option<u64>, Stop> {
    if member(value, name)?.is_null() {
        Ok(None)
    } else {
        Ok(Some(whole(value, name)?))
    }
}

fn units_or_null(alloc: Global, value: &Value, name: &str) -> Result<Option<Units>, Stop> {
    if member(value, name)?.is_null() {
        Ok(None)
    } else {
        Ok(Some(units(alloc, value, name)?))
    }
}

fn resume(alloc: Global, value: &Value) -> Result<Option<Resume>, Stop> {
    if value.is_null() {
        return Ok(None);
    }
    let rev = whole(value, "rev")?;
    let birth = whole_or_null(value, "birth")?;
    let author = units_or_null(alloc, value, "author")?;
    Ok(Some(Resume { rev, birth, author }))
}

fn ready(alloc: Global, value: &Value) -> Result<ClientMsg, Stop> {
    let back = member(value, "resume")?;
    let pad = units(alloc, value, "pad")?;
    let token = units(alloc, value, "token")?;
    let sessions = ids(alloc, value, "sessions")?;
    let resume = resume(alloc, back)?;
    Ok(ClientMsg::Ready {
        pad,
        token,
        sessions,
        resume,
    })
}

fn edit(alloc: Global, value: &Value) -> Result<ClientMsg, Stop> {
    let base = whole(value, "base")?;
    let change = change(alloc, value)?;
    Ok(ClientMsg::Edit { base, change })
}

pub fn client_message(alloc: Global, value: &Value) -> Result<ClientMsg, Stop> {
    match text(value, "kind")? {
        "Ready" => ready(alloc, value),
        "Edit" => edit(alloc, value),
        "Slide" => Ok(ClientMsg::Slide {
            start: whole(value, "start")?,
            granularity: whole(value, "granularity")?,
            request: whole(value, "request")?,
        }),
        "Other" => Ok(ClientMsg::Other),
        _ => Err(Stop::Wrong),
    }
}

fn vars(alloc: Global, value: &Value) -> Result<ServerMsg, Stop> {
    let read_only = flag(value, "read_only")?;
    let session = session(value, "session")?;
    let birth = whole(value, "birth")?;
    let rev = whole(value, "rev")?;
    let time = whole(value, "time")?;
    let attributed = member(value, "doc")?;
    let pad = units(alloc, value, "pad")?;
    let author = units(alloc, value, "author")?;
    let doc = doc(alloc, attributed)?;
    Ok(ServerMsg::Vars {
        pad,
        author,
        read_only,
        session,
        birth,
        rev,
        doc,
        time,
    })
}

fn news(alloc: Global, value: &Value) -> Result<ServerMsg, Stop> {
    let rev = whole(value, "rev")?;
    let session = session(value, "session")?;
    let time = whole(value, "time")?;
    let delta = whole(value, "delta")?;
    let author = units(alloc, value, "author")?;
    let change = change(alloc, value)?;
    Ok(ServerMsg::News {
        rev,
        change,
        author,
        session,
        time,
        delta,
    })
}

fn reconnect(alloc: Global, value: &Value) -> Result<ServerMsg, Stop> {
    let current = session(value, "current")?;
    let birth = whole(value, "birth")?;
    let head = whole(value, "head")?;
    let rev = whole(value, "rev")?;
    let session = session(value, "session")?;
    let time = whole(value, "time")?;
    let author = units(alloc, value, "author")?;
    let change = change(alloc, value)?;
    Ok(ServerMsg::Reconnect {
        current,
        birth,
        head,
        rev,
        change,
        author,
        session,
        time,
    })
}

fn slid(alloc: Global, value: &Value) -> Result<ServerMsg, Stop> {
    let start = whole(value, "start")?;
    let reached = whole(value, "reached")?;
    let granularity = whole(value, "granularity")?;
    let request = whole(value, "request")?;
    let forward = changes(alloc, value, "forward")?;
    let backward = changes(alloc, value, "backward")?;
    Ok(ServerMsg::Slid {
        start,
        reached,
        granularity,
        request,
        forward,
        backward,
    })
}

fn word(told: &str) -> Result<Word, Stop> {
    match told {
        "userdup" => Ok(Word::UserDup),
        "deleted" => Ok(Word::Deleted),
        "badChangeset" => Ok(Word::BadChangeset),
        "badMessage" => Ok(Word::BadMessage),
        "deny" => Ok(Word::Deny),
        "full" => Ok(Word::Full),
        "store" => Ok(Word::Store),
        _ => Err(Stop::Wrong),
    }
}

pub fn server_message(alloc: Global, value: &Value) -> Result<ServerMsg, Stop> {
    match text(value, "kind")? {
        "Vars" => vars(alloc, value),
        "Accepted" => Ok(ServerMsg::Accepted {
            rev: whole(value, "rev")?,
            session: session(value, "session")?,
        }),
        "News" => news(alloc, value),
        "Reconnect" => reconnect(alloc, value),
        "ReconnectNone" => Ok(ServerMsg::ReconnectNone {
            current: session(value, "current")?,
            birth: whole(value, "birth")?,
            head: whole(value, "head")?,
            rev: whole(value, "rev")?,
        }),
        "Slid" => slid(alloc, value),
        "Closing" => Ok(ServerMsg::Closing(word(text(value, "word")?)?)),
        _ => Err(Stop::Wrong),
    }
}
