//! The value of a message.

use ep_apply::Doc;
use ep_cs::Change;
use ep_csread::{Wire, for_wire, print_attribs};
use ep_units::{NoMemory, Session, Units};
use ep_wire::{ClientMsg, Listed, Resume, ServerMsg, Word};
use ep_wire_words::session::session_text;
use serde_json::{Map, Value};
use std::alloc::Global;

/// The members of a value that is told.
#[derive(Drop)]
struct Told {
    alloc: Global,
    members: Map<String, Value>,
}

impl Told {
    fn nothing(alloc: Global) -> Told {
        Told {
            alloc,
            members: Map::new(alloc),
        }
    }

    fn put(&mut self, name: &str, value: Value) -> Result<(), NoMemory> {
        Ok(serde_json::put(&mut self.members, self.alloc, name, value)?)
    }

    fn word(&mut self, name: &str, word: &str) -> Result<(), NoMemory> {
        let word = Value::try_from_str(self.alloc, word)?;
        self.put(name, word)
    }

    fn whole(&mut self, name: &str, number: u64) -> Result<(), NoMemory> {
        self.put(name, Value::from(number))
    }

    fn units(&mut self, name: &str, units: &Units) -> Result<(), NoMemory> {
        let text = Value::String(units.to_text_lossy(self.alloc)?);
        self.put(name, text)
    }

    fn session(&mut self, name: &str, at: Session) -> Result<(), NoMemory> {
        let text = session_text(self.alloc, at)?;
        self.word(name, text.as_str())
    }

    /// Operations with their own pool.
    fn wire(&mut self, name: &str, wire: &Wire) -> Result<(), NoMemory> {
        self.units(name, &wire.text)?;
        let pool = wire.pool.to_json(self.alloc)?;
        self.put("pool", pool)
    }

    fn change(&mut self, change: &Change) -> Result<(), NoMemory> {
        let wire = for_wire(self.alloc, change)?;
        self.wire("changeset", &wire)
    }

    fn resume(&mut self, resume: &Resume) -> Result<(), NoMemory> {
        self.whole("rev", resume.rev)?;
        match resume.birth {
            Some(birth) => self.whole("birth", birth)?,
            None => self.put("birth", Value::Null)?,
        }
        match &resume.author {
            Some(author) => self.units("author", author),
            None => self.put("author", Value::Null),
        }
    }

    fn text(&mut self, doc: &Doc) -> Result<(), NoMemory> {
        let text = doc.text(self.alloc)?;
        self.units("text", &text)
    }

    fn doc(&mut self, doc: &Doc) -> Result<(), NoMemory> {
        let wire = attribs(self.alloc, doc)?;
        self.wire("attribs", &wire)?;
        self.text(doc)
    }

    fn object(self) -> Value {
        Value::Object(self.members)
    }
}

/// A document's attributes in wire form.
fn attribs(alloc: Global, doc: &Doc) -> Result<Wire, NoMemory> {
    let change = doc.as_insert(alloc)?;
    print_attribs(alloc, &change)
}

fn change(alloc: Global, change: &Change) -> Result<Value, NoMemory> {
    let mut told = Told::nothing(alloc);
    told.change(change)?;
    Ok(told.object())
}

fn changes(alloc: Global, changes: &Listed<Change>) -> Result<Value, NoMemory> {
    let mut values = Vec::new(alloc);
    for each in changes.as_slice() {
        values.push(change(alloc, each)?)?;
    }
    Ok(Value::Array(values))
}

fn doc(alloc: Global, doc: &Doc) -> Result<Value, NoMemory> {
    let mut told = Told::nothing(alloc);
    told.doc(doc)?;
    Ok(told.object())
}

fn ids(alloc: Global, ids: &Listed<Units>) -> Result<Value, NoMemory> {
    let mut values = Vec::new(alloc);
    for id in ids.as_slice() {
        values.push(Value::String(id.to_text_lossy(alloc)?))?;
    }
    Ok(Value::Array(values))
}

fn resume(alloc: Global, resume: &Option<Resume>) -> Result<Value, NoMemory> {
    let Some(resume) = resume else {
        return Ok(Value::Null);
    };
    let mut told = Told::nothing(alloc);
    told.resume(resume)?;
    Ok(told.object())
}

fn tell_client(told: &mut Told, message: &ClientMsg) -> Result<(), NoMemory> {
    match message {
        ClientMsg::Ready {
            pad,
            token,
            sessions,
            resume: back,
        } => {
            told.word("kind", "Ready")?;
            told.units("pad", pad)?;
            told.units("token", token)?;
            told.put("sessions", ids(told.alloc, sessions)?)?;
            told.put("resume", resume(told.alloc, back)?)
        }
        ClientMsg::Edit { base, change } => {
            told.word("kind", "Edit")?;
            told.whole("base", *base)?;
            told.change(change)
        }
        ClientMsg::Slide {
            start,
            granularity,
            request,
        } => {
            told.word("kind", "Slide")?;
            told.whole("start", *start)?;
            told.whole("granularity", *granularity)?;
            told.whole("request", *request)
        }
        ClientMsg::Other => told.word("kind", "Other"),
    }
}

pub fn client_value(alloc: Global, message: &ClientMsg) -> Result<Value, NoMemory> {
    let mut told = Told::nothing(alloc);
    tell_client(&mut told, message)?;
    Ok(told.object())
}

fn word(word: Word) -> &'static str {
    match word {
        Word::UserDup => "userdup",
        Word::Deleted => "deleted",
        Word::BadChangeset => "badChangeset",
        Word::BadMessage => "badMessage",
        Word::Deny => "deny",
        Word::Full => "full",
        Word::Store => "store",
    }
}

fn tell_revision(told: &mut Told, message: &ServerMsg) -> Result<(), NoMemory> {
    match message {
        ServerMsg::Accepted { rev, session } => {
            told.word("kind", "Accepted")?;
            told.whole("rev", *rev)?;
            told.session("session", *session)
        }
        ServerMsg::News {
            rev,
            change,
            author,
            session,
            time,
            delta,
        } => {
            told.word("kind", "News")?;
            told.whole("rev", *rev)?;
            told.change(change)?;
            told.units("author", author)?;
            told.session("session", *session)?;
            told.whole("time", *time)?;
            told.whole("delta", *delta)
        }
        _ => Ok(()),
    }
}

fn tell_resumption(told: &mut Told, message: &ServerMsg) -> Result<(), NoMemory> {
    match message {
        ServerMsg::Reconnect {
            current,
            birth,
            head,
            rev,
            change,
            author,
            session,
            time,
        } => {
            told.word("kind", "Reconnect")?;
            told.session("current", *current)?;
            told.whole("birth", *birth)?;
            told.whole("head", *head)?;
            told.whole("rev", *rev)?;
            told.change(change)?;
            told.units("author", author)?;
            told.session("session", *session)?;
            told.whole("time", *time)
        }
        ServerMsg::ReconnectNone {
            current,
            birth,
            head,
            rev,
        } => {
            told.word("kind", "ReconnectNone")?;
            told.session("current", *current)?;
            told.whole("birth", *birth)?;
            told.whole("head", *head)?;
            told.whole("rev", *rev)
        }
        _ => Ok(()),
    }
}

fn tell_pad(told: &mut Told, message: &ServerMsg) -> Result<(), NoMemory> {
    match message {
        ServerMsg::Vars {
            pad,
            author,
            read_only,
            session,
            birth,
            rev,
            doc: attributed,
            time,
        } => {
            told.word("kind", "Vars")?;
            told.units("pad", pad)?;
            told.units("author", author)?;
            told.put("read_only", Value::Bool(*read_only))?;
            told.session("session", *session)?;
            told.whole("birth", *birth)?;
            told.whole("rev", *rev)?;
            told.put("doc", doc(told.alloc, attributed)?)?;
            told.whole("time", *time)
        }
        ServerMsg::Slid {
            start,
            reached,
            granularity,
            request,
            forward,
            backward,
        } => {
            told.word("kind", "Slid")?;
            told.whole("start", *start)?;
            told.whole("reached", *reached)?;
            told.whole("granularity", *granularity)?;
            told.whole("request", *request)?;
            told.put("forward", changes(told.alloc, forward)?)?;
            told.put("backward", changes(told.alloc, backward)?)
        }
        _ => Ok(()),
    }
}

fn tell_server(told: &mut Told, message: &ServerMsg) -> Result<(), NoMemory> {
    tell_revision(told, message)?;
    tell_resumption(told, message)?;
    tell_pad(told, message)?;
    if let ServerMsg::Closing(why) = message {
        told.word("kind", "Closing")?;
        told.word("word", word(*why))?;
    }
    Ok(())
}

pub fn server_value(alloc: Global, message: &ServerMsg) -> Result<Value, NoMemory> {
    let mut told = Told::nothing(alloc);
    tell_server(&mut told, message)?;
    Ok(told.object())
}
