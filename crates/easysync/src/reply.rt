//! Replies.

use crate::refusal::Refusal;
use ep_apply::Doc;
use ep_cs::Change;
use ep_csread::{Wires, for_wire, for_wire_all, print_attribs};
use ep_pool::Pool;
use ep_slider::Slides;
use ep_units::{NoMemory, Units};
use serde_json::{Map, Value};
use std::alloc::{AllocError, Global};

/// A reply, which is a JSON object.
pub struct Reply {
    members: Map<String, Value>,
}

impl Drop for Reply {
    fn drop(self) {
        let Reply { members: _ } = self;
    }
}

impl Reply {
    fn new(alloc: Global) -> Reply {
        Reply {
            members: Map::new(alloc),
        }
    }

    fn put(&mut self, alloc: Global, name: &str, value: Value) -> Result<(), AllocError> {
        serde_json::put(&mut self.members, alloc, name, value)
    }

    fn put_text(&mut self, alloc: Global, name: &str, text: &Units) -> Result<(), NoMemory> {
        let text = text.to_text_lossy(alloc)?;
        Ok(self.put(alloc, name, Value::String(text))?)
    }

    fn put_texts(&mut self, alloc: Global, name: &str, texts: &[Units]) -> Result<(), NoMemory> {
        let texts = array(alloc, texts)?;
        Ok(self.put(alloc, name, texts)?)
    }

    fn put_pool(&mut self, alloc: Global, pool: &Pool) -> Result<(), NoMemory> {
        let pool = pool.to_json(alloc)?;
        Ok(self.put(alloc, "pool", pool)?)
    }

    /// The line of the reply.
    pub fn line(self, alloc: Global) -> Result<String, AllocError> {
        let Reply { members } = self;
        Value::Object(members).to_string(alloc)
    }
}

/// An array of texts.
fn array(alloc: Global, texts: &[Units]) -> Result<Value, NoMemory> {
    let mut values = Vec::with_capacity(alloc, texts.len())?;
    for text in texts {
        values.push(Value::String(text.to_text_lossy(alloc)?))?;
    }
    Ok(Value::Array(values))
}

/// A changeset in wire form.
pub fn change_reply(alloc: Global, change: &Change) -> Result<Reply, NoMemory> {
    let wire = for_wire(alloc, change)?;
    let mut reply = Reply::new(alloc);
    reply.put_text(alloc, "changeset", &wire.text)?;
    reply.put_pool(alloc, &wire.pool)?;
    Ok(reply)
}

/// Tells the attributes of a document with their pool.
fn put_attribs(alloc: Global, doc: &Doc, reply: &mut Reply) -> Result<(), NoMemory> {
    let insert = doc.as_insert(alloc)?;
    let wire = print_attribs(alloc, &insert)?;
    reply.put_text(alloc, "attribs", &wire.text)?;
    reply.put_pool(alloc, &wire.pool)
}

/// A document with the pool of its attributes.
pub fn doc_reply(alloc: Global, doc: &Doc) -> Result<Reply, NoMemory> {
    let mut reply = Reply::new(alloc);
    put_attribs(alloc, doc, &mut reply)?;
    let text = doc.text(alloc)?;
    reply.put_text(alloc, "text", &text)?;
    Ok(reply)
}

pub fn fits_reply(alloc: Global) -> Result<Reply, AllocError> {
    let mut reply = Reply::new(alloc);
    reply.put(alloc, "fits", Value::Bool(true))?;
    Ok(reply)
}

pub fn refusal_reply(alloc: Global, refusal: Refusal) -> Result<Reply, AllocError> {
    let reason = format!(in alloc; "{refusal}")?;
    let mut reply = Reply::new(alloc);
    reply.put(alloc, "refused", Value::String(reason))?;
    Ok(reply)
}

/// All forward changes, and then all backward ones, in wire form.
fn wires(alloc: Global, slides: Slides) -> Result<Wires, NoMemory> {
    let mut changes = slides.forward;
    let mut backward = slides.backward;
    changes.append(&mut backward)?;
    for_wire_all(alloc, &changes)
}

/// The steps of a history with one pool, numbered over all forward changesets and then all backward ones.
pub fn slides_reply(alloc: Global, slides: Slides) -> Result<Reply, NoMemory> {
    let steps = slides.forward.len();
    let wires = wires(alloc, slides)?;
    let (forward, backward) = wires.texts.split_at(steps.min(wires.texts.len()));
    let mut reply = Reply::new(alloc);
    reply.put_texts(alloc, "backward", backward)?;
    reply.put_texts(alloc, "forward", forward)?;
    reply.put_pool(alloc, &wires.pool)?;
    Ok(reply)
}
