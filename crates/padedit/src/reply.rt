//! Replies.

use crate::refusal::Refusal;
use ep_apply::Doc;
use ep_cs::Change;
use ep_csread::{Wire, for_wire, print_attribs};
use ep_editor::{Editor, Entered, State};
use ep_pool::Pool;
use ep_units::{NoMemory, Units};
use ep_wire::write_client;
use ep_wire_words::{ClientMsg, Word};
use serde_json::{Map, Value};
use std::alloc::{AllocError, Global};

/// A reply, which is a JSON object.
pub struct Reply {
    members: Map<String, Value>,
}

impl Drop for Reply {
    fn drop(self) {
        let Reply { members: _ } = self;
    }
}

/// The word of a closing, as the server says it.
fn closing(word: Word) -> &'static str {
    match word {
        Word::UserDup => "userdup",
        Word::Deleted => "deleted",
        Word::BadChangeset => "badChangeset",
        Word::BadMessage => "badMessage",
        Word::Deny => "deny",
        Word::Full => "full",
        Word::Store => "store",
    }
}

impl Reply {
    /// With nothing more.
    pub fn new(alloc: Global) -> Reply {
        Reply {
            members: Map::new(alloc),
        }
    }

    pub fn put(&mut self, alloc: Global, name: &str, value: Value) -> Result<(), AllocError> {
        serde_json::put(&mut self.members, alloc, name, value)
    }

    /// An object within.
    pub fn put_reply(&mut self, alloc: Global, name: &str, reply: Reply) -> Result<(), AllocError> {
        let Reply { members } = reply;
        self.put(alloc, name, Value::Object(members))
    }

    fn put_word(&mut self, alloc: Global, name: &str, word: &str) -> Result<(), AllocError> {
        let word = String::from_str(alloc, word)?;
        self.put(alloc, name, Value::String(word))
    }

    pub fn put_text(&mut self, alloc: Global, name: &str, text: &Units) -> Result<(), NoMemory> {
        let text = text.to_text_lossy(alloc)?;
        Ok(self.put(alloc, name, Value::String(text))?)
    }

    fn put_pool(&mut self, alloc: Global, pool: &Pool) -> Result<(), NoMemory> {
        let pool = pool.to_json(alloc)?;
        Ok(self.put(alloc, "pool", pool)?)
    }

    /// A change, or a document as one of the empty text.
    pub fn put_wire(&mut self, alloc: Global, name: &str, wire: &Wire) -> Result<(), NoMemory> {
        self.put_text(alloc, name, &wire.text)?;
        self.put_pool(alloc, &wire.pool)
    }

    fn put_change(&mut self, alloc: Global, change: &Change) -> Result<(), NoMemory> {
        let wire = for_wire(alloc, change)?;
        self.put_wire(alloc, "change", &wire)
    }

    fn put_attribs(&mut self, alloc: Global, doc: &Doc) -> Result<(), NoMemory> {
        let insert = doc.as_insert(alloc)?;
        let wire = print_attribs(alloc, &insert)?;
        self.put_wire(alloc, "attribs", &wire)
    }

    fn put_doc_text(&mut self, alloc: Global, doc: &Doc) -> Result<(), NoMemory> {
        let text = doc.text(alloc)?;
        self.put_text(alloc, "text", &text)
    }

    pub fn put_doc(&mut self, alloc: Global, doc: &Doc) -> Result<(), NoMemory> {
        self.put_attribs(alloc, doc)?;
        self.put_doc_text(alloc, doc)
    }

    fn put_send(&mut self, alloc: Global, msg: &ClientMsg) -> Result<(), NoMemory> {
        let text = write_client(alloc, msg)?;
        Ok(self.put(alloc, "send", Value::String(text))?)
    }

    /// A message is to be sent.
    pub fn sends(alloc: Global, msg: &ClientMsg) -> Result<Reply, NoMemory> {
        let mut reply = Reply::new(alloc);
        reply.put_send(alloc, msg)?;
        Ok(reply)
    }

    /// It is to be sent, and all that there is to show is shown.
    pub fn resumes(alloc: Global, msg: &ClientMsg, pad: &Entered) -> Result<Reply, NoMemory> {
        let mut reply = Reply::shows(alloc, pad)?;
        reply.put_send(alloc, msg)?;
        Ok(reply)
    }

    /// The document of a revision.
    pub fn past(alloc: Global, doc: &Doc) -> Result<Reply, NoMemory> {
        let mut reply = Reply::new(alloc);
        reply.put_doc(alloc, doc)?;
        Ok(reply)
    }

    /// The view has changed so.
    pub fn changes(alloc: Global, change: &Change) -> Result<Reply, NoMemory> {
        let mut reply = Reply::new(alloc);
        reply.put_change(alloc, change)?;
        Ok(reply)
    }

    /// It has changed so, by this author.
    pub fn changes_by(alloc: Global, change: &Change, by: &Units) -> Result<Reply, NoMemory> {
        let mut reply = Reply::changes(alloc, change)?;
        reply.put_text(alloc, "by", by)?;
        Ok(reply)
    }

    /// The server closed.
    pub fn closes(alloc: Global, word: Word) -> Result<Reply, NoMemory> {
        let mut reply = Reply::new(alloc);
        reply.put_word(alloc, "closed", closing(word))?;
        Ok(reply)
    }

    /// The pad that was entered is gone, and another has its name.
    pub fn renewed(alloc: Global) -> Result<Reply, AllocError> {
        let mut reply = Reply::new(alloc);
        reply.put_word(alloc, "closed", "renewed")?;
        Ok(reply)
    }

    /// All that there is to show.
    pub fn shows(alloc: Global, pad: &Entered) -> Result<Reply, NoMemory> {
        let mut reply = Reply::new(alloc);
        reply.put_doc(alloc, pad.view())?;
        reply.put_text(alloc, "author", &pad.author)?;
        reply.put(alloc, "readOnly", Value::Bool(pad.read_only))?;
        Ok(reply)
    }

    pub fn refuses(alloc: Global, refusal: Refusal) -> Result<Reply, AllocError> {
        let reason = format!(in alloc; "{refusal}")?;
        let mut reply = Reply::new(alloc);
        reply.put(alloc, "refused", Value::String(reason))?;
        Ok(reply)
    }

    /// What an editor inside of a pad is.
    fn put_inside(&mut self, alloc: Global, state: &State) -> Result<(), AllocError> {
        self.put(alloc, "canRedo", Value::Bool(state.can_redo))?;
        self.put(alloc, "canUndo", Value::Bool(state.can_undo))?;
        self.put(alloc, "rev", Value::from(state.rev))?;
        self.put(alloc, "unsent", Value::Bool(state.unsent))?;
        self.put(alloc, "waiting", Value::Bool(state.waiting))
    }

    /// What an editor is. Outside of a pad it has no revision.
    fn of_state(alloc: Global, state: Option<State>) -> Result<Reply, AllocError> {
        let mut members = Reply::new(alloc);
        let connected = match state {
            Some(state) => {
                members.put_inside(alloc, &state)?;
                state.connected
            }
            None => false,
        };
        members.put(alloc, "connected", Value::Bool(connected))?;
        Ok(members)
    }

    fn put_state(&mut self, alloc: Global, editor: &Editor) -> Result<(), AllocError> {
        let state = Reply::of_state(alloc, editor.state())?;
        self.put_reply(alloc, "state", state)
    }

    /// The line of the reply, with what the editor is.
    pub fn line(mut self, alloc: Global, editor: &Editor) -> Result<String, AllocError> {
        self.put_state(alloc, editor)?;
        let Reply { members } = self;
        Value::Object(members).to_string(alloc)
    }
}
