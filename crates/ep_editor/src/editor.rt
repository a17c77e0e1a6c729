//! The editor, with a call for each request.

ghost use Rattle.std.specs.Prelude.{◌≡◌, IfOk, None, Ok};
ghost use Rattle.ep_units.specs.Utf8.{units_of};
ghost use Rattle.ep_editor.specs.Comes.{Answers, Comes, FitsShown, PaintsShown, RemakesShown, changed, keeps_it, makes_again, nothing, resumes, said, sends, sends_if, slid};
ghost use Rattle.ep_editor.specs.Kept.{kept_fault};
ghost use Rattle.ep_editor.specs.Requests.{answer, begun, denied, heard_rev, is_busy, state_of, welcomed};
ghost use Rattle.ep_editor.specs.Requests.Request.{Edits, Enters, EntersAgain, Formats, Hears, Keeps, Loses, Redoes, Returns, Slides, Submits, Undoes};
ghost use Rattle.ep_editor.specs.declared.editor.Editor.TheVariants as editor;

use crate::bad::EditorBad;
use crate::entered::Entered;
use crate::kept::Kept;
use crate::ready::ready;
use ep_attr::AttrMap;
use ep_client::Client;
use ep_cs::Change;
use ep_hearing::{Meaning, Welcome, meant};
use ep_timeslider::{Slid, Slider};
use ep_undo::UndoClient;
use ep_units::Units;
use ep_wire::read_server;
use ep_wire_words::{ClientMsg, Listed, ServerMsg, Word};
use std::alloc::Global;
use std::mem::replace;

/// The most bytes of a message from a server.
const MOST_BYTES: u64 = 16_777_216;

/// What is wanted of a server.
#[derive(Drop)]
pub struct Wanted {
    pub pad: Units,
    pub token: Units,
    /// The ids of sessions of groups.
    pub sessions: Listed<Units>,
}

/// An editor.
#[derive(Drop)]
pub enum Editor {
    /// No pad was entered.
    Outside,
    /// The first message was sent, and the document is awaited.
    Entering(Wanted),
    /// The document is here.
    Inside(Entered),
}

/// What a message that came was to the editor.
#[derive(Drop)]
pub enum Said {
    /// The pad is entered, and its document is here.
    Shown,
    /// This author's revision changed the view so.
    Changed { change: Change, by: Units },
    /// The view is as before.
    Nothing,
    /// The server closed.
    Closed(Word),
    /// The pad that was entered is gone, and another has its name. There is no connection.
    Renewed,
    /// Steps of the history came: what the timeslider does now.
    Slid(Slid),
}

/// What an editor inside of a pad is.
#[derive(Clone, Copy, Debug, PartialEq, Eq)]
pub struct State {
    /// The revision that it has heard last.
    pub rev: u64,
    /// Something was submitted that it hasn't heard of since.
    pub waiting: bool,
    /// Something wasn't submitted.
    pub unsent: bool,
    pub connected: bool,
    /// Something can be taken back.
    pub can_undo: bool,
    /// Something that was taken back can be made again.
    pub can_redo: bool,
}

impl Editor {
    /// No pad is entered.
    pub fn new() -> Editor
        ensures { result ≡ editor.Outside }
    {
        Editor::Outside
    }

    /// A pad is to be entered: what is to be sent first. Who is connected, or about to be, can't; who isn't gives up what an
    /// earlier pad has left.
    pub fn enter(&mut self, alloc: Global, wanted: Wanted) -> Result<ClientMsg, EditorBad>
        ensures { Comes sends result self.old self.new (answer (Enters wanted) self.old) }
    {
        if self.is_busy() {
            return Err(EditorBad::Turn);
        }
        let first = ready(alloc, &wanted, None)?;
        *self = Editor::Entering(wanted);
        Ok(first)
    }

    /// A pad is to be entered with what was kept of an editor of it: what is to be sent first. The view is to be shown.
    pub fn enter_again(
        &mut self,
        alloc: Global,
        wanted: Wanted,
        kept: Kept,
    ) -> Result<ClientMsg, EditorBad>
        ensures { Comes resumes result self.old self.new (answer (EntersAgain wanted kept) self.old) }
    {
        if self.is_busy() {
            return Err(EditorBad::Turn);
        }
        let entered = kept.enter(alloc, wanted)?;
        let first = entered.first(alloc)?;
        *self = Editor::Inside(entered);
        Ok(first)
    }

    /// A message came from the server, which is this text.
    pub fn heard(&mut self, alloc: Global, text: &str) -> Result<Said, EditorBad>
        ensures replies { Answers text.now result self.old self.new }
        ensures fits { IfOk result (FitsShown self.old) }
    {
        let msg = read_server(alloc, text, MOST_BYTES)?;
        self.hear(alloc, msg)
    }

    /// A text is put in the place of so many units of the view, with the author's attribute and others.
    pub fn edit(
        &mut self,
        alloc: Global,
        at: u32,
        drop: u32,
        put: &str,
        with: &AttrMap,
    ) -> Result<(), EditorBad>
        ensures { Comes nothing result self.old self.new (answer (Edits at drop (units_of put.now) with.now) self.old) }
    {
        let put = Units::from_str(alloc, put)?;
        match self {
            Editor::Inside(entered) => entered.edit(alloc, at, drop, &put, with),
            Editor::Outside | Editor::Entering(_) => Err(EditorBad::Turn),
        }
    }

    /// Attributes are set on so many units of the view, of which an empty value removes one: what that changes.
    pub fn format(
        &mut self,
        alloc: Global,
        at: u32,
        count: u32,
        attrs: &AttrMap,
    ) -> Result<Change, EditorBad>
        ensures replies { Comes changed result self.old self.new (answer (Formats at count attrs.now) self.old) }
        ensures fits { IfOk result (PaintsShown self.old) }
    {
        match self {
            Editor::Inside(entered) => entered.format(alloc, at, count, attrs),
            Editor::Outside | Editor::Entering(_) => Err(EditorBad::Turn),
        }
    }

    /// The last edit that isn't taken back is taken back, if there is one: the change that this is.
    pub fn undo(&mut self, alloc: Global) -> Result<Option<Change>, EditorBad>
        ensures replies { Comes makes_again result self.old self.new (answer Undoes self.old) }
        ensures fits { IfOk result (RemakesShown self.old) }
    {
        match self {
            Editor::Inside(entered) => entered.undo(alloc),
            Editor::Outside | Editor::Entering(_) => Err(EditorBad::Turn),
        }
    }

    /// The last that was taken back is made again, if there is one: the change that this is.
    pub fn redo(&mut self, alloc: Global) -> Result<Option<Change>, EditorBad>
        ensures replies { Comes makes_again result self.old self.new (answer Redoes self.old) }
        ensures fits { IfOk result (RemakesShown self.old) }
    {
        match self {
            Editor::Inside(entered) => entered.redo(alloc),
            Editor::Outside | Editor::Entering(_) => Err(EditorBad::Turn),
        }
    }

    /// What is due is to be sent.
    pub fn submit(&mut self, alloc: Global) -> Result<Option<ClientMsg>, EditorBad>
        ensures { Comes sends_if result self.old self.new (answer Submits self.old) }
    {
        match self {
            Editor::Inside(entered) => entered.submit(alloc),
            Editor::Outside | Editor::Entering(_) => Err(EditorBad::Turn),
        }
    }

    /// The connection is gone. Before the document came, it is as if no pad had been entered.
    pub fn lost(&mut self) -> Result<(), EditorBad>
        ensures { Comes nothing result self.old self.new (answer Loses self.old) }
    {
        if let Editor::Inside(entered) = self {
            return entered.lost();
        }
        if !self.is_busy() {
            return Err(EditorBad::Turn);
        }
        *self = Editor::Outside;
        Ok(())
    }

    /// There is a connection again: the message that resumes.
    pub fn come_back(&mut self, alloc: Global) -> Result<ClientMsg, EditorBad>
        ensures { Comes sends result self.old self.new (answer Returns self.old) }
    {
        match self {
            Editor::Inside(entered) => entered.come_back(alloc),
            Editor::Outside | Editor::Entering(_) => Err(EditorBad::Turn),
        }
    }

    /// What would be lost where it is closed. It isn't refused where it is entered with again.
    pub fn keep(&self, alloc: Global) -> Result<Kept, EditorBad>
        ensures replies { Comes keeps_it result self.now self.now (answer Keeps self.now) }
        ensures fits { IfOk result (λ k. kept_fault k ≡ None) }
    {
        match self {
            Editor::Inside(entered) => entered.keep(alloc),
            Editor::Outside | Editor::Entering(_) => Err(EditorBad::Turn),
        }
    }

    /// The document of a revision is wanted, of those that it has heard: that, or what is to be sent to come to it.
    pub fn slide(&mut self, alloc: Global, to: u64) -> Result<Slid, EditorBad>
        ensures { Comes slid result self.old self.new (answer (Slides to) self.old) }
    {
        match self {
            Editor::Inside(entered) => entered.slide(alloc, to),
            Editor::Outside | Editor::Entering(_) => Err(EditorBad::Turn),
        }
    }

    /// What it is, inside of a pad.
    pub fn state(&self) -> Option<State>
        ensures { result ≡ state_of self.now }
    {
        match self {
            Editor::Inside(entered) => Some(entered.state()),
            Editor::Outside | Editor::Entering(_) => None,
        }
    }

    fn is_busy(&self) -> bool
        ensures { result ≡ is_busy self.now }
    {
        match self {
            Editor::Outside => false,
            Editor::Entering(_) => true,
            Editor::Inside(entered) => entered.is_busy(),
        }
    }

    fn heard_rev(&self) -> u64
        ensures { result ≡ heard_rev self.now }
    {
        match self {
            Editor::Inside(entered) => entered.client.client().rev(),
            Editor::Outside | Editor::Entering(_) => 0,
        }
    }

    /// It hears a message.
    fn hear(&mut self, alloc: Global, msg: ServerMsg) -> Result<Said, EditorBad>
        ensures replies { Comes said result self.old self.new (answer (Hears (Ok msg)) self.old) }
        ensures fits { IfOk result (FitsShown self.old) }
    {
        let meaning = meant(self.heard_rev(), msg);
        if let Editor::Inside(entered) = self {
            return entered.hear(alloc, meaning);
        }
        self.begin(alloc, meaning)
    }

    /// It hears the first message.
    fn begin(&mut self, alloc: Global, meaning: Meaning) -> Result<Said, EditorBad>
        ensures replies { Comes said result self.old self.new (begun meaning self.old) }
        ensures fits { IfOk result (FitsShown self.old) }
    {
        match meaning {
            Meaning::Welcome(welcome) => self.welcome(alloc, welcome),
            Meaning::Closing(word) => self.denied(word),
            Meaning::Own(_) | Meaning::News(_) | Meaning::Back(_, _) | Meaning::Slid(_) => {
                Err(EditorBad::Turn)
            }
        }
    }

    /// The document came.
    fn welcome(&mut self, alloc: Global, welcome: Welcome) -> Result<Said, EditorBad>
        ensures replies { Comes said result self.old self.new (welcomed welcome self.old) }
        ensures fits { IfOk result (FitsShown self.old) }
    {
        let Welcome {
            author,
            read_only,
            session,
            birth,
            rev,
            doc,
        } = welcome;
        let slider = Slider::at(alloc, rev, doc.copy(alloc)?);
        let client = Client::start(alloc, doc, rev, session)?;
        let client = UndoClient::start(alloc, client);
        match replace(self, Editor::Outside) {
            Editor::Entering(wanted) => {
                *self = Editor::Inside(Entered {
                    wanted,
                    author,
                    read_only,
                    birth,
                    client,
                    returning: false,
                    slider,
                });
                Ok(Said::Shown)
            }
            other => {
                *self = other;
                Err(EditorBad::Turn)
            }
        }
    }

    /// The server closed before the document came.
    fn denied(&mut self, word: Word) -> Result<Said, EditorBad>
        ensures replies { Comes said result self.old self.new (denied word self.old) }
        ensures fits { IfOk result (FitsShown self.old) }
    {
        if !matches!(self, Editor::Entering(_)) {
            return Err(EditorBad::Turn);
        }
        *self = Editor::Outside;
        Ok(Said::Closed(word))
    }
}
