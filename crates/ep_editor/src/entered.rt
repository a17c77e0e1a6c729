//! An editor inside of a pad.

ghost use Rattle.std.specs.Prelude.{◌≡◌, ◌+◌, ◌∷◌, [], true, false, Some, codes, length, IfOk, IfSome, OnOk, OnErr};
ghost use Rattle.ep_units.specs.Text.{is_well_formed};
ghost use Rattle.ep_attr.specs.AttrMap.{of_pairs};
ghost use Rattle.ep_invert.specs.Paint.{paint};
ghost use Rattle.ep_invert.specs.Refusal.{refusal, splice_bad};
ghost use Rattle.ep_wire_words.specs.declared.client.ClientMsg.TheVariants as msgs;
ghost use Rattle.ep_cs.specs.Doc.{Doc};
ghost use Rattle.ep_cs.specs.Edit.{apply};
ghost use Rattle.ep_cs.specs.Fits.{Fits};
ghost use Rattle.ep_undo.specs.Undo.{undo_edited};
ghost use Rattle.ep_editor.specs.Comes.{Comes, FitsThat, changed, makes_again, nothing, said, sends, sends_if};
ghost use Rattle.ep_editor.specs.Replies.{ready};
ghost use Rattle.ep_editor.specs.Inside.{closes, cut_off, edited, formatted, hears, hears_back, hears_if, hears_more, hears_news, hears_now, hears_own, inside_state, is_busy_inside, is_due, is_head, is_long, kept_of, loses, own_map, put_edit, putting, redoes, renewed, resumed, resumed_with, resume_of, returns, submitted, undoes, signed_edit, with_signed};

use crate::bad::EditorBad;
use crate::editor::{Said, State, Wanted};
use crate::ready::ready;
use ep_apply::Doc;
use ep_attr::{Attr, AttrMap};
use ep_client::{Heard, Submission, Told};
use ep_compose::compose;
use ep_cs::{Change, MOST_UNITS};
use ep_hearing::{Back, Meaning, News};
use ep_invert::{SpliceBad, paint, splice};
use ep_sign::signing;
use ep_timeslider::Slider;
use ep_undo::UndoClient;
use ep_units::{NoMemory, Units};
use ep_wire_words::{ClientMsg, Resume, Word};
use std::alloc::Global;

/// The key of an author's attribute.
const AUTHOR: [u16; 6] = [97, 117, 116, 104, 111, 114];

/// A pad as an editor has it.
pub struct Entered {
    pub wanted: Wanted,
    /// Who the client is.
    pub author: Units,
    pub read_only: bool,
    pub birth: u64,
    pub client: UndoClient,
    /// The message that resumes was sent, and its answer is awaited.
    pub returning: bool,
    pub slider: Slider,
}

impl Drop for Entered {
    fn drop(self) {
        let Entered {
            wanted: _,
            author: _,
            read_only: _,
            birth: _,
            client: _,
            returning: _,
            slider: _,
        } = self;
    }
}

impl Entered {
    pub(crate) fn state(&self) -> State
        ensures { result ≡ inside_state self.now }
    {
        let client = self.client.client();
        let (waiting, unsent) = client.pending();
        State {
            rev: client.rev(),
            waiting,
            unsent,
            connected: client.is_connected(),
            can_undo: self.client.can_undo(),
            can_redo: self.client.can_redo(),
        }
    }

    /// What is to be shown.
    pub fn view(&self) -> &Doc
        ensures { result.now ≡ (kept_of self.now).view }
    {
        self.client.client().view()
    }

    pub(crate) fn is_connected(&self) -> bool
        ensures { result ≡ (kept_of self.now).connected }
    {
        self.client.client().is_connected()
    }

    /// Whether it is connected, or about to be.
    pub(crate) fn is_busy(&self) -> bool
        ensures { result ≡ is_busy_inside self.now }
    {
        self.returning || self.is_connected()
    }

    /// The attributes of what the author puts: the author's own counts last.
    fn own_map(&self, alloc: Global, with: &AttrMap) -> Result<AttrMap, NoMemory>
        ensures { IfOk result (λ m. m ≡ own_map self.now.author with.now) }
    {
        let own = own_pair(alloc, &self.author)?;
        with.compose_change(alloc, &own)
    }

    /// The change of the view that puts a text in the place of so many units.
    fn spliced(
        &self,
        alloc: Global,
        at: u32,
        drop: u32,
        put: &Units,
        attrs: &AttrMap,
    ) -> Result<Change, SpliceBad>
        requires text { is_well_formed put.now ≡ true }
        requires short { is_long (kept_of self.now).view drop put.now ≡ false }
        ensures change { IfOk result (λ c. c.edit ≡ put_edit at drop put.now attrs.now (kept_of self.now).view) }
        ensures refused { refusal result ≡ splice_bad (put_edit at drop put.now attrs.now (kept_of self.now).view) (at + drop) (kept_of self.now).view }
    {
        splice(alloc, self.view(), at, drop, put, attrs)
    }

    /// The change of the view that sets attributes on so many units.
    fn painted(
        &self,
        alloc: Global,
        at: u32,
        count: u32,
        attrs: &AttrMap,
    ) -> Result<Change, SpliceBad>
        ensures change { IfOk result (λ c. c.edit ≡ paint (length (kept_of self.now).view) at count attrs.now) }
        ensures fits { IfOk result (λ c. Fits c (kept_of self.now).view) }
        ensures refused { refusal result ≡ splice_bad (paint (length (kept_of self.now).view) at count attrs.now) (at + count) (kept_of self.now).view }
    {
        paint(alloc, self.view(), at, count, attrs)
    }

    /// The change of the view that puts a text there is made.
    fn put(
        &mut self,
        alloc: Global,
        at: u32,
        drop: u32,
        put: &Units,
        with: &AttrMap,
    ) -> Result<(), EditorBad>
        requires text { is_well_formed put.now ≡ true }
        requires short { is_long (kept_of self.old).view drop put.now ≡ false }
        ensures { Comes nothing result self.old self.new (putting at drop put.now with.now self.old) }
    {
        let attrs = self.own_map(alloc, with)?;
        let change = self.spliced(alloc, at, drop, put, &attrs)?;
        make_edit(alloc, &mut self.client, &change)?;
        Ok(())
    }

    pub(crate) fn edit(
        &mut self,
        alloc: Global,
        at: u32,
        drop: u32,
        put: &Units,
        with: &AttrMap,
    ) -> Result<(), EditorBad>
        requires { is_well_formed put.now ≡ true }
        ensures { Comes nothing result self.old self.new (edited at drop put.now with.now self.old) }
    {
        if self.read_only {
            return Err(EditorBad::ReadOnly);
        }
        if is_long(self.view(), drop, put) {
            return Err(EditorBad::Long);
        }
        self.put(alloc, at, drop, put, with)
    }

    pub(crate) fn format(
        &mut self,
        alloc: Global,
        at: u32,
        count: u32,
        attrs: &AttrMap,
    ) -> Result<Change, EditorBad>
        ensures replies { Comes changed result self.old self.new (formatted at count attrs.now self.old) }
        ensures fits { IfOk result (λ c. Fits c (kept_of self.old).view) }
    {
        if self.read_only {
            return Err(EditorBad::ReadOnly);
        }
        let change = self.painted(alloc, at, count, attrs)?;
        make_edit(alloc, &mut self.client, &change)?;
        Ok(change)
    }

    pub(crate) fn undo(&mut self, alloc: Global) -> Result<Option<Change>, EditorBad>
        ensures replies { Comes makes_again result self.old self.new (undoes self.old) }
        ensures fits { IfOk result (λ o. IfSome o (λ c. Fits c (kept_of self.old).view)) }
    {
        let mut client = self.client.copy(alloc)?;
        let Some(made) = client.undo(alloc)? else {
            return Ok(None);
        };
        let made = signed(alloc, &mut client, &self.author, made)?;
        self.client = client;
        Ok(Some(made))
    }

    pub(crate) fn redo(&mut self, alloc: Global) -> Result<Option<Change>, EditorBad>
        ensures replies { Comes makes_again result self.old self.new (redoes self.old) }
        ensures fits { IfOk result (λ o. IfSome o (λ c. Fits c (kept_of self.old).view)) }
    {
        let mut client = self.client.copy(alloc)?;
        let Some(made) = client.redo(alloc)? else {
            return Ok(None);
        };
        let made = signed(alloc, &mut client, &self.author, made)?;
        self.client = client;
        Ok(Some(made))
    }

    pub(crate) fn submit(&mut self, alloc: Global) -> Result<Option<ClientMsg>, EditorBad>
        ensures { Comes sends_if result self.old self.new (submitted self.old) }
    {
        let sent = self.client.submit(alloc)?;
        Ok(sent.map(changes))
    }

    pub(crate) fn lost(&mut self) -> Result<(), EditorBad>
        ensures { Comes nothing result self.old self.new (loses self.old) }
    {
        if !self.is_busy() {
            return Err(EditorBad::Turn);
        }
        self.cut_off();
        Ok(())
    }

    /// There is no connection.
    fn cut_off(&mut self)
        ensures { self.new ≡ cut_off self.old }
    {
        self.client.lost();
        self.returning = false;
        self.slider.asked = None;
    }

    pub(crate) fn come_back(&mut self, alloc: Global) -> Result<ClientMsg, EditorBad>
        ensures { Comes sends result self.old self.new (returns self.old) }
    {
        if self.is_busy() {
            return Err(EditorBad::Turn);
        }
        let first = self.first(alloc)?;
        self.returning = true;
        Ok(first)
    }

    /// The message with which it comes back.
    pub(crate) fn first(&self, alloc: Global) -> Result<ClientMsg, NoMemory>
        ensures { IfOk result (λ m. m ≡ ready self.now.wanted (Some (resume_of self.now))) }
    {
        let resume = self.resume(alloc)?;
        ready(alloc, &self.wanted, Some(resume))
    }

    /// What it comes back with.
    fn resume(&self, alloc: Global) -> Result<Resume, NoMemory>
        ensures { IfOk result (λ r. r ≡ resume_of self.now) }
    {
        Ok(Resume {
            rev: self.client.client().rev(),
            birth: Some(self.birth),
            author: Some(self.author.copy(alloc)?),
        })
    }

    pub(crate) fn hear(&mut self, alloc: Global, meaning: Meaning) -> Result<Said, EditorBad>
        ensures replies { Comes said result self.old self.new (hears meaning self.old) }
        ensures fits { IfOk result (λ x. FitsThat x (kept_of self.old).view) }
    {
        match meaning {
            Meaning::Own(heard) => self.hear_own(alloc, &heard),
            Meaning::News(news) => self.hear_now(alloc, news),
            Meaning::Back(back, news) => self.hear_back(alloc, back, news),
            Meaning::Closing(word) => self.close(word),
            Meaning::Slid(steps) => Ok(Said::Slid(self.hear_slid(alloc, &steps)?)),
            Meaning::Welcome(_) => Err(EditorBad::Turn),
        }
    }

    /// It hears of its own submission.
    fn hear_own(&mut self, alloc: Global, heard: &Heard) -> Result<Said, EditorBad>
        ensures replies { Comes said result self.old self.new (hears_own heard.now self.old) }
        ensures fits { IfOk result (λ x. FitsThat x (kept_of self.old).view) }
    {
        if !self.is_connected() {
            return Err(EditorBad::Turn);
        }
        self.client.hear(alloc, heard)?;
        Ok(Said::Nothing)
    }

    /// It hears the next revision, if it is connected.
    fn hear_now(&mut self, alloc: Global, news: News) -> Result<Said, EditorBad>
        ensures replies { Comes said result self.old self.new (hears_now news self.old) }
        ensures fits { IfOk result (λ x. FitsThat x (kept_of self.old).view) }
    {
        if !self.is_connected() {
            return Err(EditorBad::Turn);
        }
        self.hear_news(alloc, news)
    }

    /// It hears the next revision.
    fn hear_news(&mut self, alloc: Global, news: News) -> Result<Said, EditorBad>
        ensures replies { Comes said result self.old self.new (hears_news news self.old) }
        ensures fits { IfOk result (λ x. FitsThat x (kept_of self.old).view) }
    {
        let News {
            rev,
            change,
            session,
            by,
        } = news;
        let heard = Heard::Rev {
            rev,
            change,
            session,
        };
        let told = self.client.client().told_of(&heard);
        let change = self.client.hear_change(alloc, &heard)?;
        Ok(match told {
            Told::Commit => Said::Nothing,
            Told::News => Said::Changed { change, by },
        })
    }

    /// The server tells what was missed.
    fn hear_back(
        &mut self,
        alloc: Global,
        back: Back,
        news: Option<News>,
    ) -> Result<Said, EditorBad>
        ensures replies { Comes said result self.old self.new (hears_back back news self.old) }
        ensures fits { IfOk result (λ x. FitsThat x (kept_of self.old).view) }
    {
        if self.is_connected() {
            return self.hear_more(alloc, back, news);
        }
        self.resumed(alloc, back, news)
    }

    /// More of what was missed.
    fn hear_more(
        &mut self,
        alloc: Global,
        back: Back,
        news: Option<News>,
    ) -> Result<Said, EditorBad>
        ensures replies { Comes said result self.old self.new (hears_more back news self.old) }
        ensures fits { IfOk result (λ x. FitsThat x (kept_of self.old).view) }
    {
        match news {
            Some(news) if back.birth == self.birth => self.hear_news(alloc, news),
            _ => Err(EditorBad::Turn),
        }
    }

    /// Whether a message is the answer to the one that resumes.
    fn is_due(&self, back: Back, news: &Option<News>) -> bool
        ensures { result ≡ is_due back news.now self.now }
    {
        self.returning
            && back.birth == self.birth
            && is_head(self.client.client().rev(), back.head, news)
    }

    /// The answer to the message that resumes, if it is due.
    fn resumed(&mut self, alloc: Global, back: Back, news: Option<News>) -> Result<Said, EditorBad>
        requires { (kept_of self.old).connected ≡ false }
        ensures replies { Comes said result self.old self.new (resumed back news self.old) }
        ensures fits { IfOk result (λ x. FitsThat x (kept_of self.old).view) }
    {
        if self.is_due(back, &news) {
            return self.reconnect(alloc, back, news);
        }
        self.renewed(back)
    }

    /// The answer to the message that resumes is of another birth, or isn't due.
    fn renewed(&mut self, back: Back) -> Result<Said, EditorBad>
        ensures replies { Comes said result self.old self.new (renewed back self.old) }
        ensures fits { IfOk result (λ x. FitsThat x (kept_of self.old).view) }
    {
        if !(self.returning && back.birth != self.birth) {
            return Err(EditorBad::Turn);
        }
        self.cut_off();
        Ok(Said::Renewed)
    }

    /// It is connected again. What is heard with that comes first here: it leads to the same, and can be refused.
    fn reconnect(
        &mut self,
        alloc: Global,
        back: Back,
        news: Option<News>,
    ) -> Result<Said, EditorBad>
        requires off { (kept_of self.old).connected ≡ false }
        requires due { is_due back news self.old ≡ true }
        ensures replies { Comes said result self.old self.new (resumed_with back news self.old) }
        ensures fits { IfOk result (λ x. FitsThat x (kept_of self.old).view) }
    {
        match self.hear_if(alloc, news) {
            Ok(said) => {
                self.client.resume(back.session, back.head);
                self.returning = false;
                Ok(said)
            }
            Err(bad) => Err(bad),
        }
    }

    fn hear_if(&mut self, alloc: Global, news: Option<News>) -> Result<Said, EditorBad>
        ensures replies { Comes said result self.old self.new (hears_if news self.old) }
        ensures fits { IfOk result (λ x. FitsThat x (kept_of self.old).view) }
    {
        match news {
            Some(news) => self.hear_news(alloc, news),
            None => Ok(Said::Nothing),
        }
    }

    /// The server closed.
    fn close(&mut self, word: Word) -> Result<Said, EditorBad>
        ensures replies { Comes said result self.old self.new (closes word self.old) }
        ensures fits { IfOk result (λ x. FitsThat x (kept_of self.old).view) }
    {
        if !self.is_busy() {
            return Err(EditorBad::Turn);
        }
        self.cut_off();
        Ok(Said::Closed(word))
    }
}

/// Whether the head is the revision that was heard last, or, where there is news, above it.
fn is_head(heard: u64, head: u64, news: &Option<News>) -> bool
    ensures { result ≡ is_head heard head news.now }
{
    match news {
        Some(_) => heard < head,
        None => heard == head,
    }
}

/// The map of an author's attribute.
fn own_pair(alloc: Global, author: &Units) -> Result<AttrMap, NoMemory>
    ensures { IfOk result (λ m. m ≡ of_pairs ((codes "author", author.now) ∷ [])) }
{
    AttrMap::read(
        alloc,
        &[Attr {
            key: Units::from_slice(alloc, &AUTHOR)?,
            value: author.copy(alloc)?,
        }],
    )
}

/// Whether a document would have 2^32 units or more with a text in the place of so many.
fn is_long(doc: &Doc, drop: u32, put: &Units) -> bool
    ensures { result ≡ is_long doc.now drop put.now }
{
    let rest = doc.len().saturating_sub(drop);
    put.len() > (MOST_UNITS - rest) as usize
}

/// The client makes an edit that fits its view. By the rules it refuses none; if it did, that would be answered as want of
/// memory.
fn make_edit(alloc: Global, client: &mut UndoClient, change: &Change) -> Result<(), NoMemory>
    ensures made { OnOk result (client.new ≡ undo_edited change.now.edit client.old) }
    ensures kept { OnErr result (client.new ≡ client.old) }
{
    match client.edit(alloc, change) {
        Ok(()) => Ok(()),
        Err(_) => Err(NoMemory),
    }
}

/// What a client made puts under the author's name what it put under another's, which the server would refuse: the change
/// that both are. By the rules the client refuses no such edit; if it did, that would be answered as want of memory.
fn signed(
    alloc: Global,
    client: &mut UndoClient,
    author: &Units,
    made: Change,
) -> Result<Change, NoMemory>
    requires { (doc : Doc) × Fits made doc × (client.old.client.view ≡ apply made.edit doc) }
    ensures change { IfOk result (λ c. c.edit ≡ signed_edit author.now made.edit) }
    ensures client { OnOk result (client.new ≡ with_signed author.now made.edit client.old) }
    ensures fits { IfOk result (λ c. (doc : Doc) → Fits made doc → client.old.client.view ≡ apply made.edit doc → Fits c doc) }
{
    let Some(sign) = signing(alloc, &made, author)? else {
        return Ok(made);
    };
    let both = compose(alloc, &made, &sign)?;
    match client.edit_beside(alloc, &sign) {
        Ok(()) => Ok(both),
        Err(_) => Err(NoMemory),
    }
}

/// The message of what a client submitted.
fn changes(sent: Submission) -> ClientMsg
    ensures { result ≡ msgs.Edit sent.base sent.change }
{
    ClientMsg::Edit {
        base: sent.base,
        change: sent.change,
    }
}
