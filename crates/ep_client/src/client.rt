//! The client.

ghost use Rattle.std.specs.Prelude.{◌≡◌, ◌⊎◌, suc, true, length, not, ◌&&◌, is_some, Option, Some, None, Ok, Err, IfOk, IfSome, OnOk, OnErr};
ghost use Rattle.ep_cs.specs.Edit.{apply, identity};
ghost use Rattle.ep_cs.specs.Fits.{Fits, is_identity};
ghost use Rattle.ep_cs.specs.Fitting.{fit_bad};
ghost use Rattle.ep_history.specs.History.{is_session};
ghost use Rattle.ep_history.specs.Kept.{kept_started, kept_edited, kept_lost, kept_resumes, kept_own, kept_other, kept_nop, kept_dropped, is_kept_own, is_kept_elsewhere, is_kept_spent, IsKeptSound};
ghost use Rattle.ep_client.specs.declared.bad.ClientBad.TheVariants as bad;
ghost use Rattle.ep_client.specs.Refusals.{Refuses, answered, fit_fault, order_fault, commit_fault, nop_fault, rev_fault, hear_fault};
ghost use Rattle.ep_client.specs.Hearing.{kept_hears, kept_hears_rev, shown_change, told_of, view_change, view_change_rev};
ghost use Rattle.ep_client.specs.Restored.{kept_restored, restore_fault, sent_edit, sent_session};
ghost use Rattle.ep_client.specs.Submitting.{Submits};

use crate::bad::ClientBad;
use crate::heard::{Heard, Told};
use ep_apply::{Doc, apply, fits};
use ep_compose::compose;
use ep_cs::{Change, First};
use ep_follow::follow;
use ep_history::Submission;
use ep_units::{NoMemory, Session};
use std::alloc::Global;
use std::marker::Model;
use std::mem::replace;

/// A client of a pad.
///
/// `doc` is the document of the revision that it has heard, `sent` what it submitted, as a change of that document, and
/// `local` what it did not, as a change of what that makes. The view is the document after both. `sent_in` is the
/// session in which the submission was sent last, and `told` the head that was told at the last resumption, or 0.
pub struct Client {
    rev: u64,
    doc: Doc,
    sent: Change,
    local: Change,
    view: Doc,
    sent_in: Option<Session>,
    session: Session,
    connected: bool,
    told: u64,
}

impl Drop for Client {
    fn drop(self) {
        let Client {
            rev: _,
            doc: _,
            sent: _,
            local: _,
            view: _,
            sent_in: _,
            session: _,
            connected: _,
            told: _,
        } = self;
    }
}

impl Model for Client {
    ghost use Rattle.ep_history.specs.Kept.{KeptClient};
    ghost use Rattle.ep_client.specs.Codes.{coded_kept};

    ghost Value = { KeptClient };

    ghost coded = { coded_kept };

    ghost use Rattle.ep_client.specs.Held.{held, IsHeld};

    ghost view = { held };

    ghost invariant = { IsHeld };
}

impl Client {
    /// A connected client that has heard a revision, of which this is the document, and has done nothing.
    pub fn start(alloc: Global, doc: Doc, rev: u64, session: Session) -> Result<Client, NoMemory>
        ensures { IfOk result (λ c. c ≡ kept_started doc rev session) }
    {
        let sent = unchanged(alloc, &doc);
        let local = unchanged(alloc, &doc);
        let view = doc.copy(alloc)?;
        Ok(Client {
            rev,
            doc,
            sent,
            local,
            view,
            sent_in: None,
            session,
            connected: true,
            told: 0,
        })
    }

    /// A client of what was kept of one: the document of the revision that it had heard, what it submitted and in which
    /// session, and what it did not. It isn't connected.
    pub fn restore(
        alloc: Global,
        doc: Doc,
        rev: u64,
        session: Session,
        sent: Option<(Session, Change)>,
        local: Change,
    ) -> Result<Client, ClientBad>
        ensures made { IfOk result (λ c. c ≡ kept_restored doc rev session sent local) }
        ensures refused { Refuses (restore_fault doc sent local) result ⊎ (result ≡ Err bad.NoMemory) }
    {
        let (sent, sent_in) = sent_parts(alloc, &doc, sent);
        fits(&doc, &sent)?;
        let shown = apply(alloc, &doc, &sent)?;
        fits(&shown, &local)?;
        let view = apply(alloc, &shown, &local)?;
        Ok(Client {
            rev,
            doc,
            sent,
            local,
            view,
            sent_in,
            session,
            connected: false,
            told: 0,
        })
    }

    /// The same client once more, for a call that may fail behind one of its own. It shares all blocks.
    pub fn copy(&self, alloc: Global) -> Result<Client, NoMemory>
        ensures { IfOk result (λ c. c ≡ self.now) }
    {
        Ok(Client {
            rev: self.rev,
            doc: self.doc.copy(alloc)?,
            sent: self.sent.copy(alloc)?,
            local: self.local.copy(alloc)?,
            view: self.view.copy(alloc)?,
            sent_in: self.sent_in,
            session: self.session,
            connected: self.connected,
            told: self.told,
        })
    }

    /// The client's user changes the view.
    pub fn edit(&mut self, alloc: Global, change: &Change) -> Result<(), ClientBad>
        ensures made { OnOk result (self.new ≡ kept_edited change.now.edit self.old) }
        ensures refused { Refuses (fit_fault (fit_bad change.now self.old.view)) result }
        ensures kept { OnErr result (self.new ≡ self.old) }
    {
        fits(&self.view, change)?;
        let view = apply(alloc, &self.view, change)?;
        let local = compose(alloc, &self.local, change)?;
        self.view = view;
        self.local = local;
        Ok(())
    }

    /// What it sends now, if there is something to send: what was not submitted, as a change of the document of its
    /// revision; or what was submitted, once more, where that was in an older session and all that was told of at the
    /// resumption has been heard.
    pub fn submit(&mut self, alloc: Global) -> Result<Option<Submission>, NoMemory>
        ensures sent { IfOk result (λ sent. Submits self.old sent self.new) }
        ensures kept { OnErr result (self.new ≡ self.old) }
    {
        if !self.connected {
            return Ok(None);
        }
        match self.sent_in {
            None => self.submit_first(alloc),
            Some(session) => self.submit_again(alloc, session),
        }
    }

    fn submit_first(&mut self, alloc: Global) -> Result<Option<Submission>, NoMemory>
        requires connected { self.old.connected ≡ true }
        requires nothing { self.old.sent_in ≡ None }
        ensures sent { IfOk result (λ sent. Submits self.old sent self.new) }
        ensures kept { OnErr result (self.new ≡ self.old) }
    {
        if self.local.is_identity() {
            return Ok(None);
        }
        let change = self.local.copy(alloc)?;
        let rest = unchanged(alloc, &self.view);
        self.sent = replace(&mut self.local, rest);
        self.sent_in = Some(self.session);
        Ok(Some(Submission {
            base: self.rev,
            change,
            session: self.session,
        }))
    }

    fn submit_again(
        &mut self,
        alloc: Global,
        sent_in: Session,
    ) -> Result<Option<Submission>, NoMemory>
        requires connected { self.old.connected ≡ true }
        requires sent { self.old.sent_in ≡ Some sent_in }
        ensures sent { IfOk result (λ sent. Submits self.old sent self.new) }
        ensures kept { OnErr result (self.new ≡ self.old) }
    {
        if is_session(sent_in, self.session) || self.rev < self.told {
            return Ok(None);
        }
        let change = self.sent.copy(alloc)?;
        self.sent_in = Some(self.session);
        Ok(Some(Submission {
            base: self.rev,
            change,
            session: self.session,
        }))
    }

    /// What this would be to it, if it heard it: its own or another's.
    pub fn told_of(&self, heard: &Heard) -> Told
        ensures { result ≡ told_of heard.now self.now }
    {
        match heard {
            Heard::Rev {
                rev: _,
                change: _,
                session,
            } if !is_own(*session, self.sent_in) => Told::News,
            _ => Told::Commit,
        }
    }

    /// It hears the next revision, or that its submission became nothing. Another's revision costs four follows, and one
    /// application each to the document and to the view, which share the blocks that it leaves as they are.
    pub fn hear(&mut self, alloc: Global, heard: &Heard) -> Result<Told, ClientBad>
        ensures made { OnOk result (self.new ≡ kept_hears heard.now self.old) }
        ensures told { IfOk result (λ told. told ≡ told_of heard.now self.old) }
        ensures refused { Refuses (hear_fault heard.now self.old) result }
        ensures kept { OnErr result (self.new ≡ self.old) }
    {
        let told = self.told_of(heard);
        self.hear_change(alloc, heard)?;
        Ok(told)
    }

    /// As `hear`, but it answers what that changes of the view: nothing, where it was its own.
    pub fn hear_change(&mut self, alloc: Global, heard: &Heard) -> Result<Change, ClientBad>
        ensures made { OnOk result (self.new ≡ kept_hears heard.now self.old) }
        ensures change { IfOk result (λ c. c.edit ≡ view_change heard.now self.old) }
        ensures fits { IfOk result (λ c. Fits c self.old.view) }
        ensures shown { IfOk result (λ c. self.new.view ≡ apply c.edit self.old.view) }
        ensures refused { Refuses (hear_fault heard.now self.old) result }
        ensures kept { OnErr result (self.new ≡ self.old) }
    {
        match heard {
            Heard::Commit { rev } => self.hear_commit(alloc, *rev),
            Heard::Nop { rev } => self.hear_nop(alloc, *rev),
            Heard::Rev {
                rev,
                change,
                session,
            } => self.hear_rev(alloc, *rev, change, *session),
        }
    }

    fn hear_commit(&mut self, alloc: Global, rev: u64) -> Result<Change, ClientBad>
        ensures made { OnOk result (self.new ≡ kept_own self.old) }
        ensures change { IfOk result (λ c. c.edit ≡ identity (length self.old.view)) }
        ensures fits { IfOk result (λ c. Fits c self.old.view) }
        ensures refused { Refuses (commit_fault rev self.old) result }
        ensures kept { OnErr result (self.new ≡ self.old) }
    {
        is_next(self.rev, rev)?;
        if self.sent_in.is_none() {
            return Err(ClientBad::NotSubmitted);
        }
        Ok(self.take_own(alloc, rev)?)
    }

    fn hear_nop(&mut self, alloc: Global, rev: u64) -> Result<Change, ClientBad>
        ensures made { OnOk result (self.new ≡ kept_nop self.old) }
        ensures change { IfOk result (λ c. c.edit ≡ identity (length self.old.view)) }
        ensures fits { IfOk result (λ c. Fits c self.old.view) }
        ensures refused { Refuses (nop_fault rev self.old) result }
        ensures kept { OnErr result (self.new ≡ self.old) }
    {
        is_here(self.rev, rev)?;
        if !self.is_nop() {
            return Err(ClientBad::NotSubmitted);
        }
        self.drop_sent();
        Ok(unchanged(alloc, &self.view))
    }

    fn hear_rev(
        &mut self,
        alloc: Global,
        rev: u64,
        change: &Change,
        session: Session,
    ) -> Result<Change, ClientBad>
        ensures made { OnOk result (self.new ≡ kept_hears_rev change.now session self.old) }
        ensures change { IfOk result (λ c. c.edit ≡ view_change_rev change.now session self.old) }
        ensures fits { IfOk result (λ c. Fits c self.old.view) }
        ensures refused { Refuses (rev_fault rev change.now session self.old) result }
        ensures kept { OnErr result (self.new ≡ self.old) }
    {
        is_next(self.rev, rev)?;
        if is_own(session, self.sent_in) {
            return Ok(self.take_own(alloc, rev)?);
        }
        fits(&self.doc, change)?;
        let shown = self.take_other(alloc, rev, change)?;
        self.drop_spent();
        Ok(shown)
    }

    /// The next revision is its own: what was submitted becomes part of the document. Nothing changes of the view.
    fn take_own(&mut self, alloc: Global, rev: u64) -> Result<Change, NoMemory>
        requires { rev ≡ suc self.old.rev }
        ensures made { OnOk result (self.new ≡ kept_own self.old) }
        ensures change { IfOk result (λ c. c.edit ≡ identity (length self.old.view)) }
        ensures fits { IfOk result (λ c. Fits c self.old.view) }
        ensures kept { OnErr result (self.new ≡ self.old) }
    {
        let doc = apply(alloc, &self.doc, &self.sent)?;
        let sent = unchanged(alloc, &doc);
        self.rev = rev;
        self.doc = doc;
        self.sent = sent;
        self.sent_in = None;
        Ok(unchanged(alloc, &self.view))
    }

    /// The next revision is another's. It goes before what was submitted, and behind the client's own text before the
    /// rest. What it changes of the view goes behind all of that text.
    fn take_other(&mut self, alloc: Global, rev: u64, change: &Change) -> Result<Change, NoMemory>
        requires next { rev ≡ suc self.old.rev }
        requires fits { Fits change.now self.old.doc }
        ensures made { OnOk result (self.new ≡ kept_other change.now.edit self.old) }
        ensures change { IfOk result (λ c. c.edit ≡ shown_change change.now.edit self.old) }
        ensures fits { IfOk result (λ c. Fits c self.old.view) }
        ensures kept { OnErr result (self.new ≡ self.old) }
    {
        let below = follow(alloc, &self.sent, change, First::B)?;
        let sent = follow(alloc, change, &self.sent, First::A)?;
        let shown = follow(alloc, &self.local, &below, First::A)?;
        let local = follow(alloc, &below, &self.local, First::B)?;
        let doc = apply(alloc, &self.doc, change)?;
        let view = apply(alloc, &self.view, &shown)?;
        self.rev = rev;
        self.doc = doc;
        self.sent = sent;
        self.local = local;
        self.view = view;
        Ok(shown)
    }

    /// Whether what was submitted in this session has become nothing.
    fn is_nop(&self) -> bool
        ensures { result ≡ (is_kept_own self.now.session self.now.sent_in && is_identity self.now.sent) }
    {
        is_own(self.session, self.sent_in) && self.sent.is_identity()
    }

    /// What was submitted has become nothing, and is gone.
    fn drop_sent(&mut self)
        requires { is_identity self.old.sent ≡ true }
        ensures { self.new ≡ kept_nop self.old }
    {
        self.sent_in = None;
    }

    /// Whether what was submitted in another session has become nothing, and all that was told of has been heard.
    fn is_spent(&self) -> bool
        ensures { result ≡ is_kept_spent self.now }
    {
        self.connected
            && !(self.rev < self.told)
            && is_elsewhere(self.session, self.sent_in)
            && self.sent.is_identity()
    }

    /// Such a submission is gone: it was never taken, or as one that had become nothing.
    fn drop_spent(&mut self)
        ensures { self.new ≡ kept_dropped self.old }
    {
        if self.is_spent() {
            self.drop_sent();
        }
    }

    /// The document that it shows: that of its revision, changed by what was submitted and then by what was not.
    pub fn view(&self) -> &Doc
        ensures shown { result.now ≡ self.now.view }
        ensures whole { self.now.view ≡ apply self.now.local (apply self.now.sent self.now.doc) }
    {
        &self.view
    }

    /// The document of the revision that it has heard.
    pub fn doc(&self) -> &Doc
        ensures { result.now ≡ self.now.doc }
    {
        &self.doc
    }

    /// What it submitted, as a change of that document, and the session in which it was sent last; where nothing is
    /// submitted, there is no session, and the change alters nothing.
    pub fn submitted(&self) -> (&Change, Option<Session>)
        ensures change { result.0.now.edit ≡ self.now.sent }
        ensures fits { Fits result.0.now self.now.doc }
        ensures session { result.1 ≡ self.now.sent_in }
    {
        (&self.sent, self.sent_in)
    }

    /// What it did not submit, as a change of what that makes.
    pub fn unsubmitted(&self) -> &Change
        ensures change { result.now.edit ≡ self.now.local }
        ensures fits { Fits result.now (apply self.now.sent self.now.doc) }
    {
        &self.local
    }

    /// What holds of every client: what was submitted fits the document of its revision, what was not fits what that
    /// makes, the view is the document after both, and no submission alters nothing. It does nothing.
    pub fn equations(&self)
        ensures { IsKeptSound self.now }
    {
        let _sent = self.sent.ops();
        let _local = self.local.ops();
    }

    /// The revision that it has heard, counted from 0.
    pub fn rev(&self) -> u64
        ensures { result ≡ self.now.rev }
    {
        self.rev
    }

    /// Whether something was submitted that it hasn't heard of since, and whether what was not submitted alters
    /// something.
    pub fn pending(&self) -> (bool, bool)
        ensures { result ≡ (is_some self.now.sent_in, not (is_identity self.now.local)) }
    {
        (self.sent_in.is_some(), !self.local.is_identity())
    }

    /// Whether it is connected.
    pub fn is_connected(&self) -> bool
        ensures { result ≡ self.now.connected }
    {
        self.connected
    }

    /// Its connection is lost. It may be edited all the same.
    pub fn lost(&mut self)
        ensures { self.new ≡ kept_lost self.old }
    {
        self.connected = false;
    }

    /// It is connected again, in a newer session, and is told the head. What was submitted keeps the session in which
    /// it was sent, and waits until all revisions up to that head have been heard.
    pub fn resume(&mut self, session: Session, head: u64)
        ensures { self.new ≡ kept_resumes session head self.old }
    {
        self.session = session;
        self.connected = true;
        self.told = head;
        self.drop_spent();
    }
}

/// The change of a document that alters nothing.
fn unchanged(alloc: Global, doc: &Doc) -> Change
    ensures edit { result.edit ≡ identity (length doc.now) }
    ensures fits { Fits result doc.now }
{
    let _document = doc.reading();
    Change::identity(alloc, doc.len())
}

/// A submission as a change of a document, and its session; the change that alters nothing where there is none.
fn sent_parts(
    alloc: Global,
    doc: &Doc,
    sent: Option<(Session, Change)>,
) -> (Change, Option<Session>)
    ensures edit { result.0.edit ≡ sent_edit doc.now sent }
    ensures session { result.1 ≡ sent_session sent }
    ensures fits { sent ≡ None → Fits result.0 doc.now }
    ensures given { IfSome sent (λ s. result.0 ≡ s.1) }
{
    match sent {
        Some((session, change)) => (change, Some(session)),
        None => (unchanged(alloc, doc), None),
    }
}

fn is_session(a: Session, b: Session) -> bool
    ensures { result ≡ is_session a b }
{
    a.epoch == b.epoch && a.count == b.count
}

/// Whether a revision of this session is the submission that was sent in that.
fn is_own(session: Session, sent_in: Option<Session>) -> bool
    ensures { result ≡ is_kept_own session sent_in }
{
    match sent_in {
        None => false,
        Some(sent_in) => is_session(session, sent_in),
    }
}

/// Whether what was submitted was sent in another session than this.
fn is_elsewhere(session: Session, sent_in: Option<Session>) -> bool
    ensures { result ≡ is_kept_elsewhere session sent_in }
{
    match sent_in {
        None => false,
        Some(sent_in) => !is_session(sent_in, session),
    }
}

/// Whether a revision is the one behind another.
fn is_next(rev: u64, next: u64) -> Result<(), ClientBad>
    ensures next { OnOk result (next ≡ suc rev) }
    ensures exact { result ≡ answered (order_fault (suc rev) next) }
{
    if rev < u64::MAX && next == rev + 1 {
        return Ok(());
    }
    Err(ClientBad::OutOfOrder(rev.saturating_add(1), next))
}

/// Whether a revision is the one that was heard last.
fn is_here(rev: u64, here: u64) -> Result<(), ClientBad>
    ensures { result ≡ answered (order_fault rev here) }
{
    if here == rev {
        return Ok(());
    }
    Err(ClientBad::OutOfOrder(rev, here))
}
