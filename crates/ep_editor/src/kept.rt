//! What is kept of an editor, where it may be closed.

ghost use Rattle.std.specs.Prelude.{◌≡◌, ◌⊎◌, option_map, IfOk, IfErr, IfSome, None};
ghost use Rattle.ep_units.specs.declared.session.Session.{Session as AnySession};
ghost use Rattle.ep_cs.specs.Change.{Change as AnyChange};
ghost use Rattle.ep_cs.specs.Fits.{Fits};
ghost use Rattle.ep_editor.specs.Comes.{Comes, keeps_it};
ghost use Rattle.ep_editor.specs.Kept.{goes_on, keeps, kept_fault, sent_of};
ghost use Rattle.ep_editor.specs.Bads.{IsBadOf};

use crate::bad::EditorBad;
use crate::editor::Wanted;
use crate::entered::Entered;
use ep_apply::Doc;
use ep_client::Client;
use ep_cs::Change;
use ep_timeslider::Slider;
use ep_undo::UndoClient;
use ep_units::{NoMemory, Session, Units};
use std::alloc::Global;

/// What an editor is, but for what takes back its edits, its connection and its timeslider.
#[derive(Drop)]
pub struct Kept {
    pub author: Units,
    pub read_only: bool,
    pub birth: u64,
    /// The revision that it has heard last, and its document.
    pub rev: u64,
    pub doc: Doc,
    /// What was submitted, and in which session.
    pub sent: Option<(Session, Change)>,
    /// What was not.
    pub local: Change,
}

/// What a client submitted, and in which session.
fn sent_of(alloc: Global, client: &Client) -> Result<Option<(Session, Change)>, NoMemory>
    ensures sent { IfOk result (λ o. option_map (λ (s : AnySession × AnyChange). (s.0, s.1.edit)) o ≡ sent_of client.now) }
    ensures fits { IfOk result (λ o. IfSome o (λ s. Fits s.1 client.now.doc)) }
{
    let (change, sent_in) = client.submitted();
    match sent_in {
        Some(session) => Ok(Some((session, change.copy(alloc)?))),
        None => Ok(None),
    }
}

impl Kept {
    /// An editor that goes on with it, and comes back.
    pub(crate) fn enter(self, alloc: Global, wanted: Wanted) -> Result<Entered, EditorBad>
        ensures entered { IfOk result (λ p. (p ≡ goes_on wanted self) × (kept_fault self ≡ None)) }
        ensures refused { IfErr result (λ why. IsBadOf why (kept_fault self)) }
    {
        let Kept {
            author,
            read_only,
            birth,
            rev,
            doc,
            sent,
            local,
        } = self;
        let slider = Slider::at(alloc, rev, doc.copy(alloc)?);
        let client = Client::restore(alloc, doc, rev, Session { epoch: 0, count: 0 }, sent, local)?;
        Ok(Entered {
            wanted,
            author,
            read_only,
            birth,
            client: UndoClient::start(alloc, client),
            returning: true,
            slider,
        })
    }
}

impl Entered {
    pub(crate) fn keep(&self, alloc: Global) -> Result<Kept, EditorBad>
        ensures replies { Comes keeps_it result self.now self.now (keeps self.now) }
        ensures fits { IfOk result (λ k. kept_fault k ≡ None) }
    {
        let client = self.client.client();
        let author = self.author.copy(alloc)?;
        let doc = client.doc().copy(alloc)?;
        let sent = sent_of(alloc, client)?;
        let local = client.unsubmitted().copy(alloc)?;
        Ok(Kept {
            author,
            read_only: self.read_only,
            birth: self.birth,
            rev: client.rev(),
            doc,
            sent,
            local,
        })
    }
}
