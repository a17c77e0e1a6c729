//! What an edit makes of the head of a birth: its document, and the newline's where that lacks it.

ghost use Rattle.std.specs.Prelude.{◌≡◌, ◌+◌, ◌<◌, ◌^◌, length, IfOk};
ghost use Rattle.ep_cs.specs.Doc.{Doc as ADoc};
ghost use Rattle.ep_cs.specs.Edit.{Edit, apply};
ghost use Rattle.ep_cs.specs.Fits.{Fits};
ghost use Rattle.ep_history.specs.History.{lacks_newline, step_doc, newline_edit};
ghost use Rattle.ep_step.specs.Answers.{Refuses, units_fault};
ghost use Rattle.ep_step.specs.Step.{made_of, newline_of, step_of};

use crate::newline::{lacks_newline, newline_change};
use ep_apply::{Doc, apply};
use ep_cs::{Change, MOST_UNITS};
use ep_history::PadBad;
use ep_units::NoMemory;
use std::alloc::Global;

/// A change of a document, and the document after it.
#[derive(Drop)]
pub struct Made {
    pub change: Change,
    pub doc: Doc,
}

/// What an edit makes of the head of a birth, and the newline where the result lacks it.
#[derive(Drop)]
pub struct Step {
    pub edit: Made,
    pub newline: Option<Made>,
}

impl Made {
    /// A change that fits a document, made to it.
    pub fn new(alloc: Global, doc: &Doc, change: Change) -> Result<Made, NoMemory>
        requires { Fits change doc.now }
        ensures { IfOk result (λ m. m ≡ made_of change.edit doc.now) }
    {
        let after = apply(alloc, doc, &change)?;
        Ok(Made { change, doc: after })
    }

    /// The length of its document once that ends in a newline, where `lacks` says whether it doesn't.
    fn closed_units(&self, lacks: bool) -> u64
        requires { lacks ≡ lacks_newline self.now.doc }
        ensures { (e : Edit) (head : ADoc) → self.now ≡ made_of e head → result ≡ length (step_doc e head) }
    {
        u64::from(self.doc.len()) + u64::from(lacks)
    }

    /// A step of it, with the newline where `lacks` says that its document lacks one. Of 2^32 units or more memory is
    /// said to be wanting.
    #[inline(always)]
    pub(crate) fn closed(self, alloc: Global, lacks: bool) -> Result<Step, NoMemory>
        requires { lacks ≡ lacks_newline self.doc }
        ensures { IfOk result (λ s. (e : Edit) (head : ADoc) → self ≡ made_of e head → s ≡ step_of e head) }
    {
        let newline = newline_if(alloc, &self.doc, lacks)?;
        Ok(Step {
            edit: self,
            newline,
        })
    }
}

/// The newline of a document, where it lacks one.
fn newline_if(alloc: Global, doc: &Doc, lacks: bool) -> Result<Option<Made>, NoMemory>
    requires { lacks ≡ lacks_newline doc.now }
    ensures { IfOk result (λ m. m ≡ newline_of doc.now) }
{
    if !lacks {
        return Ok(None);
    }
    if doc.len() == MOST_UNITS {
        return Err(NoMemory);
    }
    let change = newline_change(alloc, doc)?;
    Ok(Some(Made::new(alloc, doc, change)?))
}

impl Step {
    /// The step of a change that fits the head. Of a document of 2^32 units or more memory is said to be wanting.
    pub fn new(alloc: Global, head: &Doc, change: Change) -> Result<Step, NoMemory>
        requires { Fits change head.now }
        ensures { IfOk result (λ s. s ≡ step_of change.edit head.now) }
    {
        let edit = Made::new(alloc, head, change)?;
        let lacks = lacks_newline(&edit.doc);
        edit.closed(alloc, lacks)
    }

    /// The same where the document after the step has at most so many units, its newline counted.
    pub fn within(alloc: Global, head: &Doc, change: Change, limit: u64) -> Result<Step, PadBad>
        requires { Fits change head.now }
        ensures made { IfOk result (λ s. s ≡ step_of change.edit head.now) }
        ensures refused { Refuses (units_fault limit change.edit head.now) result }
    {
        let edit = Made::new(alloc, head, change)?;
        let lacks = lacks_newline(&edit.doc);
        let units = edit.closed_units(lacks);
        if units > limit {
            return Err(PadBad::TooLong(units));
        }
        Ok(edit.closed(alloc, lacks)?)
    }

    /// The document after the step.
    pub fn doc(&self) -> &Doc
        ensures { (e : Edit) (head : ADoc) → self.now ≡ step_of e head → result.now ≡ step_doc e head }
    {
        match &self.newline {
            None => &self.edit.doc,
            Some(newline) => &newline.doc,
        }
    }

    /// Its length.
    pub fn units(&self) -> u32
        ensures { (e : Edit) (head : ADoc) → self.now ≡ step_of e head → result ≡ length (step_doc e head) }
    {
        self.doc().len()
    }

    /// Whether the edit's document lacked the final newline.
    pub fn fixed(&self) -> bool
        ensures { (e : Edit) (head : ADoc) → self.now ≡ step_of e head → result ≡ lacks_newline (apply e head) }
    {
        self.newline.is_some()
    }
}
