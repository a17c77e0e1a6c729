//! The timeslider: a document of the pad's history, and steps to others.

ghost use Rattle.std.specs.Prelude.{◌≡◌, ◌++◌, ◌∷◌, [], OnOk, IfOk};
ghost use Rattle.ep_timeslider.specs.Steps.{IsOr, all_back, all_on, answers, asking, granularity_of, leads, one_back, one_on, question, reach_of, slider_at, steps_from, steps_of, walked};

use ep_apply::{Doc, apply, fits};
use ep_client::ClientBad;
use ep_cs::Change;
use ep_hearing::Slid as Steps;
use ep_units::NoMemory;
use ep_wire_words::{ClientMsg, Listed};
use std::alloc::Global;

/// The most steps of an answer.
const MOST_STEPS: usize = 100;

/// The document of a revision.
pub struct Place {
    pub rev: u64,
    pub doc: Doc,
}

impl Drop for Place {
    fn drop(self) {
        let Place { rev: _, doc: _ } = self;
    }
}

/// A step of the history between these revisions, forward and backward.
pub struct Step {
    pub from: u64,
    pub to: u64,
    pub forward: Change,
    pub backward: Change,
}

impl Drop for Step {
    fn drop(self) {
        let Step {
            from: _,
            to: _,
            forward: _,
            backward: _,
        } = self;
    }
}

/// What the server was asked for: steps of so many revisions from this one on, to come to that.
#[derive(Clone, Copy, Debug, PartialEq, Eq)]
pub struct Asked {
    pub start: u64,
    pub granularity: u64,
    pub to: u64,
}

/// Where a timeslider stands, the steps of the last answer, which are at most a hundred, and what it asked for since.
pub struct Slider {
    pub place: Place,
    pub steps: Listed<Step>,
    pub asked: Option<Asked>,
}

impl Drop for Slider {
    fn drop(self) {
        let Slider {
            place: _,
            steps: _,
            asked: _,
        } = self;
    }
}

/// What a timeslider does.
#[derive(Drop)]
pub enum Slid {
    /// It shows the document of the revision that was wanted.
    Past(Doc),
    /// It has this sent.
    Asks(ClientMsg),
}

/// The document after a change that leads to a revision.
fn led(alloc: Global, change: &Change, rev: u64, doc: &Doc) -> Result<Place, ClientBad>
    ensures { IsOr result (leads change.now rev doc.now) }
{
    fits(doc, change)?;
    let doc = apply(alloc, doc, change)?;
    Ok(Place { rev, doc })
}

impl Step {
    /// It leads on, where it begins here and doesn't lead too far.
    fn on(&self, alloc: Global, to: u64, at: Place) -> Result<Place, ClientBad>
        ensures { IsOr result (one_on to self.now at) }
    {
        if self.from == at.rev && !(to < self.to) {
            return led(alloc, &self.forward, self.to, &at.doc);
        }
        Ok(at)
    }

    /// It leads back, where it ends here and doesn't lead too far.
    fn back(&self, alloc: Global, to: u64, at: Place) -> Result<Place, ClientBad>
        ensures { IsOr result (one_back to self.now at) }
    {
        if self.to == at.rev && !(self.from < to) {
            return led(alloc, &self.backward, self.from, &at.doc);
        }
        Ok(at)
    }
}

/// All steps, the first one first.
fn all_on(alloc: Global, steps: &[Step], to: u64, at: Place) -> Result<Place, ClientBad>
    ensures { IsOr result (all_on to steps.now at) }
{
    match steps {
        [] => Ok(at),
        [step, rest @ ..] => {
            let next = step.on(alloc, to, at)?;
            all_on(alloc, rest, to, next)
        }
    }
}

/// All steps back, the last one first.
fn all_back(alloc: Global, steps: &[Step], to: u64, at: Place) -> Result<Place, ClientBad>
    ensures { IsOr result (all_back to steps.now at) }
{
    match steps {
        [] => Ok(at),
        [step, rest @ ..] => {
            let next = all_back(alloc, rest, to, at)?;
            step.back(alloc, to, next)
        }
    }
}

/// As near to a revision as steps lead.
fn walked(alloc: Global, steps: &[Step], to: u64, at: Place) -> Result<Place, ClientBad>
    ensures { IsOr result (walked to steps.now at) }
{
    if at.rev < to {
        all_on(alloc, steps, to, at)
    } else {
        all_back(alloc, steps, to, at)
    }
}

/// Of how many revisions a step is to be, to come so far.
fn granularity(away: u64) -> u64
    ensures { result ≡ granularity_of away }
{
    if away < 100 { 1 } else { (away / 100).min(100) }
}

/// How far a hundred such steps lead.
fn reach(away: u64) -> u64
    ensures { result ≡ reach_of away }
{
    if away < 100 {
        away
    } else {
        100 * granularity(away)
    }
}

/// What is asked for, to come from one revision to another.
pub fn question(at: u64, to: u64) -> Asked
    ensures { result ≡ question at to }
{
    if at < to {
        return Asked {
            start: at,
            granularity: granularity(to - at),
            to,
        };
    }
    Asked {
        start: at.saturating_sub(reach(at - to)),
        granularity: granularity(at - to),
        to,
    }
}

impl Asked {
    /// The message that asks for it.
    pub fn message(self) -> ClientMsg
        ensures { result ≡ asking self }
    {
        ClientMsg::Slide {
            start: self.start,
            granularity: self.granularity,
            request: self.to,
        }
    }

    /// Whether these steps answer it.
    pub fn is_answered(self, steps: &Steps) -> bool
        ensures { result ≡ answers steps.now self }
    {
        (steps.start == self.start && steps.granularity == self.granularity)
            && (steps.request == self.to && !(MOST_STEPS < steps.forward.as_slice().len()))
    }
}

/// Adds steps from a revision on.
fn add_steps(
    alloc: Global,
    steps: &mut Listed<Step>,
    from: u64,
    came: &Steps,
    forward: &[Change],
    backward: &[Change],
) -> Result<(), NoMemory>
    ensures { OnOk result (steps.new ≡ steps.old ++ steps_from from came.now.reached came.now.granularity forward.now backward.now) }
{
    match forward {
        [] => Ok(()),
        [on, later @ ..] => match backward {
            [] => Ok(()),
            [back, earlier @ ..] => {
                let to = from.saturating_add(came.granularity).min(came.reached);
                push_step(alloc, steps, from, to, on, back)?;
                add_steps(alloc, steps, to, came, later, earlier)
            }
        },
    }
}

fn push_step(
    alloc: Global,
    steps: &mut Listed<Step>,
    from: u64,
    to: u64,
    on: &Change,
    back: &Change,
) -> Result<(), NoMemory>
    ensures { OnOk result (steps.new ≡ steps.old ++ (record { from = from; to = to; forward = on.now; backward = back.now }) ∷ []) }
{
    let forward = on.copy(alloc)?;
    let backward = back.copy(alloc)?;
    steps.push(Step {
        from,
        to,
        forward,
        backward,
    })
}

/// The steps that came.
pub fn steps_of(alloc: Global, came: &Steps) -> Result<Listed<Step>, NoMemory>
    ensures { IfOk result (λ steps. steps ≡ steps_of came.now) }
{
    let mut steps = Listed::new(alloc);
    add_steps(
        alloc,
        &mut steps,
        came.start,
        came,
        came.forward.as_slice(),
        came.backward.as_slice(),
    )?;
    Ok(steps)
}

impl Slider {
    /// A timeslider that has nothing but a document.
    pub fn at(alloc: Global, rev: u64, doc: Doc) -> Slider
        ensures { result ≡ slider_at rev doc }
    {
        Slider {
            place: Place { rev, doc },
            steps: Listed::new(alloc),
            asked: None,
        }
    }

    /// Where it stands, once more.
    fn place(&self, alloc: Global) -> Result<Place, NoMemory>
        ensures { IfOk result (λ at. at ≡ self.now.place) }
    {
        Ok(Place {
            rev: self.place.rev,
            doc: self.place.doc.copy(alloc)?,
        })
    }

    /// As near to a revision as its steps lead from where it stands.
    pub fn walk(&self, alloc: Global, to: u64) -> Result<Place, ClientBad>
        ensures { IsOr result (walked to self.now.steps self.now.place) }
    {
        let at = self.place(alloc)?;
        walked(alloc, self.steps.as_slice(), to, at)
    }

    /// The same by other steps.
    pub fn walk_by(&self, alloc: Global, steps: &[Step], to: u64) -> Result<Place, ClientBad>
        ensures { IsOr result (walked to steps.now self.now.place) }
    {
        let at = self.place(alloc)?;
        walked(alloc, steps, to, at)
    }
}
