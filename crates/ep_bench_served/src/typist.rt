//! A link whose other side types.

ghost use Rattle.std.specs.Prelude.{◌≡◌, true, refl, None};

use crate::alarm::{Alarm, AlarmEar};
use crate::messages::{author_in, edit, is_acknowledgement, ready};
use crate::plan::Plan;
use crate::tally::Tally;
use ep_link::{Link, LinkBad, LinkGot};
use ep_outside::{Device, Text};
use ep_units::NoMemory;
use std::alloc::Global;
use std::sync::{Arc, Wait};

/// After so many waits in which nothing was told it gives up.
const MOST_WAITS: u64 = 1_000;

/// What somebody does next.
#[derive(Drop)]
enum Next {
    Say(Text),
    Wait,
    Go,
}

/// Somebody on the pad `p`, which was empty.
///
/// Once all are in, it types a letter at the text's end whenever it is asked, on the last revision that it was told. It
/// goes when it was told of all.
#[derive(Drop)]
pub struct Typist {
    alloc: Global,
    number: u64,
    plan: Plan,
    tally: Arc<Tally>,
    alarm: Alarm,
    /// Who it is, once it was told the document.
    author: Option<String>,
    /// How many edits it has said.
    typed: u64,
    /// How many of them were acknowledged.
    acknowledged: u64,
    /// The last revision that it was told.
    rev: u64,
    /// How often it waited since it was told anything.
    waits: u64,
}

impl Typist {
    /// Somebody of a number, who isn't in yet.
    pub fn new(
        alloc: Global,
        number: u64,
        plan: Plan,
        tally: Arc<Tally>,
    ) -> Result<Typist, NoMemory> {
        Ok(Typist {
            alloc,
            number,
            plan,
            tally,
            alarm: Alarm::new(alloc)?,
            author: None,
            typed: 0,
            acknowledged: 0,
            rev: 0,
            waits: 0,
        })
    }

    pub fn number(&self) -> u64 {
        self.number
    }

    fn was_told_all(&self) -> bool {
        self.rev >= self.plan.last()
    }

    fn next(&self) -> Result<Next, NoMemory> {
        let Some(author) = &self.author else {
            return Ok(Next::Say(ready(self.alloc, self.number)?));
        };
        if self.tally.entered() < self.plan.sessions {
            Ok(Next::Wait)
        } else if self.typed < self.plan.edits_of(self.number) {
            Ok(Next::Say(edit(self.alloc, self.rev, author)?))
        } else if self.was_told_all() {
            Ok(Next::Go)
        } else {
            Ok(Next::Wait)
        }
    }

    fn go(&self) -> LinkGot
        ensures { result ≡ LinkGot.Closed }
    {
        self.tally.go(self.acknowledged, self.was_told_all());
        LinkGot::Closed
    }

    // Waits for a ring, unless it has waited enough.
    fn wait<R: Wait>(&mut self, rt: &R) -> LinkGot
        ensures { result ≡ LinkGot.Failed → ⊥ }
    {
        if self.waits >= MOST_WAITS {
            return self.go();
        }
        self.waits += 1;
        self.alarm.wait(rt);
        LinkGot::Nothing
    }

    // It is told the document.
    fn begin(&mut self, text: &str) -> Result<(), NoMemory> {
        if let Some(author) = author_in(text) {
            self.author = Some(String::from_str(self.alloc, author)?);
            self.tally.enter();
        }
        Ok(())
    }

    // It is told a revision.
    fn hear(&mut self, text: &str) {
        self.rev = self.rev.saturating_add(1);
        self.waits = 0;
        if is_acknowledgement(text) {
            self.acknowledged = self.acknowledged.saturating_add(1);
        }
    }
}

impl Device for Typist {
    ghost failures = { λ _. 0 };

    ghost is_steady = { λ _. true };

    ghost never_fails = { λ _ _. refl };

    fn faults(&self) -> u64 {
        0
    }
}

impl Link for Typist {
    type Ear = AlarmEar;

    ghost traffic = { λ _. None };

    fn recv<R: Wait>(&mut self, rt: &R) -> LinkGot {
        match self.next() {
            Ok(Next::Say(text)) => {
                if self.author.is_some() {
                    self.typed = self.typed.saturating_add(1);
                }
                LinkGot::Message(text)
            }
            Ok(Next::Wait) => self.wait(rt),
            Ok(Next::Go) => self.go(),
            Err(NoMemory) => LinkGot::NoMemory,
        }
    }

    /// The first message has the document; each later one tells a revision.
    fn send<R: Wait>(&mut self, _rt: &R, text: &str) -> Result<(), LinkBad> {
        if self.author.is_some() {
            self.hear(text);
            return Ok(());
        }
        match self.begin(text) {
            Ok(()) => Ok(()),
            Err(NoMemory) => Err(LinkBad::NoMemory),
        }
    }

    fn ear(&self) -> Option<AlarmEar> {
        self.alarm.ear().ok()
    }
}
