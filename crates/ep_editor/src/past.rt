//! The timeslider of an editor inside of a pad.

ghost use Rattle.std.specs.Prelude.{◌≡◌, IfOk, Ok, OnErr};
ghost use Rattle.ep_editor.specs.Comes.{Comes, slid};
ghost use Rattle.ep_editor.specs.Past.{hears_slid, slides, slides_by, slid_to, stands};

use crate::bad::EditorBad;
use crate::entered::Entered;
use ep_hearing::Slid as Steps;
use ep_timeslider::{Asked, Place, Slid, question, steps_of};
use ep_units::NoMemory;
use std::alloc::Global;

impl Entered {
    /// It stands at a revision, and shows its document where that was wanted; else it asks for more steps.
    fn stand(&mut self, alloc: Global, at: Place, to: u64) -> Result<Slid, NoMemory>
        ensures stands { IfOk result (λ x. stands at self.old.slider.steps to self.old ≡ (slid x, self.new)) }
        ensures kept { OnErr result (self.new ≡ self.old) }
    {
        if at.rev == to {
            let doc = at.doc.copy(alloc)?;
            self.slider.place = at;
            self.slider.asked = None;
            return Ok(Slid::Past(doc));
        }
        let asked = question(at.rev, to);
        self.slider.place = at;
        self.slider.asked = Some(asked);
        Ok(Slid::Asks(asked.message()))
    }

    /// It has come so far by the steps that it has.
    fn slide_to(&mut self, alloc: Global, at: Place, to: u64) -> Result<Slid, EditorBad>
        ensures { Comes slid result self.old self.new (slides_by (Ok at) to self.old) }
    {
        if at.rev == to || self.is_connected() {
            return Ok(self.stand(alloc, at, to)?);
        }
        Err(EditorBad::Turn)
    }

    /// The document of a revision is wanted.
    pub(crate) fn slide(&mut self, alloc: Global, to: u64) -> Result<Slid, EditorBad>
        ensures { Comes slid result self.old self.new (slides to self.old) }
    {
        if self.client.client().rev() < to {
            return Err(EditorBad::Place);
        }
        let at = self.slider.walk(alloc, to)?;
        self.slide_to(alloc, at, to)
    }

    /// Steps came that were asked for.
    fn take_steps(&mut self, alloc: Global, came: &Steps, asked: Asked) -> Result<Slid, EditorBad>
        ensures { Comes slid result self.old self.new (slid_to came.now asked self.old) }
    {
        if !asked.is_answered(came) {
            return Err(EditorBad::Turn);
        }
        let steps = steps_of(alloc, came)?;
        let at = self.slider.walk_by(alloc, steps.as_slice(), asked.to)?;
        if at.rev == self.slider.place.rev {
            return Err(EditorBad::Turn);
        }
        let said = self.stand(alloc, at, asked.to)?;
        self.slider.steps = steps;
        Ok(said)
    }

    /// Steps came.
    pub(crate) fn hear_slid(&mut self, alloc: Global, came: &Steps) -> Result<Slid, EditorBad>
        ensures { Comes slid result self.old self.new (hears_slid came.now self.old) }
    {
        match self.slider.asked {
            Some(asked) => self.take_steps(alloc, came, asked),
            None => Err(EditorBad::Turn),
        }
    }
}
