//! A script that is being played, line by line.

ghost use Rattle.std.specs.Prelude.{◌≡◌, [], true, IfOk};
ghost use Rattle.ep_pad_file.specs.Standing.{Holds};
ghost use Rattle.ep_csread.specs.Reading.{reading};
ghost use Rattle.ep_script.specs.Line.{line_of};
ghost use Rattle.ep_script.specs.Seen.{AreTexts};
ghost use Rattle.ep_script.specs.Texts.{IsText};
ghost use Rattle.ep_event.specs.declared.event.Event.TheVariants as event;
ghost use Rattle.ep_run.specs.Play.{Scene, line_read, opening};
ghost use Rattle.ep_run.specs.Played.{IsStage, Plays, PlaysLine, Puts, Steps, cut_read};

use crate::reason::Reason;
use ep_attr::Attr;
use ep_cs::Change;
use ep_csread::{ReadBad, read};
use ep_event::{Event, Shown};
use ep_outside::{Crash, Limits};
use ep_pool::Pool;
use ep_print::print_shown;
use ep_script::{Line, LineBad, ScriptLine, read_line};
use ep_units::{NoMemory, PadId, Units};
use ep_world::{World, WorldBad};
use std::alloc::Global;

/// The limits of a play.
const LIMITS: Limits = Limits {
    live: 500,
    logins: 1_000_000,
    units: 1_000_000,
    journal: 268_435_456,
    openings: 0,
    pads: 10_000,
};

/// Why a line was not played.
#[derive(Clone, Copy, Debug, PartialEq, Eq)]
pub enum Stop {
    /// It can't be.
    At(Reason),
    /// Memory is wanting; or the disk failed, or a crash within a take left no room for an opening. Nothing more can be played.
    Failed,
}

impl From<NoMemory> for Stop {
    ghost use Rattle.std.specs.Prelude.{◌≡◌};
    ghost use Rattle.ep_run.specs.declared.stage.Stop.TheVariants.{Failed};

    ghost from_gives = { λ _ e. e ≡ Failed };

    fn from(_error: NoMemory) -> Stop {
        Stop::Failed
    }
}

impl From<WorldBad> for Stop {
    ghost use Rattle.std.specs.Prelude.{◌≡◌};
    ghost use Rattle.ep_run.specs.Stops.{stop_of_world};

    ghost from_gives = { λ bad e. e ≡ stop_of_world bad };

    /// A text of a line is whole, so that `NoText` comes of none.
    fn from(error: WorldBad) -> Stop {
        match error {
            WorldBad::Unknown => Stop::At(Reason::Unknown),
            WorldBad::NoText | WorldBad::Full(_) | WorldBad::Store(_) | WorldBad::NoMemory => {
                Stop::Failed
            }
        }
    }
}

impl From<LineBad> for Stop {
    ghost use Rattle.std.specs.Prelude.{◌≡◌};
    ghost use Rattle.ep_run.specs.Stops.{stop_of_line};

    ghost from_gives = { λ bad e. e ≡ stop_of_line bad };

    fn from(error: LineBad) -> Stop {
        match error {
            LineBad::Utf8 => Stop::At(Reason::Utf8),
            LineBad::Syntax => Stop::At(Reason::Syntax),
            LineBad::NoMemory => Stop::Failed,
        }
    }
}

/// The world, and the pool to whose pairs the changesets of a script refer by number.
#[derive(Drop)]
pub struct Stage<D: Crash> {
    pub world: World<D>,
    pub pool: Pool,
}

impl<D: Crash> Stage<D> {
    /// The pad of an empty disk, which isn't made yet, nobody, and no pair.
    pub fn new(alloc: Global, disk: D, id: PadId) -> Result<Stage<D>, WorldBad>
    where
        D: Drop,
        ensures { Holds (D.told disk) [] → D.stops_alone disk ≡ true → IfOk result (λ stage. IsStage D.told D.failures D.stops_alone stage (opening id)) }
    {
        let world = World::new(alloc, disk, LIMITS, id)?;
        let pool = Pool::new(alloc);
        Ok(Stage { world, pool })
    }

    /// Plays line k, at the moment k, and answers what it writes.
    pub fn play_cut(&mut self, alloc: Global, k: u64, line: ScriptLine) -> Result<String, Stop>
        ensures { (s : Scene) → IsStage D.told D.failures D.stops_alone self.old s → PlaysLine D.told D.failures D.stops_alone k s (cut_read line) result self.new }
    {
        match line {
            ScriptLine::Text(bytes) => self.play_line(alloc, k, &bytes),
            ScriptLine::Long => Err(Stop::At(Reason::Long)),
        }
    }

    /// Plays the bytes of line k.
    fn play_line(&mut self, alloc: Global, k: u64, bytes: &[u8]) -> Result<String, Stop>
        ensures { (s : Scene) → IsStage D.told D.failures D.stops_alone self.old s → PlaysLine D.told D.failures D.stops_alone k s (line_read (line_of bytes.now)) result self.new }
    {
        let line = read_line(alloc, bytes)?;
        match self.play(alloc, k, line)? {
            None => Ok(String::new(alloc)),
            Some(shown) => Ok(print_shown(alloc, &shown)?),
        }
    }

    /// Plays line k, and answers what is to be shown of it.
    fn play(&mut self, alloc: Global, k: u64, line: Line) -> Result<Option<Shown>, Stop>
        requires { AreTexts line }
        ensures { (s : Scene) → IsStage D.told D.failures D.stops_alone self.old s → Plays D.told D.failures D.stops_alone k s line result self.new }
    {
        match line {
            Line::Blank => Ok(None),
            Line::Event(event) => Ok(Some(self.step(k, event)?)),
            Line::Inject { name, base, text } => {
                Ok(Some(self.inject(alloc, k, name, base, &text)?))
            }
            Line::Attr { key, value } => Ok(Some(self.put(key, value)?)),
            Line::Show { name } => Ok(Some(self.world.show(name)?)),
            Line::Head => Ok(Some(self.world.head()?)),
            Line::Text { rev } => Ok(Some(self.world.text(rev)?)),
            Line::Marks => Ok(Some(self.world.marks()?)),
            Line::ViewMarks { name } => Ok(Some(self.world.view_marks(name)?)),
        }
    }

    /// An event happens.
    fn step(&mut self, k: u64, event: Event) -> Result<Shown, Stop>
        ensures { (s : Scene) → IsStage D.told D.failures D.stops_alone self.old s → Steps D.told D.failures D.stops_alone k s event result self.new }
    {
        Ok(self.world.step(k, event)?)
    }

    /// A guest sends a text, which is read with the script's pool.
    fn inject(
        &mut self,
        alloc: Global,
        k: u64,
        name: Units,
        base: u64,
        text: &Units,
    ) -> Result<Shown, Stop>
        requires { IsText text.now }
        ensures { (s : Scene) → IsStage D.told D.failures D.stops_alone self.old s
            → Steps D.told D.failures D.stops_alone k s (event.Inject name base (reading s.pool text.now)) result self.new }
    {
        let change = read_change(alloc, text, &self.pool)?;
        self.step(k, Event::Inject { name, base, change })
    }

    /// Puts a pair into the script's pool.
    fn put(&mut self, key: Units, value: Units) -> Result<Shown, Stop>
        ensures { (s : Scene) → IsStage D.told D.failures D.stops_alone self.old s → Puts D.told D.failures D.stops_alone s (key, value) result self.new }
    {
        self.pool.reserve(1)?;
        if !self.pool.can_number_more() {
            return Err(Stop::Failed);
        }
        let number = self.pool.put(Attr { key, value });
        Ok(Shown::Attr {
            number: u64::from(number),
        })
    }
}

/// What a text is read as with a pool, unless memory runs out.
fn read_change(
    alloc: Global,
    text: &Units,
    pool: &Pool,
) -> Result<Result<Change, ReadBad>, NoMemory>
    requires { IsText text.now }
    ensures { IfOk result (λ change. change ≡ reading pool.now.pairs text.now) }
{
    match read(alloc, text, pool) {
        Ok(change) => Ok(Ok(change)),
        Err(ReadBad::NoMemory) => Err(NoMemory),
        Err(why) => Ok(Err(why)),
    }
}
