//! Lines of scripts, told in a text: a word, and in brackets what stands behind it.

use ep_event::{Event, Local, StopAt};
use ep_outside::Image;
use ep_script::{Line, WriteLine};
use ep_units::{NoMemory, Units};
use std::alloc::Global;

/// A text that is told.
#[derive(Drop)]
pub struct Told {
    alloc: Global,
    text: String,
}

impl Told {
    pub fn new(alloc: Global) -> Told {
        Told {
            alloc,
            text: String::new(alloc),
        }
    }

    pub fn as_str(&self) -> &str {
        self.text.as_str()
    }

    fn word(&mut self, word: &str) -> Result<(), NoMemory> {
        Ok(self.text.push_str(word)?)
    }

    fn units(&mut self, units: &Units) -> Result<(), NoMemory> {
        let text = units.to_text_lossy(self.alloc)?;
        Ok(write!(self.text, " [{text}]")?)
    }

    fn number(&mut self, number: u64) -> Result<(), NoMemory> {
        Ok(write!(self.text, " [{number}]")?)
    }

    fn named(&mut self, word: &str, units: &Units) -> Result<(), NoMemory> {
        self.word(word)?;
        self.units(units)
    }

    fn inject(&mut self, name: &Units, base: u64, text: &Units) -> Result<(), NoMemory> {
        self.named("inject", name)?;
        self.number(base)?;
        self.units(text)
    }

    fn attr(&mut self, key: &Units, value: &Units) -> Result<(), NoMemory> {
        self.named("attr", key)?;
        self.units(value)
    }

    fn text_of(&mut self, rev: u64) -> Result<(), NoMemory> {
        self.word("text")?;
        self.number(rev)
    }

    /// What an edit holds.
    fn fields(&mut self, edit: &Local) -> Result<(), NoMemory> {
        match edit {
            Local::Insert { at, text } => {
                self.number(u64::from(*at))?;
                self.units(text)
            }
            Local::Delete { at, units } => {
                self.number(u64::from(*at))?;
                self.number(u64::from(*units))
            }
            Local::Format {
                at,
                units,
                key,
                value,
            } => {
                self.number(u64::from(*at))?;
                self.number(u64::from(*units))?;
                self.units(key)?;
                self.units(value)
            }
        }
    }

    fn edit(&mut self, name: &Units, edit: &Local) -> Result<(), NoMemory> {
        self.named(edit_word(edit), name)?;
        self.fields(edit)
    }

    fn stop(&mut self, at: &StopAt) -> Result<(), NoMemory> {
        self.named("crash", &at.name)?;
        self.number(at.calls)?;
        match &at.image {
            Image::Old => self.word(" old"),
            Image::New => self.word(" new"),
            Image::Torn { length, fill } => {
                self.number(*length)?;
                let bytes = fill.len();
                let byte = fill.first().copied().unwrap_or(0);
                Ok(write!(self.text, " {bytes} of [{byte}]")?)
            }
        }
    }

    fn event(&mut self, event: &Event) -> Result<(), NoMemory> {
        match event {
            Event::Create { text } => self.named("create", text),
            Event::SetText { text } => self.named("set", text),
            Event::Delete => self.word("drop"),
            Event::Login { name } => self.named("login", name),
            Event::Guest { name, read_only } => {
                self.named(if *read_only { "reader" } else { "guest" }, name)
            }
            Event::Edit { name, edit } => self.edit(name, edit),
            Event::Undo { name } => self.named("undo", name),
            Event::Redo { name } => self.named("redo", name),
            Event::Submit { name } => self.named("submit", name),
            Event::Inject { name, .. } => self.named("injected", name),
            Event::Take { name } => self.named("take", name),
            Event::Late { name } => self.named("late", name),
            Event::Push { name } => self.named("push", name),
            Event::Hear { name } => self.named("hear", name),
            Event::Lose { name } => self.named("lose", name),
            Event::Resume { name } => self.named("resume", name),
            Event::Stop { at: None } => self.word("crash"),
            Event::Stop { at: Some(at) } => self.stop(at),
        }
    }

    /// Tells a line of a script.
    pub fn line(&mut self, line: &Line) -> Result<(), NoMemory> {
        match line {
            Line::Blank => self.word("nothing"),
            Line::Event(event) => self.event(event),
            Line::Inject { name, base, text } => self.inject(name, *base, text),
            Line::Attr { key, value } => self.attr(key, value),
            Line::Show { name } => self.named("show", name),
            Line::Head => self.word("head"),
            Line::Text { rev } => self.text_of(*rev),
            Line::Marks => self.word("marks"),
            Line::ViewMarks { name } => self.named("marks of", name),
        }
    }

    /// Tells a line of edits, which names nobody.
    pub fn write_line(&mut self, line: &WriteLine) -> Result<(), NoMemory> {
        match line {
            WriteLine::Blank => self.word("nothing"),
            WriteLine::Edit(edit) => {
                self.word(edit_word(edit))?;
                self.fields(edit)
            }
        }
    }
}

fn edit_word(edit: &Local) -> &'static str {
    match edit {
        Local::Insert { .. } => "insert",
        Local::Delete { .. } => "delete",
        Local::Format { .. } => "format",
    }
}
