//! Lines of a script, and what each says.

ghost use Rattle.std.specs.Prelude.{◌≡◌, option_map, IfOk, IfSome};
ghost use Rattle.std.specs.Option.{option_copied};
ghost use Rattle.ep_script.specs.Line.{line_of, line_with, read_as, is_blank, Gives};
ghost use Rattle.ep_script.specs.Seen.{seen, whole, AreTexts};

use crate::edits::{read_delete, read_format, read_insert};
use crate::forms::{
    alone, read_attr, read_crash, read_create, read_edit, read_inject, read_marks, read_named,
    read_revision, read_set,
};
use crate::words::{behind, cut_word};
use ep_event::Event;
use ep_units::{NoMemory, Units};
use std::alloc::Global;
use std::str;
use thiserror::Error;

/// What a line of a script says.
#[derive(Drop)]
pub enum Line {
    /// Nothing: it is empty, or a comment.
    Blank,
    /// What happens, as it stands.
    Event(Event),
    /// A guest sends this text, which is a changeset with the script's pool.
    Inject { name: Units, base: u64, text: Units },
    /// Puts a pair into the script's pool.
    Attr { key: Units, value: Units },
    /// Shows what a client sees.
    Show { name: Units },
    /// Shows the head.
    Head,
    /// Shows a revision.
    Text { rev: u64 },
    /// Shows the attributes of the head.
    Marks,
    /// Shows the attributes of what a client sees.
    ViewMarks { name: Units },
}

/// Why bytes are no line.
#[derive(Clone, Copy, Debug, Error, PartialEq, Eq)]
pub enum LineBad {
    #[error("not UTF-8")]
    Utf8,
    #[error("no line of the grammar")]
    Syntax,
    #[error("out of memory")]
    NoMemory,
}

impl From<NoMemory> for LineBad {
    ghost use Rattle.std.specs.Prelude.{◌≡◌};
    ghost use Rattle.ep_script.specs.declared.line.LineBad.TheVariants.{NoMemory};

    ghost from_gives = { λ _ e. e ≡ NoMemory };

    fn from(_error: NoMemory) -> LineBad {
        LineBad::NoMemory
    }
}

/// What the bytes of a line say, without what ends it.
pub fn read_line(alloc: Global, bytes: &[u8]) -> Result<Line, LineBad>
    ensures line { Gives seen result (line_of bytes.now) }
    ensures texts { IfOk result AreTexts }
{
    match str::from_utf8(bytes) {
        Ok(text) => read_text_line(alloc, text),
        Err(_) => Err(LineBad::Utf8),
    }
}

fn read_text_line(alloc: Global, text: &str) -> Result<Line, LineBad>
    ensures line { Gives seen result (read_as (whole Line.Blank) line_with text.now) }
    ensures texts { IfOk result AreTexts }
{
    if is_blank(text) {
        return Ok(Line::Blank);
    }
    let (word, rest) = cut_word(text);
    read_words(alloc, word, rest)?.ok_or(LineBad::Syntax)
}

/// Whether a line says nothing.
pub(crate) fn is_blank(text: &str) -> bool
    ensures { result ≡ is_blank text.now }
{
    text.is_empty() || text.starts_with('#')
}

fn read_words(alloc: Global, word: &str, rest: Option<&str>) -> Result<Option<Line>, NoMemory>
    ensures line { IfOk result (λ o. option_map seen o ≡ line_with word.now (option_copied rest.entry)) }
    ensures texts { IfOk result (λ o. IfSome o AreTexts) }
{
    match word {
        "create" => read_create(alloc, rest),
        "set" => read_set(alloc, rest),
        "drop" => Ok(alone(Line::Event(Event::Delete), rest)),
        "insert" => read_edit(alloc, rest, read_insert(alloc, behind(rest))?),
        "delete" => read_edit(alloc, rest, read_delete(behind(rest))),
        "format" => read_edit(alloc, rest, read_format(alloc, behind(rest))?),
        "attr" => read_attr(alloc, rest),
        "inject" => read_inject(alloc, rest),
        "crash" => read_crash(alloc, rest),
        "head" => Ok(alone(Line::Head, rest)),
        "text" => Ok(read_revision(rest)),
        "marks" => read_marks(alloc, rest),
        _ => read_named(alloc, word, rest),
    }
}
