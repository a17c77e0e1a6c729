//! Lines of edits, which name no client.

ghost use Rattle.std.specs.Prelude.{◌≡◌, IfOk, IfSome};
ghost use Rattle.std.specs.Option.{option_copied};
ghost use Rattle.ep_script.specs.Line.{read_as, Gives};
ghost use Rattle.ep_script.specs.Seen.{EditTexts};
ghost use Rattle.ep_script.specs.WriteLine.{write_line_of, write_line_with, edit_with, WriteTexts};

use crate::edits::{read_delete, read_format, read_insert};
use crate::line::{LineBad, is_blank};
use crate::words::cut_word;
use ep_event::Local;
use ep_units::NoMemory;
use std::alloc::Global;
use std::str;

/// What a line of edits says.
#[derive(Drop)]
pub enum WriteLine {
    /// Nothing: it is empty, or a comment.
    Blank,
    Edit(Local),
}

/// What the bytes of a line of edits say, without what ends it.
pub fn read_write_line(alloc: Global, bytes: &[u8]) -> Result<WriteLine, LineBad>
    ensures line { Gives (λ l. l) result (write_line_of bytes.now) }
    ensures texts { IfOk result WriteTexts }
{
    match str::from_utf8(bytes) {
        Ok(text) => read_text_line(alloc, text),
        Err(_) => Err(LineBad::Utf8),
    }
}

fn read_text_line(alloc: Global, text: &str) -> Result<WriteLine, LineBad>
    ensures line { Gives (λ l. l) result (read_as WriteLine.Blank write_line_with text.now) }
    ensures texts { IfOk result WriteTexts }
{
    if is_blank(text) {
        return Ok(WriteLine::Blank);
    }
    let (word, rest) = cut_word(text);
    match read_words(alloc, word, rest)? {
        Some(edit) => Ok(WriteLine::Edit(edit)),
        None => Err(LineBad::Syntax),
    }
}

fn read_words(alloc: Global, word: &str, rest: Option<&str>) -> Result<Option<Local>, NoMemory>
    ensures line { IfOk result (λ o. o ≡ edit_with word.now (option_copied rest.entry)) }
    ensures texts { IfOk result (λ o. IfSome o EditTexts) }
{
    match word {
        "insert" => read_insert(alloc, rest),
        "delete" => Ok(read_delete(rest)),
        "format" => read_format(alloc, rest),
        _ => Ok(None),
    }
}
