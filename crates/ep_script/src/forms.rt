//! The forms that lines have behind their first word.

ghost use Rattle.std.specs.Prelude.{◌≡◌, option_map, IfOk, IfSome};
ghost use Rattle.std.specs.Option.{option_copied};
ghost use Rattle.ep_script.specs.Line.{alone, create_line, set_line, edit_line, attr_line, inject_line, crash_line, text_line, marks_line, named, named_line};
ghost use Rattle.ep_script.specs.Seen.{seen, AreTexts, EditTexts};
ghost use Rattle.ep_script.specs.Texts.{IsText};

use crate::fields::{read_calls, read_image, read_name, read_number, read_text, read_value};
use crate::line::Line;
use crate::words::cut;
use ep_event::{Event, Local, StopAt};
use ep_units::{NoMemory, Units};
use std::alloc::Global;

/// A line of its word alone.
pub(crate) fn alone(line: Line, rest: Option<&str>) -> Option<Line>
    ensures line { option_map seen result ≡ alone (seen line) (option_copied rest.entry) }
    ensures texts { AreTexts line → IfSome result AreTexts }
{
    match rest {
        None => Some(line),
        Some(_) => None,
    }
}

pub(crate) fn read_create(alloc: Global, rest: Option<&str>) -> Result<Option<Line>, NoMemory>
    ensures line { IfOk result (λ o. option_map seen o ≡ create_line (option_copied rest.entry)) }
    ensures texts { IfOk result (λ o. IfSome o AreTexts) }
{
    let Some(text) = read_value(alloc, rest)? else {
        return Ok(None);
    };
    Ok(Some(Line::Event(Event::Create { text })))
}

pub(crate) fn read_set(alloc: Global, rest: Option<&str>) -> Result<Option<Line>, NoMemory>
    ensures line { IfOk result (λ o. option_map seen o ≡ set_line (option_copied rest.entry)) }
    ensures texts { IfOk result (λ o. IfSome o AreTexts) }
{
    let Some(text) = read_value(alloc, rest)? else {
        return Ok(None);
    };
    Ok(Some(Line::Event(Event::SetText { text })))
}

/// A name, and an edit that was read behind it.
pub(crate) fn read_edit(
    alloc: Global,
    rest: Option<&str>,
    edit: Option<Local>,
) -> Result<Option<Line>, NoMemory>
    ensures line { IfOk result (λ o. option_map seen o ≡ edit_line (option_copied rest.entry) edit) }
    ensures texts { IfSome edit EditTexts → IfOk result (λ o. IfSome o AreTexts) }
{
    let (name, _) = cut(rest);
    let Some(name) = read_name(alloc, name)? else {
        return Ok(None);
    };
    let Some(edit) = edit else {
        return Ok(None);
    };
    Ok(Some(Line::Event(Event::Edit { name, edit })))
}

pub(crate) fn read_attr(alloc: Global, rest: Option<&str>) -> Result<Option<Line>, NoMemory>
    ensures line { IfOk result (λ o. option_map seen o ≡ attr_line (option_copied rest.entry)) }
    ensures texts { IfOk result (λ o. IfSome o AreTexts) }
{
    let (key, value) = cut(rest);
    let Some(key) = read_text(alloc, key)? else {
        return Ok(None);
    };
    let Some(value) = read_value(alloc, value)? else {
        return Ok(None);
    };
    Ok(Some(Line::Attr { key, value }))
}

pub(crate) fn read_inject(alloc: Global, rest: Option<&str>) -> Result<Option<Line>, NoMemory>
    ensures line { IfOk result (λ o. option_map seen o ≡ inject_line (option_copied rest.entry)) }
    ensures texts { IfOk result (λ o. IfSome o AreTexts) }
{
    let (name, rest) = cut(rest);
    let (base, text) = cut(rest);
    let Some(name) = read_name(alloc, name)? else {
        return Ok(None);
    };
    let Some(base) = read_number(base) else {
        return Ok(None);
    };
    let Some(text) = read_text(alloc, text)? else {
        return Ok(None);
    };
    Ok(Some(Line::Inject { name, base, text }))
}

pub(crate) fn read_crash(alloc: Global, rest: Option<&str>) -> Result<Option<Line>, NoMemory>
    ensures line { IfOk result (λ o. option_map seen o ≡ crash_line (option_copied rest.entry)) }
    ensures texts { IfOk result (λ o. IfSome o AreTexts) }
{
    if rest.is_none() {
        return Ok(Some(Line::Event(Event::Stop { at: None })));
    }
    let (name, rest) = cut(rest);
    let (calls, image) = cut(rest);
    let Some(name) = read_name(alloc, name)? else {
        return Ok(None);
    };
    let Some(calls) = read_calls(calls) else {
        return Ok(None);
    };
    let Some(image) = read_image(alloc, image)? else {
        return Ok(None);
    };
    let at = Some(StopAt { name, calls, image });
    Ok(Some(Line::Event(Event::Stop { at })))
}

pub(crate) fn read_revision(rest: Option<&str>) -> Option<Line>
    ensures line { option_map seen result ≡ text_line (option_copied rest.entry) }
    ensures texts { IfSome result AreTexts }
{
    let rev = read_number(rest)?;
    Some(Line::Text { rev })
}

pub(crate) fn read_marks(alloc: Global, rest: Option<&str>) -> Result<Option<Line>, NoMemory>
    ensures line { IfOk result (λ o. option_map seen o ≡ marks_line (option_copied rest.entry)) }
    ensures texts { IfOk result (λ o. IfSome o AreTexts) }
{
    if rest.is_none() {
        return Ok(Some(Line::Marks));
    }
    let Some(name) = read_name(alloc, rest)? else {
        return Ok(None);
    };
    Ok(Some(Line::ViewMarks { name }))
}

/// A line of this word and a name.
pub(crate) fn read_named(
    alloc: Global,
    word: &str,
    rest: Option<&str>,
) -> Result<Option<Line>, NoMemory>
    ensures line { IfOk result (λ o. option_map seen o ≡ named_line word.now (option_copied rest.entry)) }
    ensures texts { IfOk result (λ o. IfSome o AreTexts) }
{
    let Some(name) = read_name(alloc, rest)? else {
        return Ok(None);
    };
    Ok(named(word, name))
}

fn named(word: &str, name: Units) -> Option<Line>
    ensures line { option_map seen result ≡ named word.now name }
    ensures texts { IsText name → IfSome result AreTexts }
{
    match word {
        "login" => Some(Line::Event(Event::Login { name })),
        "guest" => Some(Line::Event(Event::Guest {
            name,
            read_only: false,
        })),
        "reader" => Some(Line::Event(Event::Guest {
            name,
            read_only: true,
        })),
        "undo" => Some(Line::Event(Event::Undo { name })),
        "redo" => Some(Line::Event(Event::Redo { name })),
        "submit" => Some(Line::Event(Event::Submit { name })),
        "take" => Some(Line::Event(Event::Take { name })),
        "late" => Some(Line::Event(Event::Late { name })),
        "push" => Some(Line::Event(Event::Push { name })),
        "hear" => Some(Line::Event(Event::Hear { name })),
        "lose" => Some(Line::Event(Event::Lose { name })),
        "resume" => Some(Line::Event(Event::Resume { name })),
        "show" => Some(Line::Show { name }),
        _ => None,
    }
}
