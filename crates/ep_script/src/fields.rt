//! What the parts of a line say. `None` is no part, where the line ends before it.

ghost use Rattle.std.specs.Prelude.{◌≡◌, option_map, IfOk, IfSome};
ghost use Rattle.std.specs.Option.{option_copied};
ghost use Rattle.ep_units.specs.Utf8.{units_of};
ghost use Rattle.ep_script.specs.Texts.{IsText, unescaped};
ghost use Rattle.ep_script.specs.Fields.{name, place, number, text, value, calls, hex_byte, not_empty, image, torn_image};
ghost use Rattle.ep_script.specs.Left.{left};

use crate::texts::{hex_digit, is_name, read_u32, read_u64, unescape};
use ep_outside::Image;
use ep_units::{NoMemory, Units};
use std::alloc::Global;

/// A client's or a guest's name.
pub(crate) fn read_name(alloc: Global, word: Option<&str>) -> Result<Option<Units>, NoMemory>
    ensures name { IfOk result (λ o. o ≡ name (option_copied word.entry)) }
    ensures texts { IfOk result (λ o. IfSome o IsText) }
{
    match word {
        Some(name) if is_name(name.as_bytes()) => Ok(Some(Units::from_str(alloc, name)?)),
        _ => Ok(None),
    }
}

/// A place or a length.
pub(crate) fn read_place(word: Option<&str>) -> Option<u32>
    ensures { result ≡ place (option_copied word.entry) }
{
    read_u32(word?)
}

/// A revision.
pub(crate) fn read_number(word: Option<&str>) -> Option<u64>
    ensures { result ≡ number (option_copied word.entry) }
{
    read_u64(word?)
}

/// How many calls of a device come before a stop.
pub(crate) fn read_calls(word: Option<&str>) -> Option<u64>
    ensures { result ≡ calls (option_copied word.entry) }
{
    let calls = read_number(word)?;
    if calls <= 4 { Some(calls) } else { None }
}

fn read_escaped(alloc: Global, text: &str) -> Result<Option<Units>, NoMemory>
    ensures text { IfOk result (λ o. o ≡ unescaped (units_of text.now)) }
    ensures texts { IfOk result (λ o. IfSome o IsText) }
{
    unescape(alloc, &Units::from_str(alloc, text)?)
}

fn not_empty(text: Units) -> Option<Units>
    ensures { result ≡ not_empty text }
{
    if text.is_empty() { None } else { Some(text) }
}

/// A text that isn't empty.
pub(crate) fn read_text(alloc: Global, rest: Option<&str>) -> Result<Option<Units>, NoMemory>
    ensures text { IfOk result (λ o. o ≡ text (option_copied rest.entry)) }
    ensures texts { IfOk result (λ o. IfSome o IsText) }
{
    let Some(rest) = rest else {
        return Ok(None);
    };
    let Some(text) = read_escaped(alloc, rest)? else {
        return Ok(None);
    };
    Ok(not_empty(text))
}

/// A text that may be empty or missing.
pub(crate) fn read_value(alloc: Global, rest: Option<&str>) -> Result<Option<Units>, NoMemory>
    ensures text { IfOk result (λ o. o ≡ value (option_copied rest.entry)) }
    ensures texts { IfOk result (λ o. IfSome o IsText) }
{
    match rest {
        Some(rest) => read_escaped(alloc, rest),
        None => Ok(Some(Units::new(alloc))),
    }
}

/// A byte in two hexadecimal digits.
pub(crate) fn read_byte(word: &str) -> Option<u8>
    ensures { result ≡ hex_byte word.now }
{
    match word.as_bytes() {
        [high, low] => {
            let high = hex_digit(*high)?;
            let low = hex_digit(*low)?;
            Some(16 * high + low)
        }
        _ => None,
    }
}

/// What a stop leaves.
pub(crate) fn read_image(alloc: Global, word: Option<&str>) -> Result<Option<Image>, NoMemory>
    ensures { IfOk result (λ o. option_map left o ≡ image (option_copied word.entry)) }
{
    match word {
        None => Ok(None),
        Some("old") => Ok(Some(Image::Old)),
        Some("new") => Ok(Some(Image::New)),
        Some(word) => read_torn(alloc, word),
    }
}

fn read_torn(alloc: Global, word: &str) -> Result<Option<Image>, NoMemory>
    ensures { IfOk result (λ o. option_map left o ≡ torn_image word.now) }
{
    let Some(byte) = read_byte(word) else {
        return Ok(None);
    };
    let mut fill = Vec::with_capacity(alloc, 1)?;
    fill.push(byte)?;
    Ok(Some(Image::Torn {
        length: u64::MAX,
        fill,
    }))
}
