//! Names, numbers and escapes, as a script writes them.

ghost use Rattle.std.specs.Prelude.{◌≡◌, ◌^◌, IfOk, slice_index};
ghost use Rattle.std.specs.List.{list_all};
ghost use Rattle.std.specs.Char.{is_ascii_alphabetic, is_ascii_alphanumeric};
ghost use Rattle.ep_script.specs.Texts.{is_name, number_below, hex_digit, unescaped, escape};

use ep_units::{NoMemory, Units};
use std::alloc::Global;

const BACKSLASH: u16 = b'\\' as u16;

const LF: u16 = b'\n' as u16;

const TAB: u16 = b'\t' as u16;

const LETTER_N: u16 = b'n' as u16;

const LETTER_T: u16 = b't' as u16;

fn begins_with_letter(bytes: &[u8]) -> bool
    ensures { result ≡ is_ascii_alphabetic (slice_index bytes.now 0) }
{
    bytes.first().is_some_and(|b| b.is_ascii_alphabetic())
}

fn are_letters_or_digits(bytes: &[u8]) -> bool
    ensures { result ≡ list_all is_ascii_alphanumeric bytes.now }
{
    bytes.iter().all(|b| b.is_ascii_alphanumeric())
}

/// Whether this is a client's name.
pub(crate) fn is_name(bytes: &[u8]) -> bool
    ensures { result ≡ is_name bytes.now }
{
    begins_with_letter(bytes) && bytes.len() <= 16 && are_letters_or_digits(bytes)
}

/// The number that decimal digits say, where it is below 2^32.
pub(crate) fn read_u32(text: &str) -> Option<u32>
    ensures { result ≡ number_below (2 ^ 32) text.now }
{
    if text.starts_with('+') {
        return None;
    }
    text.parse().ok()
}

/// The number that decimal digits say, where it is below 2^64.
pub(crate) fn read_u64(text: &str) -> Option<u64>
    ensures { result ≡ number_below (2 ^ 64) text.now }
{
    if text.starts_with('+') {
        return None;
    }
    text.parse().ok()
}

/// What a hexadecimal digit says; letters are lower-case.
pub(crate) fn hex_digit(digit: u8) -> Option<u8>
    ensures { result ≡ hex_digit digit }
{
    match digit {
        b'0'..=b'9' => Some(digit - b'0'),
        b'a'..=b'f' => Some(digit - b'a' + 10),
        _ => None,
    }
}

// What an escape says, for the unit behind its backslash.
fn unescaped_unit(unit: u16) -> Option<u16>
    ensures { result ≡ escape unit }
{
    match unit {
        LETTER_N => Some(LF),
        LETTER_T => Some(TAB),
        BACKSLASH => Some(BACKSLASH),
        _ => None,
    }
}

/// The text that is written with these escapes, if one is.
pub(crate) fn unescape(alloc: Global, text: &Units) -> Result<Option<Units>, NoMemory>
    ensures { IfOk result (λ t. t ≡ unescaped text.now) }
{
    let mut plain = Units::new(alloc);
    let mut behind_backslash = false;
    for unit in text.as_slice() {
        if behind_backslash {
            match unescaped_unit(*unit) {
                Some(u) => plain.push(u)?,
                None => return Ok(None),
            }
            behind_backslash = false;
        } else if *unit == BACKSLASH {
            behind_backslash = true;
        } else {
            plain.push(*unit)?;
        }
    }
    if behind_backslash {
        return Ok(None);
    }
    Ok(Some(plain))
}
