//! What stands under each kind of key.

ghost use Rattle.std.specs.Prelude.{◌≡◌, ◌<◌, ◌^◌, IfOk, IsTrue, MatchOption, SomeIff, is_some};
ghost use Rattle.std.specs.Fmt.{decimal};
ghost use Rattle.ep_units.specs.Utf8.{units_of};
ghost use Rattle.std.specs.Char.{is_ascii_alphanumeric, is_ascii_digit};
ghost use Rattle.std.specs.List.{list_all};
ghost use Rattle.ep_dir_records.specs.Values.{count_in, cut_at_space, empty_in, id_in, is_id, number_from, number_in, pad_in, session_in, session_text, with_digit};

use crate::ids::{IdKind, MOST_IDS};
use ep_outside::Text;
use ep_units::{NoMemory, PadId, Units};
use std::alloc::Global;

// A letter, a dot, ten draws and a count in six digits.
const ID_BYTES: usize = 18;

/// What a session of a group stands for: its author may enter the pads of its group until then.
#[derive(Drop)]
pub struct SessionInfo {
    pub id: Units,
    pub group: Units,
    pub author: Units,
    /// Seconds since the beginning of 1970.
    pub valid_until: u64,
}

/// Whether nothing stands there.
pub fn is_empty(value: &str) -> bool
    ensures { result ≡ is_some (empty_in value.now) }
{
    value.is_empty()
}

/// A number in its shortest digits.
pub fn number_text(alloc: Global, n: u64) -> Result<Text, NoMemory>
    ensures { IfOk result (λ text. text ≡ decimal n) }
{
    Ok(Text::from_string(format!(in alloc; "{n}")?))
}

fn read_number(digits: &[u8]) -> Option<u64>
    ensures { result ≡ number_from 0 digits.now }
{
    let mut n: u64 = 0;
    for digit in digits {
        if !digit.is_ascii_digit() {
            return None;
        }
        n = with_digit(n, *digit)?;
    }
    Some(n)
}

// The number with one more digit behind it, `None` where it is too great.
fn with_digit(n: u64, digit: u8) -> Option<u64>
    requires { IsTrue (is_ascii_digit digit) }
    ensures { SomeIff result (with_digit n digit < 2 ^ 64) (with_digit n digit) }
{
    let tens = n.checked_mul(10)?;
    tens.checked_add((digit - b'0') as u64)
}

fn number_in(alloc: Global, text: &str) -> Result<Option<u64>, NoMemory>
    ensures { IfOk result (λ n. n ≡ number_in text.now) }
{
    let Some(n) = read_number(text.as_bytes()) else {
        return Ok(None);
    };
    let shortest = format!(in alloc; "{n}")?;
    if shortest.as_str() == text {
        Ok(Some(n))
    } else {
        Ok(None)
    }
}

/// A count of ids.
pub fn count_in(alloc: Global, value: &str) -> Result<Option<u64>, NoMemory>
    ensures { IfOk result (λ n. n ≡ count_in value.now) }
{
    match number_in(alloc, value)? {
        Some(n) if n <= MOST_IDS => Ok(Some(n)),
        _ => Ok(None),
    }
}

fn are_alphanumeric(text: &[u8]) -> bool
    ensures { result ≡ list_all is_ascii_alphanumeric text.now }
{
    text.iter().all(|byte| byte.is_ascii_alphanumeric())
}

fn is_id(kind: IdKind, text: &str) -> bool
    ensures { result ≡ is_id kind text.now }
{
    let bytes = text.as_bytes();
    bytes.len() == ID_BYTES
        && bytes[0] == kind.letter()
        && bytes[1] == b'.'
        && are_alphanumeric(&bytes[2..])
}

/// An id of this kind.
pub fn id_in(alloc: Global, kind: IdKind, value: &str) -> Result<Option<Units>, NoMemory>
    ensures { IfOk result (λ id. id ≡ id_in kind value.now) }
{
    if is_id(kind, value) {
        Ok(Some(Units::from_str(alloc, value)?))
    } else {
        Ok(None)
    }
}

/// Any text.
pub fn name_in(alloc: Global, value: &str) -> Result<Units, NoMemory>
    ensures { IfOk result (λ name. name ≡ units_of value.now) }
{
    Units::from_str(alloc, value)
}

/// A pad's own id.
pub fn pad_in(alloc: Global, value: &str) -> Result<Option<PadId>, NoMemory>
    ensures { IfOk result (λ pad. pad ≡ pad_in value.now) }
{
    let id = Units::from_str(alloc, value)?;
    PadId::read(alloc, &id)
}

fn cut_at_space(text: &str) -> Option<(&str, &str)>
    ensures { MatchOption result (cut_at_space text.now ≡ None) (λ x. cut_at_space text.now ≡ Some (x.0.now, x.1.now)) }
{
    text.split_once(' ')
}

/// The session with this id.
pub fn session_in(alloc: Global, id: &Units, value: &str) -> Result<Option<SessionInfo>, NoMemory>
    ensures { IfOk result (λ info. info ≡ session_in id.now value.now) }
{
    let Some((group, rest)) = cut_at_space(value) else {
        return Ok(None);
    };
    let Some((author, until)) = cut_at_space(rest) else {
        return Ok(None);
    };
    let Some(valid_until) = number_in(alloc, until)? else {
        return Ok(None);
    };
    if !is_id(IdKind::Group, group) || !is_id(IdKind::Author, author) {
        return Ok(None);
    }
    Ok(Some(SessionInfo {
        id: id.copy(alloc)?,
        group: Units::from_str(alloc, group)?,
        author: Units::from_str(alloc, author)?,
        valid_until,
    }))
}

/// The value of a session: its group, author and end with single spaces between them.
pub fn session_text(
    alloc: Global,
    group: &Units,
    author: &Units,
    valid_until: u64,
) -> Result<Text, NoMemory>
    ensures { IfOk result (λ text. text ≡ session_text group.now author.now valid_until) }
{
    let mut text = Text::from_string(group.to_text_lossy(alloc)?);
    text.push_str(" ")?;
    text.push_str(author.to_text_lossy(alloc)?.as_str())?;
    text.push_str(" ")?;
    text.push_str(number_text(alloc, valid_until)?.as_str())?;
    Ok(text)
}
