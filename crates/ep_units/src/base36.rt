//! Numbers in base 36.

ghost use Rattle.std.specs.Prelude.{◌≡◌, ◌<◌, ◌≤◌, ◌++◌, OnOk, OnErr, IfSome, length, take, drop};
ghost use Rattle.std.specs.List.{prefix_len};
ghost use Rattle.ep_units.specs.Base36.{behind, digit, digit_value, digits_of, is_digit, number_read, read36, write36};

use crate::no_memory::NoMemory;
use crate::units::Units;

// 36 ^ 13 is above 2 ^ 64
const MOST_DIGITS: usize = 13;

/// The greatest number that is read: of changeset text no number and no length is above it.
pub const MOST_READ: u64 = 4_294_967_295;

/// Appends the shortest spelling of a number.
pub fn write36(n: u64, out: &mut Units) -> Result<(), NoMemory>
    ensures ok { OnOk result (out.new ≡ out.old ++ write36 n) }
    ensures err { OnErr result (out.new ≡ out.old) }
{
    let mut digits = [0u16; MOST_DIGITS];
    let mut at = MOST_DIGITS - 1;
    let mut rest = n;
    while rest >= 36 {
        digits[at] = digit(rest % 36);
        rest /= 36;
        at -= 1;
    }
    digits[at] = digit(rest);
    out.push_all(&digits[at..])
}

fn digit(value: u64) -> u16
    requires { value < 36 }
    ensures { result ≡ digit value }
{
    if value < 10 {
        48 + value as u16
    } else {
        87 + value as u16
    }
}

/// The digits that a text begins with.
#[derive(Clone, Copy, Debug, PartialEq, Eq)]
pub struct DigitRun {
    pub len: usize,
    /// The number that they spell, where it isn't above `MOST_READ`.
    pub number: Option<u64>,
}

/// How many digits the units begin with, and the number that they spell.
pub fn digits36(units: &[u16]) -> DigitRun
    ensures digits { take result.len units.now ≡ digits_of units.now }
    ensures behind { drop result.len units.now ≡ behind units.now }
    ensures within { result.len ≤ length units.now }
    ensures number { result.number ≡ number_read (digits_of units.now) }
{
    let len = digits_len(units);
    DigitRun {
        len,
        number: value36(&units[..len]),
    }
}

/// The number that begins at a place, and the place behind its last digit.
///
/// None where no digit stands there, or where the number is above `MOST_READ`.
#[tactic(auto, unfolding(crate::specs::Base36::read36))]
pub fn read36(units: &[u16], at: usize) -> Option<(u64, usize)>
    ensures number { result ≡ read36 units.now at }
    ensures limit { IfSome result (λ r. r.0 ≤ MOST_READ) }
    ensures goes_on { IfSome result (λ r. at < r.1) }
    ensures within { IfSome result (λ r. r.1 ≤ length units.now) }
{
    let digits = digits36(units.get(at..)?);
    if digits.len == 0 {
        return None;
    }
    Some((digits.number?, at + digits.len))
}

/// How many digits the units begin with.
fn digits_len(units: &[u16]) -> usize
    ensures len { result ≡ prefix_len is_digit units.now }
    ensures within { result ≤ length units.now }
{
    units.iter().take_while(|unit| is_digit(**unit)).count()
}

/// The number that digits spell, if it is not too large to be read.
fn value36(digits: &[u16]) -> Option<u64>
    ensures number { result ≡ number_read digits.now }
    ensures limit { IfSome result (λ n. n ≤ MOST_READ) }
{
    let mut value = 0;
    for digit in digits {
        value = value * 36 + digit_value(*digit);
        if value > MOST_READ {
            return None;
        }
    }
    Some(value)
}

fn is_digit(unit: u16) -> bool
    ensures { result ≡ is_digit unit }
{
    (48 <= unit && unit <= 57) || (97 <= unit && unit <= 122)
}

/// The value of a digit. Other units are not asked for, and need no refusal.
fn digit_value(unit: u16) -> u64
    ensures { result ≡ digit_value unit }
{
    if unit <= 57 {
        u64::from(unit.saturating_sub(48))
    } else {
        u64::from(unit.saturating_sub(87))
    }
}
