//! What is seen of a text that is passed.

ghost use Rattle.std.specs.Prelude.{◌≡◌, ◌≤◌, ◌<◌, ◌^◌, ◌+◌, ◌-◌, ◌++◌, [], true, false, length, take, drop, IfSome};
ghost use Rattle.ep_units.specs.Text.{Text};
ghost use Rattle.ep_cs.specs.Lines.{count_lines, is_whole_lines};
ghost use Rattle.ep_block_parts.specs.Seen.{Sees, ends_high};

use ep_cs::{count_lines, last_line};
use ep_units::is_high;

/// So many units are looked at at once.
const GROUP: usize = 16;

/// How many UTF-16 units a text has, how many newlines, and how many units behind the last newline; and whether it
/// ends in the first half of a pair.
#[derive(Clone, Copy)]
pub struct Seen {
    pub units: u32,
    pub lines: u32,
    pub tail: u32,
    pub high: bool,
}

/// Whether the last unit is the first half of a pair.
pub fn ends_high(text: &[u16]) -> bool
    ensures { result ≡ ends_high text.now }
{
    match text {
        [] => false,
        [_, ..] => is_high(text[text.len() - 1]),
    }
}

/// How many newlines a short text has, counted in 16 bits, so that several units are looked at at once.
fn short_lines(text: &[u16]) -> u16
    requires { length text.now < 2 ^ 16 }
    ensures { result ≡ count_lines text.now }
{
    let mut lines = 0;
    for unit in text {
        if *unit == 10 {
            lines += 1;
        }
    }
    lines
}

/// How many newlines a text has.
fn lines_of(text: &[u16]) -> u32
    requires { length text.now < 2 ^ 32 }
    ensures { result ≡ count_lines text.now }
{
    if text.len() <= u16::MAX as usize {
        u32::from(short_lines(text))
    } else {
        count_lines(text) as u32
    }
}

/// Whether a text has a newline: several units are looked at at once.
fn has_line(text: &[u16]) -> bool
    ensures none { result ≡ false → count_lines text.now ≡ 0 }
    ensures some { result ≡ true → 1 ≤ count_lines text.now }
{
    let mut found = false;
    for unit in text {
        if *unit == 10 {
            found = true;
        }
    }
    found
}

/// The text without some of its last units, none of which is a newline: several are looked at at once.
fn without_tail(text: &[u16]) -> &[u16]
    ensures first { result.now ≡ take (length result.now) text.now }
    ensures within { length result.now ≤ length text.now }
    ensures behind { count_lines (drop (length result.now) text.now) ≡ 0 }
{
    let mut rest = text;
    'groups: while let Some((front, last)) = rest.split_last_chunk::<GROUP>() {
        if has_line(last) {
            return rest;
        }
        rest = front;
    }
    rest
}

/// How many units stand behind the last newline, of a text with so many newlines.
fn tail_of(text: &[u16], lines: u32) -> u32
    requires short { length text.now < 2 ^ 32 }
    requires lines { lines ≡ count_lines text.now }
    ensures within { result ≤ length text.now }
    ensures before { is_whole_lines (take (length text.now - result) text.now) ≡ true }
    ensures behind { count_lines (drop (length text.now - result) text.now) ≡ 0 }
{
    if lines == 0 {
        text.len() as u32
    } else if text[text.len() - 1] == 10 {
        0
    } else {
        (text.len() - last_line(without_tail(text))) as u32
    }
}

impl Seen {
    /// What is seen of no text.
    pub fn nothing() -> Seen
        ensures { Sees result [] }
    {
        Seen {
            units: 0,
            lines: 0,
            tail: 0,
            high: false,
        }
    }

    /// What is seen of a text.
    #[inline(always)]
    pub fn of(text: &[u16]) -> Seen
        requires { length text.now < 2 ^ 32 }
        ensures { Sees result text.now }
    {
        let lines = lines_of(text);
        Seen {
            units: text.len() as u32,
            lines,
            tail: tail_of(text, lines),
            high: ends_high(text),
        }
    }

    /// What is seen of this text and another behind it.
    pub fn then(self, next: Seen) -> Seen
        requires units { self.units + next.units < 2 ^ 32 }
        requires lines { self.lines + next.lines < 2 ^ 32 }
        requires tail { self.tail + next.units < 2 ^ 32 }
        ensures units { result.units ≡ self.units + next.units }
        ensures seen { (us vs : Text) → Sees self us → Sees next vs → Sees result (us ++ vs) }
    {
        if next.units == 0 {
            return self;
        }
        let tail = if next.lines > 0 {
            next.tail
        } else {
            self.tail + next.units
        };
        Seen {
            units: self.units + next.units,
            lines: self.lines + next.lines,
            tail,
            high: next.high,
        }
    }

    /// What is seen after a splice, where that tells it: the old text, and how many units stand behind the splice. It doesn't
    /// tell where nothing stands behind, nor which newline is the last, where the splice may have had or brought that.
    pub fn spliced(self, dropped: &[u16], new: &[u16], behind: u32) -> Option<Seen>
        requires units { length dropped.now + behind ≤ self.units }
        requires tail { self.tail ≤ self.units }
        requires lines { count_lines dropped.now ≤ self.lines }
        requires short { self.units + length new.now < 2 ^ 32 }
        requires few { self.lines + count_lines new.now < 2 ^ 32 }
        ensures { IfSome result (λ seen. (front rest : Text) → Sees self (front ++ (dropped.now ++ rest)) → behind ≡ length rest
            → Sees seen (front ++ (new.now ++ rest))) }
    {
        if behind == 0 {
            return None;
        }
        let left = self.units - dropped.len() as u32;
        let lines = lines_of(new);
        let mut seen = Seen {
            units: left + new.len() as u32,
            lines: self.lines - lines_of(dropped) + lines,
            tail: self.tail,
            high: self.high,
        };
        if self.tail < behind {
            return Some(seen);
        }
        if lines > 0 || self.tail - behind < dropped.len() as u32 {
            return None;
        }
        seen.tail = self.tail - dropped.len() as u32 + new.len() as u32;
        Some(seen)
    }
}
