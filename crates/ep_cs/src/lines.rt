//! The newlines of texts.

ghost use Rattle.std.specs.Prelude.{◌≡◌, ◌≤◌, true, length, take, drop};
ghost use Rattle.ep_cs.specs.Lines.{count_lines, is_whole_lines};

/// A text has at most so many UTF-16 units.
pub const MOST_UNITS: u32 = u32::MAX;

/// How many newlines there are.
pub fn count_lines(text: &[u16]) -> usize
    ensures count { result ≡ count_lines text.now }
    ensures within { result ≤ length text.now }
{
    let mut lines = 0;
    for unit in text {
        if *unit == 10 {
            lines += 1;
        }
    }
    lines
}

/// Where the last line begins, behind the last newline.
pub fn last_line(text: &[u16]) -> usize
    ensures within { result ≤ length text.now }
    ensures before { is_whole_lines (take result text.now) ≡ true }
    ensures behind { count_lines (drop result text.now) ≡ 0 }
{
    let mut at = text.len();
    'back: while at > 0 && text[at - 1] != 10 {
        at -= 1;
    }
    at
}
