//! Written ranges.

ghost use Rattle.std.specs.Prelude.{◌≡◌, ◌≤◌, ◌<◌, ◌⊎◌, [], ℕ, List, length, get_or, take, vec_len, vec_capacity};
ghost use Rattle.std.specs.Bool.{MatchBool};
ghost use Rattle.ep_outside.specs.Disk.{IsUntouched};
ghost use Rattle.ep_outside.specs.Crash.{IsTouched};

/// Whether a range has the place.
pub fn is_touched(ranges: &[(u64, u64)], i: u64) -> bool
    ensures { MatchBool result (IsTouched ranges.now i) (IsUntouched ranges.now i) }
{
    match ranges {
        [] => false,
        [first, rest @ ..] => {
            if first.0 <= i && i < first.1 {
                true
            } else {
                is_touched(rest, i)
            }
        }
    }
}

/// Copies each range, as far as both lists have it, and takes it off the list of ranges.
pub fn copy_ranges(to: &mut Vec<u8>, from: &[u8], ranges: &mut Vec<(u64, u64)>)
    requires within { length to.old.items ≤ length from.now }
    requires same { (i : ℕ) → i < length to.old.items → IsUntouched ranges.old.items i → get_or to.old.items i 0 ≡ get_or from.now i 0 }
    ensures copied { to.new.items ≡ take (length to.old.items) from.now }
    ensures none { ranges.new.items ≡ [] }
    ensures capacity { (vec_capacity to.new ≡ vec_capacity to.old) × (vec_capacity ranges.new ≡ vec_capacity ranges.old) }
{
    while let Some((at, end)) = ranges.pop() {
        copy_range(to, from, at as usize, end as usize);
    }
}

/// Copies one range, as far as both lists have it.
fn copy_range(to: &mut Vec<u8>, from: &[u8], at: usize, end: usize)
    requires { length to.old.items ≤ length from.now }
    ensures len { length to.new.items ≡ length to.old.items }
    ensures inside { (i : ℕ) → i < length to.old.items → at ≤ i → i < end → get_or to.new.items i 0 ≡ get_or from.now i 0 }
    ensures outside { (i : ℕ) → (i < at) ⊎ (end ≤ i) → get_or to.new.items i 0 ≡ get_or to.old.items i 0 }
    ensures capacity { vec_capacity to.new ≡ vec_capacity to.old }
{
    let end = end.min(to.len());
    if at < end {
        to[at..end].copy_from_slice(&from[at..end]);
    }
}
