//! Torn images.

ghost use Rattle.std.specs.Prelude.{◌≡◌, ◌≤◌, ◌<◌, ◌⊎◌, ℕ, length, get_or, vec_capacity};
ghost use Rattle.ep_outside.specs.Disk.{IsUntouched};
ghost use Rattle.ep_outside.specs.Crash.{IsTouched, filling, into_span};

use crate::ranges::is_touched;

/// The fill at a place.
fn fill_at(fill: &[u8], i: usize) -> u8
    ensures { result ≡ filling fill.now i }
{
    if fill.is_empty() {
        0
    } else {
        fill[i % fill.len()]
    }
}

/// A length moved into a span.
pub fn clamp(length: u64, least: u64, most: u64) -> u64
    ensures { result ≡ into_span least most length }
{
    length.min(most).max(least)
}

/// Makes a list the torn image of so many bytes, within its capacity.
pub fn tear(bytes: &mut Vec<u8>, synced: &[u8], ranges: &[(u64, u64)], fill: &[u8], total: usize)
    requires { total ≤ vec_capacity bytes.old }
    ensures size { length bytes.new.items ≡ total }
    ensures filled { (i : ℕ) → i < total → IsTouched ranges.now i ⊎ (length synced.now ≤ i) → get_or bytes.new.items i 0 ≡ filling fill.now i }
    ensures stays { (i : ℕ) → i < total → i < length synced.now → IsUntouched ranges.now i → get_or bytes.new.items i 0 ≡ get_or synced.now i 0 }
    ensures capacity { vec_capacity bytes.new ≡ vec_capacity bytes.old }
{
    bytes.clear();
    let mut i = 0;
    while i < total {
        let byte = byte_at(synced, ranges, fill, i);
        bytes.push_reserved(byte);
        i += 1;
    }
}

#[tactic(auto, using(crate::proofs::Touching::exclusive))]
fn byte_at(synced: &[u8], ranges: &[(u64, u64)], fill: &[u8], i: usize) -> u8
    ensures filled { IsTouched ranges.now i ⊎ (length synced.now ≤ i) → result ≡ filling fill.now i }
    ensures stays { i < length synced.now → IsUntouched ranges.now i → result ≡ get_or synced.now i 0 }
{
    if synced.len() <= i {
        return fill_at(fill, i);
    }
    if is_touched(ranges, i as u64) {
        return fill_at(fill, i);
    }
    synced[i]
}
