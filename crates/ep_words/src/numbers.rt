//! Numbers among the words.

ghost use Rattle.std.specs.Prelude.{◌≡◌, ◌≤◌, IfSome};
ghost use Rattle.ep_words.specs.Numbers.{between, number_in, number_within};

/// The number that decimal digits say, where it is below 2^64.
pub fn number_in(text: &str) -> Option<u64>
    ensures { result ≡ number_in text.now }
{
    if text.starts_with('+') {
        return None;
    }
    text.parse().ok()
}

/// The same, where it is within the bounds.
pub fn number_within(least: u64, most: u64, text: &str) -> Option<u64>
    ensures exact { result ≡ number_within least most text.now }
    ensures within { IfSome result (λ n. (least ≤ n) × (n ≤ most)) }
{
    let n = number_in(text)?;
    if least <= n && n <= most {
        Some(n)
    } else {
        None
    }
}
